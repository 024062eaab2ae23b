//! What the words give for the arguments of a subcommand.
ghost use Rattle.std.specs.Prelude.{◌≡◌, ◌≤◌, IfOk, IsTrue, None, Some, codes, false, map, string_bytes};
ghost use Rattle.std.specs.Str.Parse.{digits_value, without_leading_plus};
ghost use Rattle.clap.specs.Words.{all_of, first_of, found_of, rows_of};
ghost use Rattle.lms.specs.Parameters.{height, signing_type, width};
ghost use Rattle.cli_tasks.specs.CommandLine.{HasLower, HasNumber, HasNumberOr, HasParams, HasParamsOr, HasPlace, HasServer, HasText, HasTexts, Lacks, LacksLevels, MayHaveNumber, MayHaveText, MayHaveTexts, is_used, most_mirrors};
ghost use Rattle.cli_words.specs.Subcommands.{last_moment, last_port, most_connections, most_days, most_seconds};

use crate::tasks::{
    LAST_PORT, MOST_CONNECTIONS, MOST_DAYS, MOST_MIRRORS, MOST_SECONDS, Place, Server, Unread,
};
use clap::ArgMatches;
use limits::LAST_MOMENT;
use lms::{OtsType, Params, SigningHeight};
use mirrors::read_mirror;
use std::alloc::{AllocError, Global};

// Neither a port nor a mirror nor a folder, and a port and a mirror, likewise.
const NO_SERVER: &str = concat!(
    "error: the following required arguments were not provided:\n",
    "  <--port <P>|--mirror <URL>|--from <FOLDER>>\n\n",
    "For more information, try '--help'.\n",
);

const TWO_SERVERS: &str = concat!(
    "error: the argument '--port <P>' cannot be used with '--mirror <URL>'\n\n",
    "For more information, try '--help'.\n",
);

// A text that is no mirror.
const NO_MIRROR: &str = concat!(
    "error: the argument '--mirror <URL>' wants http://HOST[:PORT][/FOLDER], without TLS; for https see docs/OPERATING.md\n\n",
    "For more information, try '--help'.\n",
);

// Neither of the two options that say where a repository is, both of them, and a moment beside the one that has none: each as
// `clap` says it of options of which it is told that they exclude one another.
const NO_PLACE: &str = concat!(
    "error: the following required arguments were not provided:\n",
    "  <--db <FILE>|--port <P>>\n\n",
    "For more information, try '--help'.\n",
);

const TWO_PLACES: &str = concat!(
    "error: the argument '--db <FILE>' cannot be used with '--port <P>'\n\n",
    "For more information, try '--help'.\n",
);

const MOMENT_AT_PORT: &str = concat!(
    "error: the argument '--at <SECONDS>' cannot be used with '--port <P>'\n\n",
    "For more information, try '--help'.\n",
);

/// The text that is given for an argument.
pub fn text_of(alloc: Global, given: &ArgMatches<'_>, id: &str) -> Result<String, Unread>
    ensures { IfOk result (HasText (rows_of (found_of given.now)) id.now) }
{
    match given.get_str(id) {
        Some(text) => Ok(String::from_str(alloc, text)?),
        None => Err(missing(alloc, id)),
    }
}

/// The texts that are given for an argument, at least one and at most so many.
pub fn texts_of(
    alloc: Global,
    given: &ArgMatches<'_>,
    id: &str,
    most: usize,
) -> Result<Vec<String>, Unread>
    ensures { IfOk result (λ texts. HasTexts (rows_of (found_of given.now)) id.now most texts.items) }
{
    let Some(found) = given.get_strs(id) else {
        return Err(missing(alloc, id));
    };
    if found.is_empty() || most < found.len() {
        return Err(out_of_bounds(alloc, id, most));
    }
    let texts = copied(alloc, found)?;
    Ok(texts)
}

/// The texts that are given for an argument, at most so many.
pub fn texts_or_none(
    alloc: Global,
    given: &ArgMatches<'_>,
    id: &str,
    most: usize,
) -> Result<Vec<String>, Unread>
    ensures { IfOk result (λ texts. MayHaveTexts (rows_of (found_of given.now)) id.now most texts.items) }
{
    if is_left_out(given, id) {
        return Ok(Vec::new(alloc));
    }
    texts_of(alloc, given, id, most)
}

/// The text that is given for an argument, if there is one.
pub fn text_or_none(
    alloc: Global,
    given: &ArgMatches<'_>,
    id: &str,
) -> Result<Option<String>, Unread>
    ensures { IfOk result (MayHaveText (rows_of (found_of given.now)) id.now) }
{
    if is_left_out(given, id) {
        return Ok(None);
    }
    let text = text_of(alloc, given, id)?;
    Ok(Some(text))
}

/// Whether an argument is left out.
pub fn is_left_out(given: &ArgMatches<'_>, id: &str) -> bool
    ensures { IsTrue result → all_of id.now (rows_of (found_of given.now)) ≡ None }
{
    match given.get_strs(id) {
        None => true,
        Some(_) => false,
    }
}

/// Refuses an argument that is given where another one has what it is about.
pub fn refuse(alloc: Global, given: &ArgMatches<'_>, id: &str, beside: &str) -> Result<(), Unread>
    ensures { IfOk result (λ _. Lacks (rows_of (found_of given.now)) id.now) }
{
    if is_left_out(given, id) {
        return Ok(());
    }
    Err(beside_another(alloc, id, beside))
}

/// The same of an argument that takes no value.
pub fn refuse_flag(
    alloc: Global,
    given: &ArgMatches<'_>,
    id: &str,
    beside: &str,
) -> Result<(), Unread>
    ensures { IfOk result (λ _. false ≡ is_used (rows_of (found_of given.now)) id.now) }
{
    if !is_given(given, id) {
        return Ok(());
    }
    Err(beside_another(alloc, id, beside))
}

// The texts, as texts of their own.
fn copied(alloc: Global, found: &[&str]) -> Result<Vec<String>, AllocError>
    ensures { IfOk result (λ texts. map (λ t. string_bytes t) texts.items ≡ map (λ t. t.now) found.now) }
{
    let mut texts = Vec::new(alloc);
    for text in found {
        let text = String::from_str(alloc, text)?;
        texts.push(text)?;
    }
    Ok(texts)
}

/// The moment that is given, if there is one.
pub fn moment_of(alloc: Global, given: &ArgMatches<'_>) -> Result<Option<u64>, Unread>
    ensures { IfOk result (MayHaveNumber (rows_of (found_of given.now)) (codes "at") 0 last_moment) }
{
    number_of(alloc, given, "at", 0, LAST_MOMENT)
}

/// Whether an option that takes no value is given.
pub fn is_given(given: &ArgMatches<'_>, id: &str) -> bool
    ensures { result ≡ is_used (rows_of (found_of given.now)) id.now }
{
    0 < given.get_count(id)
}

/// The count of connections that is given, if there is one.
pub fn count_of(alloc: Global, given: &ArgMatches<'_>) -> Result<Option<u64>, Unread>
    ensures { IfOk result (MayHaveNumber (rows_of (found_of given.now)) (codes "count") 1 most_connections) }
{
    number_of(alloc, given, "count", 1, MOST_CONNECTIONS)
}

/// After how many seconds in all the call gives up, if that is given.
pub fn within_of(alloc: Global, given: &ArgMatches<'_>) -> Result<Option<u64>, Unread>
    ensures { IfOk result (MayHaveNumber (rows_of (found_of given.now)) (codes "within") 1 most_seconds) }
{
    number_of(alloc, given, "within", 1, MOST_SECONDS)
}

/// How many days are looked ahead, if that is given.
pub fn due_of(alloc: Global, given: &ArgMatches<'_>) -> Result<Option<u64>, Unread>
    ensures { IfOk result (MayHaveNumber (rows_of (found_of given.now)) (codes "due") 0 most_days) }
{
    number_of(alloc, given, "due", 0, MOST_DAYS)
}

/// Where a client fetches from: a port alone, or folders and mirrors.
pub fn server_of(alloc: Global, given: &ArgMatches<'_>) -> Result<Server, Unread>
    ensures { IfOk result (HasServer (rows_of (found_of given.now))) }
{
    if !is_left_out(given, "from") {
        return folders_of(alloc, given);
    }
    if is_left_out(given, "mirror") {
        if is_left_out(given, "port") {
            return Err(fault(alloc, NO_SERVER));
        }
        return Ok(Server::Port(port_of(alloc, given)?));
    }
    if !is_left_out(given, "port") {
        return Err(fault(alloc, TWO_SERVERS));
    }
    let mirrors = texts_of(alloc, given, "mirror", MOST_MIRRORS)?;
    see_mirrors(alloc, &mirrors)?;
    Ok(Server::Mirrors(mirrors))
}

// Folders, and the mirrors that are asked after them.
fn folders_of(alloc: Global, given: &ArgMatches<'_>) -> Result<Server, Unread>
    ensures { IfOk result (HasServer (rows_of (found_of given.now))) }
{
    refuse(alloc, given, "port", "--from <FOLDER>")?;
    let folders = texts_of(alloc, given, "from", MOST_MIRRORS)?;
    let mirrors = texts_or_none(alloc, given, "mirror", MOST_MIRRORS)?;
    see_mirrors(alloc, &mirrors)?;
    Ok(Server::Folders { folders, mirrors })
}

// Each of the texts is the URL of a mirror.
fn see_mirrors(alloc: Global, texts: &[String]) -> Result<(), Unread> {
    for text in texts {
        if read_mirror(text.as_str()).is_none() {
            return Err(fault(alloc, NO_MIRROR));
        }
    }
    Ok(())
}

/// The port that is given.
pub fn port_of(alloc: Global, given: &ArgMatches<'_>) -> Result<u16, Unread>
    ensures { IfOk result (HasNumber (rows_of (found_of given.now)) (codes "port") 1 last_port) }
{
    let Some(port) = number_of(alloc, given, "port", 1, LAST_PORT)? else {
        return Err(fault(alloc, "error: no port\n"));
    };
    Ok(port as u16)
}

/// Where the repository is: exactly one of the two is given, and beside a port no moment.
pub fn place_of(alloc: Global, given: &ArgMatches<'_>) -> Result<Place, Unread>
    ensures { IfOk result (HasPlace (rows_of (found_of given.now))) }
{
    if is_absent(given, "port") {
        if is_absent(given, "db") {
            return Err(fault(alloc, NO_PLACE));
        }
        return Ok(Place::Database(text_of(alloc, given, "db")?));
    }
    if !is_absent(given, "db") {
        return Err(fault(alloc, TWO_PLACES));
    }
    if !is_absent(given, "at") {
        return Err(fault(alloc, MOMENT_AT_PORT));
    }
    Ok(Place::Port(port_of(alloc, given)?))
}

// Whether an option that takes a value is not given.
fn is_absent(given: &ArgMatches<'_>, id: &str) -> bool
    ensures { IsTrue result → first_of id.now (rows_of (found_of given.now)) ≡ None }
{
    match given.get_str(id) {
        None => true,
        Some(_) => false,
    }
}

// What is wrong with a width, and with a height.
const WRONG_OTS: &str = "error: '--ots' is 1, 2, 4 or 8\n";

const WRONG_HEIGHT: &str = "error: '--height' is 5 or 10\n";

const WRONG_LOWER_OTS: &str = "error: '--lower-ots' is 1, 2, 4 or 8\n";

const WRONG_LOWER_HEIGHT: &str = "error: '--lower-height' is 5 or 10\n";

/// The parameters of a key pair that are given.
pub fn params_of(alloc: Global, given: &ArgMatches<'_>) -> Result<Params, Unread>
    ensures { IfOk result (HasParams (rows_of (found_of given.now))) }
{
    let ots = ots_of(alloc, given, "ots", WRONG_OTS)?;
    let height = height_of(alloc, given, "height", WRONG_HEIGHT)?;
    Ok(Params { ots, height })
}

/// The parameters of a new key: width 4 and height 10 where they are not given.
pub fn params_or(alloc: Global, given: &ArgMatches<'_>) -> Result<Params, Unread>
    ensures { IfOk result (HasParamsOr (rows_of (found_of given.now))) }
{
    let ots = ots_or(alloc, given)?;
    let height = height_or(alloc, given)?;
    Ok(Params { ots, height })
}

fn ots_or(alloc: Global, given: &ArgMatches<'_>) -> Result<OtsType, Unread>
    ensures { IfOk result (λ t. HasNumberOr (rows_of (found_of given.now)) (codes "ots") 1 8 4 (width t)) }
{
    if is_left_out(given, "ots") {
        return Ok(OtsType::W4);
    }
    ots_of(alloc, given, "ots", WRONG_OTS)
}

fn height_or(alloc: Global, given: &ArgMatches<'_>) -> Result<SigningHeight, Unread>
    ensures { IfOk result (λ h. HasNumberOr (rows_of (found_of given.now)) (codes "height") 5 10 10 (height (signing_type h))) }
{
    if is_left_out(given, "height") {
        return Ok(SigningHeight::H10);
    }
    height_of(alloc, given, "height", WRONG_HEIGHT)
}

/// The parameters of the trees below in a new key of two levels: those of the top tree where they are not given. `None` of a key of one level.
pub fn lower_of(
    alloc: Global,
    given: &ArgMatches<'_>,
    top: Params,
) -> Result<Option<Params>, Unread>
    ensures { IfOk result (HasLower (rows_of (found_of given.now)) top) }
{
    if is_left_out(given, "levels") {
        refuse_lower(alloc, given)?;
        return Ok(None);
    }
    match number_of(alloc, given, "levels", 1, 2)? {
        Some(2) => {
            let ots = lower_ots(alloc, given, top.ots)?;
            let height = lower_height(alloc, given, top.height)?;
            Ok(Some(Params { ots, height }))
        }
        Some(1) => {
            refuse_lower(alloc, given)?;
            Ok(None)
        }
        _ => Err(missing(alloc, "levels")),
    }
}

// No parameters of trees below.
fn refuse_lower(alloc: Global, given: &ArgMatches<'_>) -> Result<(), Unread>
    ensures { IfOk result (λ _. Lacks (rows_of (found_of given.now)) (codes "lower-ots") × Lacks (rows_of (found_of given.now)) (codes "lower-height")) }
{
    refuse(alloc, given, "lower-ots", "--levels 1")?;
    refuse(alloc, given, "lower-height", "--levels 1")
}

fn lower_ots(alloc: Global, given: &ArgMatches<'_>, top: OtsType) -> Result<OtsType, Unread>
    ensures { IfOk result (λ t. HasNumberOr (rows_of (found_of given.now)) (codes "lower-ots") 1 8 (width top) (width t)) }
{
    if is_left_out(given, "lower-ots") {
        return Ok(top);
    }
    ots_of(alloc, given, "lower-ots", WRONG_LOWER_OTS)
}

fn lower_height(
    alloc: Global,
    given: &ArgMatches<'_>,
    top: SigningHeight,
) -> Result<SigningHeight, Unread>
    ensures { IfOk result (λ h. HasNumberOr (rows_of (found_of given.now)) (codes "lower-height") 5 10 (height (signing_type top)) (height (signing_type h))) }
{
    if is_left_out(given, "lower-height") {
        return Ok(top);
    }
    height_of(alloc, given, "lower-height", WRONG_LOWER_HEIGHT)
}

/// No option of a key of several levels is given.
pub fn refuse_levels(alloc: Global, given: &ArgMatches<'_>, with: &str) -> Result<(), Unread>
    ensures { IfOk result (λ _. LacksLevels (rows_of (found_of given.now))) }
{
    refuse(alloc, given, "levels", with)?;
    refuse(alloc, given, "lower-ots", with)?;
    refuse(alloc, given, "lower-height", with)
}

// The LM-OTS type of the width that is given.
fn ots_of(alloc: Global, given: &ArgMatches<'_>, id: &str, wrong: &str) -> Result<OtsType, Unread>
    ensures { IfOk result (λ t. HasNumber (rows_of (found_of given.now)) id.now 1 8 (width t)) }
{
    match number_of(alloc, given, id, 1, 8)? {
        Some(1) => Ok(OtsType::W1),
        Some(2) => Ok(OtsType::W2),
        Some(4) => Ok(OtsType::W4),
        Some(8) => Ok(OtsType::W8),
        None => Err(missing(alloc, id)),
        _ => Err(fault(alloc, wrong)),
    }
}

// The height that is given.
fn height_of(
    alloc: Global,
    given: &ArgMatches<'_>,
    id: &str,
    wrong: &str,
) -> Result<SigningHeight, Unread>
    ensures { IfOk result (λ h. HasNumber (rows_of (found_of given.now)) id.now 5 10 (height (signing_type h))) }
{
    match number_of(alloc, given, id, 5, 10)? {
        Some(5) => Ok(SigningHeight::H5),
        Some(10) => Ok(SigningHeight::H10),
        None => Err(missing(alloc, id)),
        _ => Err(fault(alloc, wrong)),
    }
}

// The number that is given for an argument within its range, if there is one.
fn number_of(
    alloc: Global,
    given: &ArgMatches<'_>,
    id: &str,
    least: u64,
    most: u64,
) -> Result<Option<u64>, Unread>
    ensures { IfOk result (MayHaveNumber (rows_of (found_of given.now)) id.now least most) }
{
    match given.get_str(id) {
        None => Ok(None),
        Some(text) => {
            let number = number(alloc, text, least, most)?;
            Ok(Some(number))
        }
    }
}

// The number that a text says.
fn number(alloc: Global, text: &str, least: u64, most: u64) -> Result<u64, Unread>
    ensures { IfOk result (λ n. (n ≡ digits_value 10 (without_leading_plus text.now)) × (least ≤ n) × (n ≤ most)) }
{
    match text.parse::<u64>() {
        Ok(n) if least <= n && n <= most => Ok(n),
        _ => Err(fault(alloc, "error: no number within its range\n")),
    }
}

/// A fault that `clap` does not name. Its own tests of the words leave few of these.
pub fn fault(alloc: Global, text: &str) -> Unread {
    match String::from_str(alloc, text) {
        Ok(text) => Unread::Text(text),
        Err(_) => Unread::OutOfMemory,
    }
}

// An argument that has to be there and is not.
fn missing(alloc: Global, id: &str) -> Unread {
    unread_of(format!(in alloc;
        "error: the following required arguments were not provided:\n  --{id}\n\nFor more information, try '--help'.\n"
    ))
}

// An argument that stands more often than it may.
fn out_of_bounds(alloc: Global, id: &str, most: usize) -> Unread {
    unread_of(format!(in alloc;
        "error: '{id}' may stand 1 to {most} times\n\nFor more information, try '--help'.\n"
    ))
}

// Two arguments that exclude one another.
fn beside_another(alloc: Global, id: &str, beside: &str) -> Unread {
    unread_of(format!(in alloc;
        "error: the argument '{id}' cannot be used with '{beside}'\n\nFor more information, try '--help'.\n"
    ))
}

fn unread_of(text: Result<String, AllocError>) -> Unread {
    match text {
        Ok(text) => Unread::Text(text),
        Err(_) => Unread::OutOfMemory,
    }
}

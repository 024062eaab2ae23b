//! The command line of the program `release`, read with `clap`: the words, and the task that they ask for.
#![tactic(auto)]

ghost use Rattle.std.specs.Prelude.{◌≡◌, ◌⊎◌, ◌∷◌, [], Err, IfOk, codes, false, map, string_bytes};
ghost use Rattle.clap.specs.Words.{found_of, kind_of, rows_of, subcommand_rows_of};
ghost use Rattle.cli_tasks.specs.CommandLine.{AsksForHelp, HasAnchor, HasKeys, HasNames, HasShowing, HasTexts, HasWhich, IsAsked, IsTask, IsTaskOf, Lacks, LacksFolder, LacksPair, LacksTree, ListsAlone, Says, ShowsAlone, is_used};

mod drafts;
mod given;
mod help;
mod outside;
mod tasks;

use clap::ArgMatches;
use clap::error::ErrorKind;
use cli_words::release;
use drafts::draft_of;
use given::{
    count_of, due_of, fault, is_given, is_left_out, lower_of, moment_of, params_of, params_or,
    place_of, port_of, refuse, refuse_flag, refuse_levels, server_of, text_of, text_or_none,
    texts_of, texts_or_none, within_of,
};
use limits::MOST_DOCUMENTS;
use outside::public_key_of;
use std::alloc::{AllocError, Global};
use tasks::Unread;
pub use tasks::{
    Anchor, AttachDraft, Draft, Drafting, FolderSigning, Getting, GettingMany, Keys, LayoutDraft,
    LinkDraft, Place, Server, Serving, Showing, Signing, Subcommand, TargetsDraft, Task, Updating,
    Usage, Which,
};

// Neither a seed nor a new name nor a public key.
const NO_KEY: &str = concat!(
    "error: the following required arguments were not provided:\n",
    "  <--seed <S>|--new <NAME>|--public <FILE>>\n\n",
    "For more information, try '--help'.\n",
);

// Neither a file nor a folder to write into.
const NOTHING_WRITTEN: &str = concat!(
    "error: the following required arguments were not provided:\n",
    "  <--out <OUT>|--to <DIR>>\n\n",
    "For more information, try '--help'.\n",
);

// Neither a database nor a folder.
const NOTHING_SHOWN: &str = concat!(
    "error: the following required arguments were not provided:\n",
    "  <--db <FILE>|--in <DIR>>\n\n",
    "For more information, try '--help'.\n",
);

// Strict by no root.
const NO_ANCHOR: &str = concat!(
    "error: the argument '--strict' wants '--db <FILE>', '--port <P>' or '--anchor <ROOT>'\n\n",
    "For more information, try '--help'.\n",
);

// The keys of which one signs, as a fault has them.
const ANY: &str = "--any <NAME[,NAME..]>";

/// The task that the words ask for, the program's own name first: the subcommand, its options and operands, each one
/// that has to be there, and numbers within their range. Other words are answered with the fault text of `clap`, and help only
/// where they ask for it: by `help denials`, or so that `clap` answers with its help or with the version.
pub fn task(alloc: Global, words: &[String]) -> Result<Task, Usage>
    ensures task { IfOk result (IsTaskOf (map (λ w. string_bytes w) words.now)) }
    ensures help { (text : _) → result ≡ Err (Usage.Help text) → AsksForHelp (map (λ w. string_bytes w) words.now) }
{
    if help::asks_for_denials(words) {
        return Err(help::denials(alloc));
    }
    let command = release(alloc)?;
    match command.try_get_matches_from(words) {
        Ok(matches) => match task_of(alloc, &matches) {
            Ok(task) => Ok(task),
            Err(unread) => Err(Usage::from(unread)),
        },
        Err(error) => Err(usage_of(alloc, &error)),
    }
}

fn task_of(alloc: Global, matches: &ArgMatches<'_>) -> Result<Task, Unread>
    ensures { IfOk result (Says (subcommand_rows_of matches.now)) }
{
    match matches.subcommand() {
        Some((name, given)) => named_task(alloc, name, given),
        None => Err(fault(alloc, "error: no subcommand\n")),
    }
}

fn named_task(alloc: Global, name: &str, given: &ArgMatches<'_>) -> Result<Task, Unread>
    ensures { IfOk result (IsTask name.now (rows_of (found_of given.now))) }
{
    let at = moment_of(alloc, given)?;
    let subcommand = subcommand_of(alloc, name, given)?;
    Ok(Task {
        at,
        verbose: is_given(given, "verbose"),
        subcommand,
    })
}

fn subcommand_of(alloc: Global, name: &str, given: &ArgMatches<'_>) -> Result<Subcommand, Unread>
    ensures { IfOk result (IsAsked name.now (rows_of (found_of given.now))) }
{
    match name {
        "canon" => canon_asked(alloc, given),
        "draft" => draft_asked(alloc, given),
        "export" => export_asked(alloc, given),
        "get" => get_asked(alloc, given),
        "init" => init_asked(alloc, given),
        "key" => key_asked(alloc, given),
        "prune" => prune_asked(alloc, given),
        "publish" => publish_asked(alloc, given),
        "put" => put_asked(alloc, given),
        "serve" => serve_asked(alloc, given),
        "show" => show_asked(alloc, given),
        "sign" => sign_asked(alloc, given),
        "update" => update_asked(alloc, given),
        _ => Err(fault(alloc, "error: no such subcommand\n")),
    }
}

fn canon_asked(alloc: Global, given: &ArgMatches<'_>) -> Result<Subcommand, Unread>
    ensures { IfOk result (IsAsked (codes "canon") (rows_of (found_of given.now))) }
{
    let file = text_of(alloc, given, "file")?;
    Ok(Subcommand::Canon { file })
}

fn draft_asked(alloc: Global, given: &ArgMatches<'_>) -> Result<Subcommand, Unread>
    ensures { IfOk result (IsAsked (codes "draft") (rows_of (found_of given.now))) }
{
    Ok(Subcommand::Draft(draft_of(alloc, given)?))
}

fn export_asked(alloc: Global, given: &ArgMatches<'_>) -> Result<Subcommand, Unread>
    ensures { IfOk result (IsAsked (codes "export") (rows_of (found_of given.now))) }
{
    let db = text_of(alloc, given, "db")?;
    let to = text_of(alloc, given, "to")?;
    Ok(Subcommand::Export { db, to })
}

fn get_asked(alloc: Global, given: &ArgMatches<'_>) -> Result<Subcommand, Unread>
    ensures { IfOk result (IsAsked (codes "get") (rows_of (found_of given.now))) }
{
    if is_left_out(given, "out") {
        if is_left_out(given, "to") {
            return Err(fault(alloc, NOTHING_WRITTEN));
        }
        return get_many_asked(alloc, given);
    }
    refuse(alloc, given, "to", "--out <OUT>")?;
    get_one_asked(alloc, given)
}

// What is got into a file.
fn get_one_asked(alloc: Global, given: &ArgMatches<'_>) -> Result<Subcommand, Unread>
    requires { Lacks (rows_of (found_of given.now)) (codes "to") }
    ensures { IfOk result (IsAsked (codes "get") (rows_of (found_of given.now))) }
{
    let db = text_of(alloc, given, "db")?;
    let server = server_of(alloc, given)?;
    let within = within_of(alloc, given)?;
    let out = text_of(alloc, given, "out")?;
    refuse(alloc, given, "list", "--out <OUT>")?;
    refuse_flag(alloc, given, "all", "--out <OUT>")?;
    let path = one_text_of(alloc, given, "path")?;
    Ok(Subcommand::Get(Getting {
        db,
        server,
        within,
        json: is_given(given, "json"),
        out,
        path,
    }))
}

// What is got into a folder.
fn get_many_asked(alloc: Global, given: &ArgMatches<'_>) -> Result<Subcommand, Unread>
    requires { Lacks (rows_of (found_of given.now)) (codes "out") }
    ensures { IfOk result (IsAsked (codes "get") (rows_of (found_of given.now))) }
{
    let db = text_of(alloc, given, "db")?;
    let server = server_of(alloc, given)?;
    let within = within_of(alloc, given)?;
    let to = text_of(alloc, given, "to")?;
    let which = which_of(alloc, given)?;
    Ok(Subcommand::GetMany(GettingMany {
        db,
        server,
        within,
        json: is_given(given, "json"),
        to,
        which,
    }))
}

// Which targets are got into a folder.
fn which_of(alloc: Global, given: &ArgMatches<'_>) -> Result<Which, Unread>
    ensures { IfOk result (HasWhich (rows_of (found_of given.now))) }
{
    if is_given(given, "all") {
        refuse(alloc, given, "list", "--all")?;
        let patterns = texts_or_none(alloc, given, "path", MOST_DOCUMENTS)?;
        return Ok(Which::All { patterns });
    }
    if is_left_out(given, "list") {
        let paths = texts_of(alloc, given, "path", MOST_DOCUMENTS)?;
        return Ok(Which::Paths { paths });
    }
    refuse(alloc, given, "path", "--list <FILE>")?;
    let file = text_of(alloc, given, "list")?;
    Ok(Which::Listed { file })
}

fn init_asked(alloc: Global, given: &ArgMatches<'_>) -> Result<Subcommand, Unread>
    ensures { IfOk result (IsAsked (codes "init") (rows_of (found_of given.now))) }
{
    let db = text_of(alloc, given, "db")?;
    let root = text_of(alloc, given, "root")?;
    Ok(Subcommand::Init { db, root })
}

fn key_asked(alloc: Global, given: &ArgMatches<'_>) -> Result<Subcommand, Unread>
    ensures { IfOk result (IsAsked (codes "key") (rows_of (found_of given.now))) }
{
    if !is_left_out(given, "public") {
        return public_key_of(alloc, given);
    }
    refuse(alloc, given, "public", "key")?;
    if is_left_out(given, "new") {
        if is_left_out(given, "seed") {
            return Err(fault(alloc, NO_KEY));
        }
        refuse(alloc, given, "name", "--seed <S>")?;
        refuse_levels(alloc, given, "--seed <S>")?;
        let seed = text_of(alloc, given, "seed")?;
        let params = params_of(alloc, given)?;
        return Ok(Subcommand::Key { seed, params });
    }
    refuse(alloc, given, "seed", "--new <NAME>")?;
    let names = names_of(alloc, given)?;
    let params = params_or(alloc, given)?;
    let lower = lower_of(alloc, given, params)?;
    Ok(Subcommand::NewKey {
        names,
        params,
        lower,
    })
}

// The names of new keys.
fn names_of(alloc: Global, given: &ArgMatches<'_>) -> Result<Vec<String>, Unread>
    ensures { IfOk result (λ names. HasNames (rows_of (found_of given.now)) names.items) }
{
    let first = text_of(alloc, given, "new")?;
    let others = texts_or_none(alloc, given, "name", MOST_DOCUMENTS)?;
    let names = led(first, others)?;
    Ok(names)
}

// The texts, with another one before them.
fn led(first: String, mut others: Vec<String>) -> Result<Vec<String>, AllocError>
    ensures { IfOk result (λ texts. texts.items ≡ first ∷ others.items) }
{
    others.insert(0, first)?;
    Ok(others)
}

fn prune_asked(alloc: Global, given: &ArgMatches<'_>) -> Result<Subcommand, Unread>
    ensures { IfOk result (IsAsked (codes "prune") (rows_of (found_of given.now))) }
{
    let place = place_of(alloc, given)?;
    Ok(Subcommand::Prune { place })
}

fn publish_asked(alloc: Global, given: &ArgMatches<'_>) -> Result<Subcommand, Unread>
    ensures { IfOk result (IsAsked (codes "publish") (rows_of (found_of given.now))) }
{
    let place = place_of(alloc, given)?;
    if is_left_out(given, "in") {
        let documents = texts_of(alloc, given, "document", MOST_DOCUMENTS)?;
        return Ok(Subcommand::Publish { place, documents });
    }
    refuse(alloc, given, "document", "--in <DIR>")?;
    let folder = text_of(alloc, given, "in")?;
    Ok(Subcommand::PublishIn { place, folder })
}

fn put_asked(alloc: Global, given: &ArgMatches<'_>) -> Result<Subcommand, Unread>
    ensures { IfOk result (IsAsked (codes "put") (rows_of (found_of given.now))) }
{
    let place = place_of(alloc, given)?;
    let file = text_of(alloc, given, "file")?;
    Ok(Subcommand::Put { place, file })
}

fn serve_asked(alloc: Global, given: &ArgMatches<'_>) -> Result<Subcommand, Unread>
    ensures { IfOk result (IsAsked (codes "serve") (rows_of (found_of given.now))) }
{
    let db = text_of(alloc, given, "db")?;
    let port = port_of(alloc, given)?;
    let count = count_of(alloc, given)?;
    let read_only = is_given(given, "read-only");
    Ok(Subcommand::Serve(Serving {
        db,
        port,
        count,
        read_only,
    }))
}

fn show_asked(alloc: Global, given: &ArgMatches<'_>) -> Result<Subcommand, Unread>
    ensures { IfOk result (IsAsked (codes "show") (rows_of (found_of given.now))) }
{
    Ok(Subcommand::Show(showing_of(alloc, given)?))
}

fn showing_of(alloc: Global, given: &ArgMatches<'_>) -> Result<Showing, Unread>
    ensures { IfOk result (HasShowing (rows_of (found_of given.now))) }
{
    let db = text_or_none(alloc, given, "db")?;
    let folder = text_or_none(alloc, given, "in")?;
    if db.is_none() && folder.is_none() {
        return Err(fault(alloc, NOTHING_SHOWN));
    }
    see_folder_alone(alloc, given)?;
    see_list_alone(alloc, given)?;
    let due = due_of(alloc, given)?;
    let list = is_given(given, "list");
    let keys = texts_or_none(alloc, given, "key", MOST_DOCUMENTS)?;
    let html = text_or_none(alloc, given, "html")?;
    let paths = texts_or_none(alloc, given, "path", 1)?;
    Ok(Showing {
        db,
        folder,
        due,
        list,
        keys,
        json: is_given(given, "json"),
        html,
        paths,
    })
}

// Next to a folder stands nothing that is said of a repository alone.
fn see_folder_alone(alloc: Global, given: &ArgMatches<'_>) -> Result<(), Unread>
    ensures { IfOk result (λ _. ShowsAlone (rows_of (found_of given.now))) }
{
    if is_left_out(given, "in") {
        return Ok(());
    }
    refuse_repository(alloc, given)
}

fn refuse_repository(alloc: Global, given: &ArgMatches<'_>) -> Result<(), Unread>
    ensures { IfOk result (λ _. LacksTree (rows_of (found_of given.now)) × (false ≡ is_used (rows_of (found_of given.now)) (codes "list"))) }
{
    refuse_tree(alloc, given, "--in <DIR>")?;
    refuse_flag(alloc, given, "list", "--in <DIR>")
}

// Next to a list of targets stands nothing that is said of documents, and no page.
fn see_list_alone(alloc: Global, given: &ArgMatches<'_>) -> Result<(), Unread>
    ensures { IfOk result (λ _. ListsAlone (rows_of (found_of given.now))) }
{
    if !is_given(given, "list") {
        return Ok(());
    }
    refuse_tree_and_page(alloc, given)
}

fn refuse_tree_and_page(alloc: Global, given: &ArgMatches<'_>) -> Result<(), Unread>
    ensures { IfOk result (λ _. LacksTree (rows_of (found_of given.now)) × Lacks (rows_of (found_of given.now)) (codes "html")) }
{
    refuse_tree(alloc, given, "--list")?;
    refuse(alloc, given, "html", "--list")
}

// Nothing is said of the documents that a repository holds, or of one target.
fn refuse_tree(alloc: Global, given: &ArgMatches<'_>, with: &str) -> Result<(), Unread>
    ensures { IfOk result (λ _. LacksTree (rows_of (found_of given.now))) }
{
    refuse(alloc, given, "due", with)?;
    refuse(alloc, given, "key", with)?;
    refuse(alloc, given, "path", with)
}

fn sign_asked(alloc: Global, given: &ArgMatches<'_>) -> Result<Subcommand, Unread>
    ensures { IfOk result (IsAsked (codes "sign") (rows_of (found_of given.now))) }
{
    if !is_left_out(given, "any") {
        return sign_in(alloc, given);
    }
    if is_left_out(given, "key") {
        sign_by_book(alloc, given)
    } else {
        sign_in(alloc, given)
    }
}

// Of `sign` by a book and a seed there is one document.
fn sign_by_book(alloc: Global, given: &ArgMatches<'_>) -> Result<Subcommand, Unread>
    requires key { Lacks (rows_of (found_of given.now)) (codes "key") }
    requires any { Lacks (rows_of (found_of given.now)) (codes "any") }
    ensures { IfOk result (IsAsked (codes "sign") (rows_of (found_of given.now))) }
{
    refuse_folder(alloc, given)?;
    let book = text_of(alloc, given, "book")?;
    let seed = text_of(alloc, given, "seed")?;
    let params = params_of(alloc, given)?;
    let known = is_given(given, "known");
    let file = one_text_of(alloc, given, "file")?;
    Ok(Subcommand::Sign(Signing {
        book,
        seed,
        params,
        known,
        file,
    }))
}

// Next to a book stands no folder, and nothing that is said of one.
fn refuse_folder(alloc: Global, given: &ArgMatches<'_>) -> Result<(), Unread>
    ensures { IfOk result (λ _. LacksFolder (rows_of (found_of given.now))) }
{
    refuse(alloc, given, "in", "--book <B>")?;
    refuse(alloc, given, "db", "--book <B>")?;
    refuse(alloc, given, "port", "--book <B>")?;
    refuse(alloc, given, "anchor", "--book <B>")?;
    refuse_flag(alloc, given, "strict", "--book <B>")?;
    refuse_flag(alloc, given, "yes", "--book <B>")?;
    refuse_flag(alloc, given, "again", "--book <B>")
}

// The one text of an argument.
fn one_text_of(alloc: Global, given: &ArgMatches<'_>, id: &str) -> Result<String, Unread>
    ensures { IfOk result (λ text. HasTexts (rows_of (found_of given.now)) id.now 1 (text ∷ [])) }
{
    let mut texts = texts_of(alloc, given, id, 1)?;
    match texts.pop() {
        Some(text) => Ok(text),
        None => Err(fault(alloc, "error: a document is missing\n")),
    }
}

fn sign_in(alloc: Global, given: &ArgMatches<'_>) -> Result<Subcommand, Unread>
    ensures { IfOk result (IsAsked (codes "sign") (rows_of (found_of given.now))) }
{
    refuse_pair(alloc, given)?;
    let keys = keys_of(alloc, given)?;
    let folder = text_of(alloc, given, "in")?;
    let anchor = anchor_of(alloc, given)?;
    let strict = is_given(given, "strict");
    if strict && anchor.is_none() {
        return Err(fault(alloc, NO_ANCHOR));
    }
    let documents = texts_or_none(alloc, given, "file", MOST_DOCUMENTS)?;
    Ok(Subcommand::SignIn(FolderSigning {
        keys,
        folder,
        anchor,
        strict,
        documents,
        yes: is_given(given, "yes"),
        again: is_given(given, "again"),
    }))
}

// The keys that sign: those of `--key`, or one of a list.
fn keys_of(alloc: Global, given: &ArgMatches<'_>) -> Result<Keys, Unread>
    ensures { IfOk result (HasKeys (rows_of (found_of given.now))) }
{
    if is_left_out(given, "any") {
        let names = texts_of(alloc, given, "key", MOST_DOCUMENTS)?;
        return Ok(Keys::Each(names));
    }
    refuse(alloc, given, "key", ANY)?;
    let list = text_of(alloc, given, "any")?;
    Ok(Keys::Any(list))
}

// Where the root is from by which what is held is judged, if one is given.
fn anchor_of(alloc: Global, given: &ArgMatches<'_>) -> Result<Option<Anchor>, Unread>
    ensures { IfOk result (HasAnchor (rows_of (found_of given.now))) }
{
    if !is_left_out(given, "anchor") {
        refuse(alloc, given, "db", "--anchor <ROOT>")?;
        refuse(alloc, given, "port", "--anchor <ROOT>")?;
        let file = text_of(alloc, given, "anchor")?;
        return Ok(Some(Anchor::Root(file)));
    }
    if !is_left_out(given, "port") {
        refuse(alloc, given, "db", "--port <P>")?;
        let port = port_of(alloc, given)?;
        return Ok(Some(Anchor::Port(port)));
    }
    match text_or_none(alloc, given, "db")? {
        Some(db) => Ok(Some(Anchor::Database(db))),
        None => Ok(None),
    }
}

// Next to keys by their names stands no book and no seed.
fn refuse_pair(alloc: Global, given: &ArgMatches<'_>) -> Result<(), Unread>
    ensures { IfOk result (λ _. LacksPair (rows_of (found_of given.now))) }
{
    let with = if is_left_out(given, "any") {
        "--key <NAME>"
    } else {
        ANY
    };
    refuse(alloc, given, "book", with)?;
    refuse(alloc, given, "seed", with)?;
    refuse(alloc, given, "ots", with)?;
    refuse(alloc, given, "height", with)?;
    refuse_flag(alloc, given, "known", with)
}

fn update_asked(alloc: Global, given: &ArgMatches<'_>) -> Result<Subcommand, Unread>
    ensures { IfOk result (IsAsked (codes "update") (rows_of (found_of given.now))) }
{
    let db = text_of(alloc, given, "db")?;
    let server = server_of(alloc, given)?;
    let within = within_of(alloc, given)?;
    Ok(Subcommand::Update(Updating {
        db,
        server,
        within,
        json: is_given(given, "json"),
        fresh: is_given(given, "fresh"),
    }))
}

// The text of a fault of the command line.
fn usage_of(alloc: Global, error: &clap::Error) -> Usage
    ensures { (text : _) → result ≡ Usage.Help text → (kind_of error.now ≡ ErrorKind.DisplayHelp) ⊎ (kind_of error.now ≡ ErrorKind.DisplayVersion) }
{
    if error.kind() == ErrorKind::OutOfMemory {
        return Usage::OutOfMemory;
    }
    match error.to_string(alloc) {
        Ok(text) if error.use_stderr() => Usage::Text(text),
        Ok(text) => Usage::Help(text),
        Err(_) => Usage::OutOfMemory,
    }
}

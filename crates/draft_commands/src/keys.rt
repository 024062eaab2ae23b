//! Keys and rules, as words.
use crate::drafting_faults::draft_or_fault;
use chain_drafting::{Found, find_key};
use cli_faults::{Fault, Notes, Slip};
use cli_files::read_at_most;
use draft_folder::{KEY_FILE_LIMIT, key_in};
use drafting::NamedKey;
use keys_roles::Key;
use metadata::Kind;
use std::alloc::{AllocError, Global};
use std::io::Write;

/// A rule that was read: how many of these keys have to sign.
#[derive(Drop)]
pub struct RuleRead {
    pub threshold: u8,
    pub keys: Vec<NamedKey>,
}

/// What the keys of a rule are looked up in: the documents that have names for them.
#[derive(Clone, Copy)]
pub struct Known<'a> {
    pub kind: Kind,
    pub files: [Option<&'a [u8]>; 2],
}

/// The rule that a word says: `[N@]KEY[,KEY..]`, N of these keys, 1 where it is not given.
pub fn rule_of<E: Write>(
    rt: &HostRuntime,
    known: Known<'_>,
    word: &str,
    notes: &mut Notes<'_, E>,
) -> Result<RuleRead, Fault> {
    let (threshold, list) = match word.split_once('@') {
        Some((digits, list)) => (digits.parse::<u8>().unwrap_or(0), list),
        None => (1, word),
    };
    let mut keys = Vec::new(rt.alloc());
    for word in list.split(',') {
        keys.push(key_of(rt, known, word, notes)?)?;
    }
    if threshold == 0 || usize::from(threshold) > keys.len() {
        notes.warn(
            &word,
            &"a rule is [N@]KEY[,KEY..], N at most the number of the keys",
        );
        return Err(Fault::Slip(Slip::Key));
    }
    Ok(RuleRead { threshold, keys })
}

// The key that a word says: a file, a name, or the first digits of an id.
fn key_of<E: Write>(
    rt: &HostRuntime,
    known: Known<'_>,
    word: &str,
    notes: &mut Notes<'_, E>,
) -> Result<NamedKey, Fault> {
    if let Some(stem) = word.strip_suffix(".key") {
        let key = key_in_file(rt, word, notes)?;
        let name = String::from_str(rt.alloc(), last_segment(stem))?;
        return Ok(NamedKey { key, name });
    }
    for file in known.files {
        if let Some(bytes) = file {
            if let Some(found) = key_among(rt.alloc(), bytes, known.kind, word, notes)? {
                return Ok(found);
            }
        }
    }
    notes.warn(
        &word,
        &"no key is called so in what is held; a file ends in .key",
    );
    Err(Fault::Slip(Slip::Key))
}

/// What stands between commas.
pub fn items_in(alloc: Global, list: &str) -> Result<Vec<String>, AllocError> {
    let mut items = Vec::new(alloc);
    for item in list.split(',') {
        items.push(String::from_str(alloc, item)?)?;
    }
    Ok(items)
}

/// What stands after the last slash.
pub fn last_segment(path: &str) -> &str {
    match path.rsplit_once('/') {
        Some((_, last)) => last,
        None => path,
    }
}

fn key_among<E: Write>(
    alloc: Global,
    bytes: &[u8],
    kind: Kind,
    word: &str,
    notes: &mut Notes<'_, E>,
) -> Result<Option<NamedKey>, Fault> {
    match draft_or_fault(alloc, find_key(alloc, bytes, kind, word), word, notes)? {
        Found::One(key) => Ok(Some(key)),
        Found::None => Ok(None),
        Found::Several => {
            notes.warn(&word, &"more than one key is called so");
            Err(Fault::Slip(Slip::Key))
        }
    }
}

/// The key of a key file. A file of another form is a fault of a file.
pub fn key_in_file<E: Write>(
    rt: &HostRuntime,
    path: &str,
    notes: &mut Notes<'_, E>,
) -> Result<Key, Fault> {
    let bytes = read_at_most(rt, path, KEY_FILE_LIMIT, notes)?;
    match key_in(rt.alloc(), &bytes)? {
        Some(key) => Ok(key),
        None => {
            notes.fault(
                &path,
                &"no key object: 'release key --new NAME' makes NAME.key",
            );
            Err(Fault::File)
        }
    }
}

//! The keys that words name: each by the name of its three files, or by the first digits of its id.
use cli_faults::{Fault, Notes, Slip};
use cli_files::{names_of, read_regular};
use draft_folder::{KEY_FILE_LIMIT, key_in};
use keys_roles::key_id;
use metadata::Digest;
use std::fs;
use std::io::Write;

// So many digits of an id name a key at least.
const LEAST_DIGITS: usize = 8;

/// The names of the keys that the words name. A word of 8 hex digits or more under which no key file stands names the one key here, in the
/// folder in which the command is typed, whose id begins so.
pub fn names_of_keys<E: Write>(
    rt: &HostRuntime,
    words: &[String],
    notes: &mut Notes<'_, E>,
) -> Result<Vec<String>, Fault> {
    let mut names = Vec::new(rt.alloc());
    for word in words {
        names.push(name_of(rt, word.as_str(), notes)?)?;
    }
    Ok(names)
}

/// The same of a list with commas between.
pub fn names_in_list<E: Write>(
    rt: &HostRuntime,
    list: &str,
    notes: &mut Notes<'_, E>,
) -> Result<Vec<String>, Fault> {
    let mut names = Vec::new(rt.alloc());
    for word in list.split(',') {
        names.push(name_of(rt, word, notes)?)?;
    }
    Ok(names)
}

fn name_of<E: Write>(
    rt: &HostRuntime,
    word: &str,
    notes: &mut Notes<'_, E>,
) -> Result<String, Fault> {
    let place = format!(in rt.alloc(); "{word}.key")?;
    if !are_digits(word) || fs::symlink_metadata(rt, place.as_str()).is_ok() {
        return Ok(String::from_str(rt.alloc(), word)?);
    }
    let mut found = keys_here(rt, word, notes)?;
    match (found.pop(), found.is_empty()) {
        (Some(name), true) => Ok(name),
        (Some(_), false) => Err(unfound(
            word,
            "more than one key here has an id that begins so",
            notes,
        )),
        (None, _) => Err(unfound(
            word,
            "no key here is called so or has an id that begins so",
            notes,
        )),
    }
}

fn unfound<E: Write>(word: &str, why: &str, notes: &mut Notes<'_, E>) -> Fault {
    notes.warn(&word, &why);
    Fault::Slip(Slip::Key)
}

fn are_digits(word: &str) -> bool {
    word.len() >= LEAST_DIGITS
        && word.as_bytes().iter().all(|byte| byte.is_ascii_digit() || (b'a'..=b'f').contains(byte))
}

// The names of the key files here whose keys' ids begin with these digits.
fn keys_here<E: Write>(
    rt: &HostRuntime,
    digits: &str,
    notes: &mut Notes<'_, E>,
) -> Result<Vec<String>, Fault> {
    let mut found = Vec::new(rt.alloc());
    let names = match names_of(rt, ".", notes) {
        Ok(names) => names,
        Err(error) => {
            notes.warn(&".", &error);
            return Err(cli_faults::file_fault(&error));
        }
    };
    for name in &names {
        if let Some(stem) = name.as_str().strip_suffix(".key") {
            if begins_so(rt, name.as_str(), digits, notes)? {
                found.push(String::from_str(rt.alloc(), stem)?)?;
            }
        }
    }
    Ok(found)
}

// Whether a file has a key whose id begins with these digits.
fn begins_so<E: Write>(
    rt: &HostRuntime,
    file: &str,
    digits: &str,
    notes: &mut Notes<'_, E>,
) -> Result<bool, Fault> {
    let Some(bytes) = read_regular(rt, file, KEY_FILE_LIMIT, notes)? else {
        return Ok(false);
    };
    let Some(key) = key_in(rt.alloc(), &bytes)? else {
        return Ok(false);
    };
    let id = Digest::new(key_id(rt.alloc(), &key)?.0).text(rt.alloc())?;
    Ok(id.as_str().starts_with(digits))
}

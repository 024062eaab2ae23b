//! Keys and denials, as rows have them.
use cli_faults::Denial;
use draft_folder::{FIRST_DIGITS, Names, key_text, name_of_key};
use keys_roles::KeyId;
use path_patterns::Digest;
use plain_text::plain;
use show_texts::{DenialRow, KeyWords};
use std::alloc::{AllocError, Global};

/// A key by what a signed part calls it, or else by the first digits of its id.
pub fn named_key(alloc: Global, signed: &[u8], id: &KeyId) -> Result<KeyWords, AllocError> {
    let digits = Digest::new(id.0).text(alloc)?;
    let name = plain_or_none(alloc, name_of_key(signed, id))?;
    let words = words_of(alloc, &name, digits.as_str())?;
    Ok(KeyWords {
        id: digits,
        name,
        is_new_name: false,
        words,
    })
}

// The name of a key, or else the first digits of its id.
fn words_of(alloc: Global, name: &Option<String>, digits: &str) -> Result<String, AllocError> {
    match name {
        Some(name) => String::from_str(alloc, name.as_str()),
        None => String::from_str(alloc, digits.get(..FIRST_DIGITS).unwrap_or("-")),
    }
}

/// A key of a rule by its name and the first digits of its id. A name that the draft alone gives is marked.
pub fn signing_key(alloc: Global, names: Names<'_>, id: &KeyId) -> Result<KeyWords, AllocError> {
    let digits = Digest::new(id.0).text(alloc)?;
    let name = plain_name(alloc, names, id)?;
    let words = key_text(alloc, names, id, false)?;
    Ok(KeyWords {
        id: digits,
        name,
        is_new_name: is_new_name(names, id),
        words,
    })
}

// What the held part calls a key, or else what the draft does.
fn plain_name(alloc: Global, names: Names<'_>, id: &KeyId) -> Result<Option<String>, AllocError> {
    if let Some(name) = names.held.and_then(|held| name_of_key(held, id)) {
        return Ok(Some(plain(alloc, name)?));
    }
    plain_or_none(alloc, name_of_key(names.draft, id))
}

// Whether the draft alone gives the key a name.
fn is_new_name(names: Names<'_>, id: &KeyId) -> bool {
    let held = names.held.and_then(|held| name_of_key(held, id));
    held.is_none() && name_of_key(names.draft, id).is_some()
}

fn plain_or_none(alloc: Global, name: Option<&str>) -> Result<Option<String>, AllocError> {
    match name {
        Some(name) => Ok(Some(plain(alloc, name)?)),
        None => Ok(None),
    }
}

/// A denial by its number and its name.
pub fn denial_row(denial: &Denial) -> DenialRow {
    DenialRow {
        number: denial.number(),
        name: denial.name(),
    }
}

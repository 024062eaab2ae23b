//! Keys by their names and their first digits.
use crate::spelling::{digits_of, reads_as_another};
use drafting::name_of_key;
use keys_roles::KeyId;
use path_patterns::Digest;
use plain_text::plain;
use std::alloc::{AllocError, Global};

/// The signed parts that have names for keys: of what is held, if anything is, and of the draft.
#[derive(Clone, Copy)]
pub struct Names<'a> {
    pub held: Option<&'a [u8]>,
    pub draft: &'a [u8],
}

/// A key: its name, if it has one, and the first digits of its id, or all of them where that is wanted or another id begins so. A name that
/// the draft alone gives is marked: whoever wrote the draft says it.
pub fn key_text(
    alloc: Global,
    names: Names<'_>,
    id: &KeyId,
    whole: bool,
) -> Result<String, AllocError> {
    let digits = Digest::new(id.0).text(alloc)?;
    key_words(alloc, names, digits.as_str(), whole)
}

/// The same of the digits of an id.
pub fn key_words(
    alloc: Global,
    names: Names<'_>,
    digits: &str,
    whole: bool,
) -> Result<String, AllocError> {
    let whole = whole || is_another(names, digits);
    let short = plain(alloc, digits_of(digits, whole))?;
    let Some(digest) = Digest::read(digits) else {
        return plain(alloc, digits);
    };
    let id = KeyId(digest.bytes());
    if let Some(name) = names.held.and_then(|held| name_of_key(held, &id)) {
        let name = plain(alloc, name)?;
        return format!(in alloc; "{name} {short}");
    }
    match name_of_key(names.draft, &id) {
        Some(name) => {
            let name = plain(alloc, name)?;
            format!(in alloc; "{name} {short} (named by the draft)")
        }
        None => Ok(short),
    }
}

// Whether another id or digest in the parts begins like this one.
fn is_another(names: Names<'_>, digits: &str) -> bool {
    if reads_as_another(names.draft, digits) {
        return true;
    }
    match names.held {
        Some(held) => reads_as_another(held, digits),
        None => false,
    }
}

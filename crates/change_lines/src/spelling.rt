//! Values and texts on one line.
use canonical_json::{Value, WriteFault, write};
use path_patterns::Digest;
use plain_text::plain;
use std::alloc::{AllocError, Global};

/// So many digits of a digest or of a key's id stand where not all are wanted.
pub const FIRST_DIGITS: usize = 8;

// What stands for a value without a spelling.
const UNSPELLED: &str = "(no canonical JSON)";

/// The value as canonical JSON spells it, on one line. A text that is a digest stands by its first digits where not all are wanted.
/// Each value that is read has a spelling; one that has none is told so.
pub(crate) fn spelled(alloc: Global, value: &Value, whole: bool) -> Result<String, AllocError> {
    if let Value::Text(text) = value {
        if !whole && Digest::read(text.as_str()).is_some() {
            let digits = digits_of(text.as_str(), whole);
            return format!(in alloc; "\"{digits}..\"");
        }
    }
    let mut bytes = Vec::new(alloc);
    match write(value, &mut bytes) {
        Ok(()) => plain(alloc, str::from_utf8(&bytes).unwrap_or(UNSPELLED)),
        Err(WriteFault::OutOfMemory) => Err(AllocError),
        Err(WriteFault::TooDeep | WriteFault::Unordered) => String::from_str(alloc, UNSPELLED),
    }
}

/// All digits, or the first ones.
pub(crate) fn digits_of(digits: &str, whole: bool) -> &str {
    if whole {
        return digits;
    }
    digits.get(..FIRST_DIGITS).unwrap_or(digits)
}

/// The name of a member as a part of a place: as it stands where it is of letters, digits, `-` and `_` alone, and else between quotation
/// marks, so that no name reads as two. One that is a digest stands by its first digits where not all are wanted.
pub(crate) fn member_words(alloc: Global, name: &str, whole: bool) -> Result<String, AllocError> {
    if !whole && Digest::read(name).is_some() {
        let digits = digits_of(name, whole);
        return format!(in alloc; "{digits}..");
    }
    let plain = plain(alloc, name)?;
    if !name.is_empty() && name.as_bytes().iter().all(|byte| is_word_byte(*byte)) {
        return Ok(plain);
    }
    format!(in alloc; "\"{plain}\"")
}

fn is_word_byte(byte: u8) -> bool {
    byte.is_ascii_alphanumeric() || byte == b'-' || byte == b'_'
}

/// Whether two digests in what is compared begin with the same digits, so that the first ones say too little: whoever makes a key may look for
/// one whose id begins like another's.
pub(crate) fn read_alike(
    alloc: Global,
    held: Option<&[u8]>,
    draft: &[u8],
) -> Result<bool, AllocError> {
    let mut found = Vec::new(alloc);
    if let Some(held) = held {
        add_digests(text_of(held), &mut found)?;
    }
    add_digests(text_of(draft), &mut found)?;
    found.sort_unstable();
    let mut last = "";
    for digits in &found {
        if *digits != last && begin_alike(digits, last) {
            return Ok(true);
        }
        last = digits;
    }
    Ok(false)
}

/// Whether another digest in a signed part begins with the same digits as this one.
pub(crate) fn reads_as_another(part: &[u8], digits: &str) -> bool {
    for piece in text_of(part).split('"') {
        if begin_alike(piece, digits) && piece != digits && Digest::read(piece).is_some() {
            return true;
        }
    }
    false
}

fn add_digests<'a>(text: &'a str, found: &mut Vec<&'a str>) -> Result<(), AllocError> {
    for piece in text.split('"') {
        if Digest::read(piece).is_some() {
            found.push(piece)?;
        }
    }
    Ok(())
}

fn begin_alike(one: &str, other: &str) -> bool {
    digits_of(one, false) == digits_of(other, false)
}

fn text_of(part: &[u8]) -> &str {
    str::from_utf8(part).unwrap_or("")
}

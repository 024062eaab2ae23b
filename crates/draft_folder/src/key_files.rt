//! Keys as key files spell them.
use canonical_json::member;
use keys_roles::{Key, key_object};
use std::alloc::{AllocError, Global};

/// The most bytes that a key file is read for: it has the key object, and may have a line end.
pub const KEY_FILE_LIMIT: usize = 256;

/// The key whose object the bytes of a key file are, with a line end or without one.
pub fn key_in(alloc: Global, bytes: &[u8]) -> Result<Option<Key>, AllocError> {
    let object = bytes.strip_suffix(b"\n").unwrap_or(bytes);
    let Some(key) = key_said(object) else {
        return Ok(None);
    };
    let spelled = key_object(alloc, &key)?;
    Ok(if spelled.as_slice() == object {
        Some(key)
    } else {
        None
    })
}

// The key that an object says, if it is of the form of one.
fn key_said(object: &[u8]) -> Option<Key> {
    let public = member(member(object, "keyval")?, "public")?;
    let digits = public.strip_prefix(b"\"")?.strip_suffix(b"\"")?;
    let mut lms = [0; 56];
    if hex::decode_to_slice(digits, &mut lms).is_ok() {
        return Some(Key::Lms(lms));
    }
    let mut hss = [0; 60];
    if hex::decode_to_slice(digits, &mut hss).is_ok() {
        return Some(Key::Hss(hss));
    }
    None
}

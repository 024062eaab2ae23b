// Key ids, and keys by their ids (TUF 1.0, section 4.2).
ghost use Rattle.std.specs.Prelude.{◌≡◌, ◌↔◌, ◌++◌, Some, None, drop, IfOk, IsTrue, IsOkAnd, MatchOption};
ghost use Rattle.std.specs.List.{list_any};
ghost use Rattle.std.specs.Str.{bytes_eq};
ghost use Rattle.sha2.specs.Sha256.{sha256};
ghost use Rattle.hex.specs.Hex.{encode_lower};
ghost use Rattle.keys_roles.specs.Plain.{look_up, lms, hss};
ghost use Rattle.keys_roles.specs.Keys.{key_bytes, id_of, top_key as top_key_of};
ghost use Rattle.keys_roles.specs.steps.Counting.{IsIn};
ghost use Rattle.keys_roles.specs.Views.{id_text, key_view, ids_view, rows_view};

use crate::{Key, KeyId, NoMemory};
use sha2::{Digest, Sha256};
use std::alloc::Global;

// The key object, before the digits of its public key, and after those of each scheme.
const FRONT: &[u8; 37] = b"{\"keytype\":\"lms\",\"keyval\":{\"public\":\"";

const LMS_BACK: &[u8; 25] = b"\"},\"scheme\":\"lms-sha256\"}";

const HSS_BACK: &[u8; 25] = b"\"},\"scheme\":\"hss-sha256\"}";

/// The id of a key: the SHA-256 of the canonical form of its key object (TUF 1.0, section 4.2). It takes no memory, so it is
/// always answered.
pub fn key_id(alloc: Global, key: &Key) -> Result<KeyId, NoMemory>
    ensures { IsOkAnd result (λ id. id_text id ≡ id_of (key_view key.now)) }
{
    let _ = alloc;
    Ok(KeyId(object_digest(key)))
}

/// The key object of a key in canonical JSON (TUF 1.0, section 4.2), 174 bytes for an LMS key and 182 for an HSS key. Its SHA-256
/// is the key's id.
pub fn key_object(alloc: Global, key: &Key) -> Result<Vec<u8>, NoMemory>
    ensures { IfOk result (λ object. object.items ≡ key_bytes (key_view key.now)) }
{
    match key {
        Key::Lms(public) => lms_object(alloc, public),
        Key::Hss(public) => hss_object(alloc, public),
    }
}

// The same for an LMS key.
fn lms_object(alloc: Global, public: &[u8; 56]) -> Result<Vec<u8>, NoMemory>
    ensures { IfOk result (λ object. object.items ≡ key_bytes (lms public.now)) }
{
    object_around(alloc, FRONT, &lms_digits(public), LMS_BACK)
}

// The same for an HSS key.
fn hss_object(alloc: Global, public: &[u8; 60]) -> Result<Vec<u8>, NoMemory>
    ensures { IfOk result (λ object. object.items ≡ key_bytes (hss public.now)) }
{
    object_around(alloc, FRONT, &hss_digits(public), HSS_BACK)
}

// The digits between what stands before them and what stands after them.
fn object_around(
    alloc: Global,
    front: &[u8],
    digits: &[u8],
    back: &[u8],
) -> Result<Vec<u8>, NoMemory>
    ensures { IfOk result (λ object. object.items ≡ (front.now ++ digits.now) ++ back.now) }
{
    let mut object = Vec::from_slice(alloc, front)?;
    object.extend_from_slice(digits)?;
    object.extend_from_slice(back)?;
    Ok(object)
}

// The hex digits of an LMS public key.
fn lms_digits(public: &[u8; 56]) -> [u8; 112]
    ensures { result ≡ encode_lower public.now }
{
    let mut digits = [0; 112];
    let _ = hex::encode_to_slice(public, &mut digits);
    digits
}

// The hex digits of an HSS public key.
fn hss_digits(public: &[u8; 60]) -> [u8; 120]
    ensures { result ≡ encode_lower public.now }
{
    let mut digits = [0; 120];
    let _ = hex::encode_to_slice(public, &mut digits);
    digits
}

// The SHA-256 of the canonical form of the key object.
fn object_digest(key: &Key) -> [u8; 32]
    ensures { result ≡ sha256 (key_bytes (key_view key.now)) }
{
    match key {
        Key::Lms(public) => lms_digest(public),
        Key::Hss(public) => hss_digest(public),
    }
}

// The same for an LMS key.
fn lms_digest(public: &[u8; 56]) -> [u8; 32]
    ensures { result ≡ sha256 (key_bytes (lms public.now)) }
{
    digest_around(FRONT, &lms_digits(public), LMS_BACK)
}

// The same for an HSS key.
fn hss_digest(public: &[u8; 60]) -> [u8; 32]
    ensures { result ≡ sha256 (key_bytes (hss public.now)) }
{
    digest_around(FRONT, &hss_digits(public), HSS_BACK)
}

// The SHA-256 of the digits between what stands before them and what stands after them.
fn digest_around(front: &[u8], digits: &[u8], back: &[u8]) -> [u8; 32]
    ensures { result ≡ sha256 ((front.now ++ digits.now) ++ back.now) }
{
    let mut hasher = Sha256::new();
    hasher.update(front);
    hasher.update(digits);
    hasher.update(back);
    hasher.finalize()
}

/// The top key of a key: the LMS public key (RFC 8554, section 5.3) by which keys are counted, 56 bytes. That of an LMS key is
/// the key itself, that of an HSS key the key of its top level.
pub fn top_key(key: &Key) -> &[u8; 56]
    ensures { result.now ≡ top_key_of (key_view key.now) }
{
    match key {
        Key::Lms(public) => public,
        Key::Hss(public) => top_level(public),
    }
}

// The public key of the top level, after the number of levels.
fn top_level(public: &[u8; 60]) -> &[u8; 56]
    ensures { result.now ≡ drop 4 public.now }
{
    public.last_chunk::<56>().unwrap()
}

/// Whether the ids are one.
pub fn same_id(a: &KeyId, b: &KeyId) -> bool
    ensures text { result ≡ bytes_eq (id_text a.now) (id_text b.now) }
    ensures same { IsTrue result ↔ id_text a.now ≡ id_text b.now }
{
    same_digits(&a.0, &b.0)
}

// Whether the bytes have the same hex digits.
fn same_digits(a: &[u8], b: &[u8]) -> bool
    ensures text { result ≡ bytes_eq (encode_lower a.now) (encode_lower b.now) }
    ensures same { IsTrue result ↔ encode_lower a.now ≡ encode_lower b.now }
{
    *a == *b
}

/// Whether the id stands in the list.
pub(crate) fn is_listed(ids: &[KeyId], id: &KeyId) -> bool
    ensures text { result ≡ list_any (λ own. bytes_eq own (id_text id.now)) (ids_view ids.now) }
    ensures listed { IsTrue result ↔ (IsIn (ids_view ids.now) (id_text id.now)) }
{
    let mut rest = ids;
    'ids: while let Some((first, later)) = rest.split_first() {
        if same_id(first, id) {
            return true;
        }
        rest = later;
    }
    false
}

/// The key that stands first beside the id.
pub(crate) fn key_of<'a>(rows: &'a [(KeyId, Key)], id: &KeyId) -> Option<&'a Key>
    ensures { MatchOption result (look_up (rows_view rows.now) (id_text id.now) ≡ None)
        (λ key. look_up (rows_view rows.now) (id_text id.now) ≡ Some (key_view key.now)) }
{
    let mut rest = rows;
    'rows: while let Some((row, later)) = rest.split_first() {
        if same_id(&row.0, id) {
            return Some(&row.1);
        }
        rest = later;
    }
    None
}

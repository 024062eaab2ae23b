//! Signatures that another tool made: bytes as a public key, and a file that a signature is attached to (TUF 1.0, section 4.2).
ghost use Rattle.std.specs.Prelude.{◌≡◌, ◌↔◌, ◌++◌, ◌+◌, ◌≤◌, ◌<◌, ◌^◌, List, ℕ, length, IfErr, IfOk, IsTrue, MatchOption};
ghost use Rattle.lms.specs.Text.{u32};
ghost use Rattle.keys_roles.specs.Plain as plain;
ghost use Rattle.keys_roles.specs.Plain.{hss};
ghost use Rattle.keys_roles.specs.Keys.{VerifiesUnder, id_of as id_of_key};
ghost use Rattle.keys_roles.specs.Views.{entries_view, id_text, key_view};
ghost use Rattle.metadata.specs.Shape.{IsSignedBy};
ghost use Rattle.signer.specs.Attaching.{Attaches, HasKnownTypes, HasLevels, IsKeyOf, IsNoPublicKey, IsPublicKey, IsUnattached};

use crate::entries::{are_bytes, has_digits, others, with_entry};
use crate::faults::denial_of;
use denials::Denial;
use keys_roles::{Key, KeyId, key_id, top_key};
use limits::{FILE_LIMIT, MOST_SIGNATURES};
use lms::{LmsType, OtsType, verify, verify_hss};
use metadata::{SignedFile, read_signed};
use std::alloc::Global;
use thiserror::Error;

// The most levels of a key (RFC 8554, section 6).
const MOST_LEVELS: u32 = 8;

/// Why bytes are no public key under which a signature may verify.
#[derive(Debug, Clone, Copy, PartialEq, Eq, Error)]
pub enum PublicFault {
    /// They are not as many as a key has: 56 of `lms-sha256`, 60 of `hss-sha256`.
    #[error("neither the 56 bytes of an LMS key nor the 60 of an HSS key; raw bytes are wanted, no digits")]
    Length,
    /// The number of levels that an HSS key begins with is not 1 to 8.
    #[error("its number of levels is not 1 to 8")]
    Levels,
    /// The LMS type or the LM-OTS type is not one with SHA-256 and 32 bytes.
    #[error("its types are unknown: LMS with SHA-256 and 32 bytes is known (RFC 8554)")]
    Types,
}

/// Why a signature is not attached to a file.
#[derive(Debug, Drop, Error)]
pub enum AttachFault {
    /// The first check of the file's envelope that fails, or what the file with the signature would be denied: `TooLong`, `NotCanonical`
    /// or `WrongShape`.
    #[error("denied")]
    Denied(Denial),
    /// It is no signature of the file's signed part under the key.
    #[error("the signature does not verify")]
    Invalid,
    /// Memory was refused.
    #[error("out of memory")]
    OutOfMemory,
}

/// The public key that has these bytes: 56 are an LMS key (RFC 8554, section 5.3), 60 an HSS key (section 6.1). Where a key object is
/// read, nothing is asked of them but their number; here the types have to be known and the levels to be 1 to 8, since under another key
/// no signature verifies.
///
/// Errors: `Length`, then `Levels`, then `Types`.
pub fn key_of_bytes(bytes: &[u8]) -> Result<Key, PublicFault>
    ensures key { IfOk result (λ key. IsPublicKey bytes.now (key_view key)) }
    ensures fault { IfErr result (IsNoPublicKey bytes.now) }
    ensures none { IfErr result (λ fault. (key : plain.Key) (message signature : List ℕ) → IsKeyOf bytes.now key → VerifiesUnder key message signature → ⊥) }
{
    let Some(key) = key_with(bytes) else {
        return Err(PublicFault::Length);
    };
    if !has_levels(&key) {
        return Err(PublicFault::Levels);
    }
    if !has_types(top_key(&key)) {
        return Err(PublicFault::Types);
    }
    Ok(key)
}

// The key that has these bytes, whatever they say.
fn key_with(bytes: &[u8]) -> Option<Key>
    ensures { MatchOption result ((key : plain.Key) → IsKeyOf bytes.now key → ⊥) (λ key. IsKeyOf bytes.now (key_view key)) }
{
    are_bytes(bytes);
    if let Some(public) = bytes.as_array::<56>() {
        return Some(Key::Lms(*public));
    }
    match bytes.as_array::<60>() {
        Some(public) => Some(Key::Hss(*public)),
        None => None,
    }
}

// Whether the key has 1 to 8 levels.
fn has_levels(key: &Key) -> bool
    ensures { IsTrue result ↔ (HasLevels (key_view key.now)) }
{
    match key {
        Key::Lms(_) => true,
        Key::Hss(public) => are_few(public),
    }
}

// Whether the bytes begin with a number from 1 to 8.
#[tactic(auto, using(crate::proofs::Attached::levels_in, crate::proofs::Attached::few_levels))]
fn are_few(public: &[u8; 60]) -> bool
    ensures { IsTrue result ↔ (HasLevels (hss public.now)) }
{
    let (levels, _) = word(public);
    if levels == 0 {
        return false;
    }
    if levels > MOST_LEVELS {
        return false;
    }
    true
}

// Whether both types that the key begins with are known.
#[tactic(auto, using(crate::proofs::Attached::types_in, crate::proofs::Attached::types_are))]
fn has_types(public: &[u8; 56]) -> bool
    ensures { IsTrue result ↔ (HasKnownTypes public.now) }
{
    let (lms, rest) = word(public);
    let (ots, _) = word(rest);
    LmsType::from_code(lms).is_some() && OtsType::from_code(ots).is_some()
}

// The number that the bytes begin with, and the rest.
fn word(bytes: &[u8]) -> (u32, &[u8])
    requires { 4 ≤ length bytes.now }
    ensures whole { bytes.now ≡ u32 result.0 ++ result.1.now }
    ensures range { result.0 < 2 ^ 32 }
    ensures len { length result.1.now + 4 ≡ length bytes.now }
{
    let (first, rest) = front(bytes);
    (u32::from_be_bytes(*first), rest)
}

// The first four bytes, and the rest.
fn front(bytes: &[u8]) -> (&[u8; 4], &[u8])
    requires { 4 ≤ length bytes.now }
    ensures whole { bytes.now ≡ result.0.now ++ result.1.now }
    ensures front_len { length result.0.now ≡ 4 }
    ensures len { length result.1.now + 4 ≡ length bytes.now }
{
    bytes.split_first_chunk::<4>().unwrap()
}

/// The file with this signature of the key, in canonical JSON: the key's entry stands last, and an older one of the key is taken out. The
/// signature is given, as another tool made it, and is verified over the file's signed part first.
///
/// - `Denied`: `TooLong`, `NotCanonical` or `WrongShape` of the file's envelope, in this order.
/// - `Invalid`: the envelope is in order, and the signature does not verify.
/// - `Denied`: `WrongShape` where the result would have over 16 entries, then `TooLong` where it would have over 262,144 bytes.
/// - `OutOfMemory`: memory was refused.
pub fn attach(
    alloc: Global,
    file: &[u8],
    key: &Key,
    signature: &[u8],
) -> Result<Vec<u8>, AttachFault>
    ensures attached { IfOk result (λ out. Attaches file.now (key_view key.now) signature.now out.items) }
    ensures unattached { IfErr result (IsUnattached file.now (key_view key.now) signature.now) }
{
    match read_signed(alloc, file) {
        Ok(signed) => attach_to(alloc, &signed, key, signature),
        Err(fault) => match denial_of(fault) {
            Some(denial) => Err(AttachFault::Denied(denial)),
            None => Err(AttachFault::OutOfMemory),
        },
    }
}

// The same of a file that was read.
fn attach_to(
    alloc: Global,
    file: &SignedFile<'_>,
    key: &Key,
    signature: &[u8],
) -> Result<Vec<u8>, AttachFault>
    ensures attached { IfOk result (λ out. (bytes : List ℕ) → IsSignedBy bytes (entries_view file.now.signatures.items) file.now.signed.now
        → Attaches bytes (key_view key.now) signature.now out.items) }
    ensures unattached { IfErr result (λ fault. (bytes : List ℕ) → IsSignedBy bytes (entries_view file.now.signatures.items) file.now.signed.now
        → IsUnattached bytes (key_view key.now) signature.now fault) }
{
    if !verifies(key, file.signed, signature) {
        return Err(AttachFault::Invalid);
    }
    let id = id_of(alloc, key);
    if others(file.signatures.as_slice(), &id) >= MOST_SIGNATURES {
        return Err(AttachFault::Denied(Denial::WrongShape));
    }
    has_digits(&id);
    are_bytes(signature);
    match with_entry(alloc, file, &id, signature) {
        Ok(out) if out.len() > FILE_LIMIT => Err(AttachFault::Denied(Denial::TooLong)),
        Ok(out) => Ok(out),
        Err(_) => Err(AttachFault::OutOfMemory),
    }
}

// Whether the signature is one of the message under the key.
fn verifies(key: &Key, message: &[u8], signature: &[u8]) -> bool
    ensures { IsTrue result ↔ (VerifiesUnder (key_view key.now) message.now signature.now) }
{
    match key {
        Key::Lms(public) => verify(public, message, signature),
        Key::Hss(public) => verify_hss(public, message, signature),
    }
}

// The id of the key.
fn id_of(alloc: Global, key: &Key) -> KeyId
    ensures { id_text result ≡ id_of_key (key_view key.now) }
{
    match key_id(alloc, key) {
        Ok(id) => id,
        Err(_) => KeyId([0; 32]),
    }
}

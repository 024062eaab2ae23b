// The parts that documents are made of (TUF 1.0, section 4.2).
ghost use Rattle.std.specs.Prelude.{◌≡◌, ◌↔◌, ◌<◌, ◌≤◌, ◌++◌, ℕ, List, Option, MatchOption, IsTrue, codes, length, option_map};
ghost use Rattle.std.specs.List.{list_all};
ghost use Rattle.path_patterns.specs.Bytes.{is_digit};
ghost use Rattle.canonical_json.specs.Spelling.{IsProper};
ghost use Rattle.canonical_json.specs.View.{view};
ghost use Rattle.document_parts.specs.Documents as plain;
ghost use Rattle.document_parts.specs.Documents.{MetaFile};
ghost use Rattle.document_parts.specs.Members.{Has, MayHave};
ghost use Rattle.document_parts.specs.Parts.{IsVersion, IsLength, IsHashes, IsMetaFile, IsSpecVersion, IsSpecVersionOf};
ghost use Rattle.document_parts.specs.Views.{meta_view, profile_view};

use crate::documents::{Meta, Profile};
use crate::members::{member_of, number_at, number_of, one_member, text_of};
use crate::trail::Trail;
use canonical_json::Value;
use path_patterns::{Digest, one_digest};

/// The greatest version and length.
pub const LAST_NUMBER: u32 = 4_294_967_295;

/// The version that the object has.
pub fn version_of(value: &Value) -> Option<u32>
    requires { IsProper (view value.now) }
    ensures { MatchOption result ((n : ℕ) → Has (view value.now) (codes "version") (λ x. IsVersion x n) → ⊥)
        (λ n. Has (view value.now) (codes "version") (λ x. IsVersion x n)) }
{
    number_at(value, "version", 1, LAST_NUMBER)
}

/// The length that the object has.
pub fn length_of(value: &Value) -> Option<u32>
    requires { IsProper (view value.now) }
    ensures { MatchOption result ((n : ℕ) → Has (view value.now) (codes "length") (λ x. IsLength x n) → ⊥)
        (λ n. Has (view value.now) (codes "length") (λ x. IsLength x n)) }
{
    number_at(value, "length", 0, LAST_NUMBER)
}

/// The digest that `hashes` is.
pub fn read_hashes(value: &Value, trail: &mut Trail) -> Option<Digest>
    ensures { MatchOption result ((d : List ℕ) → IsHashes (view value.now) d → ⊥) (λ d. IsHashes (view value.now) d.0) }
{
    trail.enter("sha256");
    let only = one_member(value, "sha256")?;
    let digits = text_of(only)?;
    match Digest::read(digits) {
        Some(digest) => {
            trail.leave();
            Some(digest)
        }
        None => {
            one_digest();
            None
        }
    }
}

/// The digest that the object has under `hashes`.
pub fn hashes_of(value: &Value, trail: &mut Trail) -> Option<Digest>
    requires { IsProper (view value.now) }
    ensures { MatchOption result ((d : List ℕ) → Has (view value.now) (codes "hashes") (λ x. IsHashes x d) → ⊥)
        (λ d. Has (view value.now) (codes "hashes") (λ x. IsHashes x d.0)) }
{
    trail.enter("hashes");
    let hashes = member_of(value, "hashes")?;
    let digest = read_hashes(hashes, trail)?;
    trail.leave();
    Some(digest)
}

/// The length that the object has, if it has one.
pub fn optional_length(value: &Value) -> Option<Option<u32>>
    requires { IsProper (view value.now) }
    ensures { MatchOption result ((n : Option ℕ) → MayHave (view value.now) (codes "length") IsLength n → ⊥)
        (λ n. MayHave (view value.now) (codes "length") IsLength n) }
{
    match member_of(value, "length") {
        None => Some(None),
        Some(length) => Some(Some(number_of(length, 0, LAST_NUMBER)?)),
    }
}

/// The digest that the object has under `hashes`, if it has one.
pub fn optional_hashes(value: &Value, trail: &mut Trail) -> Option<Option<Digest>>
    requires { IsProper (view value.now) }
    ensures { MatchOption result ((d : Option (List ℕ)) → MayHave (view value.now) (codes "hashes") IsHashes d → ⊥)
        (λ d. MayHave (view value.now) (codes "hashes") IsHashes (option_map (λ b. b.0) d)) }
{
    match member_of(value, "hashes") {
        None => Some(None),
        Some(hashes) => Some(Some(read_hashes(hashes, trail)?)),
    }
}

/// What the value says of a file.
pub fn read_meta(value: &Value, trail: &mut Trail) -> Option<Meta>
    requires { IsProper (view value.now) }
    ensures { MatchOption result ((m : MetaFile) → IsMetaFile (view value.now) m → ⊥)
        (λ m. IsMetaFile (view value.now) (meta_view m)) }
{
    trail.enter("version");
    let Some(version) = version_of(value) else {
        return None;
    };
    trail.turn("length");
    let Some(length) = optional_length(value) else {
        return None;
    };
    trail.turn("hashes");
    let Some(digest) = optional_hashes(value, trail) else {
        return None;
    };
    trail.leave();
    Some(Meta {
        version,
        length,
        digest,
    })
}

/// Whether the value is `1.0.` and one to three digits.
pub fn is_spec_version(value: &Value) -> bool
    ensures { IsTrue result ↔ (IsSpecVersion (view value.now)) }
{
    match text_of(value) {
        Some(text) => is_version_text(text.as_bytes()),
        None => false,
    }
}

/// The profile of a root that has this `spec_version`.
pub fn profile_of(value: &Value) -> Option<Profile>
    ensures { MatchOption result ((p : plain.Profile) → IsSpecVersionOf p (view value.now) → ⊥)
        (λ p. IsSpecVersionOf (profile_view p) (view value.now)) }
{
    if is_spec_version(value) {
        return Some(Profile::First);
    }
    if is_second_version(value) {
        return Some(Profile::Second);
    }
    None
}

// Whether the value is `1.0.`, one to three digits and `+p2`.
fn is_second_version(value: &Value) -> bool
    ensures { IsTrue result ↔ (IsSpecVersionOf plain.second_profile (view value.now)) }
{
    match text_of(value) {
        Some(text) => is_second_text(text),
        None => false,
    }
}

fn is_second_text(text: &str) -> bool
    ensures { IsTrue result ↔ ((digits : List ℕ) × (text.now ≡ codes "1.0." ++ (digits ++ codes "+p2"))
        × (0 < length digits) × (length digits ≤ 3) × IsTrue (list_all is_digit digits)) }
{
    match text.strip_suffix("+p2") {
        Some(first) => is_version_text(first.as_bytes()),
        None => false,
    }
}

fn is_version_text(text: &[u8]) -> bool
    ensures { IsTrue result ↔ ((digits : List ℕ) × (text.now ≡ codes "1.0." ++ digits)
        × (0 < length digits) × (length digits ≤ 3) × IsTrue (list_all is_digit digits)) }
{
    match text {
        [b'1', b'.', b'0', b'.', digits @ ..] => are_few_digits(digits),
        _ => false,
    }
}

fn are_few_digits(digits: &[u8]) -> bool
    ensures { IsTrue result ↔ ((0 < length digits.now) × (length digits.now ≤ 3) × IsTrue (list_all is_digit digits.now)) }
{
    !digits.is_empty() && digits.len() <= 3 && are_digits(digits)
}

fn are_digits(text: &[u8]) -> bool
    ensures { result ≡ list_all is_digit text.now }
{
    text.iter().all(|b| b.is_ascii_digit())
}

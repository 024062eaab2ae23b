//! Keys, their ids, and when a rule of keys and a threshold is met.
#![tactic(auto)]

use std::alloc::AllocError;

/// The error of a call that has no other: no memory.
pub type NoMemory = AllocError;

/// The id of a key, as the digest that its hex digits spell.
#[derive(Debug, Clone, Copy, PartialEq, Eq, PartialOrd, Ord)]
pub struct KeyId(pub [u8; 32]);

/// A public key with its scheme.
#[derive(Debug, Clone, Copy, PartialEq, Eq)]
pub enum Key {
    /// `lms-sha256`: an LMS public key (RFC 8554, section 5.3).
    Lms([u8; 56]),
    /// `hss-sha256`: the number of levels and the public key of the top one (RFC 8554, section 6).
    Hss([u8; 60]),
}

/// Keys by their ids.
#[derive(Debug, Drop)]
pub struct KeyTable {
    pub entries: Vec<(KeyId, Key)>,
}

/// The keys of a role, and how many of them must sign.
#[derive(Debug, Drop)]
pub struct RoleRule {
    pub keyids: Vec<KeyId>,
    pub threshold: u8,
}

/// A signature entry of a file: `sig` is hex digits.
#[derive(Debug, Drop)]
pub struct Signature {
    pub keyid: KeyId,
    pub sig: String,
}

/// Whether the signature at a place of a file's list verifies under a public key, as a check has told.
#[derive(Debug, Clone, Copy, PartialEq, Eq)]
pub struct Verdict {
    /// The place of the signature in the list, from 0.
    pub place: usize,
    pub key: Key,
    pub verifies: bool,
}

mod digits;
mod ids;
mod laws;
mod meeting;
mod rotation;
mod verdicts;

pub use digits::read_digits;
pub use ids::{key_id, key_object, same_id, top_key};
pub use laws::lms_rules_as_before;
pub use lms::Steps;
pub use meeting::{meets, meets_counted, meets_with, meets_with_counted, signed_count};
pub use rotation::same_rule;
pub use verdicts::with_verdicts;

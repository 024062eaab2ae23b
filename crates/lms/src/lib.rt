//! Leighton-Micali hash-based signatures (RFC 8554) with SHA-256 and 32-byte hashes: the parameter sets
//! LMOTS_SHA256_N32_W1, W2, W4 and W8 under LMS_SHA256_M32_H5, H10, H15, H20 and H25.
//!
//! `verify` tells whether a signature is one of a message under a public key, at all of them, and `verify_hss` the same of
//! the hierarchical scheme over them, of up to eight levels. `public_of` and `sign` make the key and the signatures of a
//! seed at heights 5 and 10. The definitions are those of the RFC by its sections, in specs/.
#![tactic(auto)]

ghost use Rattle.std.specs.Prelude.{◌≡◌, ◌<◌, ◌^◌, ℕ, List, length};
ghost use Rattle.lms.specs.declared.OtsType.{OtsType};
ghost use Rattle.lms.specs.declared.LmsType.{LmsType};
ghost use Rattle.lms.specs.declared.Params.{Params};
ghost use Rattle.lms.specs.Parameters.{height};
ghost use Rattle.lms.specs.Verifies.{Verifies};
ghost use Rattle.lms.specs.Keys.{public_bytes, signature_bytes};
ghost use Rattle.lms.specs.Hss.{VerifiesHss};
ghost use Rattle.lms.specs.HssKeys.{Spends, hss_public_bytes, hss_signature_bytes, message_count};

use thiserror::Error;

/// An LM-OTS type by its width w, the bits of a coefficient (section 4.1). A chain has 2^w - 1 steps.
#[derive(Debug, Clone, Copy, PartialEq, Eq)]
pub enum OtsType {
    W1,
    W2,
    W4,
    W8,
}

/// An LMS type by the height h of its tree, which has 2^h leaves (section 5.1).
#[derive(Debug, Clone, Copy, PartialEq, Eq)]
pub enum LmsType {
    H5,
    H10,
    H15,
    H20,
    H25,
}

/// The heights of the trees that are signed with.
#[derive(Debug, Clone, Copy, PartialEq, Eq)]
pub enum SigningHeight {
    H5,
    H10,
}

/// What a key pair is made by, besides its seed.
#[derive(Debug, Clone, Copy, PartialEq, Eq)]
pub struct Params {
    pub ots: OtsType,
    pub height: SigningHeight,
}

/// The parameters of a key of the hierarchical scheme of two levels (section 6): those of its top tree, and those of each tree
/// whose public key the top tree signs.
#[derive(Debug, Clone, Copy, PartialEq, Eq)]
pub struct Levels {
    pub top: Params,
    pub bottom: Params,
}

/// What all private elements of a key pair come from (appendix A). It has no `Debug`, so that no secret is printed.
#[derive(Clone, Copy)]
pub struct Seed {
    /// I, which stands in the public key.
    pub identifier: [u8; 16],
    /// SEED.
    pub secret: [u8; 32],
}

/// Why nothing is signed.
#[derive(Debug, Clone, Copy, PartialEq, Eq, Error)]
pub enum SignFault {
    /// The tree has no leaf of this number: it is 2^h or more.
    #[error("no such leaf")]
    LeafRange,
    /// The output could not grow by a signature.
    #[error("out of memory")]
    OutOfMemory,
}

mod arrays;
mod chains;
mod hashes;
mod hss;
mod hss_keys;
mod key_pairs;
mod keys;
mod lanes;
mod parameters;
mod parts;
mod signing;
mod steps;
mod tree;
mod verifying;

pub use hss::{verify_hss, verify_hss_counted};
pub use hss_keys::{HssKeyPair, child_of, hss_public, join_levels};
pub use key_pairs::KeyPair;
pub use keys::public_of;
pub use parts::signature_len;
pub use signing::sign;
pub use steps::Steps;
pub use verifying::{verify, verify_counted};

/// The law that what is signed with a leaf of a tree verifies under the tree's public key, at each parameter set, each
/// leaf and each message. The call does nothing.
pub fn signatures_verify()
    ensures { (lms : LmsType) (ots : OtsType) (identifier secret : List ℕ) (q : ℕ) (message : List ℕ)
        → length identifier ≡ 16 → q < 2 ^ height lms
        → Verifies (public_bytes lms ots identifier secret) message (signature_bytes lms ots identifier secret q message) }
{}

/// The law that what a key of the hierarchical scheme signs with any of its lowest leaves verifies under its public key, at one to eight
/// levels. The call does nothing.
pub fn hss_signatures_verify()
    ensures { (params : Params) (below : List Params) (identifier secret : List ℕ) (g : ℕ) (message : List ℕ)
        → length identifier ≡ 16 → length below < 8 → g < message_count params below
        → VerifiesHss (hss_public_bytes params below identifier secret) message (hss_signature_bytes params below identifier secret g message) }
{}

/// The law that a key of the hierarchical scheme signs one message with each of its one-time keys, those of the trees below its top tree
/// too, as long as each lowest leaf signs one message. The call does nothing.
pub fn one_message_each()
    ensures { (params : Params) (below : List Params) (identifier secret : List ℕ) (f g : ℕ) (m n leaves a b : List ℕ)
        → (f ≡ g → m ≡ n)
        → Spends params below identifier secret f m leaves a → Spends params below identifier secret g n leaves b → a ≡ b }
{}

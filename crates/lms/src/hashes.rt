// SHA-256 with a counter, and the bytes that each hash begins with (RFC 8554, sections 4.3, 4.5, 5.3).

ghost use Rattle.std.specs.Prelude.{◌≡◌, ℕ, List, ◌++◌, ◌+◌, ◌<◌, ◌^◌, map};
ghost use Rattle.lms.specs.Text.{u16, u32};
ghost use Rattle.sha2.specs.Hashers.{Holds256};
ghost use Rattle.sha2.specs.Sha256.{sha256};

use crate::Steps;
use sha2::{Digest, Sha256};
use sha256_lanes::digests;

/// What the hash of a message begins with, after the identifier and the leaf.
pub const MESSAGE: u16 = 0x8181;

/// The same for the hash of the ends of a leaf's chains.
pub const ENDS: u16 = 0x8080;

/// The same for a leaf's hash.
pub const LEAF: u16 = 0x8282;

/// The same for the hash of a node above the leaves.
pub const INNER: u16 = 0x8383;

/// A hasher that holds the identifier, a number of a leaf or a node, and a mark.
pub fn marked(identifier: &[u8; 16], number: u32, mark: u16) -> Sha256
    ensures { Holds256 result (identifier.now ++ u32 number ++ u16 mark) }
{
    let mut hasher = Sha256::new();
    hasher.update(identifier);
    hasher.update(number.to_be_bytes());
    hasher.update(mark.to_be_bytes());
    hasher
}

/// Ends the hash, with one tick.
#[inline]
pub fn finish(hasher: Sha256, steps: &mut Steps) -> [u8; 32]
    requires { steps.old + 1 < 2 ^ 64 }
    ensures value { (m : List ℕ) → Holds256 hasher m → result ≡ sha256 m }
    ensures count { steps.new ≡ steps.old + 1 }
{
    steps.tick();
    hasher.finalize()
}

/// Hashes four messages of a chain's step side by side, with one tick for each.
#[inline]
pub fn finish_lanes(messages: &[[u8; 55]; 4], steps: &mut Steps) -> [[u8; 32]; 4]
    requires { steps.old + 4 < 2 ^ 64 }
    ensures value { result ≡ map sha256 messages.now }
    ensures count { steps.new ≡ steps.old + 4 }
{
    steps.tick();
    steps.tick();
    steps.tick();
    steps.tick();
    digests(messages)
}

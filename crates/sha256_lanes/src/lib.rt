//! SHA-256 (FIPS 180-4) of several messages side by side: the words of four messages stand in the lanes of one
//! vector, so that one operation does the work of four. It is no SHA-256 of its own: its contract is the definition of
//! the crate `sha2`, lane by lane.
#![tactic(auto)]

ghost use Rattle.std.specs.Prelude.{◌≡◌, ◌≤◌, [], ◌∷◌, map, slice_index_or};
ghost use Rattle.sha2.specs.Sha256.{digest_bytes, sha256};
ghost use Rattle.sha256_lanes.specs.steps.Lanes.{lane};

mod blocks;
mod hashing;
mod rounds;
mod vectors;

use blocks::{digest, pad};
use hashing::{are_worthwhile, hash_values};
use rounds::compress_first;
use sha2::{Digest, Sha256};
use std::simd::u32x4;

/// How many messages are hashed at once.
pub const LANES: usize = 4;

// The digest in each lane.
#[inline(always)]
fn digests_in(state: [u32x4; 8]) -> [[u8; 32]; LANES]
    ensures { result ≡ digest_bytes (lane 0 state) 8 ∷ digest_bytes (lane 1 state) 8 ∷ digest_bytes (lane 2 state) 8 ∷ digest_bytes (lane 3 state) 8 ∷ [] }
{
    let [a, b, c, d, e, f, g, h] = state;
    let [a0, a1, a2, a3] = a.to_array();
    let [b0, b1, b2, b3] = b.to_array();
    let [c0, c1, c2, c3] = c.to_array();
    let [d0, d1, d2, d3] = d.to_array();
    let [e0, e1, e2, e3] = e.to_array();
    let [f0, f1, f2, f3] = f.to_array();
    let [g0, g1, g2, g3] = g.to_array();
    let [h0, h1, h2, h3] = h.to_array();
    [
        digest([a0, b0, c0, d0, e0, f0, g0, h0]),
        digest([a1, b1, c1, d1, e1, f1, g1, h1]),
        digest([a2, b2, c2, d2, e2, f2, g2, h2]),
        digest([a3, b3, c3, d3, e3, f3, g3, h3]),
    ]
}

/// The SHA-256 of each of four messages of `N` bytes, at most 55, so that a message and its padding are one block
/// (FIPS 180-4, sections 5.1.1 and 6.2). It works in arrays of fixed size and always answers.
#[inline]
pub fn digests<const N: usize>(messages: &[[u8; N]; LANES]) -> [[u8; 32]; LANES]
    requires { N ≤ 55 }
    ensures { result ≡ map sha256 messages.now }
{
    let [first, second, third, fourth] = messages;
    digests_in(compress_first(&[pad(first), pad(second), pad(third), pad(fourth)]))
}

/// The SHA-256 of each of four messages of any lengths. They are hashed side by side where they have as many blocks
/// together as twice the longest, since four lanes cost about as much as one message and a half, and else one by
/// one. It takes no memory and always answers.
pub fn digests_of(first: &[u8], second: &[u8], third: &[u8], fourth: &[u8]) -> [[u8; 32]; LANES]
    ensures { result ≡ sha256 first.now ∷ sha256 second.now ∷ sha256 third.now ∷ sha256 fourth.now ∷ [] }
{
    if are_worthwhile(first, second, third, fourth) {
        return digests_in(hash_values(first, second, third, fourth));
    }
    [
        Sha256::digest(first),
        Sha256::digest(second),
        Sha256::digest(third),
        Sha256::digest(fourth),
    ]
}

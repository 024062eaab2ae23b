// Coefficients, the checksum, and the chains of a leaf (RFC 8554, sections 3.1.3 and 4.3 to 4.6).

ghost use Rattle.std.specs.Prelude.{◌≡◌, ℕ, List, ◌∷◌, ◌++◌, ◌+◌, ◌-◌, ◌*◌, ◌/◌, ◌<◌, ◌≤◌, ◌^◌, length, take, drop};
ghost use Rattle.lms.specs.Parameters.{width, chain_count, chain_end, checksum_shift};
ghost use Rattle.lms.specs.Text.{u16, u32};
ghost use Rattle.lms.specs.Chains.{coef as coef_at, checksum, checksum_sum as checksum_sum_of, chain as chain_of, candidate as candidate_of, chain_steps, message_hash as message_hash_of};
ghost use Rattle.sha2.specs.Sha256.{sha256};

use crate::arrays::place;
use crate::hashes::{MESSAGE, finish, marked};
use crate::lanes::{cut_chains, key_of};
use crate::{OtsType, Steps};
use sha2::{Digest, Sha256};

/// The coefficient number `i` of the bytes (section 3.1.3).
pub fn coef(bytes: &[u8], i: usize, ots: OtsType) -> u8
    requires few { i < 512 }
    requires within { i * width ots / 8 < length bytes.now }
    ensures { result ≡ coef_at bytes.now i (width ots) }
{
    let w = ots.width();
    let byte = bytes[i * w / 8];
    let shift = 8 - (w * (i % (8 / w)) + w);
    (byte >> shift) & ots.chain_end()
}

// How far the coefficients of a hash are from the ends of their chains, all together (section 4.4).
fn checksum_sum(ots: OtsType, hash: &[u8; 32]) -> u16
    ensures sum { result ≡ checksum_sum_of ots hash.now }
    ensures bound { result ≤ 256 / width ots * chain_end ots }
{
    let mut sum: u16 = 0;
    let count = 256 / ots.width();
    for i in 0..count {
        sum += u16::from(ots.chain_end() - coef(hash, i, ots));
    }
    sum
}

/// A hash with its checksum after it, which the chains of a leaf are cut by.
pub fn with_checksum(ots: OtsType, hash: &[u8; 32]) -> [u8; 34]
    ensures { result ≡ hash.now ++ checksum ots hash.now }
{
    let sum = checksum_sum(ots, hash) << ots.checksum_shift();
    let mut cut = [0; 34];
    place(&mut cut, 0, hash);
    place(&mut cut, 32, &sum.to_be_bytes());
    cut
}

/// The bytes that the steps of chain `i` of leaf `q` hash, with a place for the step's number, at 22.
#[inline(always)]
pub fn chain_input(identifier: &[u8; 16], q: u32, i: u16, start: &[u8; 32]) -> [u8; 55]
    ensures front { take 22 result ≡ identifier.now ++ u32 q ++ u16 i }
    ensures back { drop 23 result ≡ start.now }
{
    let mut input = [0; 55];
    place(&mut input, 0, identifier);
    place(&mut input, 16, &q.to_be_bytes());
    place(&mut input, 20, &i.to_be_bytes());
    place(&mut input, 23, start);
    input
}

// Step `j` of a chain: the hash of the input with that number goes where the hash before it was.
#[inline]
fn chain_step(input: &mut [u8; 55], j: u8, steps: &mut Steps)
    requires { steps.old + 1 < 2 ^ 64 }
    ensures front { take 22 input.new ≡ take 22 input.old }
    ensures back { drop 23 input.new ≡ sha256 (take 22 input.old ++ j ∷ drop 23 input.old) }
    ensures count { steps.new ≡ steps.old + 1 }
{
    place(input, 22, &[j]);
    let mut hasher = Sha256::new();
    hasher.update(&*input);
    let next = finish(hasher, steps);
    place(input, 23, &next);
}

/// Chain `i` of leaf `q`, from the number `from` up to `to`: one tick for each step.
pub fn chain(
    identifier: &[u8; 16],
    q: u32,
    i: u16,
    from: u8,
    to: u8,
    start: &[u8; 32],
    steps: &mut Steps,
) -> [u8; 32]
    requires { steps.old + 256 < 2 ^ 64 }
    ensures value { result ≡ chain_of identifier.now q i from to start.now }
    ensures count { steps.new ≡ steps.old + (to - from) }
{
    let mut input = chain_input(identifier, q, i, start);
    for j in from..to {
        chain_step(&mut input, j, steps);
    }
    let mut end = [0; 32];
    end.copy_from_slice(&input[23..]);
    end
}

/// The hash of a message under leaf `q` (section 4.5).
pub fn message_hash(
    identifier: &[u8; 16],
    q: u32,
    randomizer: &[u8; 32],
    message: &[u8],
    steps: &mut Steps,
) -> [u8; 32]
    requires { steps.old + 1 < 2 ^ 64 }
    ensures value { result ≡ message_hash_of identifier.now q randomizer.now message.now }
    ensures count { steps.new ≡ steps.old + 1 }
{
    let mut hasher = marked(identifier, q, MESSAGE);
    hasher.update(randomizer);
    hasher.update(message);
    finish(hasher, steps)
}

/// The key of leaf `q` that the elements of a signature of a hash lead to (section 4.6).
pub fn candidate(
    ots: OtsType,
    identifier: &[u8; 16],
    q: u32,
    hash: &[u8; 32],
    elements: &[[u8; 32]],
    steps: &mut Steps,
) -> [u8; 32]
    requires elements { length elements.now ≡ chain_count ots }
    requires room { steps.old < 2 ^ 63 + 1 }
    ensures value { result ≡ candidate_of ots identifier.now q hash.now elements.now }
    ensures count { steps.new ≡ steps.old + (chain_steps ots hash.now + 1) }
{
    let mut chains = cut_chains(ots, hash, elements);
    key_of(identifier, q, &mut chains[..elements.len()], steps)
}

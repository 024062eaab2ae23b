// Blocks and digests as bytes (FIPS 180-4, sections 5.1.1, 5.2.1 and 6.2.2).

ghost use Rattle.std.specs.Prelude.{◌≡◌, ℕ, [], ◌∷◌, ◌++◌, ◌+◌, ◌-◌, ◌*◌, ◌/◌, ◌%◌, ◌^◌, ◌<◌, ◌≤◌, length, drop, replicate, slice_index, slice_index_or, take};
ghost use Rattle.std.specs.Int.{w64, to_be_bytes};
ghost use Rattle.sha2.specs.Sha256.{digest_bytes, padded_message, word_at};
ghost use Rattle.sha256_lanes.specs.steps.Lanes.{block_at, blocks_of, lane_at};

use std::simd::u32x4;

/// A message and its padding.
#[inline(always)]
pub fn pad<const N: usize>(message: &[u8; N]) -> [u8; 64]
    requires { N ≤ 55 }
    ensures len { length message.now ≡ N }
    ensures value { result ≡ padded_message message.now }
{
    let mut block = [0; 64];
    block[..N].copy_from_slice(message);
    block[N] = 0x80;
    block[56..].copy_from_slice(&(8 * N as u64).to_be_bytes());
    block
}

/// How many blocks a message is, padding included.
#[inline(always)]
pub fn block_count(message: &[u8]) -> usize
    ensures { result ≡ blocks_of message.now }
{
    (message.len() + 8) / 64 + 1
}

// The bytes of a message after its last whole block, the byte 0x80, and zeros.
#[inline(always)]
fn marked(rest: &[u8]) -> [u8; 64]
    requires { length rest.now < 64 }
    ensures { result ≡ rest.now ++ 0x80 ∷ replicate (63 - length rest.now) 0 }
{
    let mut block = [0; 64];
    block[..rest.len()].copy_from_slice(rest);
    block[rest.len()] = 0x80;
    block
}

// The block with the bits of a message of so many bytes as its last 8 bytes.
#[inline(always)]
fn counted(mut block: [u8; 64], len: usize) -> [u8; 64]
    ensures { result ≡ take 56 block ++ to_be_bytes w64 (len * 8 % 2 ^ 64) }
{
    block[56..].copy_from_slice(&(len as u64).wrapping_mul(8).to_be_bytes());
    block
}

// A block that is not the message's alone: there are one or two of them.
fn last_block(message: &[u8], i: usize) -> [u8; 64]
    requires { length message.now / 64 ≤ i }
    ensures { i < blocks_of message.now → result ≡ block_at message.now i }
{
    let whole = message.len() / 64;
    let rest = &message[64 * whole..];
    if i > whole {
        return counted([0; 64], message.len());
    }
    let block = marked(rest);
    if rest.len() > 55 {
        return block;
    }
    counted(block, message.len())
}

/// This block of a message and its padding. Of a message that has fewer it is some block.
#[inline(always)]
pub fn block_of(message: &[u8], i: usize) -> [u8; 64]
    ensures { i < blocks_of message.now → result ≡ block_at message.now i }
{
    if i >= message.len() / 64 {
        return last_block(message, i);
    }
    let mut block = [0; 64];
    block.copy_from_slice(&message[64 * i..64 * i + 64]);
    block
}

#[inline(always)]
fn word(block: &[u8; 64], i: usize) -> u32
    requires { i + 4 ≤ 64 }
    ensures { result ≡ word_at block.now i }
{
    u32::from_be_bytes([block[i], block[i + 1], block[i + 2], block[i + 3]])
}

// The word at byte `i` of each block.
#[inline(always)]
fn load(blocks: &[[u8; 64]; 4], i: usize) -> u32x4
    requires { i + 4 ≤ 64 }
    ensures { (j : ℕ) → j < 4 → slice_index result j ≡ word_at (slice_index_or blocks.now j []) i }
{
    let [first, second, third, fourth] = blocks;
    u32x4::from_array([
        word(first, i),
        word(second, i),
        word(third, i),
        word(fourth, i),
    ])
}

/// The sixteen words of each block.
#[inline(always)]
pub fn words(blocks: &[[u8; 64]; 4]) -> [u32x4; 16]
    ensures len { length result ≡ 16 }
    ensures each { (j k : ℕ) → j < 4 → k < 16 → lane_at result k j ≡ word_at (slice_index_or blocks.now j []) (4 * k) }
{
    let zero = u32x4::splat(0);
    let mut w = [zero; 16];
    'load: for i in 0..16 {
        w[i] = load(blocks, 4 * i);
    }
    w
}

/// The bytes of a hash value.
#[inline(always)]
pub fn digest(words: [u32; 8]) -> [u8; 32]
    ensures { result ≡ digest_bytes words 8 }
{
    let mut bytes = [0; 32];
    'words: for i in 0..8 {
        bytes[4 * i..4 * i + 4].copy_from_slice(&words[i].to_be_bytes());
    }
    bytes
}

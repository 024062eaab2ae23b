// Four messages of any lengths, block by block (FIPS 180-4, section 6.2.2).

ghost use Rattle.std.specs.Prelude.{◌≡◌, ℕ, ◌+◌, ◌<◌, false, if◌then◌else◌, max, slice_index, slice_index_or};
ghost use Rattle.sha256_lanes.specs.steps.Lanes.{AreHashes, blocks_of, lane};

use crate::blocks::{block_count, block_of};
use crate::rounds::{compress, initial};
use std::simd::u32x4;

#[inline(always)]
fn larger(a: usize, b: usize) -> usize
    ensures { result ≡ max a b }
{
    if a < b { b } else { a }
}

// The blocks of the longest of four messages.
#[inline(always)]
fn most_blocks(first: &[u8], second: &[u8], third: &[u8], fourth: &[u8]) -> usize
    ensures { result ≡ max (max (blocks_of first.now) (blocks_of second.now)) (max (blocks_of third.now) (blocks_of fourth.now)) }
{
    larger(
        larger(block_count(first), block_count(second)),
        larger(block_count(third), block_count(fourth)),
    )
}

/// Whether four messages have as many blocks together as twice the longest.
pub fn are_worthwhile(first: &[u8], second: &[u8], third: &[u8], fourth: &[u8]) -> bool {
    let all = block_count(first) + block_count(second) + block_count(third) + block_count(fourth);
    all / 2 >= most_blocks(first, second, third, fourth)
}

#[inline(always)]
fn either(is_first: bool, x: u32, y: u32) -> u32
    ensures { result ≡ (if is_first then x else y) }
{
    if is_first { x } else { y }
}

// In each lane the word of the one vector or of the other.
#[inline(always)]
fn mixed(are_first: [bool; 4], x: u32x4, y: u32x4) -> u32x4
    ensures { (j : ℕ) → j < 4 → slice_index result j ≡ (if slice_index_or are_first j false then slice_index x j else slice_index y j) }
{
    let [f0, f1, f2, f3] = are_first;
    let [x0, x1, x2, x3] = x.to_array();
    let [y0, y1, y2, y3] = y.to_array();
    u32x4::from_array([
        either(f0, x0, y0),
        either(f1, x1, y1),
        either(f2, x2, y2),
        either(f3, x3, y3),
    ])
}

// In each lane the one hash value or the other.
fn mixed_each(are_first: [bool; 4], x: [u32x4; 8], y: [u32x4; 8]) -> [u32x4; 8]
    ensures { (j : ℕ) → j < 4 → lane j result ≡ (if slice_index_or are_first j false then lane j x else lane j y) }
{
    let [x0, x1, x2, x3, x4, x5, x6, x7] = x;
    let [y0, y1, y2, y3, y4, y5, y6, y7] = y;
    [
        mixed(are_first, x0, y0),
        mixed(are_first, x1, y1),
        mixed(are_first, x2, y2),
        mixed(are_first, x3, y3),
        mixed(are_first, x4, y4),
        mixed(are_first, x5, y5),
        mixed(are_first, x6, y6),
        mixed(are_first, x7, y7),
    ]
}

// In each lane the later hash value where the message has the block, and else the earlier.
#[inline(always)]
fn kept(have: [bool; 4], later: [u32x4; 8], earlier: [u32x4; 8]) -> [u32x4; 8]
    ensures { (j : ℕ) → j < 4 → lane j result ≡ (if slice_index_or have j false then lane j later else lane j earlier) }
{
    let [first, second, third, fourth] = have;
    if first && second && third && fourth {
        return later;
    }
    mixed_each(have, later, earlier)
}

// The hash values after one more block of each message that has it.
#[inline(always)]
fn take_block(
    first: &[u8],
    second: &[u8],
    third: &[u8],
    fourth: &[u8],
    state: [u32x4; 8],
    i: usize,
) -> [u32x4; 8]
    ensures { AreHashes first.now second.now third.now fourth.now state i → AreHashes first.now second.now third.now fourth.now result (i + 1) }
{
    let blocks = [
        block_of(first, i),
        block_of(second, i),
        block_of(third, i),
        block_of(fourth, i),
    ];
    let have = [
        i < block_count(first),
        i < block_count(second),
        i < block_count(third),
        i < block_count(fourth),
    ];
    kept(have, compress(state, &blocks), state)
}

/// The hash value of each of four messages. It goes over as many blocks as the longest has.
pub fn hash_values(first: &[u8], second: &[u8], third: &[u8], fourth: &[u8]) -> [u32x4; 8]
    ensures { AreHashes first.now second.now third.now fourth.now result (max (max (blocks_of first.now) (blocks_of second.now)) (max (blocks_of third.now) (blocks_of fourth.now))) }
{
    let most = most_blocks(first, second, third, fourth);
    let mut state = initial();
    'turn: for i in 0..most {
        let next = take_block(first, second, third, fourth, state, i);
        state = next;
    }
    state
}

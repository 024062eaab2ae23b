// Chains of a leaf side by side: they do not depend on each other, so that four go on at a time (RFC 8554, section 4.3).

ghost use Rattle.std.specs.Prelude.{◌≡◌, ℕ, ◌+◌, ◌<◌, ◌≤◌, ◌^◌, length, slice_index, take, MatchOption};
ghost use Rattle.lms.specs.Parameters.{chain_count};
ghost use Rattle.lms.specs.Chains.{chain_input as chain_input_of, ends_hash as ends_hash_of};
ghost use Rattle.lms.specs.steps.Lanes.{AreDone, AreFew, AreGoing, IsAhead, IsFirstGoing, IsGoing, all_ends, all_left, chain_at, cut_chains as cut_chains_of, ends, left};

use crate::arrays::place;
use crate::chains::{chain, chain_input, coef, with_checksum};
use crate::hashes::{ENDS, finish, finish_lanes, marked};
use crate::{OtsType, Steps};
use sha2::Digest;

/// The most chains of a leaf.
pub const MOST_CHAINS: usize = 265;

/// A chain of a leaf: its number, the number that it has come to, the last one, and the value that it has come to.
#[derive(Clone, Copy)]
pub struct Chain {
    pub index: u16,
    pub from: u8,
    pub to: u8,
    pub value: [u8; 32],
}

/// A chain of no steps, for places that hold none.
pub const NO_CHAIN: Chain = Chain {
    index: 0,
    from: 0,
    to: 0,
    value: [0; 32],
};

// What the next step of the chain hashes.
#[inline(always)]
fn message(identifier: &[u8; 16], q: u32, chain: &Chain) -> [u8; 55]
    ensures { result ≡ chain_input_of identifier.now q chain.now.index chain.now.value chain.now.from }
{
    let mut input = chain_input(identifier, q, chain.index, &chain.value);
    place(&mut input, 22, &[chain.from]);
    input
}

// The chain one step on, where it has this value.
#[inline(always)]
fn moved(chain: &Chain, value: [u8; 32]) -> Chain
    requires { chain.now.from < chain.now.to }
    ensures { result ≡ record chain.now { from = chain.now.from + 1; value = value } }
{
    Chain {
        index: chain.index,
        from: chain.from + 1,
        to: chain.to,
        value,
    }
}

// One step of each of four chains.
#[inline(always)]
fn step(identifier: &[u8; 16], q: u32, chains: &[Chain; 4], steps: &mut Steps) -> [Chain; 4]
    requires going { (i : ℕ) → i < 4 → IsGoing chains.now i }
    requires room { steps.old + 4 < 2 ^ 64 }
    ensures ahead { (i : ℕ) → i < 4 → IsAhead identifier.now q 1 (chain_at chains.now i) (chain_at result i) }
    ensures count { steps.new ≡ steps.old + 4 }
{
    let [a, b, c, d] = chains;
    let messages = [
        message(identifier, q, a),
        message(identifier, q, b),
        message(identifier, q, c),
        message(identifier, q, d),
    ];
    let [first, second, third, fourth] = finish_lanes(&messages, steps);
    [
        moved(a, first),
        moved(b, second),
        moved(c, third),
        moved(d, fourth),
    ]
}

// How many steps all four chains can go on.
fn least_left(chains: &[Chain; 4]) -> u8
    requires { (i : ℕ) → i < 4 → IsGoing chains.now i }
    ensures some { 0 < result }
    ensures each { (i : ℕ) → i < 4 → result ≤ left (chain_at chains.now i) }
    ensures most { (n : ℕ) → ((i : ℕ) → i < 4 → n ≤ left (chain_at chains.now i)) → n ≤ result }
{
    let [a, b, c, d] = chains;
    let front = (a.to - a.from).min(b.to - b.from);
    let back = (c.to - c.from).min(d.to - d.from);
    front.min(back)
}

// Four chains go on side by side until one of them is at its end.
fn run_four(
    identifier: &[u8; 16],
    q: u32,
    chains: &mut [Chain],
    places: [usize; 4],
    steps: &mut Steps,
)
    requires going { AreGoing chains.old places }
    requires room { steps.old + 1020 < 2 ^ 64 }
    ensures ends { ends identifier.now q chains.new ≡ ends identifier.now q chains.old }
    ensures count { steps.new + all_left chains.new ≡ steps.old + all_left chains.old }
    ensures less { all_left chains.new < all_left chains.old }
    ensures before { (k : ℕ) → k < slice_index places 0 → chain_at chains.new k ≡ chain_at chains.old k }
{
    let [a, b, c, d] = places;
    let mut lanes = [chains[a], chains[b], chains[c], chains[d]];
    let count = least_left(&lanes);
    'steps: for _t in 0..count {
        let next = step(identifier, q, &lanes, steps);
        lanes = next;
    }
    let [first, second, third, fourth] = lanes;
    chains[a] = first;
    chains[b] = second;
    chains[c] = third;
    chains[d] = fourth;
}

// The place of the first chain from there on that is not at its end.
fn going_from(chains: &[Chain], start: usize) -> Option<usize>
    ensures { MatchOption result (AreDone chains.now start (length chains.now)) (λ i. IsFirstGoing chains.now start i) }
{
    for i in start..chains.len() {
        if chains[i].from < chains[i].to {
            return Some(i);
        }
    }
    None
}

// The places of the first four such chains, where all before there are at their ends.
fn four_going(chains: &[Chain], start: usize) -> Option<[usize; 4]>
    requires { AreDone chains.now 0 start }
    ensures { MatchOption result (AreFew chains.now) (λ places. AreGoing chains.now places × AreDone chains.now 0 (slice_index places 0)) }
{
    let a = going_from(chains, start)?;
    let b = going_from(chains, a + 1)?;
    let c = going_from(chains, b + 1)?;
    let d = going_from(chains, c + 1)?;
    Some([a, b, c, d])
}

/// Four chains at a time go on until fewer than four are not at their ends.
pub fn run_lanes(identifier: &[u8; 16], q: u32, chains: &mut [Chain], steps: &mut Steps)
    requires { steps.old + all_left chains.old + 1020 < 2 ^ 64 }
    ensures ends { ends identifier.now q chains.new ≡ ends identifier.now q chains.old }
    ensures count { steps.new + all_left chains.new ≡ steps.old + all_left chains.old }
    ensures few { AreFew chains.new }
{
    let mut start = 0;
    'bursts: while let Some(places) = four_going(chains, start) {
        start = places[0];
        run_four(identifier, q, chains, places, steps);
    }
}

// The hash of the ends of the chains (section 4.3).
fn ends_hash(identifier: &[u8; 16], q: u32, chains: &[Chain], steps: &mut Steps) -> [u8; 32]
    requires { steps.old + all_left chains.now + 1020 < 2 ^ 64 }
    ensures value { result ≡ ends_hash_of identifier.now q (all_ends identifier.now q chains.now) }
    ensures count { steps.new ≡ steps.old + all_left chains.now + 1 }
{
    let mut hash = marked(identifier, q, ENDS);
    'ends: for c in chains {
        let end = chain(identifier, q, c.index, c.from, c.to, &c.value, steps);
        hash.update(end);
    }
    finish(hash, steps)
}

/// The key of the leaf whose chains these are.
pub fn key_of(identifier: &[u8; 16], q: u32, chains: &mut [Chain], steps: &mut Steps) -> [u8; 32]
    requires { steps.old + all_left chains.old + 1020 < 2 ^ 64 }
    ensures value { result ≡ ends_hash_of identifier.now q (all_ends identifier.now q chains.old) }
    ensures count { steps.new ≡ steps.old + all_left chains.old + 1 }
{
    run_lanes(identifier, q, chains, steps);
    ends_hash(identifier, q, chains, steps)
}

/// The chains that the elements of a signature of a hash stand on, first in the array.
pub fn cut_chains(ots: OtsType, hash: &[u8; 32], elements: &[[u8; 32]]) -> [Chain; MOST_CHAINS]
    requires { length elements.now ≡ chain_count ots }
    ensures { take (chain_count ots) result ≡ cut_chains_of ots hash.now elements.now }
{
    let cut = with_checksum(ots, hash);
    let to = ots.chain_end();
    let mut chains = [NO_CHAIN; MOST_CHAINS];
    for (i, element) in elements.iter().enumerate() {
        chains[i] = Chain {
            index: i as u16,
            from: coef(&cut, i, ots),
            to,
            value: *element,
        };
    }
    chains
}

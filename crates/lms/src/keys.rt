// The tree of a seed (RFC 8554, section 5.3 and appendix A).

ghost use Rattle.std.specs.Prelude.{◌≡◌, ◌+◌, ◌*◌, ◌^◌, ◌≤◌, IfOk, take};
ghost use Rattle.lms.specs.Parameters.{chain_count};
ghost use Rattle.lms.specs.Keys.{derived as derived_of, leaf_count, leaf_key as leaf_key_of, node_hash as node_hash_of, public_of as public_key_of};
ghost use Rattle.lms.specs.steps.Lanes.{secret_chains as secret_chains_of};
ghost use Rattle.lms.specs.steps.Leaves.{IsKnown};

use crate::arrays::place;
use crate::lanes::{Chain, MOST_CHAINS, NO_CHAIN, key_of};
use crate::tree::{inner_hash, leaf_hash};
use crate::{OtsType, Params, Seed, Steps};
use sha2::{Digest, Sha256};
use std::alloc::{AllocError, Global};

/// The secret text number `i` of leaf `q`: a private element, or the randomizer.
pub fn derived(seed: &Seed, q: u32, i: u16) -> [u8; 32]
    ensures { result ≡ derived_of seed.now.identifier seed.now.secret q i }
{
    let mut hasher = Sha256::new();
    hasher.update(&seed.identifier);
    hasher.update(q.to_be_bytes());
    hasher.update(i.to_be_bytes());
    hasher.update([0xff]);
    hasher.update(&seed.secret);
    hasher.finalize()
}

// The chains of leaf `q` from their private elements, first in the array.
fn secret_chains(ots: OtsType, seed: &Seed, q: u32) -> [Chain; MOST_CHAINS]
    ensures { take (chain_count ots) result ≡ secret_chains_of ots seed.now.identifier seed.now.secret q }
{
    let to = ots.chain_end();
    let count = ots.chain_count();
    let mut chains = [NO_CHAIN; MOST_CHAINS];
    for i in 0..count {
        chains[usize::from(i)] = Chain {
            index: i,
            from: 0,
            to,
            value: derived(seed, q, i),
        };
    }
    chains
}

// The one-time public key of leaf `q`.
fn leaf_key(ots: OtsType, seed: &Seed, q: u32) -> [u8; 32]
    ensures { result ≡ leaf_key_of ots seed.now.identifier seed.now.secret q }
{
    let mut chains = secret_chains(ots, seed, q);
    let count = usize::from(ots.chain_count());
    key_of(&seed.identifier, q, &mut chains[..count], &mut Steps::new())
}

// The hash of a leaf's node: the one that is known, or that of its key.
fn leaf_node(ots: OtsType, seed: &Seed, leaves: u32, known: &[[u8; 32]], node: u32) -> [u8; 32]
    requires leaf { leaves ≤ node }
    requires known { IsKnown ots seed.now.identifier seed.now.secret leaves known.now }
    ensures { result ≡ node_hash_of ots seed.now.identifier seed.now.secret leaves 0 node }
{
    let q = node - leaves;
    if (q as usize) < known.len() {
        return known[q as usize];
    }
    let key = leaf_key(ots, seed, q);
    leaf_hash(&seed.identifier, node, &key, &mut Steps::new())
}

/// The hash of a node with so many levels below it, in a tree with so many leaves, of which the first are known. Each node below
/// is hashed once.
pub fn node_hash(
    ots: OtsType,
    seed: &Seed,
    leaves: u32,
    known: &[[u8; 32]],
    levels: u32,
    node: u32,
) -> [u8; 32]
    requires first { leaves ≤ node * 2 ^ levels }
    requires last { (node + 1) * 2 ^ levels ≤ 2 ^ 31 }
    requires known { IsKnown ots seed.now.identifier seed.now.secret leaves known.now }
    ensures { result ≡ node_hash_of ots seed.now.identifier seed.now.secret leaves levels node }
{
    if levels == 0 {
        return leaf_node(ots, seed, leaves, known, node);
    }
    let left = node_hash(ots, seed, leaves, known, levels - 1, 2 * node);
    let right = node_hash(ots, seed, leaves, known, levels - 1, 2 * node + 1);
    inner_hash(&seed.identifier, node, &left, &right, &mut Steps::new())
}

/// The hashes of the tree's leaves, the first one's first.
pub fn leaf_nodes(alloc: Global, seed: &Seed, params: Params) -> Result<Vec<[u8; 32]>, AllocError>
    ensures { IfOk result (λ hashes. IsKnown params.ots seed.now.identifier seed.now.secret (leaf_count params) hashes.items) }
{
    let leaves = params.height.lms_type().leaves();
    let mut hashes = Vec::with_capacity(alloc, leaves as usize)?;
    for q in 0..leaves {
        let hash = leaf_node(params.ots, seed, leaves, &[], leaves + q);
        hashes.push(hash)?;
    }
    Ok(hashes)
}

/// The public key of the seed, where the first leaves of its tree are known.
pub fn public_over(seed: &Seed, params: Params, known: &[[u8; 32]]) -> [u8; 56]
    requires { IsKnown params.ots seed.now.identifier seed.now.secret (leaf_count params) known.now }
    ensures { result ≡ public_key_of seed.now params }
{
    let lms = params.height.lms_type();
    let root = node_hash(params.ots, seed, lms.leaves(), known, lms.height(), 1);
    let mut public = [0; 56];
    place(&mut public, 0, &lms.code().to_be_bytes());
    place(&mut public, 4, &params.ots.code().to_be_bytes());
    place(&mut public, 8, &seed.identifier);
    place(&mut public, 24, &root);
    public
}

/// The public key of the seed (sections 4.3 and 5.3): the types, I and T[1], in 56 bytes. It hashes each node of the tree
/// once and takes no memory but the stack of one node for each level.
pub fn public_of(seed: &Seed, params: Params) -> [u8; 56]
    ensures { result ≡ public_key_of seed.now params }
{
    public_over(seed, params, &[])
}

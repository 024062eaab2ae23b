// Signatures of a seed (RFC 8554, sections 4.5 and 5.4.1).

ghost use Rattle.std.specs.Prelude.{◌≡◌, ◌⊎◌, ◌++◌, ◌+◌, ◌*◌, ◌<◌, ◌≤◌, ◌^◌, map, vec_len, vec_capacity, Err, IfErr, OnOk, OnErr, length, take};
ghost use Rattle.std.specs.List.{concat};
ghost use Rattle.lms.specs.Parameters.{chain_count, height, signature_len as signature_len_of, signing_type};
ghost use Rattle.lms.specs.Chains.{below};
ghost use Rattle.lms.specs.Verifies.{Verifies};
ghost use Rattle.lms.specs.Keys.{element, path_hash, public_of, signature_of, signature_bytes, leaf_count};
ghost use Rattle.lms.specs.steps.Lanes.{all_ends, element_chains as element_chains_of};
ghost use Rattle.lms.specs.steps.Leaves.{IsKnown};

use crate::chains::{chain, coef, message_hash, with_checksum};
use crate::keys::{derived, node_hash};
use crate::lanes::{Chain, MOST_CHAINS, NO_CHAIN, run_lanes};
use crate::parts::signature_len;
use crate::{LmsType, OtsType, Params, Seed, SignFault, Steps};

// The number that the randomizer of a leaf is derived with.
const RANDOMIZER: u16 = 0xfffd;

// Appends bytes for which there is room.
fn put(out: &mut Vec<u8>, bytes: &[u8])
    requires { vec_len out.old + length bytes.now ≤ vec_capacity out.old }
    ensures items { out.new.items ≡ out.old.items ++ bytes.now }
    ensures len { vec_len out.new ≡ vec_len out.old + length bytes.now }
    ensures capacity { vec_capacity out.old ≤ vec_capacity out.new }
{
    let _ = out.extend_from_slice(bytes);
}

// The chains of leaf `q` from their private elements to where a hash cuts them, first in the array.
fn element_chains(ots: OtsType, seed: &Seed, q: u32, hash: &[u8; 32]) -> [Chain; MOST_CHAINS]
    ensures { take (chain_count ots) result ≡ element_chains_of ots seed.now.identifier seed.now.secret q hash.now }
{
    let cut = with_checksum(ots, hash);
    let count = ots.chain_count();
    let mut chains = [NO_CHAIN; MOST_CHAINS];
    for i in 0..count {
        chains[usize::from(i)] = Chain {
            index: i,
            from: 0,
            to: coef(&cut, usize::from(i), ots),
            value: derived(seed, q, i),
        };
    }
    chains
}

// Appends the ends of the chains.
fn put_ends(identifier: &[u8; 16], q: u32, chains: &[Chain], out: &mut Vec<u8>)
    requires { vec_len out.old + 32 * length chains.now ≤ vec_capacity out.old }
    ensures items { out.new.items ≡ out.old.items ++ all_ends identifier.now q chains.now }
    ensures len { vec_len out.new ≡ vec_len out.old + 32 * length chains.now }
    ensures capacity { vec_capacity out.old ≤ vec_capacity out.new }
{
    'ends: for c in chains {
        let end = chain(
            identifier,
            q,
            c.index,
            c.from,
            c.to,
            &c.value,
            &mut Steps::new(),
        );
        put(out, &end);
    }
}

// Appends the elements of leaf `q` for a hash.
fn put_elements(ots: OtsType, seed: &Seed, q: u32, hash: &[u8; 32], out: &mut Vec<u8>)
    requires { vec_len out.old + 32 * chain_count ots ≤ vec_capacity out.old }
    ensures items { out.new.items ≡ out.old.items ++ concat (map (element ots seed.now.identifier seed.now.secret q hash.now) (below (chain_count ots))) }
    ensures len { vec_len out.new ≡ vec_len out.old + 32 * chain_count ots }
    ensures capacity { vec_capacity out.old ≤ vec_capacity out.new }
{
    let mut all = element_chains(ots, seed, q, hash);
    let count = usize::from(ots.chain_count());
    let chains = &mut all[..count];
    run_lanes(&seed.identifier, q, chains, &mut Steps::new());
    put_ends(&seed.identifier, q, chains, out);
}

// Appends the siblings on the way from leaf `q` to the root. Each node of the tree beside the way is hashed once.
fn put_path(lms: LmsType, ots: OtsType, seed: &Seed, known: &[[u8; 32]], q: u32, out: &mut Vec<u8>)
    requires leaf { q < 2 ^ height lms }
    requires known { IsKnown ots seed.now.identifier seed.now.secret (2 ^ height lms) known.now }
    requires room { vec_len out.old + 32 * height lms ≤ vec_capacity out.old }
    ensures items { out.new.items ≡ out.old.items ++ concat (map (path_hash lms ots seed.now.identifier seed.now.secret q) (below (height lms))) }
    ensures len { vec_len out.new ≡ vec_len out.old + 32 * height lms }
    ensures capacity { vec_capacity out.old ≤ vec_capacity out.new }
{
    let leaves = lms.leaves();
    let levels = lms.height();
    for i in 0..levels {
        let sibling = ((leaves + q) >> i) ^ 1;
        let hash = node_hash(ots, seed, leaves, known, i, sibling);
        put(out, &hash);
    }
}

// Appends the signature, for which there is room.
fn put_signature(
    lms: LmsType,
    ots: OtsType,
    seed: &Seed,
    known: &[[u8; 32]],
    q: u32,
    message: &[u8],
    out: &mut Vec<u8>,
)
    requires leaf { q < 2 ^ height lms }
    requires known { IsKnown ots seed.now.identifier seed.now.secret (2 ^ height lms) known.now }
    requires room { vec_len out.old + signature_len_of ots lms ≤ vec_capacity out.old }
    ensures { out.new.items ≡ out.old.items ++ signature_bytes lms ots seed.now.identifier seed.now.secret q message.now }
{
    let randomizer = derived(seed, q, RANDOMIZER);
    let hash = message_hash(&seed.identifier, q, &randomizer, message, &mut Steps::new());
    put(out, &q.to_be_bytes());
    put(out, &ots.code().to_be_bytes());
    put(out, &randomizer);
    put_elements(ots, seed, q, &hash, out);
    put(out, &lms.code().to_be_bytes());
    put_path(lms, ots, seed, known, q, out);
}

/// Appends the signature, where the first leaves of the tree are known.
pub fn sign_over(
    seed: &Seed,
    params: Params,
    known: &[[u8; 32]],
    q: u32,
    message: &[u8],
    out: &mut Vec<u8>,
) -> Result<(), SignFault>
    requires { IsKnown params.ots seed.now.identifier seed.now.secret (leaf_count params) known.now }
    ensures ok { OnOk result ((q < leaf_count params) × (out.new.items ≡ out.old.items ++ signature_of seed.now params q message.now)) }
    ensures verifies { q < leaf_count params → Verifies (public_of seed.now params) message.now (signature_of seed.now params q message.now) }
    ensures range { leaf_count params ≤ q → result ≡ Err SignFault.LeafRange }
    ensures fault { IfErr result (λ e. ((e ≡ SignFault.OutOfMemory) × (vec_capacity out.old < vec_len out.old + signature_len_of params.ots (signing_type params.height))) ⊎ ((e ≡ SignFault.LeafRange) × (leaf_count params ≤ q))) }
    ensures unchanged { OnErr result (out.new.items ≡ out.old.items) }
{
    let lms = params.height.lms_type();
    if q >= lms.leaves() {
        return Err(SignFault::LeafRange);
    }
    if out.try_reserve(signature_len(lms, params.ots)).is_err() {
        return Err(SignFault::OutOfMemory);
    }
    put_signature(lms, params.ots, seed, known, q, message, out);
    Ok(())
}

/// Appends the signature of the message with leaf `q`, in 12 + 32 (p + 1) + 32 h bytes. The same arguments always make
/// the same bytes. `LeafRange`: the tree has no such leaf. `OutOfMemory`: the output could not grow. On either the
/// output is as it was.
pub fn sign(
    seed: &Seed,
    params: Params,
    q: u32,
    message: &[u8],
    out: &mut Vec<u8>,
) -> Result<(), SignFault>
    ensures ok { OnOk result ((q < leaf_count params) × (out.new.items ≡ out.old.items ++ signature_of seed.now params q message.now)) }
    ensures verifies { q < leaf_count params → Verifies (public_of seed.now params) message.now (signature_of seed.now params q message.now) }
    ensures range { leaf_count params ≤ q → result ≡ Err SignFault.LeafRange }
    ensures fault { IfErr result (λ e. ((e ≡ SignFault.OutOfMemory) × (vec_capacity out.old < vec_len out.old + signature_len_of params.ots (signing_type params.height))) ⊎ ((e ≡ SignFault.LeafRange) × (leaf_count params ≤ q))) }
    ensures unchanged { OnErr result (out.new.items ≡ out.old.items) }
{
    sign_over(seed, params, &[], q, message, out)
}

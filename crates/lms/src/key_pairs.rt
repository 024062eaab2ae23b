//! A key pair whose tree is hashed once.
ghost use Rattle.std.specs.Prelude.{◌≡◌, ◌⊎◌, ◌++◌, ◌+◌, ◌<◌, ◌≤◌, vec_len, vec_capacity, Err, IfErr, IfOk, OnOk, OnErr};
ghost use Rattle.lms.specs.Parameters.{signature_len as signature_len_of, signing_type};
ghost use Rattle.lms.specs.Keys.{leaf_count, pair, public_of, signature_of};
ghost use Rattle.lms.specs.Verifies.{Verifies};

use crate::keys::{leaf_nodes, public_over};
use crate::parts::signature_len;
use crate::signing::sign_over;
use crate::{Params, Seed, SignFault};
use std::alloc::{AllocError, Global};
use std::marker::Model;

/// A key pair, with the hashes of its tree's leaves, of 32 bytes each. They are most of the work of a public key or a signature, and are
/// made once for both and for all signatures. Contracts see the seed and the parameters.
#[derive(Drop)]
pub struct KeyPair {
    seed: Seed,
    params: Params,
    leaves: Vec<[u8; 32]>,
}

impl Model for KeyPair {
    ghost use Rattle.lms.specs.Keys.{Pair, leaf_count, pair};
    ghost use Rattle.lms.specs.steps.Leaves.{IsKnown};

    ghost Value = { Pair };

    ghost view = { λ p. pair p.seed p.params };

    ghost invariant = { λ p. IsKnown p.params.ots p.seed.identifier p.seed.secret (leaf_count p.params) p.leaves.items };
}

impl KeyPair {
    /// The key pair of the seed. It hashes each leaf of the tree once.
    pub fn new(alloc: Global, seed: &Seed, params: Params) -> Result<KeyPair, AllocError>
        ensures { IfOk result (λ p. p ≡ pair seed.now params) }
    {
        Ok(KeyPair {
            seed: *seed,
            params,
            leaves: leaf_nodes(alloc, seed, params)?,
        })
    }

    /// The seed that it is of.
    pub fn seed(&self) -> &Seed
        ensures { result.now ≡ self.now.seed }
    {
        &self.seed
    }

    /// Its parameters.
    pub fn params(&self) -> Params
        ensures { result ≡ self.now.params }
    {
        self.params
    }

    /// Its public key, as `public_of` makes it. It takes no memory.
    pub fn public(&self) -> [u8; 56]
        ensures { result ≡ public_of self.now.seed self.now.params }
    {
        public_over(&self.seed, self.params, &self.leaves)
    }

    /// How many bytes its signatures have: 12 + 32 (p + 1) + 32 h.
    pub fn signature_len(&self) -> usize
        ensures { result ≡ signature_len_of self.now.params.ots (signing_type self.now.params.height) }
    {
        signature_len(self.params.height.lms_type(), self.params.ots)
    }

    /// Appends the signature of the message with leaf `q`, as `sign` does.
    pub fn sign(&self, q: u32, message: &[u8], out: &mut Vec<u8>) -> Result<(), SignFault>
        ensures ok { OnOk result ((q < leaf_count self.now.params) × (out.new.items ≡ out.old.items ++ signature_of self.now.seed self.now.params q message.now)) }
        ensures verifies { q < leaf_count self.now.params → Verifies (public_of self.now.seed self.now.params) message.now (signature_of self.now.seed self.now.params q message.now) }
        ensures range { leaf_count self.now.params ≤ q → result ≡ Err SignFault.LeafRange }
        ensures fault { IfErr result (λ e. ((e ≡ SignFault.OutOfMemory) × (vec_capacity out.old < vec_len out.old + signature_len_of self.now.params.ots (signing_type self.now.params.height))) ⊎ ((e ≡ SignFault.LeafRange) × (leaf_count self.now.params ≤ q))) }
        ensures unchanged { OnErr result (out.new.items ≡ out.old.items) }
    {
        sign_over(&self.seed, self.params, &self.leaves, q, message, out)
    }
}

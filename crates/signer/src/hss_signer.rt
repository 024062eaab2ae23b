//! A key pair of two levels that signs several documents.
ghost use Rattle.std.specs.Prelude.{◌≡◌, ◌≤◌, IfOk};
ghost use Rattle.lms.specs.HssKeys.{HssPair};
ghost use Rattle.lms.specs.Parameters.{signature_len as signature_len_of, signing_type};
ghost use Rattle.signer.specs.Below.{below_of};
ghost use Rattle.signer.specs.BelowOnce.{hss_signature_len};
ghost use Rattle.signer.specs.Levels.{tree_signature_len};

use leaf_plans::number_of;
use lms::{HssKeyPair, KeyPair, OtsType, Params};
use std::alloc::{AllocError, Global};
use std::marker::Model;

/// A key pair of two levels, and the tree below it that was hashed last. Documents that one tree signs are signed by one `HssSigner`, so that
/// the tree is hashed once. Contracts see the seed and the levels.
#[derive(Drop)]
pub struct HssSigner {
    pair: HssKeyPair,
    q: u32,
    tree: Option<KeyPair>,
}

impl Model for HssSigner {
    ghost use Rattle.std.specs.Prelude.{◌≡◌, IfSome};
    ghost use Rattle.lms.specs.HssKeys.{HssPair};
    ghost use Rattle.signer.specs.Below.{below_of};

    ghost Value = { HssPair };

    ghost view = { λ s. s.pair };

    ghost invariant = { λ s. IfSome s.tree (λ tree. tree ≡ below_of s.pair s.q) };
}

impl HssSigner {
    /// The signer by this pair.
    pub fn new(pair: HssKeyPair) -> HssSigner
        ensures { result ≡ pair }
    {
        HssSigner {
            pair,
            q: 0,
            tree: None,
        }
    }

    /// The pair that it signs by.
    pub fn pair(&self) -> &HssKeyPair
        ensures { result.now ≡ self.now }
    {
        &self.pair
    }

    // How many bytes its signatures have.
    pub(crate) fn signature_len(&self) -> usize
        ensures { result ≡ hss_signature_len self.now }
    {
        let levels = self.pair.levels();
        4 + signature_len(levels.top) + 56 + signature_len(levels.bottom)
    }

    // Hands out the tree that leaf `q` of the top tree signs: the one that was hashed last, if it is this one.
    pub(crate) fn take_tree(&mut self, alloc: Global, q: u32) -> Result<KeyPair, AllocError>
        ensures same { self.new ≡ self.old }
        ensures tree { IfOk result (λ tree. tree ≡ below_of self.old q) }
    {
        match self.tree.take() {
            Some(tree) if self.q == q => Ok(tree),
            _ => self.pair.below(alloc, q),
        }
    }

    // Takes the tree back.
    pub(crate) fn keep_tree(&mut self, q: u32, tree: KeyPair)
        requires { tree ≡ below_of self.old q }
        ensures { self.new ≡ self.old }
    {
        self.q = q;
        self.tree = Some(tree);
    }
}

// How many bytes the signatures of a tree have.
fn signature_len(params: Params) -> usize
    ensures value { result ≡ tree_signature_len params }
    ensures few { result ≤ 8844 }
{
    let chains = match params.ots {
        OtsType::W1 => 265,
        OtsType::W2 => 133,
        OtsType::W4 => 67,
        OtsType::W8 => 34,
    };
    12 + 32 * (chains + 1) + 32 * number_of(params.height) as usize
}

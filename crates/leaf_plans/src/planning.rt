//! What is to be done, by what the book holds.
ghost use Rattle.std.specs.Prelude.{◌≡◌, ◌≤◌, ◌<◌, ℕ, List, map, MatchBool, MatchOption};
ghost use Rattle.lms.specs.declared.Params.{Params};
ghost use Rattle.sqlite_rules.specs.Lists.{Has};
ghost use Rattle.keys_roles.specs.Views.{id_text};
ghost use Rattle.leaf_plans.specs.Book.{IsBook, IsLeastUnused, IsRegistered, IsUnused, IsUsed, Keeps, LacksMessage};
ghost use Rattle.leaf_plans.specs.Views.{book_view, kept_view, signer_view};
ghost use Rattle.leaf_plans.specs.Planning.{HasNoLeaf, IsNextLeaf, IsPlan};

use crate::compared::is_same;
use crate::entries::{LeafRow, Signer};
use crate::parameters::{leaves_of, same_params};
use keys_roles::{KeyId, same_id};
use lms::Params;

/// The parameters of the key that stand first.
pub fn params_of(signers: &[Signer], key: &KeyId) -> Option<Params>
    ensures { MatchOption result ((params : Params) → Has (map signer_view signers.now) (record { key = id_text key.now; params = params }) → ⊥)
        (λ params. Has (map signer_view signers.now) (record { key = id_text key.now; params = params })) }
{
    let mut rest = signers;
    'signers: while let Some((signer, later)) = rest.split_first() {
        if same_id(&signer.key, key) {
            return Some(signer.params);
        }
        rest = later;
    }
    None
}

/// Whether a key stands there with these parameters.
pub fn has_params(signers: &[Signer], params: Params) -> bool
    ensures { MatchBool result ((key : List ℕ) × Has (map signer_view signers.now) (record { key = key; params = params }))
        ((key : List ℕ) → Has (map signer_view signers.now) (record { key = key; params = params }) → ⊥) }
{
    let mut rest = signers;
    'signers: while let Some((signer, later)) = rest.split_first() {
        if same_params(signer.params, params) {
            return true;
        }
        rest = later;
    }
    false
}

/// The leaf of the key that is kept for the message.
pub fn leaf_for(leaves: &[LeafRow], key: &KeyId, message: &[u8]) -> Option<u32>
    ensures { MatchOption result ((leaf : ℕ) → Has (map kept_view leaves.now) (record { key = id_text key.now; leaf = leaf; message = message.now }) → ⊥)
        (λ leaf. Has (map kept_view leaves.now) (record { key = id_text key.now; leaf = leaf; message = message.now })) }
{
    let mut rest = leaves;
    'leaves: while let Some((kept, later)) = rest.split_first() {
        if is_for(kept, key, message) {
            return Some(kept.leaf);
        }
        rest = later;
    }
    None
}

// Whether the leaf is one of the key, kept for the message.
fn is_for(kept: &LeafRow, key: &KeyId, message: &[u8]) -> bool
    ensures { MatchBool result (kept_view kept.now ≡ record { key = id_text key.now; leaf = kept.now.leaf; message = message.now })
        ((leaf : ℕ) → kept_view kept.now ≡ record { key = id_text key.now; leaf = leaf; message = message.now } → ⊥) }
{
    same_id(&kept.key, key) && is_same(kept.message.as_slice(), message)
}

// Whether the entry is one of the key's leaf.
fn is_of(kept: &LeafRow, key: &KeyId, leaf: u32) -> bool
    ensures { MatchBool result (kept_view kept.now ≡ record { key = id_text key.now; leaf = leaf; message = kept.now.message.items })
        ((message : List ℕ) → kept_view kept.now ≡ record { key = id_text key.now; leaf = leaf; message = message } → ⊥) }
{
    kept.leaf == leaf && same_id(&kept.key, key)
}

// Whether the leaf of the key is kept for some message.
fn is_used(leaves: &[LeafRow], key: &KeyId, leaf: u32) -> bool
    ensures { MatchBool result ((message : List ℕ) × Has (map kept_view leaves.now) (record { key = id_text key.now; leaf = leaf; message = message }))
        ((message : List ℕ) → Has (map kept_view leaves.now) (record { key = id_text key.now; leaf = leaf; message = message }) → ⊥) }
{
    let mut rest = leaves;
    'leaves: while let Some((kept, later)) = rest.split_first() {
        if is_of(kept, key, leaf) {
            return true;
        }
        rest = later;
    }
    false
}

// So many leaves of the key are used, from the first on. Where rows stand in the order in which leaves are given out, these are all of them.
fn used_in_order(leaves: &[LeafRow], key: &KeyId) -> u32
    ensures { (n : ℕ) → n < result → (message : List ℕ) × Has (map kept_view leaves.now) (record { key = id_text key.now; leaf = n; message = message }) }
{
    let mut next: u32 = 0;
    let mut rest = leaves;
    'leaves: while let Some((kept, later)) = rest.split_first() {
        if is_of(kept, key, next) {
            next = next.saturating_add(1);
        }
        rest = later;
    }
    next
}

// The least leaf of the key below `count` that is not used. It goes over the rows twice where they stand in order.
fn least_unused(leaves: &[LeafRow], key: &KeyId, count: u32) -> Option<u32>
    ensures { MatchOption result ((n : ℕ) → n < count → (message : List ℕ) × Has (map kept_view leaves.now) (record { key = id_text key.now; leaf = n; message = message }))
        (λ leaf. (leaf < count) × ((message : List ℕ) → Has (map kept_view leaves.now) (record { key = id_text key.now; leaf = leaf; message = message }) → ⊥)
        × ((n : ℕ) → n < leaf → (message : List ℕ) × Has (map kept_view leaves.now) (record { key = id_text key.now; leaf = n; message = message }))) }
{
    let begun = used_in_order(leaves, key);
    'numbers: for leaf in begun..count {
        if !is_used(leaves, key, leaf) {
            return Some(leaf);
        }
    }
    None
}

/// The least leaf of a registered key that is not used. `None` where each is used, and where the key is not registered.
pub fn next_leaf(signers: &[Signer], leaves: &[LeafRow], key: &KeyId) -> Option<u32>
    ensures { MatchOption result (HasNoLeaf (book_view signers.now leaves.now) (id_text key.now)) (λ leaf. IsNextLeaf (book_view signers.now leaves.now) (id_text key.now) leaf) }
{
    match params_of(signers, key) {
        Some(params) => least_unused(leaves, key, leaves_of(params)),
        None => None,
    }
}

/// What `reserve` is to do.
#[derive(Debug, Clone, Copy)]
pub enum Plan {
    /// The leaf is kept for the message already.
    Held(u32, Params),
    /// The leaf is to be kept for the message.
    New(u32, Params),
    /// All leaves are used, and the message has none.
    Spent,
    /// The key is not registered.
    Unknown,
}

/// Where the message has a leaf it is that one, else the least that is not used.
pub fn plan_for(signers: &[Signer], leaves: &[LeafRow], key: &KeyId, message: &[u8]) -> Plan
    requires { IsBook (book_view signers.now leaves.now) }
    ensures { IsPlan (book_view signers.now leaves.now) (id_text key.now) message.now result }
{
    let Some(params) = params_of(signers, key) else {
        return Plan::Unknown;
    };
    if let Some(leaf) = leaf_for(leaves, key, message) {
        return Plan::Held(leaf, params);
    }
    match least_unused(leaves, key, leaves_of(params)) {
        Some(leaf) => Plan::New(leaf, params),
        None => Plan::Spent,
    }
}

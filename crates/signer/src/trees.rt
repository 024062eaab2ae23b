//! Which tree below a top tree signs a message (RFC 8554, section 6.2).
ghost use Rattle.std.specs.Prelude.{◌≡◌, ◌≢◌, ◌<◌, ℕ, List, length, map, IsTrue, MatchBool, MatchOption};
ghost use Rattle.sqlite_rules.specs.Lists.{Has};
ghost use Rattle.lms.specs.Parameters.{lms_code as lms_code_of, signing_type};
ghost use Rattle.keys_roles.specs.Keys.{id_of as key_id_of};
ghost use Rattle.keys_roles.specs.Plain.{hss};
ghost use Rattle.keys_roles.specs.Views.{id_text};
ghost use Rattle.leaf_plans.specs.Book.{IsLeastUnused, Keeps};
ghost use Rattle.leaf_plans.specs.Planning.{AreUsed};
ghost use Rattle.leaf_plans.specs.Views.{kept_view};
ghost use Rattle.lms.specs.HssKeys.{hss_public_of};
ghost use Rattle.signer.specs.Below.{HasLeafBelow, HasNoTreeFor, IsFirst, IsHeldBelow, IsKeyBelow, IsNever, IsTreeFor, IsTreeOf, KeepsBelow, hss_key_of, lms_key_of, top_of};
ghost use Rattle.signer.specs.Levels.{IsLeafFor, key_by};

use crate::files::id_of;
use keys_roles::{Key, KeyId, key_id, same_id};
use leaf_book::Book;
use leaf_plans::{LeafRow, code_of, is_same, leaf_for, leaves_of};
use lms::{HssKeyPair, SigningHeight, child_of};
use sqlite::Alter;
use std::alloc::Global;

/// The id of a key of two levels.
pub fn hss_id(alloc: Global, pair: &HssKeyPair) -> KeyId
    ensures { id_text result ≡ hss_key_of pair.now }
{
    match key_id(alloc, &Key::Hss(pair.public())) {
        Ok(id) => id,
        Err(_) => KeyId([0; 32]),
    }
}

/// Which leaf of the top tree, and so which tree below it, a message gets: the first tree that keeps the message already; where none does,
/// the first that has a leaf left; where none has, a new one, below the least leaf of the top tree that is not used. `None` where all leaves
/// are used. A leaf of the top tree that is kept for anything but the key of the tree below it, as for a document that the seed signed as a
/// key of one level, is none of a tree. It hashes no tree, and takes no memory.
pub fn tree_for<S: Alter>(
    alloc: Global,
    book: &Book<S>,
    pair: &HssKeyPair,
    message: &[u8],
) -> Option<u32>
    ensures { MatchOption result (HasNoTreeFor book.now.book pair.now message.now) (λ q. IsTreeFor book.now.book pair.now message.now q) }
{
    if let Some((q, _)) = kept_below(alloc, book, pair, message) {
        return Some(q);
    }
    if let Some(q) = first_open(alloc, book, pair) {
        return Some(q);
    }
    next_of(book, &id_of(alloc, pair.top()))
}

/// The first tree that keeps the message, by its leaf of the top tree, and the leaf of the tree. It hashes no tree, and takes no memory.
pub fn kept_below<S: Alter>(
    alloc: Global,
    book: &Book<S>,
    pair: &HssKeyPair,
    message: &[u8],
) -> Option<(u32, u32)>
    ensures { MatchOption result (IsNever (IsHeldBelow book.now.book pair.now message.now))
        (λ found. KeepsBelow book.now.book pair.now message.now found.0 found.1 × IsFirst (IsHeldBelow book.now.book pair.now message.now) found.0) }
{
    let count = used_within(book, &id_of(alloc, pair.top()));
    'trees: for q in 0..count {
        if let Some(leaf) = leaf_below(alloc, book, pair, q, message) {
            return Some((q, leaf));
        }
    }
    None
}

// The first tree that has a leaf left.
fn first_open<S: Alter>(alloc: Global, book: &Book<S>, pair: &HssKeyPair) -> Option<u32>
    ensures { MatchOption result (IsNever (HasLeafBelow book.now.book pair.now)) (IsFirst (HasLeafBelow book.now.book pair.now)) }
{
    let count = used_within(book, &id_of(alloc, pair.top()));
    'trees: for q in 0..count {
        if is_open(alloc, book, pair, q) {
            return Some(q);
        }
    }
    None
}

// The number that the leaves of the key are below which are kept for any message: those of its tree, or none.
pub(crate) fn used_within<S: Alter>(book: &Book<S>, key: &KeyId) -> u32
    ensures { (leaf : ℕ) (message : List ℕ) → Keeps book.now.book (id_text key.now) leaf message → leaf < result }
{
    book.rests();
    match book.registered(key) {
        Some(params) => leaves_of(params),
        None => 0,
    }
}

// The leaf of the tree below leaf q that is kept for the message.
fn leaf_below<S: Alter>(
    alloc: Global,
    book: &Book<S>,
    pair: &HssKeyPair,
    q: u32,
    message: &[u8],
) -> Option<u32>
    ensures { MatchOption result ((leaf : ℕ) → KeepsBelow book.now.book pair.now message.now q leaf → ⊥) (λ leaf. KeepsBelow book.now.book pair.now message.now q leaf) }
{
    book.rests();
    match tree_at(alloc, book, pair, q) {
        Some(key) => leaf_for(book.kept(), &key, message),
        None => None,
    }
}

// Whether the tree below leaf q has a leaf left.
fn is_open<S: Alter>(alloc: Global, book: &Book<S>, pair: &HssKeyPair, q: u32) -> bool
    ensures { MatchBool result (HasLeafBelow book.now.book pair.now q) (HasLeafBelow book.now.book pair.now q → ⊥) }
{
    book.rests();
    match tree_at(alloc, book, pair, q) {
        Some(key) => has_leaf(book, &key),
        None => false,
    }
}

// Whether the key has a leaf left.
fn has_leaf<S: Alter>(book: &Book<S>, key: &KeyId) -> bool
    ensures { MatchBool result (AreUsed book.now.book (id_text key.now) → ⊥) (AreUsed book.now.book (id_text key.now)) }
{
    next_of(book, key).is_some()
}

// The least leaf of the key that is not used. A key that is not registered has used none.
fn next_of<S: Alter>(book: &Book<S>, key: &KeyId) -> Option<u32>
    ensures { MatchOption result (AreUsed book.now.book (id_text key.now))
        (λ leaf. (AreUsed book.now.book (id_text key.now) → ⊥) × IsLeastUnused book.now.book (id_text key.now) leaf) }
{
    book.rests();
    match book.registered(key) {
        Some(_) => book.next_leaf(key),
        None => Some(0),
    }
}

// The id of the key that leaf q of the top tree is kept for, if it is the key of the tree below it.
fn tree_at<S: Alter>(alloc: Global, book: &Book<S>, pair: &HssKeyPair, q: u32) -> Option<KeyId>
    ensures { MatchOption result ((public : List ℕ) → IsTreeOf book.now.book pair.now q public → ⊥)
        (λ key. (public : List ℕ) × IsTreeOf book.now.book pair.now q public × (id_text key ≡ lms_key_of public)) }
{
    book.rests();
    let top = id_of(alloc, pair.top());
    let Some(message) = message_of(book.kept(), &top, q) else {
        return None;
    };
    if !is_key_below(pair, q, message) {
        return None;
    }
    Some(lms_id(alloc, message))
}

// The message that the leaf of the key is kept for.
pub(crate) fn message_of<'a>(leaves: &'a [LeafRow], key: &KeyId, leaf: u32) -> Option<&'a [u8]>
    ensures { MatchOption result ((message : List ℕ) → Has (map kept_view leaves.now) (record { key = id_text key.now; leaf = leaf; message = message }) → ⊥)
        (λ message. Has (map kept_view leaves.now) (record { key = id_text key.now; leaf = leaf; message = message.now })) }
{
    let mut rest = leaves;
    'leaves: while let Some((kept, later)) = rest.split_first() {
        if is_of(kept, key, leaf) {
            return Some(kept.message.as_slice());
        }
        rest = later;
    }
    None
}

// Whether the entry is one of the key's leaf.
fn is_of(kept: &LeafRow, key: &KeyId, leaf: u32) -> bool
    ensures { MatchBool result (kept_view kept.now ≡ record { key = id_text key.now; leaf = leaf; message = kept.now.message.items })
        ((message : List ℕ) → kept_view kept.now ≡ record { key = id_text key.now; leaf = leaf; message = message } → ⊥) }
{
    kept.leaf == leaf && same_id(&kept.key, key)
}

// Whether the bytes are a public key of the types and with the I of the tree below leaf q.
fn is_key_below(pair: &HssKeyPair, q: u32, bytes: &[u8]) -> bool
    ensures key { MatchBool result (IsKeyBelow pair.now q bytes.now) (IsKeyBelow pair.now q bytes.now → ⊥) }
    ensures long { IsTrue result → length bytes.now ≡ 56 }
{
    let bottom = pair.levels().bottom;
    let seed = child_of(pair.top().seed(), q);
    if bytes.len() != 56 {
        return false;
    }
    if !is_same(&bytes[..4], &lms_code(bottom.height).to_be_bytes()) {
        return false;
    }
    if !is_same(&bytes[4..8], &code_of(bottom.ots).to_be_bytes()) {
        return false;
    }
    is_same(&bytes[8..24], &seed.identifier)
}

// The number of an LMS type (RFC 8554, section 5.1).
pub(crate) fn lms_code(height: SigningHeight) -> u32
    ensures { result ≡ lms_code_of (signing_type height) }
{
    match height {
        SigningHeight::H5 => 5,
        SigningHeight::H10 => 6,
    }
}

// The id of the LMS key of these bytes.
pub(crate) fn lms_id(alloc: Global, public: &[u8]) -> KeyId
    requires { length public.now ≡ 56 }
    ensures { id_text result ≡ lms_key_of public.now }
{
    let mut bytes = [0; 56];
    bytes.copy_from_slice(public);
    match key_id(alloc, &Key::Lms(bytes)) {
        Ok(id) => id,
        Err(_) => KeyId([0; 32]),
    }
}

// Whether the leaf is the one that the book keeps for the message, or would keep for it.
pub(crate) fn is_leaf_for<S: Alter>(book: &Book<S>, key: &KeyId, message: &[u8], leaf: u32) -> bool
    ensures { MatchBool result (IsLeafFor book.now.book (id_text key.now) message.now leaf) (IsLeafFor book.now.book (id_text key.now) message.now leaf → ⊥) }
{
    book.rests();
    match leaf_that(book, key, message) {
        Some(found) => is_number(found, leaf),
        None => false,
    }
}

fn is_number(found: u32, leaf: u32) -> bool
    ensures { MatchBool result (found ≡ leaf) (found ≢ leaf) }
{
    found == leaf
}

// The leaf that the book keeps for the message, or would keep for it.
fn leaf_that<S: Alter>(book: &Book<S>, key: &KeyId, message: &[u8]) -> Option<u32>
    ensures { MatchOption result ((leaf : ℕ) → IsLeafFor book.now.book (id_text key.now) message.now leaf → ⊥) (λ leaf. IsLeafFor book.now.book (id_text key.now) message.now leaf) }
{
    match leaf_for(book.kept(), key, message) {
        Some(leaf) => Some(leaf),
        None => next_of(book, key),
    }
}

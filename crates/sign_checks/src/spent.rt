//! The one-time keys that a signature is by, and whether a book keeps them for what they sign.
use keys_roles::{Key, KeyId, key_id, top_key};
use leaf_plans::leaves_of;
use lms::signature_len;
use signer::{Book, keeps, leaf_of, params_in};
use sqlite::Alter;
use std::alloc::{AllocError, Global};

/// The leaf of a key's tree that a signature is by; of a key of two levels the leaf of the top tree, and the tree below it with its leaf.
#[derive(Drop)]
pub struct Spent {
    leaf: u32,
    below: Option<Below>,
}

// A tree below, by its key and the id of this, and its leaf.
#[derive(Clone, Copy)]
struct Below {
    key: Key,
    id: KeyId,
    leaf: u32,
}

impl Spent {
    /// What a signature in hex digits is by, where it is one of the key's scheme (RFC 8554, sections 5.4 and 6.2).
    pub fn of(alloc: Global, key: &Key, sig: &str) -> Result<Option<Spent>, AllocError> {
        match key {
            Key::Lms(_) => Ok(one_level(sig)),
            Key::Hss(_) => two_levels(alloc, key, sig),
        }
    }

    /// Whether the book keeps each of these leaves for what it signs. `top` is the id of the key of the top tree.
    pub fn is_kept<S: Alter>(&self, book: &Book<S>, top: &KeyId, signed: &[u8]) -> bool {
        match &self.below {
            None => keeps(book, top, self.leaf, signed),
            Some(below) => {
                keeps(book, top, self.leaf, top_key(&below.key))
                    && keeps(book, &below.id, below.leaf, signed)
            }
        }
    }

    /// Whether the book keeps the leaf for something else: the lower one, or that of the top tree for another tree.
    pub fn is_used<S: Alter>(&self, book: &Book<S>, top: &KeyId) -> bool {
        match &self.below {
            None => is_used(book, top, self.leaf),
            Some(below) => {
                if keeps(book, top, self.leaf, top_key(&below.key)) {
                    is_used(book, &below.id, below.leaf)
                } else {
                    is_used(book, top, self.leaf)
                }
            }
        }
    }

    /// The number of the leaf among all that the key signs by: of two levels those of all trees below, one after the other.
    pub fn number(&self) -> u32 {
        match &self.below {
            None => self.leaf,
            Some(below) => {
                let each = params_in(top_key(&below.key)).map_or(0, |params| leaves_of(params));
                self.leaf.saturating_mul(each).saturating_add(below.leaf)
            }
        }
    }
}

fn one_level(sig: &str) -> Option<Spent> {
    let leaf = leaf_of(sig)?;
    Some(Spent { leaf, below: None })
}

// u32 1, a signature of the top tree, the public key of the tree below, and a signature of it.
fn two_levels(alloc: Global, key: &Key, sig: &str) -> Result<Option<Spent>, AllocError> {
    let Some((leaf, lower, below)) = parts_of(key, sig) else {
        return Ok(None);
    };
    let id = key_id(alloc, &below)?;
    let below = Below {
        key: below,
        id,
        leaf: lower,
    };
    Ok(Some(Spent {
        leaf,
        below: Some(below),
    }))
}

// The leaf of the top tree, that of the tree below, and the key of this.
fn parts_of(key: &Key, sig: &str) -> Option<(u32, u32, Key)> {
    if sig.get(..8)? != "00000001" {
        return None;
    }
    let leaf = leaf_of(sig.get(8..)?)?;
    let top = params_in(top_key(key))?;
    let from = signature_len(top.height.lms_type(), top.ots)
        .saturating_mul(2)
        .saturating_add(8);
    let to = from.saturating_add(112);
    let below = key_in(sig.get(from..to)?)?;
    let lower = leaf_of(sig.get(to..)?)?;
    Some((leaf, lower, below))
}

// The key that these 112 digits are.
fn key_in(digits: &str) -> Option<Key> {
    let mut public = [0; 56];
    match hex::decode_to_slice(digits, &mut public) {
        Ok(()) => Some(Key::Lms(public)),
        Err(_) => None,
    }
}

// Whether the book keeps the leaf of a key for anything.
fn is_used<S: Alter>(book: &Book<S>, id: &KeyId, leaf: u32) -> bool {
    for kept in book.kept() {
        if kept.key == *id && kept.leaf == leaf {
            return true;
        }
    }
    false
}

//! How many bytes the signatures add that a document wants.
use draft_folder::Vouching;
use keys_roles::{Key, KeyId, KeyTable, RoleRule, Signature, top_key};
use lms::{LmsType, OtsType, signature_len};
use std::alloc::{AllocError, Global};

// An entry of a file's signatures in its canonical form, without the digits of the id and of the signature.
const ENTRY: &str = "{\"keyid\":\"\",\"sig\":\"\"}";

// The digits of a key's id.
const ID_DIGITS: usize = 64;

// The bytes of a number in a signature (RFC 8554, section 6.2).
const NUMBER: usize = 4;

// The bytes of the public key of a tree (RFC 8554, section 5.3).
const TREE_KEY: usize = 56;

/// The bytes that a file grows by at least until it has the signatures that each of these rules wants, where these stand in it. A key that has
/// an entry adds nothing more.
pub fn wanted_len(
    alloc: Global,
    rules: &[Vouching],
    signatures: &[Signature],
) -> Result<usize, AllocError> {
    let mut most = 0usize;
    for vouching in rules {
        let wanted = wanted_by(alloc, &vouching.rule, &vouching.keys, signatures)?;
        most = most.max(wanted);
    }
    Ok(most)
}

/// The same of one rule: the shortest entries that its other keys make, as many as are wanted.
pub fn wanted_by(
    alloc: Global,
    rule: &RoleRule,
    keys: &KeyTable,
    signatures: &[Signature],
) -> Result<usize, AllocError> {
    let mut lengths = Vec::new(alloc);
    let mut wanted = usize::from(rule.threshold);
    for id in &rule.keyids {
        if has_entry(signatures, id) {
            wanted = wanted.saturating_sub(1);
        } else if let Some(key) = key_of(keys, id) {
            lengths.push(entry_len(key))?;
        }
    }
    lengths.sort_unstable();
    Ok(sum_of(&lengths, wanted, signatures.is_empty()))
}

fn has_entry(signatures: &[Signature], id: &KeyId) -> bool {
    signatures.iter().any(|signature| signature.keyid == *id)
}

fn key_of<'a>(keys: &'a KeyTable, id: &KeyId) -> Option<&'a Key> {
    for (known, key) in &keys.entries {
        if known == id {
            return Some(key);
        }
    }
    None
}

// The bytes of the first so many entries, with a comma before each but the first of a file.
fn sum_of(lengths: &[usize], wanted: usize, is_first: bool) -> usize {
    let mut sum = 0usize;
    for length in lengths.iter().take(wanted) {
        sum = sum.saturating_add(*length).saturating_add(1);
    }
    if is_first { sum.saturating_sub(1) } else { sum }
}

// The bytes of an entry by the key, whose signature stands in hex digits.
fn entry_len(key: &Key) -> usize {
    signature_bytes(key)
        .saturating_mul(2)
        .saturating_add(ID_DIGITS)
        .saturating_add(ENTRY.len())
}

// The bytes of a signature by the key. Of one of several levels the public key does not say of which types the trees below the top one are:
// each is counted as the one of the shortest signatures.
fn signature_bytes(key: &Key) -> usize {
    let top = tree_bytes(top_key(key));
    match key {
        Key::Lms(_) => top,
        Key::Hss(public) => {
            let levels = usize::from(public[3]);
            let each = signature_len(LmsType::H5, OtsType::W8).saturating_add(TREE_KEY);
            let below = levels.saturating_sub(1).saturating_mul(each);
            top.saturating_add(NUMBER).saturating_add(below)
        }
    }
}

// The bytes of a signature by a tree, by the two types that its public key begins with.
fn tree_bytes(public: &[u8; 56]) -> usize {
    signature_len(tree_type(public[3]), chains_type(public[7]))
}

fn tree_type(code: u8) -> LmsType {
    match code {
        6 => LmsType::H10,
        7 => LmsType::H15,
        8 => LmsType::H20,
        9 => LmsType::H25,
        _ => LmsType::H5,
    }
}

fn chains_type(code: u8) -> OtsType {
    match code {
        1 => OtsType::W1,
        2 => OtsType::W2,
        3 => OtsType::W4,
        _ => OtsType::W8,
    }
}

//! Signatures of files that come from somebody else.
use crate::counting::{count_of, has_signed};
use crate::vouching::Vouching;
use canonical_json::{Value, read, write};
use cli_faults::{Denial, Fault};
use keys_roles::KeyId;
use metadata::{Digest, SignedFile, read_signed};
use std::alloc::{AllocError, Global};

/// The file without those entries of the rules' keys that do not verify: anybody can write one, and it would keep the key's own out. Entries
/// of keys that no rule has stay.
pub fn without_false_entries(
    alloc: Global,
    rules: &[Vouching],
    bytes: &[u8],
) -> Result<Vec<u8>, Fault> {
    let file = read_signed(alloc, bytes)?;
    let dropped = false_entries(alloc, rules, &file)?;
    if dropped.is_empty() {
        return Ok(Vec::from_slice(alloc, bytes)?);
    }
    without(alloc, bytes, &dropped)
}

/// How many signatures of the rules' keys the file has.
pub fn signatures_in(alloc: Global, rules: &[Vouching], bytes: &[u8]) -> Result<usize, Fault> {
    let file = read_signed(alloc, bytes)?;
    let mut count = 0usize;
    for vouching in rules {
        count = count.saturating_add(count_of(alloc, vouching, &file)?.signed);
    }
    Ok(count)
}

// The digits of the ids of rules' keys whose entries do not verify.
fn false_entries(
    alloc: Global,
    rules: &[Vouching],
    file: &SignedFile<'_>,
) -> Result<Vec<String>, AllocError> {
    let mut dropped = Vec::new(alloc);
    for entry in &file.signatures {
        if is_false(alloc, rules, &entry.keyid, file)? {
            dropped.push(Digest::new(entry.keyid.0).text(alloc)?)?;
        }
    }
    Ok(dropped)
}

// Whether a rule has the key, and by none has it signed the file.
fn is_false(
    alloc: Global,
    rules: &[Vouching],
    id: &KeyId,
    file: &SignedFile<'_>,
) -> Result<bool, AllocError> {
    let mut is_named = false;
    for vouching in rules {
        if vouching.rule.keyids.contains(id) {
            is_named = true;
            if has_signed(alloc, vouching, id, file)? {
                return Ok(false);
            }
        }
    }
    Ok(is_named)
}

// The file without the entries of these ids.
fn without(alloc: Global, bytes: &[u8], dropped: &[String]) -> Result<Vec<u8>, Fault> {
    let Ok(Value::Object(members)) = read(alloc, bytes) else {
        return Err(Fault::Denied(Denial::NotCanonical, None));
    };
    let mut kept = Vec::new(alloc);
    for (name, value) in members {
        kept.push((name, filtered(alloc, value, dropped)?))?;
    }
    let mut out = Vec::new(alloc);
    match write(&Value::Object(kept), &mut out) {
        Ok(()) => Ok(out),
        Err(_) => Err(Fault::Memory),
    }
}

// A list without the entries of these ids, and any other value as it is.
fn filtered(alloc: Global, value: Value, dropped: &[String]) -> Result<Value, AllocError> {
    let Value::List(items) = value else {
        return Ok(value);
    };
    let mut kept = Vec::new(alloc);
    for item in items {
        if !is_of(&item, dropped) {
            kept.push(item)?;
        }
    }
    Ok(Value::List(kept))
}

// Whether an entry is of one of these ids.
fn is_of(entry: &Value, dropped: &[String]) -> bool {
    let Value::Object(members) = entry else {
        return false;
    };
    for (name, value) in members {
        if let Value::Text(digits) = value {
            if name.as_str() == "keyid" && dropped.contains(digits) {
                return true;
            }
        }
    }
    false
}

//! What single words of a line write down.
use crate::fault::LineFault;
use crate::files::{File, find};
use metadata::digest_of;
use std::alloc::Global;
use test_files::{Delegation, Digest, Entry, Leaf, Listing, Rule, Scope, SeedKey};

// The number with one more digit after it.
fn with_digit(number: u32, digit: u8) -> Option<u32> {
    if !digit.is_ascii_digit() {
        return None;
    }
    number
        .checked_mul(10)?
        .checked_add(u32::from(digit.wrapping_sub(b'0')))
}

/// A number in decimal.
pub fn number_of(word: &str) -> Result<u32, LineFault> {
    if word.is_empty() {
        return Err(LineFault::NotUnderstood);
    }
    let mut number = 0u32;
    for digit in word.bytes() {
        match with_digit(number, digit) {
            Some(longer) => number = longer,
            None => return Err(LineFault::NotUnderstood),
        }
    }
    Ok(number)
}

// A number of one byte in decimal.
fn byte_of(word: &str) -> Result<u8, LineFault> {
    match u8::try_from(number_of(word)?) {
        Ok(number) => Ok(number),
        Err(_) => Err(LineFault::NotUnderstood),
    }
}

/// The file that `@NAME` names.
fn file_of<'a>(files: &'a [File], word: &str) -> Result<&'a File, LineFault> {
    match word.strip_prefix("@") {
        Some(name) => find(files, name),
        None => Err(LineFault::NotUnderstood),
    }
}

fn length_of(file: &File) -> Result<u32, LineFault> {
    match u32::try_from(file.bytes.len()) {
        Ok(length) => Ok(length),
        Err(_) => Err(LineFault::NotUnderstood),
    }
}

/// A digest: 64 hex digits, or `@NAME`, that of a file.
pub fn digest_word(files: &[File], word: &str) -> Result<Digest, LineFault> {
    if let Some(digest) = Digest::read(word) {
        return Ok(digest);
    }
    Ok(digest_of(&file_of(files, word)?.bytes))
}

/// What is said of another file: `V`, `V:LENGTH`, `V:LENGTH:DIGEST`, `V::DIGEST`, or `V@NAME`, which says length and digest of that
/// file.
pub fn entry_of(files: &[File], word: &str) -> Result<Entry, LineFault> {
    let mut parts = word.split(':');
    let first = parts.next().unwrap_or("");
    if let Some((version, name)) = first.split_once('@') {
        let file = find(files, name)?;
        return Ok(Entry {
            version: number_of(version)?,
            length: Some(length_of(file)?),
            digest: Some(digest_of(&file.bytes)),
        });
    }
    let length = match parts.next() {
        None | Some("") => None,
        Some(length) => Some(number_of(length)?),
    };
    let digest = match parts.next() {
        None => None,
        Some(digest) => Some(digest_word(files, digest)?),
    };
    Ok(Entry {
        version: number_of(first)?,
        length,
        digest,
    })
}

/// What is said of a target: `LENGTH:DIGEST`, or `@NAME`, which says both of that file.
pub fn listing_of(files: &[File], word: &str) -> Result<Listing, LineFault> {
    if let Some((length, digest)) = word.split_once(':') {
        return Ok(Listing {
            length: number_of(length)?,
            digest: digest_word(files, digest)?,
        });
    }
    let file = file_of(files, word)?;
    Ok(Listing {
        length: length_of(file)?,
        digest: digest_of(&file.bytes),
    })
}

/// A key by its seed, `5`, or an HSS key by the seeds of its levels, each after a `^`, the top one first: `^1`, `^1^7`.
pub fn key_of(word: &str) -> Result<SeedKey, LineFault> {
    let Some(seeds) = word.strip_prefix("^") else {
        return Ok(SeedKey {
            seed: byte_of(word)?,
            levels: None,
        });
    };
    let (top, _) = seeds.split_once('^').unwrap_or((seeds, ""));
    Ok(SeedKey {
        seed: byte_of(top)?,
        levels: Some(levels_of(seeds)),
    })
}

// How many levels the words have that stand one after another with `^` between them.
fn levels_of(words: &str) -> u32 {
    u32::try_from(words.split('^').count()).unwrap_or(0)
}

/// The keys of a rule, and its threshold, where it is not 1: `1,^2^7:2`.
pub fn rule_of(alloc: Global, word: &str) -> Result<Rule, LineFault> {
    let (list, threshold) = match word.split_once(':') {
        Some((list, threshold)) => (list, number_of(threshold)?),
        None => (word, 1),
    };
    let keys = keys_of(alloc, list)?;
    Ok(Rule { keys, threshold })
}

fn keys_of(alloc: Global, list: &str) -> Result<Vec<SeedKey>, LineFault> {
    let mut keys = Vec::new(alloc);
    for key in list.split(',') {
        keys.push(key_of(key)?)?;
    }
    Ok(keys)
}

/// A delegation to the role: its rule, a semicolon, and the patterns, or after a `#` the prefixes, that it covers: `6,7:2;a/*,b`,
/// `6;#ba78,00`.
pub fn delegation_of(
    alloc: Global,
    role: &str,
    terminating: bool,
    word: &str,
) -> Result<Delegation, LineFault> {
    let Some((rule, scope)) = word.split_once(';') else {
        return Err(LineFault::NotUnderstood);
    };
    let scope = match scope.strip_prefix("#") {
        Some(prefixes) => Scope::Prefixes(texts_of(alloc, prefixes)?),
        None => Scope::Patterns(texts_of(alloc, scope)?),
    };
    Ok(Delegation {
        name: String::from_str(alloc, role)?,
        rule: rule_of(alloc, rule)?,
        terminating,
        scope,
    })
}

/// The texts with commas between them.
pub fn texts_of(alloc: Global, word: &str) -> Result<Vec<String>, LineFault> {
    let mut texts = Vec::new(alloc);
    for text in word.split(',') {
        let text = String::from_str(alloc, text)?;
        texts.push(text)?;
    }
    Ok(texts)
}

/// Puts the leaf of a seed, `3/1`, or the leaves of the levels of an HSS key, `^1/0^7/3`, after the others.
pub fn add_leaves(word: &str, leaves: &mut Vec<Leaf>) -> Result<(), LineFault> {
    let Some(list) = word.strip_prefix("^") else {
        leaves.push(leaf_of(word, None)?)?;
        return Ok(());
    };
    let mut levels = levels_of(list);
    for part in list.split('^') {
        leaves.push(leaf_of(part, Some(levels))?)?;
        levels = levels.saturating_sub(1);
    }
    Ok(())
}

// A leaf of a seed, `3/1`, whose key has so many levels.
fn leaf_of(word: &str, levels: Option<u32>) -> Result<Leaf, LineFault> {
    match word.split_once('/') {
        Some((seed, number)) => Ok(Leaf {
            key: SeedKey {
                seed: byte_of(seed)?,
                levels,
            },
            number: number_of(number)?,
        }),
        None => Err(LineFault::NotUnderstood),
    }
}

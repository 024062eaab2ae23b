// What a single word of a line writes down.

ghost use Rattle.std.specs.Prelude.{◌≡◌, ◌⊎◌, ◌↔◌, ◌<◌, ◌^◌, ℕ, List, IsTrue, IfOk, IfErr, decimal, length, string_bytes};
ghost use Rattle.hex.specs.Hex.{IsBytes, encode_lower};
ghost use Rattle.keys_roles.specs.Keys.{public_bytes, public_len};
ghost use Rattle.keys_roles.specs.Views.{key_view};
ghost use Rattle.keys_roles.specs.declared.Key as keys;
ghost use Rattle.lms.specs.declared.OtsType.{OtsType};
ghost use Rattle.lms.specs.declared.SigningHeight.{SigningHeight};
ghost use Rattle.metadata.specs.Shape.{kind_name};
ghost use Rattle.document_parts.specs.declared.documents.Kind.{Kind};
ghost use Rattle.verdicts.specs.Case.{IsBytesOf, IsText};
ghost use Rattle.verdicts.specs.Words.{hex_word, ots_word, height_word, covering_word};
ghost use Rattle.verdicts.specs.declared.case.Covering.{Covering};

use crate::case::{CaseFault, Covering};
use keys_roles::Key;
use lms::{OtsType, SigningHeight};
use metadata::Kind;
use std::alloc::{AllocError, Global};

/// The bytes that a word writes down: lower-case hex, or a dash where there are none.
pub fn bytes_of(alloc: Global, word: &[u8]) -> Result<Vec<u8>, CaseFault>
    ensures bytes { IfOk result (λ v. (word.now ≡ hex_word v.items) × IsBytes v.items) }
    ensures fault { IfErr result (λ e. (e ≡ CaseFault.OutOfMemory)
        ⊎ ((bytes : List ℕ) → IsBytes bytes → word.now ≡ hex_word bytes → ⊥)) }
{
    if word == b"-".as_slice() {
        return Ok(Vec::new(alloc));
    }
    let bytes = hex::decode(alloc, word)?;
    if bytes.is_empty() || !is_text_of(alloc, word, &bytes)? {
        return Err(CaseFault::NotUnderstood);
    }
    Ok(bytes)
}

// Whether the word is the lower-case hex of the bytes.
fn is_text_of(alloc: Global, word: &[u8], bytes: &[u8]) -> Result<bool, AllocError>
    ensures same { IfOk result (λ same. IsTrue same ↔ (word.now ≡ encode_lower bytes.now)) }
    ensures bytes { IsBytes bytes.now }
{
    let text = hex::encode(alloc, bytes)?;
    Ok(text.as_bytes() == word)
}

/// The same of `N` bytes.
pub fn array_of<const N: usize>(alloc: Global, word: &[u8]) -> Result<[u8; N], CaseFault>
    ensures bytes { IfOk result (λ bytes. (word.now ≡ hex_word bytes) × IsBytes bytes × (length bytes ≡ N)) }
    ensures fault { IfErr result (λ e. (e ≡ CaseFault.OutOfMemory)
        ⊎ ((bytes : List ℕ) → IsBytes bytes → length bytes ≡ N → word.now ≡ hex_word bytes → ⊥)) }
{
    let bytes = bytes_of(alloc, word)?;
    match bytes.as_array::<N>() {
        Some(array) => Ok(*array),
        None => Err(CaseFault::NotUnderstood),
    }
}

/// The same of bytes that are UTF-8.
pub fn text_of(alloc: Global, word: &[u8]) -> Result<String, CaseFault>
    ensures text { IfOk result (λ s. (word.now ≡ hex_word (string_bytes s)) × IsText (string_bytes s)) }
    ensures fault { IfErr result (λ e. (e ≡ CaseFault.OutOfMemory)
        ⊎ ((bytes : List ℕ) → IsText bytes → word.now ≡ hex_word bytes → ⊥)) }
{
    let bytes = bytes_of(alloc, word)?;
    match String::from_utf8(bytes) {
        Ok(text) => Ok(text),
        Err(_) => Err(CaseFault::NotUnderstood),
    }
}

/// The public key whose bytes a word writes down: 56 of an LMS key, 60 of an HSS key.
pub fn key_of(alloc: Global, word: &[u8]) -> Result<Key, CaseFault>
    ensures key { IfOk result (λ key. (word.now ≡ hex_word (public_bytes (key_view key)))
        × IsBytesOf (public_len (key_view key)) (public_bytes (key_view key))) }
    ensures fault { IfErr result (λ e. (e ≡ CaseFault.OutOfMemory)
        ⊎ ((key : keys.Key) → IsBytesOf (public_len (key_view key)) (public_bytes (key_view key))
        → word.now ≡ hex_word (public_bytes (key_view key)) → ⊥)) }
{
    let bytes = bytes_of(alloc, word)?;
    if let Some(public) = bytes.as_array::<56>() {
        return Ok(Key::Lms(*public));
    }
    match bytes.as_array::<60>() {
        Some(public) => Ok(Key::Hss(*public)),
        None => Err(CaseFault::NotUnderstood),
    }
}

/// The kind of documents whose name the word is.
pub fn kind_of(word: &[u8]) -> Result<Kind, CaseFault>
    ensures kind { IfOk result (λ kind. word.now ≡ kind_name kind) }
    ensures fault { IfErr result (λ e. (e ≡ CaseFault.NotUnderstood) × ((kind : Kind) → word.now ≡ kind_name kind → ⊥)) }
{
    if word == b"root".as_slice() {
        Ok(Kind::Root)
    } else if word == b"timestamp".as_slice() {
        Ok(Kind::Timestamp)
    } else if word == b"snapshot".as_slice() {
        Ok(Kind::Snapshot)
    } else if word == b"targets".as_slice() {
        Ok(Kind::Targets)
    } else if word == b"layout".as_slice() {
        Ok(Kind::Layout)
    } else if word == b"link".as_slice() {
        Ok(Kind::Link)
    } else {
        Err(CaseFault::NotUnderstood)
    }
}

/// How a path is covered, by its name.
pub fn covering_of(word: &[u8]) -> Result<Covering, CaseFault>
    ensures covering { IfOk result (λ covering. word.now ≡ covering_word covering) }
    ensures fault { IfErr result (λ e. (e ≡ CaseFault.NotUnderstood)
        × ((covering : Covering) → word.now ≡ covering_word covering → ⊥)) }
{
    if word == b"segmented".as_slice() {
        Ok(Covering::Segmented)
    } else if word == b"flat".as_slice() {
        Ok(Covering::Flat)
    } else if word == b"prefix".as_slice() {
        Ok(Covering::Prefix)
    } else {
        Err(CaseFault::NotUnderstood)
    }
}

/// The LM-OTS type whose width a word writes down.
pub fn ots_of(word: &[u8]) -> Result<OtsType, CaseFault>
    ensures ots { IfOk result (λ ots. word.now ≡ ots_word ots) }
    ensures fault { IfErr result (λ e. (e ≡ CaseFault.NotUnderstood) × ((ots : OtsType) → word.now ≡ ots_word ots → ⊥)) }
{
    if word == b"1".as_slice() {
        Ok(OtsType::W1)
    } else if word == b"2".as_slice() {
        Ok(OtsType::W2)
    } else if word == b"4".as_slice() {
        Ok(OtsType::W4)
    } else if word == b"8".as_slice() {
        Ok(OtsType::W8)
    } else {
        Err(CaseFault::NotUnderstood)
    }
}

/// The height of a tree that a word writes down.
pub fn height_of(word: &[u8]) -> Result<SigningHeight, CaseFault>
    ensures height { IfOk result (λ height. word.now ≡ height_word height) }
    ensures fault { IfErr result (λ e. (e ≡ CaseFault.NotUnderstood)
        × ((height : SigningHeight) → word.now ≡ height_word height → ⊥)) }
{
    if word == b"5".as_slice() {
        Ok(SigningHeight::H5)
    } else if word == b"10".as_slice() {
        Ok(SigningHeight::H10)
    } else {
        Err(CaseFault::NotUnderstood)
    }
}

/// The number of a leaf that a word writes down: decimal digits with no zero in front of others.
pub fn leaf_of(alloc: Global, word: &[u8]) -> Result<u32, CaseFault>
    ensures leaf { IfOk result (λ leaf. word.now ≡ decimal leaf) }
    ensures fault { IfErr result (λ e. (e ≡ CaseFault.OutOfMemory)
        ⊎ ((leaf : ℕ) → leaf < 2 ^ 32 → word.now ≡ decimal leaf → ⊥)) }
{
    let Ok(text) = str::from_utf8(word) else {
        return Err(CaseFault::NotUnderstood);
    };
    let Ok(leaf) = text.parse::<u32>() else {
        return Err(CaseFault::NotUnderstood);
    };
    let spelled = format!(in alloc; "{leaf}")?;
    if spelled.as_bytes() != word {
        return Err(CaseFault::NotUnderstood);
    }
    Ok(leaf)
}

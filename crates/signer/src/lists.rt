//! Lists of signature entries, and the file that has just these (TUF 1.0, section 4.2).
ghost use Rattle.std.specs.Prelude.{◌≡◌, ◌≢◌, ◌≤◌, ◌∷◌, [], ◌++◌, ℕ, List, length, IfOk, MatchBool, OnOk};
ghost use Rattle.keys_roles.specs.Views.{entries_view, id_text};
ghost use Rattle.signer.specs.Joining.{has_entry as has_entry_of, joined, missing as missing_of};
ghost use Rattle.signer.specs.steps.Texts.{entries_text, whole_text};

use crate::entries::put_with_comma;
use keys_roles::{KeyId, NoMemory, Signature, same_id};
use std::alloc::Global;

/// How many of the further entries have keys with none among the entries.
pub(crate) fn missing(entries: &[Signature], further: &[Signature]) -> usize
    ensures count { result ≡ length (missing_of (entries_view entries.now) (entries_view further.now)) }
    ensures few { result ≤ length further.now }
{
    let mut count = 0;
    let mut rest = further;
    'further: while let Some((entry, later)) = rest.split_first() {
        if !has_entry(entries, &entry.keyid) {
            count += 1;
        }
        rest = later;
    }
    count
}

// Whether an entry is of this key.
fn has_entry(entries: &[Signature], id: &KeyId) -> bool
    ensures { result ≡ has_entry_of (entries_view entries.now) (id_text id.now) }
{
    let mut rest = entries;
    'entries: while let Some((entry, later)) = rest.split_first() {
        if same_id(&entry.keyid, id) {
            return true;
        }
        rest = later;
    }
    false
}

/// The file with the entries, and after them those further ones whose keys have none among them, over the signed part.
pub(crate) fn whole_file(
    alloc: Global,
    entries: &[Signature],
    further: &[Signature],
    signed: &[u8],
) -> Result<Vec<u8>, NoMemory>
    ensures { IfOk result (λ out. out.items ≡ whole_text (joined (entries_view entries.now) (entries_view further.now)) signed.now) }
{
    let mut out = Vec::from_slice(alloc, b"{\"signatures\":[")?;
    // of the entries each, since none stands before them
    put_missing(&mut out, &[], entries)?;
    put_missing(&mut out, entries, further)?;
    cut_comma(&mut out);
    out.extend_from_slice(b"],\"signed\":")?;
    out.extend_from_slice(signed)?;
    out.extend_from_slice(b"}")?;
    Ok(out)
}

// Appends each further entry whose key has none among the entries, and a comma after it.
fn put_missing(
    out: &mut Vec<u8>,
    entries: &[Signature],
    further: &[Signature],
) -> Result<(), NoMemory>
    ensures { OnOk result (out.new.items ≡ out.old.items ++ entries_text (missing_of (entries_view entries.now) (entries_view further.now))) }
{
    let mut rest = further;
    'further: while let Some((entry, later)) = rest.split_first() {
        if !has_entry(entries, &entry.keyid) {
            put_with_comma(out, entry)?;
        }
        rest = later;
    }
    Ok(())
}

// Takes a comma off the end, if one stands there.
fn cut_comma(out: &mut Vec<u8>)
    ensures comma { (front : List ℕ) → out.old.items ≡ front ++ 44 ∷ [] → out.new.items ≡ front }
    ensures other { (front : List ℕ) (b : ℕ) → out.old.items ≡ front ++ b ∷ [] → b ≢ 44 → out.new.items ≡ out.old.items }
{
    if ends_in_comma(out.as_slice()) {
        out.pop();
    }
}

// Whether a comma stands last.
fn ends_in_comma(bytes: &[u8]) -> bool
    ensures { (front : List ℕ) (b : ℕ) → bytes.now ≡ front ++ b ∷ [] → MatchBool result (b ≡ 44) (b ≢ 44) }
{
    match bytes.last() {
        Some(last) => is_comma(*last),
        None => false,
    }
}

fn is_comma(byte: u8) -> bool
    ensures { MatchBool result (byte ≡ 44) (byte ≢ 44) }
{
    byte == b','
}

//! Signature entries of a file, and the file with one more (TUF 1.0, section 4.2).
ghost use Rattle.std.specs.Prelude.{◌≡◌, ◌<◌, ◌∷◌, [], ◌++◌, length, string_bytes, IfOk, OnOk};
ghost use Rattle.std.specs.List.{AllByRecursion};
ghost use Rattle.hex.specs.Hex.{encode_lower};
ghost use Rattle.path_patterns.specs.Grammar.{IsHex};
ghost use Rattle.keys_roles.specs.Views.{entries_view, id_text};
ghost use Rattle.signer.specs.Files.{others as others_of};
ghost use Rattle.signer.specs.steps.Texts.{entries_text, entry_text, parts_text};

use keys_roles::{KeyId, NoMemory, Signature, same_id};
use metadata::{Digest, SignedFile};
use path_patterns::one_digest;
use std::alloc::Global;

/// How many of the entries are not of this key.
pub(crate) fn others(entries: &[Signature], id: &KeyId) -> usize
    ensures { result ≡ length (others_of (id_text id.now) (entries_view entries.now)) }
{
    let mut count = 0;
    let mut rest = entries;
    'entries: while let Some((entry, later)) = rest.split_first() {
        if !same_id(&entry.keyid, id) {
            count += 1;
        }
        rest = later;
    }
    count
}

/// The file with an entry of this key put last. An older entry of the key is left out.
pub(crate) fn with_entry(
    alloc: Global,
    file: &SignedFile<'_>,
    id: &KeyId,
    signature: &[u8],
) -> Result<Vec<u8>, NoMemory>
    ensures { IfOk result (λ out. out.items ≡ parts_text (others_of (id_text id.now) (entries_view file.now.signatures.items)) (id_text id.now) (encode_lower signature.now) file.now.signed.now) }
{
    let digits = hex::encode(alloc, signature)?;
    let mut out = Vec::from_slice(alloc, b"{\"signatures\":[")?;
    put_others(&mut out, file.signatures.as_slice(), id)?;
    put_entry(&mut out, id, digits.as_bytes())?;
    out.extend_from_slice(b"],\"signed\":")?;
    out.extend_from_slice(file.signed)?;
    out.extend_from_slice(b"}")?;
    Ok(out)
}

// Appends each entry that is not of this key, and a comma after it.
fn put_others(out: &mut Vec<u8>, entries: &[Signature], id: &KeyId) -> Result<(), NoMemory>
    ensures { OnOk result (out.new.items ≡ out.old.items ++ entries_text (others_of (id_text id.now) (entries_view entries.now))) }
{
    let mut rest = entries;
    'entries: while let Some((entry, later)) = rest.split_first() {
        if !same_id(&entry.keyid, id) {
            put_with_comma(out, entry)?;
        }
        rest = later;
    }
    Ok(())
}

// Appends an entry and a comma.
pub(crate) fn put_with_comma(out: &mut Vec<u8>, entry: &Signature) -> Result<(), NoMemory>
    ensures { OnOk result (out.new.items ≡ out.old.items ++ (entry_text (id_text entry.now.keyid) (string_bytes entry.now.sig) ++ 44 ∷ [])) }
{
    put_entry(out, &entry.keyid, entry.sig.as_bytes())?;
    out.extend_from_slice(b",")
}

/// A law, which does nothing: an id is told in 64 hex digits.
pub(crate) fn has_digits(id: &KeyId)
    ensures { IsHex 64 (id_text id.now) }
{
    one_digest();
    let _digits = Digest::new(id.0).digits();
}

/// A law, which does nothing: every byte is below 256.
pub(crate) fn are_bytes(bytes: &[u8])
    ensures { AllByRecursion (λ b. b < 256) bytes.now }
{
    let _count = bytes.len();
}

// Appends an entry.
fn put_entry(out: &mut Vec<u8>, id: &KeyId, digits: &[u8]) -> Result<(), NoMemory>
    ensures { OnOk result (out.new.items ≡ out.old.items ++ entry_text (id_text id.now) digits.now) }
{
    out.extend_from_slice(b"{\"keyid\":\"")?;
    out.extend_from_slice(&Digest::new(id.0).digits())?;
    out.extend_from_slice(b"\",\"sig\":\"")?;
    out.extend_from_slice(digits)?;
    out.extend_from_slice(b"\"}")
}

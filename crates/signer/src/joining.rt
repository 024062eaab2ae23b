//! Two files with one signed part as one, and a file without its signatures (TUF 1.0, section 4.2).
ghost use Rattle.std.specs.Prelude.{◌≡◌, ◌≤◌, ◌⊎◌, [], List, ℕ, length, IfErr, IfOk};
ghost use Rattle.keys_roles.specs.Views.{entries_view};
ghost use Rattle.metadata.specs.Shape.{IsEnvelopeFault, IsSignedBy};
ghost use Rattle.document_parts.specs.declared.documents.ShapeFault.TheVariants as shapes;
ghost use Rattle.keys_roles.specs.Plain.{Signature as PlainSignature};
ghost use Rattle.signer.specs.Joining.{IsUnjoined, JoinsFiles};

use crate::faults::{JoinFault, denial_of};
use crate::lists::{missing, whole_file};
use canonical_json::one_spelling;
use denials::Denial;
use leaf_plans::is_same;
use limits::{FILE_LIMIT, MOST_SIGNATURES};
use metadata::{ShapeFault, SignedFile, read_signed};
use std::alloc::Global;

/// One file of two that have the same signed part, byte for byte: the entries of the first, and after them those of the other whose key
/// ids have none there, so that each id stands once. It is canonical, and within the limits of a file. No signature is checked.
///
/// - `First`, `Second`: `TooLong`, `NotCanonical` or `WrongShape` of a file's envelope; the first file's is found first.
/// - `Different`: the signed parts differ.
/// - `Denied`: `WrongShape` where the result would have over 16 entries, then `TooLong` where it would have over 262,144 bytes.
/// - `OutOfMemory`: memory was refused.
pub fn join(alloc: Global, file: &[u8], other: &[u8]) -> Result<Vec<u8>, JoinFault>
    ensures joined { IfOk result (λ out. JoinsFiles file.now other.now out.items) }
    ensures unjoined { IfErr result (IsUnjoined file.now other.now) }
{
    match read_signed(alloc, file) {
        Ok(first) => join_with(alloc, &first, other),
        Err(fault) => match denial_of(fault) {
            Some(denial) => Err(JoinFault::First(denial)),
            None => Err(JoinFault::OutOfMemory),
        },
    }
}

// The same where the first was read.
fn join_with(alloc: Global, first: &SignedFile<'_>, other: &[u8]) -> Result<Vec<u8>, JoinFault>
    ensures joined { IfOk result (λ out. (file : List ℕ) → IsSignedBy file (entries_view first.now.signatures.items) first.now.signed.now → JoinsFiles file other.now out.items) }
    ensures unjoined { IfErr result (λ fault. (file : List ℕ) → IsSignedBy file (entries_view first.now.signatures.items) first.now.signed.now → IsUnjoined file other.now fault) }
{
    match read_signed(alloc, other) {
        Ok(second) => join_parts(alloc, first, &second),
        Err(fault) => match denial_of(fault) {
            Some(denial) => Err(JoinFault::Second(denial)),
            None => Err(JoinFault::OutOfMemory),
        },
    }
}

// The same where both were read.
fn join_parts(
    alloc: Global,
    first: &SignedFile<'_>,
    second: &SignedFile<'_>,
) -> Result<Vec<u8>, JoinFault>
    ensures joined { IfOk result (λ out. (file other : List ℕ) → IsSignedBy file (entries_view first.now.signatures.items) first.now.signed.now
        → IsSignedBy other (entries_view second.now.signatures.items) second.now.signed.now → JoinsFiles file other out.items) }
    ensures unjoined { IfErr result (λ fault. (file other : List ℕ) → IsSignedBy file (entries_view first.now.signatures.items) first.now.signed.now
        → IsSignedBy other (entries_view second.now.signatures.items) second.now.signed.now → IsUnjoined file other fault) }
{
    if !is_same(first.signed, second.signed) {
        return Err(JoinFault::Different);
    }
    let entries = first.signatures.as_slice();
    let further = second.signatures.as_slice();
    if entries.len() + missing(entries, further) > MOST_SIGNATURES {
        return Err(JoinFault::Denied(Denial::WrongShape));
    }
    match whole_file(alloc, entries, further, first.signed) {
        Ok(out) if out.len() > FILE_LIMIT => Err(JoinFault::Denied(Denial::TooLong)),
        Ok(out) => Ok(out),
        Err(_) => Err(JoinFault::OutOfMemory),
    }
}

/// The file with the same signed part and no signature, or the first check of its envelope that fails: `TooLong`, `NotCanonical` or
/// `WrongShape`, or `OutOfMemory` where memory was refused.
pub fn without_signatures(alloc: Global, file: &[u8]) -> Result<Vec<u8>, ShapeFault>
    ensures bare { IfOk result (λ out. (entries : List PlainSignature) × (message : List ℕ) × IsSignedBy file.now entries message × IsSignedBy out.items [] message) }
    ensures fault { IfErr result (λ e. (e ≡ shapes.OutOfMemory) ⊎ IsEnvelopeFault file.now e) }
{
    match read_signed(alloc, file) {
        Ok(signed) => match whole_file(alloc, &[], &[], signed.signed) {
            Ok(out) => Ok(out),
            Err(_) => Err(ShapeFault::OutOfMemory),
        },
        Err(fault) => Err(fault),
    }
}

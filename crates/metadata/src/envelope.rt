// The envelope of a file: its signatures and the part that they are over (TUF 1.0, section 4.2).
ghost use Rattle.std.specs.Prelude.{◌≡◌, ◌↔◌, ℕ, List, codes, IsTrue, IfOk, IfErr, MatchOption};
ghost use Rattle.canonical_json.specs.Json.{Json};
ghost use Rattle.canonical_json.specs.Spelling.{IsProper};
ghost use Rattle.canonical_json.specs.View.{view, items_view};
ghost use Rattle.keys_roles.specs.Plain as plain;
ghost use Rattle.keys_roles.specs.Views.{entry_view, entries_view};
ghost use Rattle.document_parts.specs.steps.Faults.{IsIll};
ghost use Rattle.document_parts.specs.Members.{Has, IsText, ItemsAre};
ghost use Rattle.document_parts.specs.Parts.{signature_object, IsEntry, AreSignatures, AreSignatureDigits, IsEnvelope};

use canonical_json::Value;
use document_parts::distinct::are_distinct;
use document_parts::documents::ShapeFault;
use document_parts::members::{items_of, member_of, text_of, two_members};
use document_parts::trail::Trail;
use keys_roles::{KeyId, Signature};
use limits::MOST_SIGNATURES;
use path_patterns::{Digest, are_hex_digits};
use std::alloc::Global;

// The digits of the longest signature.
const MOST_DIGITS: usize = 149_976;

/// The parts of an envelope: the signatures, the signed part and its `_type`.
#[derive(Drop)]
pub(crate) struct Envelope<'a> {
    pub signatures: Vec<Signature>,
    pub part: &'a Value,
    pub type_name: &'a str,
}

/// The envelope that the value is.
pub(crate) fn read_envelope<'a>(
    alloc: Global,
    value: &'a Value,
    trail: &mut Trail,
) -> Result<Envelope<'a>, ShapeFault>
    requires { IsProper (view value.now) }
    ensures ok { IfOk result (λ e. IsEnvelope (view value.now) (entries_view e.signatures.items) (view e.part.now) e.type_name.now) }
    ensures proper { IfOk result (λ e. IsProper (view e.part.now)) }
    ensures err { IfErr result (IsIll ((entries : List plain.Signature) × (signed : Json) × (type_name : List ℕ)
        × IsEnvelope (view value.now) entries signed type_name)) }
{
    let Some((list, part)) = two_members(value, "signatures", "signed") else {
        return Err(ShapeFault::WrongShape);
    };
    trail.enter("signed");
    trail.enter("_type");
    let Some(type_name) = type_of(part) else {
        return Err(ShapeFault::WrongShape);
    };
    trail.leave();
    trail.turn("signatures");
    let signatures = read_signatures(alloc, list, trail)?;
    trail.leave();
    Ok(Envelope {
        signatures,
        part,
        type_name,
    })
}

// The `_type` of the signed part.
fn type_of(part: &Value) -> Option<&str>
    requires { IsProper (view part.now) }
    ensures { MatchOption result ((t : List ℕ) → Has (view part.now) (codes "_type") (λ x. IsText x t) → ⊥)
        (λ t. Has (view part.now) (codes "_type") (λ x. IsText x t.now)) }
{
    let found = member_of(part, "_type")?;
    text_of(found)
}

// The signatures that the value is.
fn read_signatures(
    alloc: Global,
    value: &Value,
    trail: &mut Trail,
) -> Result<Vec<Signature>, ShapeFault>
    requires { IsProper (view value.now) }
    ensures ok { IfOk result (λ s. AreSignatures (view value.now) (entries_view s.items)) }
    ensures err { IfErr result (IsIll ((s : List plain.Signature) × AreSignatures (view value.now) s)) }
{
    let Some(items) = items_of(value) else {
        return Err(ShapeFault::WrongShape);
    };
    if items.len() > MOST_SIGNATURES {
        return Err(ShapeFault::WrongShape);
    }
    trail.enter_items();
    let signatures = signatures_of(alloc, items, trail)?;
    trail.leave();
    if are_distinct(&signatures) {
        Ok(signatures)
    } else {
        Err(ShapeFault::WrongShape)
    }
}

fn signatures_of(
    alloc: Global,
    items: &[Value],
    trail: &mut Trail,
) -> Result<Vec<Signature>, ShapeFault>
    ensures ok { IfOk result (λ s. ItemsAre IsEntry (items_view items.now) (entries_view s.items)) }
    ensures err { IfErr result (IsIll ((s : List plain.Signature) × ItemsAre IsEntry (items_view items.now) s)) }
{
    let mut signatures = Vec::new(alloc);
    let mut rest = items;
    'items: while let Some((item, later)) = rest.split_first() {
        let signature = read_signature(alloc, item, trail)?;
        signatures.push(signature)?;
        trail.next();
        rest = later;
    }
    Ok(signatures)
}

// The signature that the value is.
fn read_signature(alloc: Global, value: &Value, trail: &mut Trail) -> Result<Signature, ShapeFault>
    ensures ok { IfOk result (λ s. IsEntry (view value.now) (entry_view s)) }
    ensures err { IfErr result (IsIll ((s : plain.Signature) × IsEntry (view value.now) s)) }
{
    let Some((keyid, digits)) = signature_texts(value) else {
        return Err(ShapeFault::WrongShape);
    };
    trail.enter("keyid");
    let Some(digest) = Digest::read(keyid) else {
        return Err(ShapeFault::WrongShape);
    };
    trail.turn("sig");
    if !are_signature_digits(digits.as_bytes()) {
        return Err(ShapeFault::WrongShape);
    }
    trail.leave();
    let keyid = KeyId(digest.0);
    let sig = String::from_str(alloc, digits)?;
    Ok(Signature { keyid, sig })
}

// The texts of `keyid` and `sig`.
fn signature_texts(value: &Value) -> Option<(&str, &str)>
    ensures { MatchOption result ((id sig : List ℕ) → view value.now ≡ signature_object id sig → ⊥)
        (λ t. view value.now ≡ signature_object t.0.now t.1.now) }
{
    let (keyid, sig) = two_members(value, "keyid", "sig")?;
    let keyid = text_of(keyid)?;
    let sig = text_of(sig)?;
    Some((keyid, sig))
}

// Whether the text is an even number of hex digits of lower case, no more than those of the longest signature.
fn are_signature_digits(text: &[u8]) -> bool
    ensures { IsTrue result ↔ (AreSignatureDigits text.now) }
{
    text.len() <= MOST_DIGITS && text.len() % 2 == 0 && are_hex_digits(text)
}

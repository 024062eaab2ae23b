//! What a draft comes from.
ghost use Rattle.std.specs.Prelude.{◌≡◌, ◌⊎◌, ℕ, List, option_map, IfOk, IfErr};
ghost use Rattle.canonical_json.specs.Json.{object};
ghost use Rattle.canonical_json.specs.Spelling.{IsCanonical};
ghost use Rattle.canonical_json.specs.View.{members_view};
ghost use Rattle.denials.specs.declared.denial.Denial.{Denial};
ghost use Rattle.document_parts.specs.Parts.{last_number};
ghost use Rattle.metadata.specs.Shape.{kind_name, IsDocument, IsShapeFault};
ghost use Rattle.document_parts.specs.Views.{body_view, document_view};
ghost use Rattle.document_parts.specs.declared.documents.Kind.{Kind};
ghost use Rattle.drafting.specs.Drafts.{HasPart, HasVersion, IsBase, IsDenied, IsHeldAnd, IsNext, empty_part, version_of as version_said};

use crate::faults::{DraftFault, begun_fault, held_fault};
use crate::members::{put, text_value};
use canonical_json::{Value, read};
use document_parts::parts::LAST_NUMBER;
use metadata::{Body, Kind, ShapeFault, read_document};
use std::alloc::{AllocError, Global};

const SPEC_VERSION: &str = "1.0.31";

/// The version that the document says, and 0 where it has none.
pub fn version_of(body: &Body) -> u32
    ensures { result ≡ version_said (body_view body.now) }
{
    match body {
        Body::Root(root) => root.version,
        Body::Timestamp(timestamp) => timestamp.version,
        Body::Snapshot(snapshot) => snapshot.version,
        Body::Targets(targets) => targets.version,
        Body::Layout(_) => 0,
        Body::Link(_) => 0,
    }
}

// The version of the document of the kind that the file is.
fn version_in(alloc: Global, kind: Kind, file: &[u8]) -> Result<u32, ShapeFault>
    ensures ok { IfOk result (λ version. HasVersion kind file.now version) }
    ensures err { IfErr result (λ e. (e ≡ ShapeFault.OutOfMemory) ⊎ IsShapeFault kind file.now e) }
{
    match read_document(alloc, kind, file) {
        Ok(document) => Ok(version_of(&document.body)),
        Err(fault) => Err(fault),
    }
}

/// The version of the document that follows the one that is held.
pub fn next_version(alloc: Global, kind: Kind, held: Option<&[u8]>) -> Result<u32, DraftFault>
    ensures ok { IfOk result (λ version. IsNext kind (option_map (λ f. f.now) held.entry) version) }
    ensures err { IfErr result (λ e. (e ≡ DraftFault.OutOfMemory)
        ⊎ (((e ≡ DraftFault.Spent) × IsHeldAnd (option_map (λ f. f.now) held.entry) (λ f. HasVersion kind f last_number))
        ⊎ ((d : Denial) × (e ≡ DraftFault.Held d) × IsHeldAnd (option_map (λ f. f.now) held.entry) (λ f. IsDenied kind f d)))) }
{
    let Some(file) = held else {
        return Ok(1);
    };
    match version_in(alloc, kind, file) {
        Ok(version) if version < LAST_NUMBER => Ok(version + 1),
        Ok(_) => Err(DraftFault::Spent),
        Err(fault) => Err(held_fault(fault)),
    }
}

/// The members of the signed part that a draft goes on from.
pub fn base_members(
    alloc: Global,
    kind: Kind,
    held: Option<&[u8]>,
    begun: Option<&[u8]>,
) -> Result<Vec<(String, Value)>, DraftFault>
    ensures ok { IfOk result (λ ms. IsBase kind (option_map (λ f. f.now) held.entry) (option_map (λ f. f.now) begun.entry) (object (members_view ms.items))) }
    ensures err { IfErr result (λ e. (e ≡ DraftFault.OutOfMemory)
        ⊎ (((d : Denial) × (e ≡ DraftFault.Begun d) × IsHeldAnd (option_map (λ f. f.now) begun.entry) (λ f. IsDenied kind f d))
        ⊎ ((d : Denial) × (e ≡ DraftFault.Held d) × IsHeldAnd (option_map (λ f. f.now) held.entry) (λ f. IsDenied kind f d)))) }
{
    if let Some(file) = begun {
        return match members_in(alloc, kind, file) {
            Ok(members) => Ok(members),
            Err(fault) => Err(begun_fault(fault)),
        };
    }
    if let Some(file) = held {
        return match members_in(alloc, kind, file) {
            Ok(members) => Ok(members),
            Err(fault) => Err(held_fault(fault)),
        };
    }
    match empty_members(alloc, kind) {
        Ok(members) => Ok(members),
        Err(_) => Err(DraftFault::OutOfMemory),
    }
}

// The members of the signed part of the document of the kind that the file is.
fn members_in(alloc: Global, kind: Kind, file: &[u8]) -> Result<Vec<(String, Value)>, ShapeFault>
    ensures ok { IfOk result (λ ms. HasPart kind file.now (object (members_view ms.items))) }
    ensures err { IfErr result (λ e. (e ≡ ShapeFault.OutOfMemory) ⊎ IsShapeFault kind file.now e) }
{
    match read_document(alloc, kind, file) {
        Ok(document) => part_members(alloc, document.signed),
        Err(fault) => Err(fault),
    }
}

/// The members of the object that the bytes spell. The signed part of a document is one, so nothing but memory is wanting.
pub fn part_members(alloc: Global, signed: &[u8]) -> Result<Vec<(String, Value)>, ShapeFault>
    ensures ok { IfOk result (λ ms. IsCanonical (object (members_view ms.items)) signed.now) }
    ensures err { IfErr result (λ e. e ≡ ShapeFault.OutOfMemory) }
{
    let Ok(value) = read(alloc, signed) else {
        return Err(ShapeFault::OutOfMemory);
    };
    match value {
        Value::Object(members) => Ok(members),
        _ => Err(ShapeFault::OutOfMemory),
    }
}

// The members of what the first document of the kind goes on from.
fn empty_members(alloc: Global, kind: Kind) -> Result<Vec<(String, Value)>, AllocError>
    ensures { IfOk result (λ ms. object (members_view ms.items) ≡ empty_part kind) }
{
    let mut members = Vec::new(alloc);
    let name = String::from_str(alloc, "_type")?;
    let value = text_value(alloc, name_of(kind))?;
    members.push((name, value))?;
    let name = String::from_str(alloc, "spec_version")?;
    let value = text_value(alloc, SPEC_VERSION)?;
    members.push((name, value))?;
    Ok(members)
}

// The `_type` of the kind.
fn name_of(kind: Kind) -> &'static str
    ensures { result.now ≡ kind_name kind }
{
    match kind {
        Kind::Root => "root",
        Kind::Timestamp => "timestamp",
        Kind::Snapshot => "snapshot",
        Kind::Targets => "targets",
        Kind::Layout => "layout",
        Kind::Link => "link",
    }
}

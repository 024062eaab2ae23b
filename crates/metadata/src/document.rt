// Which document a file is (TUF 1.0, section 4.2; in-toto 1.0, section 4.1).
ghost use Rattle.std.specs.Prelude.{◌≡◌, ◌⊎◌, ◌↔◌, ℕ, List, IfOk, IfErr, IsTrue};
ghost use Rattle.std.specs.List.{AllByRecursion};
ghost use Rattle.canonical_json.specs.Spelling.{IsProper};
ghost use Rattle.canonical_json.specs.View.{view};
ghost use Rattle.keys_roles.specs.Views.{entries_view};
ghost use Rattle.document_parts.specs.steps.Faults.{IsFaulty};
ghost use Rattle.document_parts.specs.Parts.{NamesAreIds};
ghost use Rattle.metadata.specs.Shape.{kind_name, tables, IsBody, IsFile, IsDocument, IsShapeFault};
ghost use Rattle.metadata.specs.steps.Reads.{IsSignedAs, IsFaultOf};
ghost use Rattle.document_parts.specs.Views.{body_view, document_view};

use crate::envelope::{Envelope, read_envelope};
use crate::root::read_root;
use crate::snapshot::read_snapshot;
use crate::targets::read_targets;
use crate::timestamp::read_timestamp;
use canonical_json::{ReadFault, Value, member, read};
use document_parts::documents::{Body, Document, Kind, ShapeFault};
use document_parts::trail::Trail;
use keys_roles::Signature;
use layout_files::layout::read_layout;
use layout_files::link::read_link;
use limits::FILE_LIMIT;
use std::alloc::Global;

/// The document of this kind that the bytes are (TUF 1.0, sections 4.2 to 4.6; in-toto 1.0, sections 4.3 and 4.4), or the first check that fails, in this
/// order: at most 262,144 bytes, canonical JSON, an envelope whose signed part has a text `_type`, the kind's `_type`, the
/// kind's members, and each name in a key table its key's id. The signed bytes are lent from the file.
pub fn read_document<'a>(
    alloc: Global,
    kind: Kind,
    bytes: &'a [u8],
) -> Result<Document<'a>, ShapeFault>
    ensures document { IfOk result (λ d. IsDocument kind bytes.now (document_view d)) }
    ensures fault { IfErr result (λ e. (e ≡ ShapeFault.OutOfMemory) ⊎ IsShapeFault kind bytes.now e) }
{
    read_document_along(alloc, kind, bytes, &mut Trail::new())
}

/// The same along a new trail, which stands at the member or the item at fault where the shape, the type or a key's id is: at the document
/// itself where its members are not those of an envelope, and for another fault.
pub fn read_document_along<'a>(
    alloc: Global,
    kind: Kind,
    bytes: &'a [u8],
    trail: &mut Trail,
) -> Result<Document<'a>, ShapeFault>
    ensures document { IfOk result (λ d. IsDocument kind bytes.now (document_view d)) }
    ensures fault { IfErr result (λ e. (e ≡ ShapeFault.OutOfMemory) ⊎ IsShapeFault kind bytes.now e) }
{
    if bytes.len() > FILE_LIMIT {
        return Err(ShapeFault::TooLong);
    }
    let value = match read(alloc, bytes) {
        Ok(value) => value,
        Err(fault) => return Err(unread(fault)),
    };
    let (signatures, body) = read_value(alloc, kind, &value, trail)?;
    let Some(signed) = member(bytes, "signed") else {
        return Err(ShapeFault::WrongShape);
    };
    Ok(Document {
        signatures,
        signed,
        body,
    })
}

/// What a file that is not read is refused as.
pub fn unread(fault: ReadFault) -> ShapeFault
    ensures memory { fault ≡ ReadFault.OutOfMemory → result ≡ ShapeFault.OutOfMemory }
    ensures other { (fault ≡ ReadFault.OutOfMemory → ⊥) → result ≡ ShapeFault.NotCanonical }
{
    match fault {
        ReadFault::OutOfMemory => ShapeFault::OutOfMemory,
        ReadFault::NotCanonical => ShapeFault::NotCanonical,
        ReadFault::TooDeep => ShapeFault::NotCanonical,
        ReadFault::IntegerRange => ShapeFault::NotCanonical,
    }
}

// The signatures and the body of the document that the value is.
fn read_value(
    alloc: Global,
    kind: Kind,
    value: &Value,
    trail: &mut Trail,
) -> Result<(Vec<Signature>, Body), ShapeFault>
    requires { IsProper (view value.now) }
    ensures ok { IfOk result (λ r. IsSignedAs kind (view value.now) (entries_view r.0.items) (body_view r.1)) }
    ensures err { IfErr result (IsFaultOf kind (view value.now)) }
{
    let envelope = read_envelope(alloc, value, trail)?;
    trail.enter("signed");
    trail.enter("_type");
    if !is_kind(kind, envelope.type_name) {
        return Err(ShapeFault::WrongType);
    }
    trail.leave();
    let body = read_body(alloc, kind, &envelope, trail)?;
    Ok((envelope.signatures, body))
}

// Whether the `_type` is the kind's.
fn is_kind(kind: Kind, type_name: &str) -> bool
    ensures { IsTrue result ↔ type_name.now ≡ kind_name kind }
{
    let name = match kind {
        Kind::Root => "root",
        Kind::Timestamp => "timestamp",
        Kind::Snapshot => "snapshot",
        Kind::Targets => "targets",
        Kind::Layout => "layout",
        Kind::Link => "link",
    };
    *type_name == *name
}

// What the signed part of the envelope says, by its kind.
fn read_body(
    alloc: Global,
    kind: Kind,
    envelope: &Envelope,
    trail: &mut Trail,
) -> Result<Body, ShapeFault>
    requires { IsProper (view envelope.now.part.now) }
    ensures ok { IfOk result (λ b. IsBody kind (entries_view envelope.now.signatures.items) (view envelope.now.part.now) (body_view b)
        × AllByRecursion NamesAreIds (tables (body_view b))) }
    ensures err { IfErr result (IsFaulty (IsBody kind (entries_view envelope.now.signatures.items) (view envelope.now.part.now))
        (λ b. AllByRecursion NamesAreIds (tables b))) }
{
    let part = envelope.part;
    match kind {
        Kind::Root => Ok(Body::Root(read_root(alloc, part, trail)?)),
        Kind::Timestamp => match read_timestamp(part, trail) {
            Some(timestamp) => Ok(Body::Timestamp(timestamp)),
            None => Err(ShapeFault::WrongShape),
        },
        Kind::Snapshot => Ok(Body::Snapshot(read_snapshot(alloc, part, trail)?)),
        Kind::Targets => Ok(Body::Targets(read_targets(alloc, part, trail)?)),
        Kind::Layout => Ok(Body::Layout(read_layout(alloc, part, trail)?)),
        Kind::Link => Ok(Body::Link(read_link(alloc, &envelope.signatures, part, trail)?)),
    }
}

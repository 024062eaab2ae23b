//! Files kept with the documents that they spell.
ghost use Rattle.std.specs.Prelude.{◌≡◌, IfOk, IfErr, ◌⊎◌};
ghost use Rattle.metadata.specs.File.{IsFileOf, root_form, timestamp_form, snapshot_form, targets_form, layout_form, link_form};
ghost use Rattle.metadata.specs.FileViews.{root_file, timestamp_file, snapshot_file, targets_file, layout_file, link_file};
ghost use Rattle.metadata.specs.Shape.{IsDocument, IsShapeFault};
ghost use Rattle.document_parts.specs.Views.{body_view};

use crate::document::read_document;
use crate::source::Source;
use document_parts::documents::{
    Body, Document, Kind, Layout, Root, ShapeFault, Snapshot, Targets, Timestamp,
};
use document_parts::links::Link;
use std::alloc::Global;

/// A file with the body of the document that it spells.
#[derive(Drop)]
pub struct File<B> {
    pub source: Source,
    pub body: B,
}

// The file as a document of a kind, with a copy of its bytes.
fn read_file(alloc: Global, kind: Kind, bytes: &[u8]) -> Result<File<Body>, ShapeFault>
    ensures file { IfOk result (λ f. IsDocument kind f.source.bytes (record { entries = f.source.entries; signed = f.source.signed; body = body_view f.body }) × (f.source.bytes ≡ bytes.now)) }
    ensures fault { IfErr result (λ e. (e ≡ ShapeFault.OutOfMemory) ⊎ IsShapeFault kind bytes.now e) }
{
    let Document {
        signatures,
        signed,
        body,
    } = read_document(alloc, kind, bytes)?;
    let source = Source::new(alloc, bytes, signed, signatures)?;
    Ok(File { source, body })
}

/// The file as root metadata, with a copy of its bytes, or the first check of its shape that fails.
pub fn read_root_file(alloc: Global, bytes: &[u8]) -> Result<File<Root>, ShapeFault>
    ensures file { IfOk result (λ f. IsFileOf root_form (root_file f) × ((root_file f).bytes ≡ bytes.now)) }
    ensures fault { IfErr result (λ e. (e ≡ ShapeFault.OutOfMemory) ⊎ IsShapeFault Kind.Root bytes.now e) }
{
    let File { source, body } = read_file(alloc, Kind::Root, bytes)?;
    match body {
        Body::Root(body) => Ok(File { source, body }),
        _ => Err(ShapeFault::WrongShape),
    }
}

/// The file as timestamp metadata, with a copy of its bytes, or the first check of its shape that fails.
pub fn read_timestamp_file(alloc: Global, bytes: &[u8]) -> Result<File<Timestamp>, ShapeFault>
    ensures file { IfOk result (λ f. IsFileOf timestamp_form (timestamp_file f) × ((timestamp_file f).bytes ≡ bytes.now)) }
    ensures fault { IfErr result (λ e. (e ≡ ShapeFault.OutOfMemory) ⊎ IsShapeFault Kind.Timestamp bytes.now e) }
{
    let File { source, body } = read_file(alloc, Kind::Timestamp, bytes)?;
    match body {
        Body::Timestamp(body) => Ok(File { source, body }),
        _ => Err(ShapeFault::WrongShape),
    }
}

/// The file as snapshot metadata, with a copy of its bytes, or the first check of its shape that fails.
pub fn read_snapshot_file(alloc: Global, bytes: &[u8]) -> Result<File<Snapshot>, ShapeFault>
    ensures file { IfOk result (λ f. IsFileOf snapshot_form (snapshot_file f) × ((snapshot_file f).bytes ≡ bytes.now)) }
    ensures fault { IfErr result (λ e. (e ≡ ShapeFault.OutOfMemory) ⊎ IsShapeFault Kind.Snapshot bytes.now e) }
{
    let File { source, body } = read_file(alloc, Kind::Snapshot, bytes)?;
    match body {
        Body::Snapshot(body) => Ok(File { source, body }),
        _ => Err(ShapeFault::WrongShape),
    }
}

/// The file as targets metadata, with a copy of its bytes, or the first check of its shape that fails.
pub fn read_targets_file(alloc: Global, bytes: &[u8]) -> Result<File<Targets>, ShapeFault>
    ensures file { IfOk result (λ f. IsFileOf targets_form (targets_file f) × ((targets_file f).bytes ≡ bytes.now)) }
    ensures fault { IfErr result (λ e. (e ≡ ShapeFault.OutOfMemory) ⊎ IsShapeFault Kind.Targets bytes.now e) }
{
    let File { source, body } = read_file(alloc, Kind::Targets, bytes)?;
    match body {
        Body::Targets(body) => Ok(File { source, body }),
        _ => Err(ShapeFault::WrongShape),
    }
}

/// The file as a layout, with a copy of its bytes, or the first check of its shape that fails.
pub fn read_layout_file(alloc: Global, bytes: &[u8]) -> Result<File<Layout>, ShapeFault>
    ensures file { IfOk result (λ f. IsFileOf layout_form (layout_file f) × ((layout_file f).bytes ≡ bytes.now)) }
    ensures fault { IfErr result (λ e. (e ≡ ShapeFault.OutOfMemory) ⊎ IsShapeFault Kind.Layout bytes.now e) }
{
    let File { source, body } = read_file(alloc, Kind::Layout, bytes)?;
    match body {
        Body::Layout(body) => Ok(File { source, body }),
        _ => Err(ShapeFault::WrongShape),
    }
}

/// The file as a link, with a copy of its bytes, or the first check of its shape that fails.
pub fn read_link_file(alloc: Global, bytes: &[u8]) -> Result<File<Link>, ShapeFault>
    ensures file { IfOk result (λ f. IsFileOf link_form (link_file f) × ((link_file f).bytes ≡ bytes.now)) }
    ensures fault { IfErr result (λ e. (e ≡ ShapeFault.OutOfMemory) ⊎ IsShapeFault Kind.Link bytes.now e) }
{
    let File { source, body } = read_file(alloc, Kind::Link, bytes)?;
    match body {
        Body::Link(body) => Ok(File { source, body }),
        _ => Err(ShapeFault::WrongShape),
    }
}

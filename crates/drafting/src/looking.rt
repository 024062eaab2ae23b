//! Looks at documents: one function owns the document, and what is made of it borrows.
ghost use Rattle.std.specs.Prelude.{◌≡◌, ◌⊎◌, IfErr};
ghost use Rattle.metadata.specs.Shape.{IsShapeFault};

use metadata::{Document, Kind, ShapeFault, read_document};
use std::alloc::{AllocError, Global};

/// What is made of a document.
pub trait Look {
    /// What comes of it.
    type Seen;

    /// Makes it of a document, which is lent. It fails only for want of memory.
    fn look(&mut self, alloc: Global, document: &Document<'_>) -> Result<Self::Seen, AllocError>;
}

/// What a look makes of the document of this kind that the bytes are, or the first check of its shape that fails. To own a document costs
/// a crate a proof for each type in it, so what only reads one looks at it here.
pub fn look_at<L: Look>(
    alloc: Global,
    kind: Kind,
    bytes: &[u8],
    look: &mut L,
) -> Result<L::Seen, ShapeFault>
    ensures fault { IfErr result (λ e. (e ≡ ShapeFault.OutOfMemory) ⊎ IsShapeFault kind bytes.now e) }
{
    match read_document(alloc, kind, bytes) {
        Ok(document) => seen_in(alloc, &document, look),
        Err(fault) => Err(fault),
    }
}

fn seen_in<L: Look>(
    alloc: Global,
    document: &Document<'_>,
    look: &mut L,
) -> Result<L::Seen, ShapeFault>
    ensures fault { IfErr result (λ e. e ≡ ShapeFault.OutOfMemory) }
{
    match look.look(alloc, document) {
        Ok(seen) => Ok(seen),
        Err(_) => Err(ShapeFault::OutOfMemory),
    }
}

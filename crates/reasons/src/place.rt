//! Where in a file the fault is for which it is no document of its kind.
ghost use Rattle.std.specs.Prelude.{◌≡◌, ◌⊎◌, IfOk, IfSome, IfNone};
ghost use Rattle.metadata.specs.Shape.{IsShapeFault};
ghost use Rattle.document_parts.specs.declared.documents.ShapeFault.{ShapeFault};

use crate::bytes::first_stray;
use crate::path::{Found, told};
use canonical_json::{ReadFault, Value, read};
use metadata::{Kind, ShapeFault, Trail, one_shape, read_document_along};
use std::alloc::{AllocError, Global};

/// The member or the item at which the reading of the file failed, as `signed.roles.root.threshold` or `signatures[0].sig`; for bytes
/// that are no canonical JSON one that cannot stand where it does, as `byte 17`, counted from 0; for a file that is too long
/// `length 300000`. A name that a terminal does not show is told as `?`, and members that are not those of an envelope as `the envelope`.
/// `None` where the file is such a document, and for bytes that are no canonical JSON where nothing is certain.
pub fn place_of(alloc: Global, kind: Kind, bytes: &[u8]) -> Result<Option<String>, AllocError>
    ensures some { IfOk result (λ o. IfSome o (λ _. (fault : ShapeFault) × IsShapeFault kind bytes.now fault)) }
    ensures none { IfOk result (λ o. IfNone o ((fault : ShapeFault) → IsShapeFault kind bytes.now fault → fault ≡ ShapeFault.NotCanonical)) }
{
    let mut trail = Trail::new();
    match fault_of(alloc, kind, bytes, &mut trail) {
        None => Ok(None),
        Some(ShapeFault::OutOfMemory) => Err(AllocError),
        Some(fault) => place_by(alloc, bytes, fault, &trail),
    }
}

// Why the file is no document of the kind, if it is none. The trail then stands at the fault.
fn fault_of(alloc: Global, kind: Kind, bytes: &[u8], trail: &mut Trail) -> Option<ShapeFault>
    ensures some { IfSome result (λ e. (e ≡ ShapeFault.OutOfMemory) ⊎ IsShapeFault kind bytes.now e) }
    ensures none { IfNone result ((fault : ShapeFault) → IsShapeFault kind bytes.now fault → ⊥) }
{
    one_shape();
    match read_document_along(alloc, kind, bytes, trail) {
        Ok(_) => None,
        Err(fault) => Some(fault),
    }
}

// Where the fault is.
fn place_by(alloc: Global, bytes: &[u8], fault: ShapeFault, trail: &Trail) -> Found
    ensures { IfOk result (λ o. IfNone o ((fault ≡ ShapeFault.NotCanonical) ⊎ (fault ≡ ShapeFault.OutOfMemory))) }
{
    match fault {
        ShapeFault::TooLong => {
            let length = bytes.len();
            Ok(Some(format!(in alloc; "length {length}")?))
        }
        ShapeFault::NotCanonical => match first_stray(bytes) {
            Some(place) => Ok(Some(format!(in alloc; "byte {place}")?)),
            None => Ok(None),
        },
        ShapeFault::WrongShape | ShapeFault::WrongType | ShapeFault::BadKeyId => {
            Ok(Some(path_of(alloc, bytes, trail)?))
        }
        ShapeFault::OutOfMemory => Ok(None),
    }
}

fn path_of(alloc: Global, bytes: &[u8], trail: &Trail) -> Result<String, AllocError> {
    match read(alloc, bytes) {
        Ok(value) => told(alloc, &value, trail.parts()),
        Err(ReadFault::OutOfMemory) => Err(AllocError),
        Err(_) => told(alloc, &Value::Null, &[]),
    }
}

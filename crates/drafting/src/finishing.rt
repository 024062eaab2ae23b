//! Drafts as files.
ghost use Rattle.std.specs.Prelude.{◌≡◌, ◌⊎◌, IfOk, IfErr, OnOk};
ghost use Rattle.canonical_json.specs.Json.{object};
ghost use Rattle.canonical_json.specs.Spelling.{spelling, IsCanonical};
ghost use Rattle.canonical_json.specs.View.{view, members_view};
ghost use Rattle.denials.specs.declared.denial.Denial.{Denial};
ghost use Rattle.document_parts.specs.Documents.{Document};
ghost use Rattle.metadata.specs.Shape.{IsDocument};
ghost use Rattle.drafting.specs.Drafts.{IsDenied, IsDraft, IsUnfit, unsigned_file};
ghost use Rattle.drafting.specs.steps.Unwritten.{IsUnwritten};

use crate::faults::{DraftFault, unfit_fault};
use canonical_json::{Value, WriteFault, one_spelling, write};
use denials::Denial;
use metadata::{Kind, read_document};
use std::alloc::{AllocError, Global};

/// The file of the signed part with these members, without signatures.
pub fn finish(
    alloc: Global,
    kind: Kind,
    members: Vec<(String, Value)>,
) -> Result<Vec<u8>, DraftFault>
    ensures ok { IfOk result (λ out. IsDraft kind (object (members_view members.items)) out.items) }
    ensures err { IfErr result (λ e. (e ≡ DraftFault.OutOfMemory)
        ⊎ ((d : Denial) × (e ≡ DraftFault.Unfit d) × IsUnfit kind (object (members_view members.items)) d)) }
{
    let value = file_of(alloc, members)?;
    let file = written(alloc, &value)?;
    one_spelling();
    match judge(alloc, kind, file.as_slice()) {
        Ok(()) => Ok(file),
        Err(fault) => Err(fault),
    }
}

// Whether the file is a document of the kind.
fn judge(alloc: Global, kind: Kind, file: &[u8]) -> Result<(), DraftFault>
    ensures ok { OnOk result ((d : Document) × IsDocument kind file.now d) }
    ensures err { IfErr result (λ e. (e ≡ DraftFault.OutOfMemory) ⊎ ((d : Denial) × (e ≡ DraftFault.Unfit d) × IsDenied kind file.now d)) }
{
    match read_document(alloc, kind, file) {
        Ok(_document) => Ok(()),
        Err(fault) => Err(unfit_fault(fault)),
    }
}

/// The file of the signed part with these members.
pub fn file_of(alloc: Global, members: Vec<(String, Value)>) -> Result<Value, AllocError>
    ensures { IfOk result (λ v. view v ≡ unsigned_file (object (members_view members.items))) }
{
    let mut list = Vec::new(alloc);
    let name = String::from_str(alloc, "signatures")?;
    list.push((name, Value::List(Vec::new(alloc))))?;
    let name = String::from_str(alloc, "signed")?;
    list.push((name, Value::Object(members)))?;
    Ok(Value::Object(list))
}

/// The bytes of the file that the value is.
pub fn written(alloc: Global, value: &Value) -> Result<Vec<u8>, DraftFault>
    ensures ok { IfOk result (λ out. (out.items ≡ spelling (view value.now)) × IsCanonical (view value.now) out.items) }
    ensures err { IfErr result (λ e. (e ≡ DraftFault.OutOfMemory) ⊎ IsUnwritten (view value.now) e) }
{
    let mut out = Vec::new(alloc);
    match write(value, &mut out) {
        Ok(()) => Ok(out),
        Err(WriteFault::OutOfMemory) => Err(DraftFault::OutOfMemory),
        Err(WriteFault::TooDeep | WriteFault::Unordered) => {
            Err(DraftFault::Unfit(Denial::NotCanonical))
        }
    }
}

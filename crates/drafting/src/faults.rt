//! Why there is no draft.
ghost use Rattle.std.specs.Prelude.{◌≡◌, ◌⊎◌, ℕ, List};
ghost use Rattle.metadata.specs.Shape.{IsShapeFault};
ghost use Rattle.document_parts.specs.declared.documents.Kind.{Kind};
ghost use Rattle.denials.specs.Orders.{Plain};
ghost use Rattle.denials.specs.Views.{denial_view};
ghost use Rattle.metadata.specs.File.{fault_number};
ghost use Rattle.drafting.specs.Drafts.{IsDenied};
ghost use Rattle.drafting.specs.steps.Refused.{IsRefusal};

use denials::Denial;
use metadata::ShapeFault;
use std::alloc::{AllocError, AllocFailed};
use thiserror::Error;

/// The four roles of a root (TUF 1.0, section 4.3).
#[derive(Debug, Clone, Copy, PartialEq, Eq)]
pub enum TopRole {
    Root,
    Targets,
    Snapshot,
    Timestamp,
}

/// Why there is no draft.
#[derive(Debug, Drop, Error)]
pub enum DraftFault {
    /// What is held is no document of the kind: the denial of the first check that fails.
    #[error("what is held is denied")]
    Held(Denial),
    /// What is gone on from is no document of the kind: the denial of the first check that fails.
    #[error("what is gone on from is denied")]
    Begun(Denial),
    /// What would be written is no document of the kind: the denial of the first check that fails.
    #[error("the draft would be denied")]
    Unfit(Denial),
    /// The last version, 4294967295, is held.
    #[error("no version is left")]
    Spent,
    /// No text of a date and time has the moment, or no integer of canonical JSON is the term.
    #[error("too late")]
    TooLate,
    /// What is to be taken away is not listed: its place in the description, from 0.
    #[error("not listed")]
    Unlisted(usize),
    /// A first root is to say a rule for each role, and says none for this one.
    #[error("a role has no rule")]
    Missing(TopRole),
    /// Memory was refused.
    #[error("out of memory")]
    OutOfMemory,
}

/// Refused memory is `OutOfMemory`.
impl From<AllocError> for DraftFault {
    ghost use Rattle.std.specs.Prelude.{◌≡◌};
    ghost use Rattle.drafting.specs.declared.faults.DraftFault.TheVariants.{OutOfMemory};

    ghost from_gives = { λ _ e. e ≡ OutOfMemory };

    fn from(_: AllocError) -> Self {
        DraftFault::OutOfMemory
    }
}

impl<T: Drop> From<AllocFailed<T>> for DraftFault {
    ghost use Rattle.std.specs.Prelude.{◌≡◌};
    ghost use Rattle.drafting.specs.declared.faults.DraftFault.TheVariants.{OutOfMemory};

    ghost from_gives = { λ _ e. e ≡ OutOfMemory };

    fn from(_: AllocFailed<T>) -> Self {
        DraftFault::OutOfMemory
    }
}

// What is denied by a fault of shape, and None where it is memory that was refused.
pub(crate) fn denial_of(fault: ShapeFault) -> Option<Denial>
    ensures { IsRefusal fault result }
{
    match fault {
        ShapeFault::TooLong => Some(Denial::TooLong),
        ShapeFault::NotCanonical => Some(Denial::NotCanonical),
        ShapeFault::WrongShape => Some(Denial::WrongShape),
        ShapeFault::WrongType => Some(Denial::WrongType),
        ShapeFault::BadKeyId => Some(Denial::BadKeyId),
        ShapeFault::OutOfMemory => None,
    }
}

/// What is held is refused so.
pub fn held_fault(fault: ShapeFault) -> DraftFault
    ensures denial { (kind : Kind) (file : List ℕ) → (fault ≡ ShapeFault.OutOfMemory) ⊎ IsShapeFault kind file fault
        → (result ≡ DraftFault.OutOfMemory) ⊎ ((d : Denial) × (result ≡ DraftFault.Held d) × IsDenied kind file d) }
    ensures memory { result ≡ DraftFault.OutOfMemory → fault ≡ ShapeFault.OutOfMemory }
{
    match denial_of(fault) {
        Some(denial) => DraftFault::Held(denial),
        None => DraftFault::OutOfMemory,
    }
}

/// What is gone on from is refused so.
pub fn begun_fault(fault: ShapeFault) -> DraftFault
    ensures denial { (kind : Kind) (file : List ℕ) → (fault ≡ ShapeFault.OutOfMemory) ⊎ IsShapeFault kind file fault
        → (result ≡ DraftFault.OutOfMemory) ⊎ ((d : Denial) × (result ≡ DraftFault.Begun d) × IsDenied kind file d) }
    ensures memory { result ≡ DraftFault.OutOfMemory → fault ≡ ShapeFault.OutOfMemory }
{
    match denial_of(fault) {
        Some(denial) => DraftFault::Begun(denial),
        None => DraftFault::OutOfMemory,
    }
}

/// What would be written is refused so.
pub(crate) fn unfit_fault(fault: ShapeFault) -> DraftFault
    ensures denial { (kind : Kind) (file : List ℕ) → (fault ≡ ShapeFault.OutOfMemory) ⊎ IsShapeFault kind file fault
        → (result ≡ DraftFault.OutOfMemory) ⊎ ((d : Denial) × (result ≡ DraftFault.Unfit d) × IsDenied kind file d) }
    ensures memory { result ≡ DraftFault.OutOfMemory → fault ≡ ShapeFault.OutOfMemory }
{
    match denial_of(fault) {
        Some(denial) => DraftFault::Unfit(denial),
        None => DraftFault::OutOfMemory,
    }
}

//! Why a call changes nothing.
use denials::Denial;
use metadata::ShapeFault;
use std::alloc::{AllocError, AllocFailed};
use thiserror::Error;

/// Why a command changes nothing.
#[derive(Debug, Drop, Error)]
pub enum Refusal {
    /// A rule fails.
    #[error("denied")]
    Denied(Denial),
    /// Memory was refused. It says nothing of the rules.
    #[error("out of memory")]
    OutOfMemory,
}

/// Why a batch changes nothing.
#[derive(Debug, Drop, Error)]
pub enum BatchRefusal {
    /// A rule fails, at the document with this index, which begins at 0. What a batch leaves as a whole is judged at the
    /// number of its documents.
    #[error("denied")]
    Denied(Denial, usize),
    /// Memory was refused. It says nothing of the rules.
    #[error("out of memory")]
    OutOfMemory,
}

/// Refused memory is `OutOfMemory`.
impl From<AllocError> for Refusal {
    ghost use Rattle.std.specs.Prelude.{◌≡◌};
    ghost use Rattle.trusted_state.specs.declared.refusal.Refusal.TheVariants.{OutOfMemory};

    ghost from_gives = { λ _ e. e ≡ OutOfMemory };

    fn from(_: AllocError) -> Self {
        Refusal::OutOfMemory
    }
}

impl<T: Drop> From<AllocFailed<T>> for Refusal {
    ghost use Rattle.std.specs.Prelude.{◌≡◌};
    ghost use Rattle.trusted_state.specs.declared.refusal.Refusal.TheVariants.{OutOfMemory};

    ghost from_gives = { λ _ e. e ≡ OutOfMemory };

    fn from(_: AllocFailed<T>) -> Self {
        Refusal::OutOfMemory
    }
}

/// A file of another shape is denied by the first check that fails.
impl From<ShapeFault> for Refusal {
    ghost use Rattle.trusted_state.specs.steps.Judging.{IsRefusedShape};

    ghost from_gives = { IsRefusedShape };

    fn from(fault: ShapeFault) -> Self {
        match fault {
            ShapeFault::TooLong => Refusal::Denied(Denial::TooLong),
            ShapeFault::NotCanonical => Refusal::Denied(Denial::NotCanonical),
            ShapeFault::WrongShape => Refusal::Denied(Denial::WrongShape),
            ShapeFault::WrongType => Refusal::Denied(Denial::WrongType),
            ShapeFault::BadKeyId => Refusal::Denied(Denial::BadKeyId),
            ShapeFault::OutOfMemory => Refusal::OutOfMemory,
        }
    }
}

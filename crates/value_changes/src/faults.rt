//! Why two values are not compared.
use std::alloc::{AllocError, AllocFailed};
use thiserror::Error;

/// Why two values are not compared.
#[derive(Debug, Clone, Copy, PartialEq, Eq, Error)]
pub enum CompareFault {
    /// The names of an object do not rise strictly in the order of their bytes.
    #[error("member names out of order")]
    Unordered,
    /// Memory was refused. It says nothing of the values.
    #[error("out of memory")]
    OutOfMemory,
}

impl From<AllocError> for CompareFault {
    ghost use Rattle.std.specs.Prelude.{◌≡◌};
    ghost use Rattle.value_changes.specs.declared.faults.CompareFault.TheVariants.{OutOfMemory};

    ghost from_gives = { λ _ e. e ≡ OutOfMemory };

    fn from(_: AllocError) -> CompareFault {
        CompareFault::OutOfMemory
    }
}

impl<T: Drop> From<AllocFailed<T>> for CompareFault {
    ghost use Rattle.std.specs.Prelude.{◌≡◌};
    ghost use Rattle.value_changes.specs.declared.faults.CompareFault.TheVariants.{OutOfMemory};

    ghost from_gives = { λ _ e. e ≡ OutOfMemory };

    fn from(_: AllocFailed<T>) -> CompareFault {
        CompareFault::OutOfMemory
    }
}

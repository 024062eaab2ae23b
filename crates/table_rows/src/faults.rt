// What can go wrong, and which faults of the database stand for which.
use sqlite::ErrorCode;
use std::alloc::{AllocError, AllocFailed};
use thiserror::Error;

/// Why the rows were not read or written.
#[derive(Debug, Clone, Copy, PartialEq, Eq, Error)]
pub enum StoreFault {
    /// The rows are those of no contents that fit. No fault of the database stands for it.
    #[error("damaged")]
    Damaged,
    /// A call of the database answered a fault other than want of memory, or its tables are not these six.
    #[error("database")]
    Database,
    /// Memory was refused, in the database or beside it.
    #[error("out of memory")]
    OutOfMemory,
}

impl From<AllocError> for StoreFault {
    ghost use Rattle.std.specs.Prelude.{◌≡◌};
    ghost use Rattle.table_rows.specs.declared.faults.StoreFault.TheVariants.{OutOfMemory};

    ghost from_gives = { λ _ f. f ≡ OutOfMemory };

    fn from(_error: AllocError) -> StoreFault {
        StoreFault::OutOfMemory
    }
}

impl<T: Drop> From<AllocFailed<T>> for StoreFault {
    ghost use Rattle.std.specs.Prelude.{◌≡◌};
    ghost use Rattle.table_rows.specs.declared.faults.StoreFault.TheVariants.{OutOfMemory};

    ghost from_gives = { λ _ f. f ≡ OutOfMemory };

    fn from(_error: AllocFailed<T>) -> StoreFault {
        StoreFault::OutOfMemory
    }
}

// Want of memory stays what it is, and all else is a fault of the database.
impl From<sqlite::Error> for StoreFault {
    ghost use Rattle.std.specs.Prelude.{◌≡◌, ◌≢◌};
    ghost use Rattle.table_rows.specs.declared.faults.StoreFault.TheVariants.{Damaged};
    ghost use Rattle.table_rows.specs.Faults.{fault_of};

    ghost from_gives = { λ error f. (f ≡ fault_of error) × (f ≢ Damaged) };

    fn from(error: sqlite::Error) -> StoreFault {
        match error {
            sqlite::Error::SqliteFailure(ErrorCode::OutOfMemory) => StoreFault::OutOfMemory,
            _ => StoreFault::Database,
        }
    }
}

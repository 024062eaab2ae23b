//! What can go wrong, and which faults of the database stand for which.
use sqlite::ErrorCode;
use std::alloc::{AllocError, AllocFailed};
use thiserror::Error;

/// The error of a call that has no other: no memory.
pub type NoMemory = AllocError;

/// Why a call on a book did nothing. The rows are as they were.
#[derive(Debug, Clone, Copy, PartialEq, Eq, Error)]
pub enum BookFault {
    /// All leaves of the key are used, and the message has none.
    #[error("leaves spent")]
    LeavesSpent,
    /// The key is not registered.
    #[error("unknown key")]
    UnknownKey,
    /// The key is registered with other parameters; at the opening, the rows are those of no book.
    #[error("damaged")]
    Damaged,
    /// Another tree of the same seed is registered, of another width or height, which has the same one-time keys.
    #[error("another tree of this seed signs here")]
    OtherTree,
    /// A call of the database answered a fault other than want of memory; at the opening, also where its tables are not those of a book.
    #[error("database")]
    Database,
    /// Memory was refused, in the database or beside it.
    #[error("out of memory")]
    OutOfMemory,
}

impl From<AllocError> for BookFault {
    ghost use Rattle.std.specs.Prelude.{◌≡◌};
    ghost use Rattle.leaf_book.specs.declared.faults.BookFault.TheVariants.{OutOfMemory};

    ghost from_gives = { λ _ f. f ≡ OutOfMemory };

    fn from(_error: AllocError) -> BookFault {
        BookFault::OutOfMemory
    }
}

impl<T: Drop> From<AllocFailed<T>> for BookFault {
    ghost use Rattle.std.specs.Prelude.{◌≡◌};
    ghost use Rattle.leaf_book.specs.declared.faults.BookFault.TheVariants.{OutOfMemory};

    ghost from_gives = { λ _ f. f ≡ OutOfMemory };

    fn from(_error: AllocFailed<T>) -> BookFault {
        BookFault::OutOfMemory
    }
}

// Want of memory stays what it is, and all else is a fault of the database.
impl From<sqlite::Error> for BookFault {
    ghost use Rattle.std.specs.Prelude.{◌≡◌};
    ghost use Rattle.leaf_book.specs.Faults.{IsOutside, fault_of};

    ghost from_gives = { λ error f. (f ≡ fault_of error) × IsOutside f };

    fn from(error: sqlite::Error) -> BookFault {
        match error {
            sqlite::Error::SqliteFailure(ErrorCode::OutOfMemory) => BookFault::OutOfMemory,
            _ => BookFault::Database,
        }
    }
}

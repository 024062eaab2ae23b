//! Why a file is not signed, or two are not joined.
ghost use Rattle.std.specs.Prelude.{◌≡◌};
ghost use Rattle.signer.specs.Faults.{denial_of_shape};

use denials::Denial;
use leaf_book::BookFault;
use metadata::ShapeFault;
use std::alloc::{AllocError, AllocFailed};
use thiserror::Error;

/// Why a file is not signed.
#[derive(Debug, Drop, Error)]
pub enum SignFileFault {
    /// The first check of the file's envelope that fails, or what the signed file would be denied: `TooLong`, `NotCanonical` or
    /// `WrongShape`. No leaf is reserved.
    #[error("denied")]
    Denied(Denial),
    /// The book's fault.
    #[error("{0}")]
    Book(BookFault),
    /// Memory was refused. A leaf may be reserved: the same file gets the same one.
    #[error("out of memory")]
    OutOfMemory,
}

/// Why a file is not signed where the key has one document a version.
#[derive(Debug, Drop, Error)]
pub enum SignOnceFault {
    /// This leaf of the key is kept for another document of the same kind and version. No leaf is reserved.
    #[error("leaf {0} is kept for another document of this kind and version")]
    Other(u32),
    /// Any other reason.
    #[error("{0}")]
    Unsigned(SignFileFault),
}

/// Why two files are not joined.
#[derive(Debug, Drop, Error)]
pub enum JoinFault {
    /// The first check of the first file's envelope that fails.
    #[error("the first file is denied")]
    First(Denial),
    /// The same of the other file.
    #[error("the second file is denied")]
    Second(Denial),
    /// The signed parts differ.
    #[error("the files are two documents")]
    Different,
    /// What the joined file would be denied: `WrongShape` with over 16 entries, `TooLong` over 262,144 bytes.
    #[error("denied")]
    Denied(Denial),
    /// Memory was refused.
    #[error("out of memory")]
    OutOfMemory,
}

// The fault of an envelope as a denial, and `None` for want of memory.
pub(crate) fn denial_of(fault: ShapeFault) -> Option<Denial>
    ensures { result ≡ denial_of_shape fault }
{
    match fault {
        ShapeFault::TooLong => Some(Denial::TooLong),
        ShapeFault::NotCanonical => Some(Denial::NotCanonical),
        ShapeFault::OutOfMemory => None,
        ShapeFault::WrongShape | ShapeFault::WrongType | ShapeFault::BadKeyId => {
            Some(Denial::WrongShape)
        }
    }
}

impl From<AllocError> for SignFileFault {
    ghost use Rattle.std.specs.Prelude.{◌≡◌};
    ghost use Rattle.signer.specs.declared.faults.SignFileFault.TheVariants.{OutOfMemory};

    ghost from_gives = { λ _ fault. fault ≡ OutOfMemory };

    fn from(_: AllocError) -> Self {
        SignFileFault::OutOfMemory
    }
}

impl<T: Drop> From<AllocFailed<T>> for SignFileFault {
    ghost use Rattle.std.specs.Prelude.{◌≡◌};
    ghost use Rattle.signer.specs.declared.faults.SignFileFault.TheVariants.{OutOfMemory};

    ghost from_gives = { λ _ fault. fault ≡ OutOfMemory };

    fn from(_: AllocFailed<T>) -> Self {
        SignFileFault::OutOfMemory
    }
}

impl From<BookFault> for SignFileFault {
    ghost use Rattle.std.specs.Prelude.{◌≡◌};
    ghost use Rattle.signer.specs.Faults.{of_book};

    ghost from_gives = { λ fault given. given ≡ of_book fault };

    fn from(fault: BookFault) -> Self {
        match fault {
            BookFault::OutOfMemory => SignFileFault::OutOfMemory,
            other => SignFileFault::Book(other),
        }
    }
}

impl From<ShapeFault> for SignFileFault {
    ghost use Rattle.std.specs.Prelude.{◌≡◌};
    ghost use Rattle.signer.specs.Faults.{of_shape};

    ghost from_gives = { λ fault given. given ≡ of_shape fault };

    fn from(fault: ShapeFault) -> Self {
        match fault {
            ShapeFault::TooLong => SignFileFault::Denied(Denial::TooLong),
            ShapeFault::NotCanonical => SignFileFault::Denied(Denial::NotCanonical),
            ShapeFault::OutOfMemory => SignFileFault::OutOfMemory,
            ShapeFault::WrongShape | ShapeFault::WrongType | ShapeFault::BadKeyId => {
                SignFileFault::Denied(Denial::WrongShape)
            }
        }
    }
}

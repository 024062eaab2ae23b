use canonical_json::WriteFault;
use lms::SignFault;
use std::alloc::{AllocError, AllocFailed};
use thiserror::Error;

/// Why no file is made.
#[derive(Debug, Clone, Copy, PartialEq, Eq, Error)]
pub enum Fault {
    #[error("out of memory")]
    OutOfMemory,
    /// Two members of an object have one name, or values stand too deep inside one another.
    #[error("no canonical text")]
    NotWritten,
    /// A leaf is past the end of its tree.
    #[error("no such leaf")]
    LeafRange,
    /// The key is none of the list of keys.
    #[error("no such key")]
    UnknownKey,
}

impl From<AllocError> for Fault {
    fn from(_: AllocError) -> Self {
        Fault::OutOfMemory
    }
}

impl<T: Drop> From<AllocFailed<T>> for Fault {
    fn from(_: AllocFailed<T>) -> Self {
        Fault::OutOfMemory
    }
}

impl From<WriteFault> for Fault {
    fn from(fault: WriteFault) -> Self {
        match fault {
            WriteFault::OutOfMemory => Fault::OutOfMemory,
            WriteFault::TooDeep | WriteFault::Unordered => Fault::NotWritten,
        }
    }
}

impl From<SignFault> for Fault {
    fn from(fault: SignFault) -> Self {
        match fault {
            SignFault::OutOfMemory => Fault::OutOfMemory,
            SignFault::LeafRange => Fault::LeafRange,
        }
    }
}

//! Why a line is not answered.
use std::alloc::{AllocError, AllocFailed};

/// Why a line is not answered.
#[derive(Clone, Copy, PartialEq, Eq)]
pub enum LineFault {
    /// No command, or no words that it takes.
    NotUnderstood,
    /// Memory was refused outside the commands that are replayed.
    OutOfMemory,
}

impl From<AllocError> for LineFault {
    fn from(_: AllocError) -> Self {
        LineFault::OutOfMemory
    }
}

impl<T: Drop> From<AllocFailed<T>> for LineFault {
    fn from(_: AllocFailed<T>) -> Self {
        LineFault::OutOfMemory
    }
}

impl From<test_files::Fault> for LineFault {
    fn from(fault: test_files::Fault) -> Self {
        match fault {
            test_files::Fault::OutOfMemory => LineFault::OutOfMemory,
            _ => LineFault::NotUnderstood,
        }
    }
}

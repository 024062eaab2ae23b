//! Why a script is not replayed to its end.
use std::alloc::{AllocError, AllocFailed};
use std::io;
use thiserror::Error;

/// Why a script is not replayed to its end.
#[derive(Debug, Clone, Copy, PartialEq, Eq, Error)]
pub enum Failure {
    /// Memory was refused outside the commands that are replayed.
    #[error("out of memory")]
    Memory,
    /// Standard input or output failed.
    #[error("input or output failed")]
    Stream,
    /// No command, or no words that it takes.
    #[error("line {0}: not understood")]
    NotUnderstood(u64),
}

impl Failure {
    /// The exit status.
    pub fn status(self) -> u8 {
        match self {
            Failure::NotUnderstood(_) => 2,
            Failure::Memory | Failure::Stream => 3,
        }
    }
}

impl From<io::Error> for Failure {
    fn from(error: io::Error) -> Self {
        if error.kind() == io::ErrorKind::OutOfMemory {
            Failure::Memory
        } else {
            Failure::Stream
        }
    }
}

impl From<AllocError> for Failure {
    fn from(_: AllocError) -> Self {
        Failure::Memory
    }
}

impl<T: Drop> From<AllocFailed<T>> for Failure {
    fn from(_: AllocFailed<T>) -> Self {
        Failure::Memory
    }
}

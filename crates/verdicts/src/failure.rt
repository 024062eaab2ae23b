ghost use Rattle.std.specs.Prelude.{◌≡◌};
ghost use Rattle.verdicts.specs.Failure.{status_of};

use std::{fmt, io};

/// Why the verdicts end before the input does.
#[derive(Clone, Copy, PartialEq, Eq)]
pub enum Failure {
    /// The line of this number, from 1, is no case.
    NotUnderstood(u64),
    Memory,
    /// The input or the output fails.
    File,
}

impl Failure {
    /// The exit status: 2 for a line that is no case, 3 for what is outside of the lines.
    pub fn status(self) -> u8
        ensures { result ≡ status_of self }
    {
        match self {
            Failure::NotUnderstood(_) => 2,
            Failure::Memory | Failure::File => 3,
        }
    }
}

impl fmt::Display for Failure {
    ghost use Rattle.std.specs.Prelude.{Some};
    ghost use Rattle.verdicts.specs.Failure.{text_of};

    ghost output = { λ failure. Some (text_of failure) };

    fn fmt<W: fmt::Write>(&self, f: &mut fmt::Formatter<W>) -> fmt::Result {
        match *self {
            Failure::NotUnderstood(number) => write!(f, "line {number}: not understood"),
            Failure::Memory => f.write_str("fault memory"),
            Failure::File => f.write_str("fault file"),
        }
    }
}

impl From<io::Error> for Failure {
    ghost use Rattle.std.specs.Prelude.{◌≡◌};
    ghost use Rattle.std.specs.IoError.{error_kind};
    ghost use Rattle.verdicts.specs.Failure.{failure_of};

    ghost from_gives = { λ error failure. failure ≡ failure_of (error_kind error) };

    fn from(error: io::Error) -> Self {
        match error.kind() {
            io::ErrorKind::OutOfMemory => Failure::Memory,
            _ => Failure::File,
        }
    }
}

ghost use Rattle.std.specs.Prelude.{◌≡◌};
ghost use Rattle.measure.specs.Failure.{status_of};

use lms::SignFault;
use metadata::ShapeFault;
use std::alloc::AllocError;
use std::{fmt, io};

const USAGE: &str =
    "usage: measure lms N | measure documents N KIND FILE | measure layout N TARGETS PATH LAYOUT LINK ..
    (N from 1 to 4294967295)
  lms N          verifies N times with each LM-OTS type at height 5, and prints the verifications and their hashes per second:
                 `w8 verify V hashes H`; then the hashes of 55 bytes per second of SHA-256 alone, `sha2 H`, and the hashes of
                 each type in hundredths of that
  documents N KIND FILE
                 reads FILE N times as a document of KIND (root, timestamp, snapshot, targets, layout or link), and prints its
                 bytes and how many are read per second: `targets B read R`
  layout N TARGETS PATH LAYOUT LINK ..
                 checks N times whether the file LAYOUT and the links allow the target PATH, which the file TARGETS lists with a
                 layout, and prints how often per second the artifact rules of all steps are checked, each over the link in its
                 place, and how often the whole layout with its signatures: `steps S links L rules R layout C`";

/// Why nothing was measured.
#[derive(Debug, Clone, Copy, PartialEq, Eq)]
pub enum Failure {
    /// The words ask for no measurement.
    Usage,
    /// What was signed does not verify.
    NotVerified,
    /// A file is no document of its kind.
    NoDocument,
    /// The layout does not allow the target, or there is none.
    NotAllowed,
    Memory,
    File,
    Clock,
}

impl Failure {
    /// The exit status: 1 for a signature that does not verify, a file that is no document or a target that is not allowed, 2 for the
    /// words, and 3 for what is outside of these.
    pub fn status(self) -> u8
        ensures { result ≡ status_of self }
    {
        match self {
            Failure::NotVerified | Failure::NoDocument | Failure::NotAllowed => 1,
            Failure::Usage => 2,
            Failure::Memory | Failure::File | Failure::Clock => 3,
        }
    }
}

impl fmt::Display for Failure {
    fn fmt<W: fmt::Write>(&self, f: &mut fmt::Formatter<W>) -> fmt::Result {
        f.write_str(match self {
            Failure::Usage => USAGE,
            Failure::NotVerified => "not verified",
            Failure::NoDocument => "no document",
            Failure::NotAllowed => "not allowed",
            Failure::Memory => "fault memory",
            Failure::File => "fault file",
            Failure::Clock => "fault clock",
        })
    }
}

impl From<io::Error> for Failure {
    fn from(error: io::Error) -> Self {
        match error.kind() {
            io::ErrorKind::OutOfMemory => Failure::Memory,
            _ => Failure::File,
        }
    }
}

impl From<AllocError> for Failure {
    fn from(_: AllocError) -> Self {
        Failure::Memory
    }
}

impl From<SignFault> for Failure {
    fn from(fault: SignFault) -> Self {
        match fault {
            SignFault::OutOfMemory => Failure::Memory,
            SignFault::LeafRange => Failure::NotVerified,
        }
    }
}

impl From<ShapeFault> for Failure {
    fn from(fault: ShapeFault) -> Self {
        match fault {
            ShapeFault::OutOfMemory => Failure::Memory,
            _ => Failure::NoDocument,
        }
    }
}

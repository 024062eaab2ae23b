//! Why a command was not done, with the exit status and the line on standard error.
ghost use Rattle.std.specs.Prelude.{◌≡◌};
ghost use Rattle.cli_faults.specs.Statuses.{status_of};

use cli_tasks::Usage;
use denials::Denial;
use loose_json::CanonFault;
use metadata::ShapeFault;
use std::alloc::{AllocError, AllocFailed};
use std::{fmt, io};

/// What a slip of the hand over drafts is refused for, before a leaf is spent. Its text is one word.
#[derive(Clone, Copy, PartialEq, Eq)]
pub enum Slip {
    /// After what is published fewer targets would be granted, for want of documents.
    Bare,
    /// The key has no book, or one that does not know a signature of the key.
    Book,
    /// Another command is writing in the folder.
    Busy,
    /// A file or a signature that was sent back is over another signed part.
    Different,
    /// What is to be made stands there.
    Exists,
    /// A listed target file is neither in the folder nor held, or is another one.
    File,
    /// What is held does not meet its rules from the root that was given.
    Held,
    /// No key, or more than one, is called so, or bytes are no public key.
    Key,
    /// The document would have more bytes than it may, with the signatures that it wants.
    Long,
    /// Nothing to do: no document that the key may sign, or no draft.
    Nothing,
    /// Documents that a snapshot or timestamp is over have too few signatures.
    Order,
    /// The key has signed another document of this kind and version.
    Other,
    /// The document expires at the moment or before it.
    Past,
    /// A path or a role that is to go is not there.
    Path,
    /// The draft has signatures.
    Signed,
    /// No rule has this key for this document.
    Stranger,
    /// Nothing is held that the draft could follow.
    Unheld,
}

impl Slip {
    /// The word that is told.
    pub fn word(self) -> &'static str {
        match self {
            Slip::Bare => "bare",
            Slip::Book => "book",
            Slip::Busy => "busy",
            Slip::Different => "different",
            Slip::Exists => "exists",
            Slip::File => "file",
            Slip::Held => "held",
            Slip::Key => "key",
            Slip::Long => "long",
            Slip::Nothing => "nothing",
            Slip::Order => "order",
            Slip::Other => "other",
            Slip::Past => "past",
            Slip::Path => "path",
            Slip::Signed => "signed",
            Slip::Stranger => "stranger",
            Slip::Unheld => "unheld",
        }
    }
}

/// Why a command was not done. Its text is what standard error gets.
#[derive(Drop)]
pub enum Fault {
    /// The fault text of the command line, with its line end.
    Usage(String),
    /// The help that the command line asks for, with its line end. It goes to standard output.
    Help(String),
    /// The first rule that fails, and of a batch the index of its document, or the number of the documents where it is what
    /// they leave as a whole.
    Denied(Denial, Option<usize>),
    /// The number of the first rule that fails, its name and the index, as a server tells them.
    Refused(u8, String, Option<usize>),
    /// A slip over drafts.
    Slip(Slip),
    /// Something expires within the days that are looked ahead.
    Due,
    /// No source of a client gave a timestamp that is trusted, or the one that is has expired.
    NotFresh,
    /// All leaves of a key are spent.
    LeavesSpent,
    /// The book is to be known and is not there, or the key is to be known and is not in it.
    UnknownKey,
    Memory,
    /// The database could not be opened or used, or it has other tables than those of a store.
    Database,
    /// The tables hold the rows of no state.
    Damaged,
    Network,
    File,
    Clock,
}

impl Fault {
    /// The exit status: 0 for help, 1 where the command was denied, 2 for the command line, 3 for all else.
    pub fn status(&self) -> u8
        ensures { result ≡ status_of self.now }
    {
        match self {
            Fault::Help(_) => 0,
            Fault::Denied(_, _)
            | Fault::Refused(_, _, _)
            | Fault::Slip(_)
            | Fault::Due
            | Fault::NotFresh
            | Fault::LeavesSpent
            | Fault::UnknownKey => 1,
            Fault::Usage(_) => 2,
            Fault::Memory
            | Fault::Database
            | Fault::Damaged
            | Fault::Network
            | Fault::File
            | Fault::Clock => 3,
        }
    }
}

impl fmt::Display for Fault {
    fn fmt<W: fmt::Write>(&self, f: &mut fmt::Formatter<W>) -> fmt::Result {
        match self {
            Fault::Usage(text) | Fault::Help(text) => f.write_str(text.as_str()),
            Fault::Denied(denial, index) => write_denial(f, denial.number(), denial.name(), *index),
            Fault::Refused(number, name, index) => write_denial(f, *number, name, *index),
            Fault::Slip(slip) => {
                let word = slip.word();
                writeln!(f, "refused {word}")
            }
            Fault::Due => f.write_str("due\n"),
            Fault::NotFresh => f.write_str("not fresh\n"),
            Fault::LeavesSpent => f.write_str("leaves spent\n"),
            Fault::UnknownKey => f.write_str("unknown key\n"),
            Fault::Memory => f.write_str("fault memory\n"),
            Fault::Database => f.write_str("fault database\n"),
            Fault::Damaged => f.write_str("fault damaged\n"),
            Fault::Network => f.write_str("fault network\n"),
            Fault::File => f.write_str("fault file\n"),
            Fault::Clock => f.write_str("fault clock\n"),
        }
    }
}

fn write_denial<W: fmt::Write>(
    f: &mut fmt::Formatter<W>,
    number: u8,
    name: &str,
    index: Option<usize>,
) -> fmt::Result {
    match index {
        None => writeln!(f, "denied {number} {name}"),
        Some(index) => writeln!(f, "denied {number} {name} at {index}"),
    }
}

impl From<AllocError> for Fault {
    ghost use Rattle.std.specs.Prelude.{◌≡◌};
    ghost use Rattle.cli_faults.specs.declared.fault.Fault.TheVariants.{Memory};

    ghost from_gives = { λ _ f. f ≡ Memory };

    fn from(_: AllocError) -> Fault {
        Fault::Memory
    }
}

impl<T: Drop> From<AllocFailed<T>> for Fault {
    ghost use Rattle.std.specs.Prelude.{◌≡◌};
    ghost use Rattle.cli_faults.specs.declared.fault.Fault.TheVariants.{Memory};

    ghost from_gives = { λ _ f. f ≡ Memory };

    fn from(_: AllocFailed<T>) -> Fault {
        Fault::Memory
    }
}

impl From<Usage> for Fault {
    ghost use Rattle.std.specs.Prelude.{◌≡◌};
    ghost use Rattle.cli_faults.specs.Statuses.{fault_of_usage};

    ghost from_gives = { λ u f. f ≡ fault_of_usage u };

    fn from(usage: Usage) -> Fault {
        match usage {
            Usage::Text(text) => Fault::Usage(text),
            Usage::Help(text) => Fault::Help(text),
            Usage::OutOfMemory => Fault::Memory,
        }
    }
}

impl From<CanonFault> for Fault {
    ghost use Rattle.std.specs.Prelude.{◌≡◌};
    ghost use Rattle.cli_faults.specs.Statuses.{fault_of_canon};

    ghost from_gives = { λ c f. f ≡ fault_of_canon c };

    fn from(fault: CanonFault) -> Fault {
        match fault {
            CanonFault::NotCanonical => Fault::Denied(Denial::NotCanonical, None),
            CanonFault::OutOfMemory => Fault::Memory,
        }
    }
}

/// A file that is no document of its kind is denied by the first check that fails.
impl From<ShapeFault> for Fault {
    ghost use Rattle.std.specs.Prelude.{◌≡◌};
    ghost use Rattle.cli_faults.specs.Statuses.{fault_of_shape};

    ghost from_gives = { λ s f. f ≡ fault_of_shape s };

    fn from(fault: ShapeFault) -> Fault {
        match fault {
            ShapeFault::TooLong => Fault::Denied(Denial::TooLong, None),
            ShapeFault::NotCanonical => Fault::Denied(Denial::NotCanonical, None),
            ShapeFault::WrongShape => Fault::Denied(Denial::WrongShape, None),
            ShapeFault::WrongType => Fault::Denied(Denial::WrongType, None),
            ShapeFault::BadKeyId => Fault::Denied(Denial::BadKeyId, None),
            ShapeFault::OutOfMemory => Fault::Memory,
        }
    }
}

/// What a failed use of a file comes to.
pub fn file_fault(error: &io::Error) -> Fault
    ensures { status_of result ≡ 3 }
{
    if error.kind() == io::ErrorKind::OutOfMemory {
        Fault::Memory
    } else {
        Fault::File
    }
}

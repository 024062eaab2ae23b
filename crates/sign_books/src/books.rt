//! The book of a key in its file. One function opens and closes it; what is done over it borrows.
ghost use Rattle.std.specs.Prelude.{Result, ⊤};
ghost use Rattle.leaf_plans.specs.Book.{Book as Leaves};
ghost use Rattle.cli_faults.specs.declared.fault.Fault.{Fault as Why};
ghost use Rattle.sign_books.specs.Works.{Leads, Worked};

use cli_faults::{Fault, Notes, Slip};
use cli_files::connected;
use signer::{Book, BookFault, close_into_file};
use sqlite::{Alter, Connection, FileStore};
use sqlite_disk::Disk;
use std::alloc::Global;
use std::fs;
use std::io::{ErrorKind, Write};

// What is told of a book that another process has.
const IN_USE: &str = "in use by another process, which signs; try again";

/// What is done over an open book: registrations and signings, and nothing else.
pub trait BookWork {
    /// What comes of it.
    type Done: Drop;

    /// The work as it was, the book before it, what came of it, the book then, and the work that is left: whether it does so. Without a
    /// value of its own this claims nothing.
    ghost does: { Self → Leaves → Result Self.Done Why → Leaves → Self → Type 0 } = { λ _ _ _ _ _. ⊤ };

    /// Does it. The book may be a new one, just made.
    fn work<S: Alter, E: Write>(
        &mut self,
        book: &mut Book<S>,
        is_new: bool,
        notes: &mut Notes<'_, E>,
    ) -> Result<Self::Done, Fault>
        ensures does { does self.old book.old.book result book.new.book self.new }
        ensures leads { Leads book.old.book book.new.book };
}

/// What is looked for in an open book, which it cannot change.
pub trait BookLook {
    /// What comes of it.
    type Done: Drop;

    fn look<S: Alter, E: Write>(
        &mut self,
        book: &Book<S>,
        notes: &mut Notes<'_, E>,
    ) -> Result<Self::Done, Fault>;
}

/// Where a book stands, as what it is told of, and whether it has to be there.
#[derive(Clone, Copy)]
pub struct BookAt<'a> {
    pub place: &'a str,
    pub name: &'a str,
    pub known: bool,
}

/// Opens the book, which is made where there is none and it need not be known, does the work over it once, and closes it, so that its file
/// alone is whole. What was done is handed on only after that: a signature leaves the program when the book's file has its leaf without the
/// log. Where no book is opened, nothing is done.
pub fn worked_over<W: BookWork, E: Write>(
    rt: &HostRuntime,
    at: BookAt<'_>,
    work: &mut W,
    notes: &mut Notes<'_, E>,
) -> Result<W::Done, Fault>
    ensures { Worked W.does work.old result work.new }
{
    if at.known && !has_bytes(rt, at.place) {
        notes.fault(&at.name, &"no such book");
        return Err(Fault::UnknownKey);
    }
    let conn = match connected(rt, at.place, IN_USE, notes) {
        Ok(conn) => conn,
        Err(fault) => return Err(fault),
    };
    worked_in(rt.alloc(), conn, at, work, notes)
}

// The same over a connection to two files, which is closed. Whatever an opening answers, the rows that stood there stand (`stays` of
// `Book::open_over`).
fn worked_in<D: Disk + Drop, W: BookWork, E: Write>(
    alloc: Global,
    conn: Connection<FileStore<D>>,
    at: BookAt<'_>,
    work: &mut W,
    notes: &mut Notes<'_, E>,
) -> Result<W::Done, Fault>
    ensures { Worked W.does work.old result work.new }
{
    let is_new = conn.schema().tables.is_empty();
    if is_new && at.known {
        notes.fault(&at.name, &"no book");
        let _ = conn.close();
        return Err(Fault::UnknownKey);
    }
    match Book::open_over(alloc, conn) {
        Ok(book) => worked_and_closed(book, is_new, at, work, notes),
        Err(unopened) => {
            notes.fault(&at.name, &unopened.fault);
            let fault = book_fault(unopened.fault);
            if let Some(conn) = unopened.conn {
                let _ = conn.close();
            }
            Err(fault)
        }
    }
}

// Does the work over an open book, and closes it. Where its log cannot be copied, nothing that was done is handed out: the leaf is kept in
// the log, and the same document gets it again.
fn worked_and_closed<D: Disk + Drop, W: BookWork, E: Write>(
    book: Book<FileStore<D>>,
    is_new: bool,
    at: BookAt<'_>,
    work: &mut W,
    notes: &mut Notes<'_, E>,
) -> Result<W::Done, Fault>
    ensures { Worked W.does work.old result work.new }
{
    book.rests();
    let mut book = book;
    let done = work.work(&mut book, is_new, notes);
    match (close_into_file(book), done) {
        (_, Err(fault)) => Err(fault),
        (Ok(_), Ok(done)) => Ok(done),
        (Err(fault), Ok(_)) => {
            notes.fault(&at.name, &"its log is not copied into it");
            Err(book_fault(fault))
        }
    }
}

/// Whether a file is there and is not empty. One of which the system does not say so is opened, and then has its own fault.
pub fn has_bytes(rt: &HostRuntime, path: &str) -> bool {
    match fs::metadata(rt, path) {
        Ok(found) => 0 < found.len(),
        Err(error) => error.kind() != ErrorKind::NotFound,
    }
}

/// What a fault of a book comes to.
pub fn book_fault(fault: BookFault) -> Fault {
    match fault {
        BookFault::LeavesSpent => Fault::LeavesSpent,
        BookFault::Damaged => Fault::Damaged,
        BookFault::OtherTree => Fault::Slip(Slip::Book),
        BookFault::UnknownKey | BookFault::Database => Fault::Database,
        BookFault::OutOfMemory => Fault::Memory,
    }
}

// A look as work that leaves the book as it is.
#[derive(Drop)]
struct Looking<'w, W: BookLook> {
    look: &'w mut W,
}

impl<W: BookLook> BookWork for Looking<'_, W> {
    ghost use Rattle.std.specs.Prelude.{◌≡◌};

    type Done = W::Done;

    ghost does = { λ _ b _ c _. c ≡ b };

    fn work<S: Alter, E: Write>(
        &mut self,
        book: &mut Book<S>,
        _is_new: bool,
        notes: &mut Notes<'_, E>,
    ) -> Result<W::Done, Fault> {
        self.look.look(book, notes)
    }
}

/// Opens the book likewise, looks for something in it, and closes it.
pub fn looked_over<W: BookLook, E: Write>(
    rt: &HostRuntime,
    at: BookAt<'_>,
    look: &mut W,
    notes: &mut Notes<'_, E>,
) -> Result<W::Done, Fault> {
    let mut looking = Looking { look };
    worked_over(rt, at, &mut looking, notes)
}

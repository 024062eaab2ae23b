//! The end of a book over two files: what the next open finds in them.
ghost use Rattle.std.specs.Prelude.{◌≡◌, ◌⊎◌, [], false, IfErr, IfOk, IsSomeAnd, IsTrue, Ok, Result};
ghost use Rattle.sqlite.specs.Files.{file_state};
ghost use Rattle.sqlite.specs.Held.{state};
ghost use Rattle.sqlite.specs.State.{HasCleanDisk};
ghost use Rattle.sqlite_trees.specs.Tree.{Trees};
ghost use Rattle.sqlite_wal.specs.Files.{outcomes};
ghost use Rattle.sqlite_wal.specs.Reads.{AreClean};
ghost use Rattle.sqlite_wal.specs.Recovery.{Image};
ghost use Rattle.keys_roles.specs.Views.{id_text};
ghost use Rattle.sql_tables.specs.Opening.{IsFound};
ghost use Rattle.leaf_plans.specs.Book as plain;
ghost use Rattle.leaf_plans.specs.Book.{IsBook};
ghost use Rattle.leaf_book.specs.Calls.{Registers, Reserves};
ghost use Rattle.leaf_book.specs.Faults.{IsOutside};
ghost use Rattle.leaf_book.specs.Rows.{Begins, OpensTo, Recovers, Reopens, TreesStand};

use crate::book::Book;
use crate::faults::BookFault;
use crate::leaf::Leaf;
use crate::opening::Unopened;
use keys_roles::KeyId;
use lms::{Params, Seed};
use sql_tables::close;
use sqlite::{Alter, Connection, FileStore, Files};
use sqlite_disk::Disk;
use std::alloc::Global;

/// Reserves a leaf, as `Book::reserve` does, and hands back the two files. Whatever a crash leaves of them, inside the call or
/// after it, is the whole database of the book before the call or of the book after it, and after a leaf was answered of the book that
/// keeps it; `Book::open_over` over it answers this book, faults of memory and of the database aside. A crash inside the call is one from
/// which on each call of the disks fails. Nothing is said where the connection was shut and no leaf is answered, nor where a wrong answer
/// of the disks was taken as true.
pub fn reserve_and_close<D: Disk + Drop>(
    book: Book<FileStore<D>>,
    key: &KeyId,
    message: &[u8],
) -> (Result<Leaf, BookFault>, Files<D>)
    ensures before_or_after { AreClean D.Disk result.1.log result.1.db → IsTrue (file_state book.conn).is_open
        → (left : Image) → outcomes D.Disk result.1.log result.1.db left → (found : Trees) → IsFound left found
        → ∥ Recovers found book.book ⊎ ((r : _) × (c : plain.Book) × Reserves book.book (id_text key.now) message.now r c × Recovers found c) ∥₁ }
    ensures after { AreClean D.Disk result.1.log result.1.db
        → (left : Image) → outcomes D.Disk result.1.log result.1.db left → (found : Trees) → IsFound left found
        → IfOk result.0 (λ leaf. ∥ ((c : plain.Book) × Reserves book.book (id_text key.now) message.now (Ok leaf) c × Recovers found c) ∥₁) }
{
    let (result, conn) = reserved(book, key, message);
    (result, close(conn))
}

/// Registers a key, as `Book::register` does, and hands back the two files, of which the same is said as by `reserve_and_close`: the next
/// open finds the rows of the book before the call or of the book after it, and after an id was answered those of the book that has the
/// key.
pub fn register_and_close<D: Disk + Drop>(
    book: Book<FileStore<D>>,
    seed: &Seed,
    params: Params,
) -> (Result<KeyId, BookFault>, Files<D>)
    ensures before_or_after { AreClean D.Disk result.1.log result.1.db → IsTrue (file_state book.conn).is_open
        → (left : Image) → outcomes D.Disk result.1.log result.1.db left → (found : Trees) → IsFound left found
        → ∥ Recovers found book.book ⊎ ((r : _) × (c : plain.Book) × Registers book.book seed.now params r c × Recovers found c) ∥₁ }
    ensures after { AreClean D.Disk result.1.log result.1.db
        → (left : Image) → outcomes D.Disk result.1.log result.1.db left → (found : Trees) → IsFound left found
        → IfOk result.0 (λ key. ∥ ((c : plain.Book) × Registers book.book seed.now params (Ok (id_text key)) c × Recovers found c) ∥₁) }
{
    let (result, conn) = registered(book, seed, params);
    (result, close(conn))
}

/// Opens a book over two files in which no transaction is under way, as `Book::open_over` does, and hands them back. Whatever a crash
/// leaves of them, inside the opening or after it, the next open finds what stood there before, or the rows of the empty book where there
/// was no table. So where what stood there stood for a book, no table as the empty one, the next open answers this book, faults of memory
/// and of the database aside. Nothing is said where a wrong answer of the disks was taken as true.
pub fn open_and_close<D: Disk + Drop>(
    alloc: Global,
    conn: Connection<FileStore<D>>,
) -> (Result<(), BookFault>, Option<Files<D>>)
    ensures crash { conn.in_transaction ≡ false → IsSomeAnd result.1 (λ files. AreClean D.Disk files.log files.db
        → (left : Image) → outcomes D.Disk files.log files.db left → (found : Trees) → IsFound left found
        → ∥ (file_state conn).may_leave found ⊎ Begins (file_state conn) found ∥₁) }
    ensures reopened { conn.in_transaction ≡ false → IsTrue (file_state conn).is_open → (b : plain.Book) → IsBook b → TreesStand (file_state conn).committed.trees b
        → IsSomeAnd result.1 (λ files. AreClean D.Disk files.log files.db
        → (left : Image) → outcomes D.Disk files.log files.db left → (found : Trees) → IsFound left found
        → (answer : Result plain.Book BookFault) → OpensTo found answer → ∥ Reopens b answer ∥₁) }
{
    let (result, conn) = opened(alloc, conn);
    match conn {
        Some(conn) => (result, Some(close(conn))),
        None => (result, None),
    }
}

/// Closes a book: what its log has is copied into the database file, which then holds the book by itself. Whatever a crash leaves of
/// the two files, an opening finds the book, and so it does where the log is lost, or left behind, and an empty one stands in its place.
/// On a fault the book needs its log still. Nothing is said where a wrong answer of the disks was taken as true.
pub fn close_into_file<D: Disk + Drop>(book: Book<FileStore<D>>) -> Result<Files<D>, BookFault>
    ensures both { IfOk result (λ files. AreClean D.Disk files.log files.db
        → (left : Image) → outcomes D.Disk files.log files.db left → (found : Trees) → IsFound left found → ∥ Recovers found book.book ∥₁) }
    ensures alone { IfOk result (λ files. AreClean D.Disk files.log files.db
        → (left : Image) → outcomes D.Disk files.log files.db left → (found : Trees) → IsFound (record left { log = [] }) found → ∥ Recovers found book.book ∥₁) }
    ensures fault { IfErr result IsOutside }
{
    let conn = at_rest(book);
    match conn.close_files() {
        Ok(files) => Ok(files),
        Err((error, _)) => Err(BookFault::from(error)),
    }
}

// The connection of a book, whose last commit is that of the book.
fn at_rest<S: Alter>(book: Book<S>) -> Connection<S>
    ensures { HasCleanDisk (state S.Store result) → IsTrue (state S.Store result).is_open → Recovers (state S.Store result).committed.trees book.book }
{
    book.rests();
    book.into_connection()
}

// Reserves a leaf, and hands back the connection.
fn reserved<S: Alter + Drop>(
    mut book: Book<S>,
    key: &KeyId,
    message: &[u8],
) -> (Result<Leaf, BookFault>, Connection<S>)
    ensures before_or_after { HasCleanDisk (state S.Store result.1) → IsTrue (state S.Store book.conn).is_open → (found : Trees) → (state S.Store result.1).may_leave found
        → Recovers found book.book ⊎ ((r : _) × (c : plain.Book) × Reserves book.book (id_text key.now) message.now r c × Recovers found c) }
    ensures after { HasCleanDisk (state S.Store result.1) → (found : Trees) → (state S.Store result.1).may_leave found
        → IfOk result.0 (λ leaf. (c : plain.Book) × Reserves book.book (id_text key.now) message.now (Ok leaf) c × Recovers found c) }
{
    book.rests();
    let result = book.reserve(key, message);
    let conn = book.into_connection();
    (result, conn)
}

// Registers a key, and hands back the connection.
fn registered<S: Alter + Drop>(
    mut book: Book<S>,
    seed: &Seed,
    params: Params,
) -> (Result<KeyId, BookFault>, Connection<S>)
    ensures before_or_after { HasCleanDisk (state S.Store result.1) → IsTrue (state S.Store book.conn).is_open → (found : Trees) → (state S.Store result.1).may_leave found
        → Recovers found book.book ⊎ ((r : _) × (c : plain.Book) × Registers book.book seed.now params r c × Recovers found c) }
    ensures after { HasCleanDisk (state S.Store result.1) → (found : Trees) → (state S.Store result.1).may_leave found
        → IfOk result.0 (λ key. (c : plain.Book) × Registers book.book seed.now params (Ok (id_text key)) c × Recovers found c) }
{
    book.rests();
    let result = book.register(seed, params);
    let conn = book.into_connection();
    (result, conn)
}

// Opens a book, and hands back the connection, where there still is one.
fn opened<S: Alter + Drop>(
    alloc: Global,
    conn: Connection<S>,
) -> (Result<(), BookFault>, Option<Connection<S>>)
    ensures crash { conn.in_transaction ≡ false → IsSomeAnd result.1 (λ c. HasCleanDisk (state S.Store c) → (found : Trees) → (state S.Store c).may_leave found
        → (state S.Store conn).may_leave found ⊎ Begins (state S.Store conn) found) }
    ensures stays { conn.in_transaction ≡ false → IsTrue (state S.Store conn).is_open → (b : plain.Book) → TreesStand (state S.Store conn).committed.trees b
        → IsSomeAnd result.1 (λ c. HasCleanDisk (state S.Store c) → (found : Trees) → (state S.Store c).may_leave found → TreesStand found b) }
{
    match Book::open_over(alloc, conn) {
        Ok(book) => (Ok(()), Some(book.into_connection())),
        Err(unopened) => {
            let Unopened { fault, conn } = unopened;
            (Err(fault), conn)
        }
    }
}

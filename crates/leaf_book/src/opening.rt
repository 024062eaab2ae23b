//! Opening a book: the rows that stand in the tables, or new tables.
ghost use Rattle.std.specs.Prelude.{◌≡◌, ◌⊎◌, false, Err, Ok, IfErr, IfOk, MatchResult, OnOk, IsSomeAnd, IsTrue};
ghost use Rattle.sqlite.specs.Held.{state};
ghost use Rattle.sqlite.specs.State.{HasCleanDisk, IsLive, Survives};
ghost use Rattle.sqlite_trees.specs.Tree.{Trees};
ghost use Rattle.leaf_plans.specs.Book as plain;
ghost use Rattle.leaf_plans.specs.Book.{IsBook, no_book};
ghost use Rattle.leaf_book.specs.Rows.{Begins, HoldsBook, HoldsWhole, IsRecorded, IsSettled, OpensTo, Stands, TreesStand};
ghost use Rattle.leaf_book.specs.Schema.{HasBoth, no_schema};
ghost use Rattle.leaf_plans.specs.Views.{book_view};

use crate::book::Book;
use crate::described::beginning_of;
use crate::faults::BookFault;
use crate::loading::{ask, read};
use crate::making::{make_book, renew};
use leaf_plans::{LeafRow, Signer};
use sqlite::{Alter, Connection};
use std::alloc::Global;

/// Why no book was opened, and the connection, where there still is one.
#[derive(Drop)]
pub struct Unopened<S: Alter> {
    pub fault: BookFault,
    pub conn: Option<Connection<S>>,
}

impl<S: Alter + Drop> Book<S> {
    /// Opens a book over a connection: what it holds is read from its tables, and where there is no table, both are made, in one
    /// transaction. After the two may stand further tables, indexes and views. What was not committed over the connection is undone;
    /// where there was such a thing, its clock and step limit are lost.
    ///
    /// - `Damaged`: the tables are those of a book, and their rows are those of none: a key that is not 64 hex digits of lower case,
    ///   a type code outside 1 to 4, a height other than 5 or 10, a leaf of an unknown key or one that its tree does not have, or a
    ///   value of another type than its column's.
    /// - `Database`: a call of the database answered a fault, or it has tables, and the two of a book do not come first, in their
    ///   order, or a further one has a foreign key onto one of them.
    /// - `OutOfMemory`: memory was refused.
    ///
    /// Where the rows are those of no book, the connection is given back, so that it can be said of every kind of disk. Where no
    /// transaction was under way the connection is given back on each fault, and whether it opens or not, a crash leaves what it left
    /// before, or the empty book where there was no table: what stood for a book stands for it. There is no call that opens a book and
    /// lets go of the connection of one that does not open, since nothing could be said of the rows then.
    pub fn open_over(alloc: Global, conn: Connection<S>) -> Result<Book<S>, Unopened<S>>
        ensures opened { IfOk result (λ b. HasCleanDisk (state S.Store b.conn) → OpensTo (state S.Store conn).committed.trees (Ok b.book)) }
        ensures rows { IfOk result (λ b. HasCleanDisk (state S.Store b.conn) → IsRecorded (state S.Store b.conn) b.book) }
        ensures right { IfOk result (λ b. IsBook b.book) }
        ensures damaged { IfErr result (λ u. u.fault ≡ BookFault.Damaged → IsSomeAnd u.conn (λ c. HasCleanDisk (state S.Store c) → OpensTo (state S.Store conn).committed.trees (Err BookFault.Damaged))) }
        ensures fault { IfErr result (λ u. (u.fault ≡ BookFault.Damaged) ⊎ ((u.fault ≡ BookFault.Database) ⊎ (u.fault ≡ BookFault.OutOfMemory))) }
        ensures crash { conn.in_transaction ≡ false → MatchResult result (λ b. Survives (state S.Store conn) (state S.Store b.conn) (λ trees. Begins (state S.Store conn) trees))
            (λ u. IsSomeAnd u.conn (λ c. Survives (state S.Store conn) (state S.Store c) (λ trees. Begins (state S.Store conn) trees))) }
        ensures stays { conn.in_transaction ≡ false → IsTrue (state S.Store conn).is_open → (b : plain.Book) → TreesStand (state S.Store conn).committed.trees b
            → MatchResult result (λ o. HasCleanDisk (state S.Store o.conn) → (trees : Trees) → (state S.Store o.conn).may_leave trees → TreesStand trees b)
            (λ u. IsSomeAnd u.conn (λ c. HasCleanDisk (state S.Store c) → (trees : Trees) → (state S.Store c).may_leave trees → TreesStand trees b)) }
    {
        let mut conn = match renew(alloc, conn) {
            Ok(conn) => conn,
            Err(fault) => {
                return Err(Unopened { fault, conn: None });
            }
        };
        match prepare(alloc, &mut conn) {
            Ok((signers, leaves)) => Ok(Book::over(alloc, conn, signers, leaves)),
            Err(fault) => Err(Unopened {
                fault,
                conn: Some(conn),
            }),
        }
    }
}

// What the two tables hold.
fn load<S: Alter>(
    alloc: Global,
    conn: &mut Connection<S>,
) -> Result<(Vec<Signer>, Vec<LeafRow>), BookFault>
    ensures mode { conn.old.in_transaction ≡ false → conn.new.in_transaction ≡ false }
    ensures right { IfOk result (λ p. IsBook (book_view p.0.items p.1.items)) }
    ensures loaded { HasCleanDisk (state S.Store conn.new) → conn.old.in_transaction ≡ false → IsSettled (state S.Store conn.old) → HasBoth (state S.Store conn.old).now.schema
        → IfOk result (λ p. IsTrue (state S.Store conn.old).is_open × HoldsBook (state S.Store conn.old).now.trees (book_view p.0.items p.1.items) × IsRecorded (state S.Store conn.new) (book_view p.0.items p.1.items)) }
    ensures damaged { HasCleanDisk (state S.Store conn.new) → HasBoth (state S.Store conn.old).now.schema → result ≡ Err BookFault.Damaged
        → IsTrue (state S.Store conn.old).is_open × ((b : plain.Book) → IsBook b → HoldsBook (state S.Store conn.old).now.trees b → ⊥) }
    ensures fault { IfErr result (λ f. (f ≡ BookFault.Damaged) ⊎ ((f ≡ BookFault.Database) ⊎ (f ≡ BookFault.OutOfMemory))) }
    ensures survives { Survives (state S.Store conn.old) (state S.Store conn.new) (λ _. ⊥) }
{
    let answers = match ask(conn) {
        Ok(answers) => answers,
        Err(fault) => return Err(fault),
    };
    read(alloc, &answers)
}

// What the database holds. Where it has no table, both are made.
fn prepare<S: Alter>(
    alloc: Global,
    conn: &mut Connection<S>,
) -> Result<(Vec<Signer>, Vec<LeafRow>), BookFault>
    requires { conn.old.in_transaction ≡ false }
    ensures autocommit { conn.new.in_transaction ≡ false }
    ensures live { IsLive (state S.Store conn.old) }
    ensures right { IfOk result (λ p. IsBook (book_view p.0.items p.1.items)) }
    ensures found { HasCleanDisk (state S.Store conn.new) → IsSettled (state S.Store conn.old)
        → IfOk result (λ p. IsTrue (state S.Store conn.old).is_open × Stands (state S.Store conn.old).now (book_view p.0.items p.1.items) × IsRecorded (state S.Store conn.new) (book_view p.0.items p.1.items)) }
    ensures damaged { HasCleanDisk (state S.Store conn.new) → result ≡ Err BookFault.Damaged
        → IsTrue (state S.Store conn.old).is_open × HasBoth (state S.Store conn.old).now.schema × ((b : plain.Book) → IsBook b → HoldsBook (state S.Store conn.old).now.trees b → ⊥) }
    ensures fault { IfErr result (λ f. (f ≡ BookFault.Damaged) ⊎ ((f ≡ BookFault.Database) ⊎ (f ≡ BookFault.OutOfMemory))) }
    ensures crash { Survives (state S.Store conn.old) (state S.Store conn.new) (λ trees. IsTrue (state S.Store conn.old).is_open → ((state S.Store conn.old).now.schema ≡ no_schema) × HoldsWhole trees no_book) }
{
    let count = beginning_of(conn.schema());
    if count == Some(2) {
        return load(alloc, conn);
    }
    if count != Some(0) {
        return Err(BookFault::Database);
    }
    match make_book(conn) {
        Ok(()) => Ok((Vec::new(alloc), Vec::new(alloc))),
        Err(fault) => Err(fault),
    }
}

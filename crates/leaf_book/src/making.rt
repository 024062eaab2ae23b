//! The making of the tables, and a connection between two transactions.
ghost use Rattle.std.specs.Prelude.{◌≡◌, ◌⊎◌, false, Ok, [], IsTrue, IfErr, IfOk, OnOk};
ghost use Rattle.sqlite.specs.Effect.{IsDatabase};
ghost use Rattle.sqlite.specs.State.{HasCleanDisk, KeepsCommit, Survives};
ghost use Rattle.sqlite.specs.Held.{state};
ghost use Rattle.sql_tables.specs.Making.{IsMade};
ghost use Rattle.leaf_plans.specs.Book.{no_book};
ghost use Rattle.leaf_book.specs.Faults.{IsOutside};
ghost use Rattle.leaf_book.specs.Rows.{HoldsWhole, IsRecorded, IsSettled};
ghost use Rattle.leaf_book.specs.Schema.{no_schema, the_schema};
ghost use Rattle.leaf_book.specs.steps.Making.{nowhere};

use crate::described::two_tables;
use crate::faults::BookFault;
use sqlite::{Alter, Connection, Error, Transaction};
use std::alloc::Global;

// Makes both tables.
fn make_both<S: Alter>(tx: &mut Transaction<'_, S>) -> Result<(), Error>
    ensures same_reference { tx.new.conn.ghost_name ≡ tx.old.conn.ghost_name }
    ensures wrote { HasCleanDisk (state S.Store tx.new.conn.now) → IsMade nowhere no_schema (state S.Store tx.old.conn.now) → OnOk result (IsMade nowhere the_schema (state S.Store tx.new.conn.now)) }
    ensures sound { HasCleanDisk (state S.Store tx.new.conn.now) → IsMade nowhere no_schema (state S.Store tx.old.conn.now) → IsDatabase (state S.Store tx.old.conn.now).now → OnOk result (IsDatabase (state S.Store tx.new.conn.now).now) }
    ensures kept { HasCleanDisk (state S.Store tx.new.conn.now) → KeepsCommit (state S.Store tx.old.conn.now) (state S.Store tx.new.conn.now) }
    ensures survives { Survives (state S.Store tx.old.conn.now) (state S.Store tx.new.conn.now) (λ _. ⊥) }
{
    sql_tables::make_rest(tx, &two_tables(), 0)
}

// Makes both tables in one transaction, where there is none.
fn make_tables<S: Alter>(conn: &mut Connection<S>) -> Result<(), Error>
    requires { conn.old.in_transaction ≡ false }
    ensures autocommit { conn.new.in_transaction ≡ false }
    ensures wrote { HasCleanDisk (state S.Store conn.new) → (state S.Store conn.old).now.schema ≡ no_schema → OnOk result (IsRecorded (state S.Store conn.new) no_book) }
    ensures was_open { HasCleanDisk (state S.Store conn.new) → IsTrue (state S.Store conn.new).is_open → IsTrue (state S.Store conn.old).is_open }
    ensures crash { Survives (state S.Store conn.old) (state S.Store conn.new) (λ trees. IsTrue (state S.Store conn.old).is_open → (state S.Store conn.old).now.schema ≡ no_schema → IsDatabase (state S.Store conn.old).now → HoldsWhole trees no_book) }
{
    let mut tx = conn.transaction();
    make_both(&mut tx)?;
    tx.commit()
}

// The same, with the faults of a book.
pub(crate) fn make_book<S: Alter>(conn: &mut Connection<S>) -> Result<(), BookFault>
    requires { conn.old.in_transaction ≡ false }
    ensures autocommit { conn.new.in_transaction ≡ false }
    ensures wrote { HasCleanDisk (state S.Store conn.new) → (state S.Store conn.old).now.schema ≡ no_schema → OnOk result (IsRecorded (state S.Store conn.new) no_book) }
    ensures was_open { HasCleanDisk (state S.Store conn.new) → IsTrue (state S.Store conn.new).is_open → IsTrue (state S.Store conn.old).is_open }
    ensures crash { Survives (state S.Store conn.old) (state S.Store conn.new) (λ trees. IsTrue (state S.Store conn.old).is_open → (state S.Store conn.old).now.schema ≡ no_schema → IsDatabase (state S.Store conn.old).now → HoldsWhole trees no_book) }
    ensures fault { IfErr result IsOutside }
{
    make_tables(conn)?;
    Ok(())
}

/// A connection between two transactions, over the same store. Where a transaction was under way it is undone, and the connection
/// is made anew; its clock and step limit are then lost.
pub(crate) fn renew<S: Alter + Drop>(
    alloc: Global,
    conn: Connection<S>,
) -> Result<Connection<S>, BookFault>
    ensures settled { IfOk result (λ c. HasCleanDisk (state S.Store c) → IsSettled (state S.Store c)) }
    ensures same { IfOk result (λ c. HasCleanDisk (state S.Store c) → IsTrue (state S.Store c).is_open → (state S.Store c).now.trees ≡ (state S.Store conn).committed.trees) }
    ensures autocommit { IfOk result (λ c. c.in_transaction ≡ false) }
    ensures untouched { conn.in_transaction ≡ false → result ≡ Ok conn }
    ensures fault { IfErr result IsOutside }
{
    Ok(sql_tables::renew(alloc, conn)?)
}

// The making of the tables, and a connection between two transactions.
ghost use Rattle.std.specs.Prelude.{◌≡◌, ◌≢◌, ◌<◌, ◌≤◌, ◌+◌, Ok, Err, true, false, [], IsTrue, IfOk, OnOk};
ghost use Rattle.sqlite.specs.State.{HasCleanDisk, Survives};
ghost use Rattle.sqlite.specs.Held.{state};
ghost use Rattle.sqlite_trees.specs.Tree.{Trees};
ghost use Rattle.table_rows.specs.Schema.{the_schema, beginning, held, six, HasSix};
ghost use Rattle.sql_tables.specs.Described.{LacksRest};
ghost use Rattle.repository_rows.specs.Contents.{no_rows};
ghost use Rattle.table_rows.specs.Tables.{IsStore, HoldsWhole, AreBare};
ghost use Rattle.repository_tables.specs.steps.Writing.{Cells, IsInside, IsUncommitted, no_cells};
ghost use Rattle.table_rows.specs.Schema.{HasSome};
ghost use Rattle.repository_tables.specs.steps.Migrating.{IsEarly, bare_cells};
ghost use Rattle.repository_tables.specs.Opening.{IsSettled};
ghost use Rattle.sql_tables.specs.Making.{IsMade, Makes};

use sqlite::{Alter, Connection, Error, Transaction};
use std::alloc::Global;
use table_rows::{StoreFault, six_tables};

// Makes the tables from this place on.
pub(crate) fn make_rest<S: Alter>(tx: &mut Transaction<'_, S>, count: usize) -> Result<(), Error>
    requires { count ≤ 6 }
    ensures wrote { HasCleanDisk (state S.Store tx.new.conn.now) → (rows : Trees) → LacksRest six count rows → IsMade rows (beginning count) (state S.Store tx.old.conn.now) → OnOk result (IsMade rows the_schema (state S.Store tx.new.conn.now)) }
    ensures uncommitted { IsUncommitted S.Store tx.old tx.new }
{
    sql_tables::make_rest(tx, &six_tables(), count)
}

// Puts the row of `schema` into tables that are all empty.
pub(crate) fn put_version<S: Alter>(tx: &mut Transaction<'_, S>) -> Result<(), Error>
    ensures wrote { HasCleanDisk (state S.Store tx.new.conn.now) → IsTrue (state S.Store tx.old.conn.now).is_open → IsTrue (state S.Store tx.old.conn.now).in_transaction
        → HasSix (state S.Store tx.old.conn.now).now.schema → AreBare (held (state S.Store tx.old.conn.now).now.schema (state S.Store tx.old.conn.now).now.trees) → OnOk result (IsInside (state S.Store tx.new.conn.now) no_cells) }
    ensures was_open { HasCleanDisk (state S.Store tx.new.conn.now) → OnOk result (IsTrue (state S.Store tx.old.conn.now).is_open) }
    ensures uncommitted { IsUncommitted S.Store tx.old tx.new }
{
    tx.execute("INSERT INTO schema (version) VALUES (2)", &[])?;
    Ok(())
}

// Makes `root2` after all that is there, where it is absent: so many of the six tables are there.
pub(crate) fn make_root2<S: Alter>(tx: &mut Transaction<'_, S>, count: usize) -> Result<(), Error>
    ensures wrote { HasCleanDisk (state S.Store tx.new.conn.now) → (c : Cells) → IsEarly count (state S.Store tx.old.conn.now) c → OnOk result (IsInside (state S.Store tx.new.conn.now) c) }
    ensures uncommitted { IsUncommitted S.Store tx.old tx.new }
{
    if count == 5 {
        tx.execute(
            "CREATE TABLE root2 (version INTEGER NOT NULL PRIMARY KEY, profile INTEGER NOT NULL, bytes BLOB NOT NULL)",
            &[],
        )?;
    }
    Ok(())
}

// Makes `root2` and puts the row of `schema`, inside a transaction.
fn begin_inside<S: Alter>(tx: &mut Transaction<'_, S>, count: usize) -> Result<(), Error>
    ensures wrote { HasCleanDisk (state S.Store tx.new.conn.now) → IsEarly count (state S.Store tx.old.conn.now) bare_cells → OnOk result (IsInside (state S.Store tx.new.conn.now) no_cells) }
    ensures was_open { HasCleanDisk (state S.Store tx.new.conn.now) → OnOk result (IsTrue (state S.Store tx.old.conn.now).is_open) }
    ensures uncommitted { IsUncommitted S.Store tx.old tx.new }
{
    make_root2(tx, count)?;
    put_version(tx)
}

// Puts the row of `schema` into tables that are all empty, in one transaction. So many of the six are there, and `root2` is made
// where it is absent.
pub(crate) fn begin<S: Alter>(conn: &mut Connection<S>, count: usize) -> Result<(), Error>
    requires { conn.old.in_transaction ≡ false }
    ensures autocommit { conn.new.in_transaction ≡ false }
    ensures wrote { HasCleanDisk (state S.Store conn.new) → HasSome count (state S.Store conn.old).now.schema → AreBare (held (state S.Store conn.old).now.schema (state S.Store conn.old).now.trees) → OnOk result (IsStore (state S.Store conn.new) no_rows) }
    ensures was_open { HasCleanDisk (state S.Store conn.new) → IsTrue (state S.Store conn.new).is_open → IsTrue (state S.Store conn.old).is_open }
    ensures crash { Survives (state S.Store conn.old) (state S.Store conn.new) (λ trees. IsTrue (state S.Store conn.old).is_open × (HasSome count (state S.Store conn.old).now.schema → AreBare (held (state S.Store conn.old).now.schema (state S.Store conn.old).now.trees) → HoldsWhole trees no_rows)) }
{
    let _ = conn.schema();
    let mut tx = conn.transaction();
    begin_inside(&mut tx, count)?;
    tx.commit()
}

/// A connection between two transactions, over the same store: call it once, before `prepare`. Where a transaction was under
/// way it is undone, and the connection is made anew; its clock and step limit are then lost.
pub fn renew<S: Alter + Drop>(
    alloc: Global,
    conn: Connection<S>,
) -> Result<Connection<S>, StoreFault>
    ensures settled { IfOk result (λ c. HasCleanDisk (state S.Store c) → IsSettled (state S.Store c)) }
    ensures same { IfOk result (λ c. HasCleanDisk (state S.Store c) → IsTrue (state S.Store c).is_open → (state S.Store c).now.trees ≡ (state S.Store conn).committed.trees) }
    ensures autocommit { IfOk result (λ c. c.in_transaction ≡ false) }
    ensures untouched { conn.in_transaction ≡ false → result ≡ Ok conn }
    ensures was_open { IfOk result (λ c. HasCleanDisk (state S.Store c) → IsTrue (state S.Store c).is_open → IsTrue (state S.Store conn).is_open) }
    ensures anew { conn.in_transaction ≡ true → IfOk result (λ c. HasCleanDisk (state S.Store c) → IsTrue (state S.Store c).is_open) }
    ensures fault { result ≢ Err StoreFault.Damaged }
{
    Ok(sql_tables::renew(alloc, conn)?)
}

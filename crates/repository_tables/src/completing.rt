// Completing a database whose tables are the first of the six, or none.
ghost use Rattle.std.specs.Prelude.{◌≡◌, ◌<◌, ◌≤◌, true, false, IsTrue, IfOk, OnOk};
ghost use Rattle.sqlite_trees.specs.Tree.{Trees};
ghost use Rattle.sqlite.specs.State.{HasCleanDisk, IsUnchanged, KeepsCommit, Survives};
ghost use Rattle.sqlite.specs.Held.{state};
ghost use Rattle.table_rows.specs.Schema.{the_schema, beginning, held, six};
ghost use Rattle.sql_tables.specs.Described.{LacksRest};
ghost use Rattle.repository_rows.specs.Contents.{no_rows};
ghost use Rattle.table_rows.specs.Tables.{AreBare, HoldsWhole, IsStore};
ghost use Rattle.repository_tables.specs.steps.Writing.{IsInside, no_cells};
ghost use Rattle.sql_tables.specs.Making.{IsMade};

use crate::making::{make_rest, put_version};
use sqlite::{Alter, Connection, Error, Transaction};
use table_rows::six_tables;

// Whether any of the six tables has a row.
fn has_rows<S: Alter>(tx: &mut Transaction<'_, S>) -> Result<bool, Error>
    ensures same_reference { tx.new.conn.ghost_name ≡ tx.old.conn.ghost_name }
    ensures rows { HasCleanDisk (state S.Store tx.new.conn.now) → (state S.Store tx.old.conn.now).now.schema ≡ the_schema
        → IfOk result (λ some. (some ≡ false → AreBare (state S.Store tx.old.conn.now).now.trees) × (IsTrue some → AreBare (state S.Store tx.old.conn.now).now.trees → ⊥)) }
    ensures unchanged { HasCleanDisk (state S.Store tx.new.conn.now) → (state S.Store tx.old.conn.now).now.schema ≡ the_schema → OnOk result (IsUnchanged (state S.Store tx.old.conn.now) (state S.Store tx.new.conn.now)) }
    ensures was_open { HasCleanDisk (state S.Store tx.new.conn.now) → OnOk result (IsTrue (state S.Store tx.old.conn.now).is_open) }
    ensures survives { Survives (state S.Store tx.old.conn.now) (state S.Store tx.new.conn.now) (λ _. ⊥) }
{
    sql_tables::has_rows(tx, &six_tables())
}

// Makes the tables that are absent, and puts the row of `schema` where no table has a row. Answers whether none has.
fn fill<S: Alter>(tx: &mut Transaction<'_, S>, count: usize) -> Result<bool, Error>
    requires { count ≤ 6 }
    ensures same_reference { tx.new.conn.ghost_name ≡ tx.old.conn.ghost_name }
    ensures made { HasCleanDisk (state S.Store tx.new.conn.now) → (rows : Trees) → LacksRest six count rows → IsMade rows (beginning count) (state S.Store tx.old.conn.now)
        → IfOk result (λ bare. (IsTrue bare → AreBare rows × IsInside (state S.Store tx.new.conn.now) no_cells) × (bare ≡ false → AreBare rows → ⊥)) }
    ensures kept { HasCleanDisk (state S.Store tx.new.conn.now) → (rows : Trees) → LacksRest six count rows → IsMade rows (beginning count) (state S.Store tx.old.conn.now)
        → IfOk result (λ bare. bare ≡ false → KeepsCommit (state S.Store tx.old.conn.now) (state S.Store tx.new.conn.now)) }
    ensures was_open { HasCleanDisk (state S.Store tx.new.conn.now) → OnOk result (IsTrue (state S.Store tx.old.conn.now).is_open) }
    ensures survives { Survives (state S.Store tx.old.conn.now) (state S.Store tx.new.conn.now) (λ _. ⊥) }
{
    make_rest(tx, count)?;
    if has_rows(tx)? {
        return Ok(false);
    }
    put_version(tx)?;
    Ok(true)
}

// Makes the tables after the first ones, and puts the row of `schema`, in one transaction, where none of the first has a
// row. Else nothing is made. Answers whether none has a row.
pub(crate) fn complete<S: Alter>(conn: &mut Connection<S>, count: usize) -> Result<bool, Error>
    requires autocommit { conn.old.in_transaction ≡ false }
    requires few { count < 5 }
    ensures autocommit { conn.new.in_transaction ≡ false }
    ensures found { HasCleanDisk (state S.Store conn.new) → (state S.Store conn.old).now.schema ≡ beginning count
        → IfOk result (λ bare. (IsTrue bare → AreBare (held (beginning count) (state S.Store conn.old).now.trees) × IsStore (state S.Store conn.new) no_rows)
        × (bare ≡ false → AreBare (held (beginning count) (state S.Store conn.old).now.trees) → ⊥)) }
    ensures was_open { HasCleanDisk (state S.Store conn.new) → OnOk result (IsTrue (state S.Store conn.old).is_open) }
    ensures kept { HasCleanDisk (state S.Store conn.new) → (state S.Store conn.old).now.schema ≡ beginning count → IfOk result (λ bare. bare ≡ false → KeepsCommit (state S.Store conn.old) (state S.Store conn.new)) }
    ensures crash { Survives (state S.Store conn.old) (state S.Store conn.new) (λ trees. IsTrue (state S.Store conn.old).is_open × ((state S.Store conn.old).now.schema ≡ beginning count
        → AreBare (held (beginning count) (state S.Store conn.old).now.trees) × HoldsWhole trees no_rows)) }
{
    let mut tx = conn.transaction();
    if !fill(&mut tx, count)? {
        return Ok(false);
    }
    tx.commit()?;
    Ok(true)
}

// The making of tables, inside a transaction.
ghost use Rattle.std.specs.Prelude.{◌≡◌, ◌≤◌, [], length, map, OnOk};
ghost use Rattle.sqlite.specs.Effect.{IsDatabase};
ghost use Rattle.sqlite.specs.State.{HasCleanDisk, KeepsCommit, Survives};
ghost use Rattle.sqlite.specs.Held.{state};
ghost use Rattle.sqlite_trees.specs.Tree.{Trees};
ghost use Rattle.sqlite_catalog.specs.Change.{next_tree};
ghost use Rattle.sql_tables.specs.Making.{IsMade, Makes};
ghost use Rattle.sql_tables.specs.Described.{AllMake, LacksRest, beginning, described_view, schema_of};

use crate::described::Described;
use sqlite::{Alter, Error, Transaction};

fn make<S: Alter>(tx: &mut Transaction<'_, S>, sql: &str) -> Result<(), Error>
    ensures same_reference { tx.new.conn.ghost_name ≡ tx.old.conn.ghost_name }
    ensures wrote { HasCleanDisk (state S.Store tx.new.conn.now) → (before after : _) → Makes before sql.now after → (rows : Trees) → rows (next_tree before) ≡ [] → IsMade rows before (state S.Store tx.old.conn.now) → OnOk result (IsMade rows after (state S.Store tx.new.conn.now)) }
    ensures sound { HasCleanDisk (state S.Store tx.new.conn.now) → (before after : _) → Makes before sql.now after → (rows : Trees) → IsMade rows before (state S.Store tx.old.conn.now) → OnOk result (IsDatabase (state S.Store tx.new.conn.now).now) }
    ensures kept { HasCleanDisk (state S.Store tx.new.conn.now) → KeepsCommit (state S.Store tx.old.conn.now) (state S.Store tx.new.conn.now) }
    ensures survives { Survives (state S.Store tx.old.conn.now) (state S.Store tx.new.conn.now) (λ _. ⊥) }
{
    tx.execute(sql, &[])?;
    Ok(())
}

/// Makes the tables from this place on, where those before it are there. A fault leaves some of them made: the transaction is
/// then to be undone.
pub fn make_rest<S: Alter>(
    tx: &mut Transaction<'_, S>,
    described: &[Described<'_>],
    count: usize,
) -> Result<(), Error>
    requires { count ≤ length described.now }
    ensures same_reference { tx.new.conn.ghost_name ≡ tx.old.conn.ghost_name }
    ensures wrote { HasCleanDisk (state S.Store tx.new.conn.now) → AllMake (map described_view described.now) → (rows : Trees) → LacksRest (map described_view described.now) count rows
        → IsMade rows (beginning (map described_view described.now) count) (state S.Store tx.old.conn.now) → OnOk result (IsMade rows (schema_of (map described_view described.now)) (state S.Store tx.new.conn.now)) }
    ensures sound { HasCleanDisk (state S.Store tx.new.conn.now) → AllMake (map described_view described.now) → (rows : Trees) → LacksRest (map described_view described.now) count rows
        → IsMade rows (beginning (map described_view described.now) count) (state S.Store tx.old.conn.now) → IsDatabase (state S.Store tx.old.conn.now).now → OnOk result (IsDatabase (state S.Store tx.new.conn.now).now) }
    ensures kept { HasCleanDisk (state S.Store tx.new.conn.now) → KeepsCommit (state S.Store tx.old.conn.now) (state S.Store tx.new.conn.now) }
    ensures survives { Survives (state S.Store tx.old.conn.now) (state S.Store tx.new.conn.now) (λ _. ⊥) }
{
    'tables: for at in count..described.len() {
        make(tx, described[at].make)?;
    }
    Ok(())
}

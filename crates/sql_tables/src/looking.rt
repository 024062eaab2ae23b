// Whether tables have rows.
ghost use Rattle.std.specs.Prelude.{◌≡◌, ◌≢◌, false, [], map, IsTrue, IfOk, OnOk};
ghost use Rattle.sqlite.specs.State.{HasCleanDisk, IsUnchanged, Survives};
ghost use Rattle.sqlite.specs.Held.{state};
ghost use Rattle.sql_tables.specs.Making.{Queries};
ghost use Rattle.sql_tables.specs.Described.{AllLook, AreEmpty, described_view, schema_of};

use crate::described::Described;
use sqlite::{Alter, Error, Row, Transaction};

// Whether there is a row.
fn is_any(rows: &[Row]) -> bool
    ensures none { result ≡ false → rows.now ≡ [] }
    ensures some { IsTrue result → rows.now ≢ [] }
{
    !rows.is_empty()
}

// Whether the table that the text asks for has a row.
fn has_row<S: Alter>(tx: &mut Transaction<'_, S>, sql: &str) -> Result<bool, Error>
    ensures same_reference { tx.new.conn.ghost_name ≡ tx.old.conn.ghost_name }
    ensures rows { HasCleanDisk (state S.Store tx.new.conn.now) → (tree : _) → Queries (state S.Store tx.old.conn.now).now.schema sql.now tree
        → IfOk result (λ some. (some ≡ false → (state S.Store tx.old.conn.now).now.trees tree ≡ []) × (IsTrue some → (state S.Store tx.old.conn.now).now.trees tree ≢ [])) }
    ensures unchanged { HasCleanDisk (state S.Store tx.new.conn.now) → (tree : _) → Queries (state S.Store tx.old.conn.now).now.schema sql.now tree → OnOk result (IsUnchanged (state S.Store tx.old.conn.now) (state S.Store tx.new.conn.now)) }
    ensures was_open { HasCleanDisk (state S.Store tx.new.conn.now) → OnOk result (IsTrue (state S.Store tx.old.conn.now).is_open) }
    ensures survives { Survives (state S.Store tx.old.conn.now) (state S.Store tx.new.conn.now) (λ _. ⊥) }
{
    let rows = tx.query_all(sql, &[])?;
    Ok(is_any(rows.as_slice()))
}

/// Whether any of the tables has a row, where all of them are there. It changes nothing.
pub fn has_rows<S: Alter>(
    tx: &mut Transaction<'_, S>,
    described: &[Described<'_>],
) -> Result<bool, Error>
    requires { described.now ≢ [] }
    ensures same_reference { tx.new.conn.ghost_name ≡ tx.old.conn.ghost_name }
    ensures rows { HasCleanDisk (state S.Store tx.new.conn.now) → AllLook (map described_view described.now) → (state S.Store tx.old.conn.now).now.schema ≡ schema_of (map described_view described.now)
        → IfOk result (λ some. (some ≡ false → AreEmpty (schema_of (map described_view described.now)) (state S.Store tx.old.conn.now).now.trees) × (IsTrue some → AreEmpty (schema_of (map described_view described.now)) (state S.Store tx.old.conn.now).now.trees → ⊥)) }
    ensures unchanged { HasCleanDisk (state S.Store tx.new.conn.now) → AllLook (map described_view described.now) → (state S.Store tx.old.conn.now).now.schema ≡ schema_of (map described_view described.now) → OnOk result (IsUnchanged (state S.Store tx.old.conn.now) (state S.Store tx.new.conn.now)) }
    ensures was_open { HasCleanDisk (state S.Store tx.new.conn.now) → OnOk result (IsTrue (state S.Store tx.old.conn.now).is_open) }
    ensures survives { Survives (state S.Store tx.old.conn.now) (state S.Store tx.new.conn.now) (λ _. ⊥) }
{
    'looks: for at in 0..described.len() {
        if has_row(tx, described[at].look)? {
            return Ok(true);
        }
    }
    Ok(false)
}

// Asking a database: what its six tables hold, and whether its connection still answers.
ghost use Rattle.std.specs.Prelude.{◌≡◌, ◌≢◌, true, false, Err, IfOk, OnOk, IsTrue};
ghost use Rattle.sqlite.specs.State.{HasCleanDisk, IsLive, IsUnchanged, KeepsCommit, Survives};
ghost use Rattle.sqlite.specs.Held.{state};
ghost use Rattle.repository_rows.specs.Contents as plain;
ghost use Rattle.table_rows.specs.Schema.{HasSome, held};
ghost use Rattle.table_rows.specs.Tables.{HaveDigests, IsStore, IsFit, StandsFor};
ghost use Rattle.table_rows.specs.Reading.{IsReadAs};
ghost use Rattle.table_rows.specs.Reading.{HoldsAs, IsUnbegun};

use crate::faults::StoreFault;
use crate::loading::{Rows, ask, rows_of};
use sqlite::{Alter, Connection};
use std::alloc::Global;

/// What the six tables hold, where so many of them are there, whether `schema` has a row, and whether that is 1.
pub fn read_tables<S: Alter>(
    alloc: Global,
    conn: &mut Connection<S>,
    count: usize,
) -> Result<(Rows, bool, bool), StoreFault>
    ensures read { IfOk result (λ p. (t : plain.Contents) × IsReadAs p.0.0 p.0.1.items t
        × (HasCleanDisk (state S.Store conn.new) → HasSome count (state S.Store conn.old).now.schema → IsLive (state S.Store conn.old)
        → (p.1 ≡ true → HoldsAs p.2 (held (state S.Store conn.old).now.schema (state S.Store conn.old).now.trees) t) × (p.1 ≡ false → IsUnbegun (held (state S.Store conn.old).now.schema (state S.Store conn.old).now.trees) t))) }
    ensures damaged { HasCleanDisk (state S.Store conn.new) → HasSome count (state S.Store conn.old).now.schema → result ≡ Err StoreFault.Damaged
        → (t : plain.Contents) → IsFit t → HaveDigests t → StandsFor (held (state S.Store conn.old).now.schema (state S.Store conn.old).now.trees) t → ⊥ }
    ensures kept { HasCleanDisk (state S.Store conn.new) → HasSome count (state S.Store conn.old).now.schema → result ≡ Err StoreFault.Damaged → KeepsCommit (state S.Store conn.old) (state S.Store conn.new) }
    ensures was_open { HasCleanDisk (state S.Store conn.new) → HasSome count (state S.Store conn.old).now.schema → result ≡ Err StoreFault.Damaged → IsTrue (state S.Store conn.old).is_open }
    ensures unchanged { HasCleanDisk (state S.Store conn.new) → HasSome count (state S.Store conn.old).now.schema → OnOk result (IsUnchanged (state S.Store conn.old) (state S.Store conn.new)) }
    ensures mode { conn.old.in_transaction ≡ false → conn.new.in_transaction ≡ false }
    ensures survives { Survives (state S.Store conn.old) (state S.Store conn.new) (λ _. ⊥) }
{
    let taken = ask(alloc, conn, count)?;
    Ok(rows_of(taken)?)
}

/// Whether the connection still answers, by one small query. After a fault has shut it, no reply may be given from memory
/// alone: a crash may still leave what stood before or after the faulty call. `Damaged` is never answered.
pub fn check_open<S: Alter>(conn: &mut Connection<S>) -> Result<(), StoreFault>
    ensures open { HasCleanDisk (state S.Store conn.new) → OnOk result (IsTrue (state S.Store conn.old).is_open × IsTrue (state S.Store conn.new).is_open) }
    ensures was_open { HasCleanDisk (state S.Store conn.new) → IsTrue (state S.Store conn.new).is_open → IsTrue (state S.Store conn.old).is_open }
    ensures kept { HasCleanDisk (state S.Store conn.new) → IsTrue (state S.Store conn.new).is_open → (t : plain.Contents) → IsStore (state S.Store conn.old) t → IsStore (state S.Store conn.new) t }
    ensures mode { conn.old.in_transaction ≡ false → conn.new.in_transaction ≡ false }
    ensures survives { Survives (state S.Store conn.old) (state S.Store conn.new) (λ _. ⊥) }
    ensures fault { result ≢ Err StoreFault.Damaged }
{
    sql_tables::check_open(conn, "SELECT version FROM schema")?;
    Ok(())
}

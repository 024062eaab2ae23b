// From schema 1 to schema 2: the roots move to the table `root2`, with profile 1.
ghost use Rattle.std.specs.Prelude.{◌≡◌, ◌≢◌, ◌++◌, ◌∷◌, [], map, false, Err, IsTrue, OnErr, OnOk};
ghost use Rattle.sqlite.specs.State.{HasCleanDisk, Survives};
ghost use Rattle.sqlite.specs.Held.{state};
ghost use Rattle.repository_rows.specs.Contents.{Contents};
ghost use Rattle.table_rows.specs.Schema.{HasFirst};
ghost use Rattle.table_rows.specs.Tables.{HoldsWhole, IsStore, root_row, version_row};
ghost use Rattle.repository_tables.specs.Migration.{IsEarlier};
ghost use Rattle.repository_tables.specs.steps.Writing.{Cells, ChangesCells, IsInside, IsUncommitted};
ghost use Rattle.repository_tables.specs.steps.Migrating.{IsEarly, brought};

use crate::making::make_root2;
use sqlite::{Alter, Connection, Error, Transaction, params};
use table_rows::{StoreFault, beginning_of};

// No row of `root` stays.
fn empty_root<S: Alter>(tx: &mut Transaction<'_, S>) -> Result<(), Error>
    ensures wrote { ChangesCells S.Store tx.old tx.new result (λ c. record c { root = [] }) }
    ensures uncommitted { IsUncommitted S.Store tx.old tx.new }
{
    tx.execute("DELETE FROM root", &[])?;
    Ok(())
}

// A root more, of profile 1.
fn add_root<S: Alter>(tx: &mut Transaction<'_, S>, version: u32, bytes: &[u8]) -> Result<(), Error>
    ensures wrote { ChangesCells S.Store tx.old tx.new result (λ c. record c { root2 = c.root2 ++ root_row (version, (1, bytes.now)) ∷ [] }) }
    ensures uncommitted { IsUncommitted S.Store tx.old tx.new }
{
    tx.execute(
        "INSERT INTO root2 (version, profile, bytes) VALUES (?1, 1, ?2)",
        params![version, bytes],
    )?;
    Ok(())
}

// The roots, in their order.
fn add_roots<S: Alter>(tx: &mut Transaction<'_, S>, roots: &[(u32, &[u8])]) -> Result<(), Error>
    ensures wrote { ChangesCells S.Store tx.old tx.new result (λ c. record c { root2 = c.root2 ++ map root_row (map (λ r. (r.0, (1, r.1.now))) roots.now) }) }
    ensures uncommitted { IsUncommitted S.Store tx.old tx.new }
{
    'roots: for root in roots {
        add_root(tx, root.0, root.1)?;
    }
    Ok(())
}

// No row of `schema` stays.
fn empty_version<S: Alter>(tx: &mut Transaction<'_, S>) -> Result<(), Error>
    ensures wrote { ChangesCells S.Store tx.old tx.new result (λ c. record c { version = [] }) }
    ensures uncommitted { IsUncommitted S.Store tx.old tx.new }
{
    tx.execute("DELETE FROM schema", &[])?;
    Ok(())
}

// The row of schema 2.
fn add_version<S: Alter>(tx: &mut Transaction<'_, S>) -> Result<(), Error>
    ensures wrote { ChangesCells S.Store tx.old tx.new result (λ c. record c { version = c.version ++ version_row 2 ∷ [] }) }
    ensures uncommitted { IsUncommitted S.Store tx.old tx.new }
{
    tx.execute("INSERT INTO schema (version) VALUES (2)", &[])?;
    Ok(())
}

// All of it, inside a transaction.
fn bring<S: Alter>(
    tx: &mut Transaction<'_, S>,
    count: usize,
    roots: &[(u32, &[u8])],
) -> Result<(), Error>
    ensures wrote { HasCleanDisk (state S.Store tx.new.conn.now) → (c : Cells) → IsEarly count (state S.Store tx.old.conn.now) c
        → OnOk result (IsInside (state S.Store tx.new.conn.now) (brought c (map (λ r. (r.0, (1, r.1.now))) roots.now))) }
    ensures uncommitted { IsUncommitted S.Store tx.old tx.new }
{
    make_root2(tx, count)?;
    empty_root(tx)?;
    add_roots(tx, roots)?;
    empty_version(tx)?;
    add_version(tx)
}

// The same in a transaction of its own, with the database's own error.
fn bring_over<S: Alter>(
    conn: &mut Connection<S>,
    count: usize,
    roots: &[(u32, &[u8])],
) -> Result<(), Error>
    requires autocommit { conn.old.in_transaction ≡ false }
    requires some { HasFirst count conn.old.schema }
    ensures autocommit { conn.new.in_transaction ≡ false }
    ensures wrote { HasCleanDisk (state S.Store conn.new) → (t : Contents) → IsEarlier (state S.Store conn.old) t → t.roots ≡ map (λ r. (r.0, (1, r.1.now))) roots.now → OnOk result (IsStore (state S.Store conn.new) t) }
    ensures kept { HasCleanDisk (state S.Store conn.new) → IsTrue (state S.Store conn.new).is_open → (t : Contents) → IsEarlier (state S.Store conn.old) t → t.roots ≡ map (λ r. (r.0, (1, r.1.now))) roots.now
        → OnErr result (IsEarlier (state S.Store conn.new) t) }
    ensures was_open { HasCleanDisk (state S.Store conn.new) → IsTrue (state S.Store conn.new).is_open → IsTrue (state S.Store conn.old).is_open }
    ensures crash { Survives (state S.Store conn.old) (state S.Store conn.new)
        (λ trees. (t : Contents) → IsEarlier (state S.Store conn.old) t → t.roots ≡ map (λ r. (r.0, (1, r.1.now))) roots.now → HoldsWhole trees t) }
{
    let _ = conn.schema();
    let mut tx = conn.transaction();
    bring(&mut tx, count, roots)?;
    tx.commit()
}

/// Brings tables of an earlier store, which hold these roots by version, to schema 2, in one transaction: `root2` is made where it is absent,
/// the roots move there with profile 1, and the row of `schema` is 2. A crash leaves what was there whole or schema 2 whole.
///
/// - `Database`: a call of the database answered a fault, and the tables are as they were, if the connection is still open; or there are
///   others than the five tables of schema 1, or all six, or `root2` cannot be made after what is there: then nothing is made.
/// - `OutOfMemory`: memory was refused.
pub fn migrate<S: Alter>(conn: &mut Connection<S>, roots: &[(u32, &[u8])]) -> Result<(), StoreFault>
    requires { conn.old.in_transaction ≡ false }
    ensures autocommit { conn.new.in_transaction ≡ false }
    ensures wrote { HasCleanDisk (state S.Store conn.new) → (t : Contents) → IsEarlier (state S.Store conn.old) t → t.roots ≡ map (λ r. (r.0, (1, r.1.now))) roots.now → OnOk result (IsStore (state S.Store conn.new) t) }
    ensures kept { HasCleanDisk (state S.Store conn.new) → IsTrue (state S.Store conn.new).is_open → (t : Contents) → IsEarlier (state S.Store conn.old) t → t.roots ≡ map (λ r. (r.0, (1, r.1.now))) roots.now
        → OnErr result (IsEarlier (state S.Store conn.new) t) }
    ensures was_open { HasCleanDisk (state S.Store conn.new) → IsTrue (state S.Store conn.new).is_open → IsTrue (state S.Store conn.old).is_open }
    ensures crash { Survives (state S.Store conn.old) (state S.Store conn.new)
        (λ trees. (t : Contents) → IsEarlier (state S.Store conn.old) t → t.roots ≡ map (λ r. (r.0, (1, r.1.now))) roots.now → HoldsWhole trees t) }
    ensures fault { result ≢ Err StoreFault.Damaged }
{
    let Some(count) = beginning_of(conn.schema()) else {
        return Err(StoreFault::Database);
    };
    if count < 5 {
        return Err(StoreFault::Database);
    }
    bring_over(conn, count, roots)?;
    Ok(())
}

// The changes of the rows, and the transaction that makes them.
ghost use Rattle.std.specs.Prelude.{◌≡◌, ◌≢◌, ◌++◌, ◌∷◌, [], false, IsTrue, Err, OnOk, OnErr};
ghost use Rattle.sqlite.specs.State.{HasCleanDisk, Survives};
ghost use Rattle.sqlite.specs.Held.{state};
ghost use Rattle.sqlite.specs.declared.types.Value.TheVariants.{Text, Blob};
ghost use Rattle.repository_rows.specs.Contents.{Contents};
ghost use Rattle.table_rows.specs.Tables.{IsStore, HoldsWhole, slot_row};
ghost use Rattle.repository_tables.specs.Changes.{after, after_all, with_root, with_row, with_blob, with_timestamp, with_snapshot, without_blob, without_row, emptied};
ghost use Rattle.repository_tables.specs.steps.Writing.{ChangesCells, ChangesContents, IsUncommitted};
ghost use Rattle.sql_tables.specs.Writing.{without_text};

use crate::change::Change;
use sqlite::{Alter, Connection, Error, Transaction, params};
use sqlite_value::value::ValueRef;
use table_rows::StoreFault;

// A root more.
fn put_root<S: Alter>(
    tx: &mut Transaction<'_, S>,
    version: u32,
    profile: u32,
    bytes: &[u8],
) -> Result<(), Error>
    ensures wrote { ChangesContents S.Store tx.old tx.new result (with_root (version, (profile, bytes.now))) }
    ensures uncommitted { IsUncommitted S.Store tx.old tx.new }
{
    tx.execute(
        "INSERT INTO root2 (version, profile, bytes) VALUES (?1, ?2, ?3)",
        params![version, profile, bytes],
    )?;
    Ok(())
}

// The row of the slot goes, where it is there.
fn drop_slot<S: Alter>(tx: &mut Transaction<'_, S>, slot: &str) -> Result<(), Error>
    ensures wrote { ChangesCells S.Store tx.old tx.new result (λ c. record c { current = without_text slot.now c.current }) }
    ensures uncommitted { IsUncommitted S.Store tx.old tx.new }
{
    tx.execute("DELETE FROM current WHERE slot = ?1", params![slot])?;
    Ok(())
}

// A row of `current` more.
fn add_slot<S: Alter>(
    tx: &mut Transaction<'_, S>,
    slot: &str,
    version: u32,
    bytes: &[u8],
) -> Result<(), Error>
    ensures wrote { ChangesCells S.Store tx.old tx.new result (λ c. record c { current = c.current ++ slot_row slot.now (version, bytes.now) ∷ [] }) }
    ensures uncommitted { IsUncommitted S.Store tx.old tx.new }
{
    tx.execute(
        "INSERT INTO current (slot, version, bytes) VALUES (?1, ?2, ?3)",
        params![slot, version, bytes],
    )?;
    Ok(())
}

// A targets document more.
fn put_row<S: Alter>(
    tx: &mut Transaction<'_, S>,
    role: &str,
    version: u32,
    bytes: &[u8],
) -> Result<(), Error>
    ensures wrote { ChangesContents S.Store tx.old tx.new result (with_row ((role.now, version), bytes.now)) }
    ensures uncommitted { IsUncommitted S.Store tx.old tx.new }
{
    tx.execute(
        "INSERT INTO shelf (role, version, bytes) VALUES (?1, ?2, ?3)",
        params![role, version, bytes],
    )?;
    Ok(())
}

// A target file more, under the digits of its digest.
fn add_blob<S: Alter>(tx: &mut Transaction<'_, S>, digits: &[u8], bytes: &[u8]) -> Result<(), Error>
    ensures wrote { ChangesCells S.Store tx.old tx.new result (λ c. record c { blob = c.blob ++ (Text digits.now ∷ Blob bytes.now ∷ []) ∷ [] }) }
    ensures uncommitted { IsUncommitted S.Store tx.old tx.new }
{
    tx.execute(
        "INSERT INTO blob (digest, bytes) VALUES (?1, ?2)",
        &[ValueRef::Text(digits), ValueRef::Blob(bytes)],
    )?;
    Ok(())
}

// No row of `current` stays.
fn empty_current<S: Alter>(tx: &mut Transaction<'_, S>) -> Result<(), Error>
    ensures wrote { ChangesCells S.Store tx.old tx.new result (λ c. record c { current = [] }) }
    ensures uncommitted { IsUncommitted S.Store tx.old tx.new }
{
    tx.execute("DELETE FROM current", &[])?;
    Ok(())
}

// No targets document stays.
fn empty_shelf<S: Alter>(tx: &mut Transaction<'_, S>) -> Result<(), Error>
    ensures wrote { ChangesCells S.Store tx.old tx.new result (λ c. record c { shelf = [] }) }
    ensures uncommitted { IsUncommitted S.Store tx.old tx.new }
{
    tx.execute("DELETE FROM shelf", &[])?;
    Ok(())
}

// A target file more.
fn put_blob<S: Alter>(
    tx: &mut Transaction<'_, S>,
    digest: &[u8; 32],
    bytes: &[u8],
) -> Result<(), Error>
    ensures wrote { ChangesContents S.Store tx.old tx.new result (with_blob (digest.now, bytes.now)) }
    ensures uncommitted { IsUncommitted S.Store tx.old tx.new }
{
    let mut digits = [0; 64];
    let _ = hex::encode_to_slice(digest, &mut digits);
    add_blob(tx, &digits, bytes)?;
    Ok(())
}

// The row `timestamp`, in place of the one that is there.
fn put_timestamp<S: Alter>(
    tx: &mut Transaction<'_, S>,
    version: u32,
    bytes: &[u8],
) -> Result<(), Error>
    ensures wrote { ChangesContents S.Store tx.old tx.new result (with_timestamp (version, bytes.now)) }
    ensures uncommitted { IsUncommitted S.Store tx.old tx.new }
{
    drop_slot(tx, "timestamp")?;
    add_slot(tx, "timestamp", version, bytes)
}

// The row `snapshot`, in place of the one that is there.
fn put_snapshot<S: Alter>(
    tx: &mut Transaction<'_, S>,
    version: u32,
    bytes: &[u8],
) -> Result<(), Error>
    ensures wrote { ChangesContents S.Store tx.old tx.new result (with_snapshot (version, bytes.now)) }
    ensures uncommitted { IsUncommitted S.Store tx.old tx.new }
{
    drop_slot(tx, "snapshot")?;
    add_slot(tx, "snapshot", version, bytes)
}

// The rows of `current` and `shelf` go.
fn empty<S: Alter>(tx: &mut Transaction<'_, S>) -> Result<(), Error>
    ensures wrote { ChangesContents S.Store tx.old tx.new result emptied }
    ensures uncommitted { IsUncommitted S.Store tx.old tx.new }
{
    empty_current(tx)?;
    empty_shelf(tx)
}

// The targets document of this role and version goes, where it is there.
fn drop_row<S: Alter>(tx: &mut Transaction<'_, S>, role: &str, version: u32) -> Result<(), Error>
    ensures wrote { ChangesContents S.Store tx.old tx.new result (without_row role.now version) }
    ensures uncommitted { IsUncommitted S.Store tx.old tx.new }
{
    tx.execute(
        "DELETE FROM shelf WHERE role = ?1 AND version = ?2",
        params![role, version],
    )?;
    Ok(())
}

// The target file under these digits goes, where it is there.
fn drop_digits<S: Alter>(tx: &mut Transaction<'_, S>, digits: &[u8]) -> Result<(), Error>
    ensures wrote { ChangesCells S.Store tx.old tx.new result (λ c. record c { blob = without_text digits.now c.blob }) }
    ensures uncommitted { IsUncommitted S.Store tx.old tx.new }
{
    tx.execute(
        "DELETE FROM blob WHERE digest = ?1",
        &[ValueRef::Text(digits)],
    )?;
    Ok(())
}

// The target file of this digest goes, where it is there.
fn drop_blob<S: Alter>(tx: &mut Transaction<'_, S>, digest: &[u8; 32]) -> Result<(), Error>
    ensures wrote { ChangesContents S.Store tx.old tx.new result (without_blob digest.now) }
    ensures uncommitted { IsUncommitted S.Store tx.old tx.new }
{
    let mut digits = [0; 64];
    let _ = hex::encode_to_slice(digest, &mut digits);
    drop_digits(tx, &digits)?;
    Ok(())
}

// One change.
fn write<S: Alter>(tx: &mut Transaction<'_, S>, change: &Change<'_>) -> Result<(), Error>
    ensures wrote { ChangesContents S.Store tx.old tx.new result (after change.now) }
    ensures uncommitted { IsUncommitted S.Store tx.old tx.new }
{
    match change {
        Change::PutRoot(version, profile, bytes) => put_root(tx, *version, *profile, bytes),
        Change::Emptied => empty(tx),
        Change::PutTimestamp(version, bytes) => put_timestamp(tx, *version, bytes),
        Change::PutSnapshot(version, bytes) => put_snapshot(tx, *version, bytes),
        Change::PutRow(role, version, bytes) => put_row(tx, role, *version, bytes),
        Change::PutBlob(digest, bytes) => put_blob(tx, digest, bytes),
        Change::RowGone(role, version) => drop_row(tx, role, *version),
        Change::BlobGone(digest) => drop_blob(tx, digest),
    }
}

// The changes in one transaction, with the database's own error.
fn write_changes<S: Alter>(conn: &mut Connection<S>, changes: &[Change<'_>]) -> Result<(), Error>
    requires { conn.old.in_transaction ≡ false }
    ensures autocommit { conn.new.in_transaction ≡ false }
    ensures wrote { HasCleanDisk (state S.Store conn.new) → (t : Contents) → IsStore (state S.Store conn.old) t → OnOk result (IsStore (state S.Store conn.new) (after_all changes.now t)) }
    ensures kept { HasCleanDisk (state S.Store conn.new) → IsTrue (state S.Store conn.new).is_open → (t : Contents) → IsStore (state S.Store conn.old) t → OnErr result (IsStore (state S.Store conn.new) t) }
    ensures was_open { HasCleanDisk (state S.Store conn.new) → IsTrue (state S.Store conn.new).is_open → IsTrue (state S.Store conn.old).is_open }
    ensures crash { Survives (state S.Store conn.old) (state S.Store conn.new) (λ trees. (t : Contents) → IsStore (state S.Store conn.old) t → HoldsWhole trees (after_all changes.now t)) }
{
    let _ = conn.schema();
    let mut tx = conn.transaction();
    'writes: for change in changes {
        write(&mut tx, change)?;
    }
    tx.commit()
}

/// Makes the changes in their order, in one transaction. A put of a version or digest that is there is refused by the
/// database, as `Database`.
///
/// On any fault the rows are as they were, if the connection is still open: a commit that fails may shut it. `Damaged`
/// is never answered.
pub fn write_all<S: Alter>(
    conn: &mut Connection<S>,
    changes: &[Change<'_>],
) -> Result<(), StoreFault>
    requires { conn.old.in_transaction ≡ false }
    ensures autocommit { conn.new.in_transaction ≡ false }
    ensures wrote { HasCleanDisk (state S.Store conn.new) → (t : Contents) → IsStore (state S.Store conn.old) t → OnOk result (IsStore (state S.Store conn.new) (after_all changes.now t)) }
    ensures kept { HasCleanDisk (state S.Store conn.new) → IsTrue (state S.Store conn.new).is_open → (t : Contents) → IsStore (state S.Store conn.old) t → OnErr result (IsStore (state S.Store conn.new) t) }
    ensures was_open { HasCleanDisk (state S.Store conn.new) → IsTrue (state S.Store conn.new).is_open → IsTrue (state S.Store conn.old).is_open }
    ensures crash { Survives (state S.Store conn.old) (state S.Store conn.new) (λ trees. (t : Contents) → IsStore (state S.Store conn.old) t → HoldsWhole trees (after_all changes.now t)) }
    ensures fault { result ≢ Err StoreFault.Damaged }
{
    write_changes(conn, changes)?;
    Ok(())
}

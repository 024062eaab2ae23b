//! What a command changes, as changes of the rows.
ghost use Rattle.std.specs.Prelude.{◌≡◌, ◌≢◌, ◌≤◌, false, map, length, option_map, Err, IfOk, IsTrue, OnErr, OnOk};
ghost use Rattle.limits.specs.Limits.{most_held};
ghost use Rattle.sqlite.specs.Held.{state};
ghost use Rattle.sqlite.specs.State.{HasCleanDisk, Survives};
ghost use Rattle.metadata.specs.FileViews.{root_file, snapshot_file, timestamp_file};
ghost use Rattle.delegations.specs.Views.{row_views};
ghost use Rattle.trust_rules.specs.Contents.{numbered, shelf_rows};
ghost use Rattle.machine.specs.PartViews.{blob_views, digest_views, effects_view};
ghost use Rattle.trust_rules.specs.State as trust;
ghost use Rattle.trust_rules.specs.State.{IsState};
ghost use Rattle.trust_rules.specs.Effects.{applied};
ghost use Rattle.table_rows.specs.Tables.{HoldsWhole, IsStore};
ghost use Rattle.repository_tables.specs.Changes.{after_all};
ghost use Rattle.repository_rows.specs.Contents.{Contents};
ghost use Rattle.store.specs.StateRows.{rows_of};
ghost use Rattle.store.specs.steps.Changed.{blobs_gone, changed, emptied_if, last_version, more_blobs, more_roots, more_rows, new_roots, new_snapshot, new_timestamp, rows_gone};

use delegations::Row;
use machine::{Blob, Effects, profile_number, rows_stay};
use metadata::{File, Root, Snapshot, Timestamp};
use path_patterns::{Digest, RoleName};
use repository_tables::{Change, StoreFault, write_all};
use sqlite::{Alter, Connection};
use std::alloc::{AllocError, Global};

/// The changes of the rows, in the order in which they are made.
pub(crate) fn changes_of(alloc: Global, effects: &Effects) -> Result<Vec<Change<'_>>, AllocError>
    requires { length effects.now.changes.roots.items ≤ most_held }
    ensures { IfOk result (λ changes. (t : Contents) → after_all changes.items t ≡ changed (effects_view effects.now) t) }
{
    let mut changes = Vec::new(alloc);
    drop_rows(&mut changes, &effects.gone.rows)?;
    drop_blobs(&mut changes, &effects.gone.blobs)?;
    put_roots(&mut changes, &effects.changes.roots)?;
    empty_if(&mut changes, effects.changes.emptied)?;
    put_timestamp(&mut changes, &effects.changes.timestamp)?;
    put_snapshot(&mut changes, &effects.changes.snapshot)?;
    put_rows(&mut changes, &effects.changes.rows)?;
    put_blobs(&mut changes, &effects.blobs)?;
    Ok(changes)
}

// The roots: the last has its own version, and they rise by one.
fn put_roots<'a>(changes: &mut Vec<Change<'a>>, roots: &'a [File<Root>]) -> Result<(), AllocError>
    requires { length roots.now ≤ most_held }
    ensures { IfOk result (λ _. (t : Contents) → after_all changes.new.items t
        ≡ more_roots (new_roots (last_version (map root_file roots.now)) (map root_file roots.now)) (after_all changes.old.items t)) }
{
    let Some(last) = roots.last() else {
        return Ok(());
    };
    put_roots_to(changes, last.body.version, roots)
}

// The roots, the last with this version.
fn put_roots_to<'a>(
    changes: &mut Vec<Change<'a>>,
    last: u32,
    roots: &'a [File<Root>],
) -> Result<(), AllocError>
    requires { length roots.now ≤ most_held }
    ensures { IfOk result (λ _. (t : Contents) → after_all changes.new.items t ≡ more_roots (new_roots last (map root_file roots.now)) (after_all changes.old.items t)) }
{
    let mut rest = roots;
    'roots: while let Some((root, later)) = rest.split_first() {
        let version = last.saturating_sub(later.len() as u32);
        let profile = profile_number(root.body.profile);
        changes.push(Change::PutRoot(version, profile, root.source.bytes()))?;
        rest = later;
    }
    Ok(())
}

// That timestamp, snapshot and shelf are emptied, if they are.
fn empty_if<'a>(changes: &mut Vec<Change<'a>>, emptied: bool) -> Result<(), AllocError>
    ensures { IfOk result (λ _. (t : Contents) → after_all changes.new.items t ≡ emptied_if emptied (after_all changes.old.items t)) }
{
    if emptied {
        changes.push(Change::Emptied)?;
    }
    Ok(())
}

// The timestamp, if there is a new one.
fn put_timestamp<'a>(
    changes: &mut Vec<Change<'a>>,
    file: &'a Option<File<Timestamp>>,
) -> Result<(), AllocError>
    ensures { IfOk result (λ _. (t : Contents) → after_all changes.new.items t
        ≡ new_timestamp (option_map (numbered (λ b. b.version)) (option_map timestamp_file file.now)) (after_all changes.old.items t)) }
{
    let Some(file) = file else {
        return Ok(());
    };
    changes.push(Change::PutTimestamp(file.body.version, file.source.bytes()))?;
    Ok(())
}

// The snapshot, if there is a new one.
fn put_snapshot<'a>(
    changes: &mut Vec<Change<'a>>,
    file: &'a Option<File<Snapshot>>,
) -> Result<(), AllocError>
    ensures { IfOk result (λ _. (t : Contents) → after_all changes.new.items t
        ≡ new_snapshot (option_map (numbered (λ b. b.version)) (option_map snapshot_file file.now)) (after_all changes.old.items t)) }
{
    let Some(file) = file else {
        return Ok(());
    };
    changes.push(Change::PutSnapshot(file.body.version, file.source.bytes()))?;
    Ok(())
}

// The targets documents.
fn put_rows<'a>(changes: &mut Vec<Change<'a>>, rows: &'a [Row]) -> Result<(), AllocError>
    ensures { IfOk result (λ _. (t : Contents) → after_all changes.new.items t ≡ more_rows (shelf_rows (row_views rows.now)) (after_all changes.old.items t)) }
{
    let mut rest = rows;
    'rows: while let Some((row, later)) = rest.split_first() {
        changes.push(Change::PutRow(row.role.as_str(), row.version, row.file.source.bytes()))?;
        rest = later;
    }
    Ok(())
}

// The target files.
fn put_blobs<'a>(changes: &mut Vec<Change<'a>>, blobs: &'a [Blob]) -> Result<(), AllocError>
    ensures { IfOk result (λ _. (t : Contents) → after_all changes.new.items t ≡ more_blobs (blob_views blobs.now) (after_all changes.old.items t)) }
{
    let mut rest = blobs;
    'blobs: while let Some((blob, later)) = rest.split_first() {
        changes.push(Change::PutBlob(&blob.digest.0, &blob.bytes))?;
        rest = later;
    }
    Ok(())
}

// The targets documents that go.
fn drop_rows<'a>(
    changes: &mut Vec<Change<'a>>,
    gone: &'a [(RoleName, u32)],
) -> Result<(), AllocError>
    ensures { IfOk result (λ _. (t : Contents) → after_all changes.new.items t ≡ rows_gone gone.now (after_all changes.old.items t)) }
{
    let mut rest = gone;
    'rows: while let Some((place, later)) = rest.split_first() {
        changes.push(Change::RowGone(place.0.as_str(), place.1))?;
        rest = later;
    }
    Ok(())
}

// The target files that go.
fn drop_blobs<'a>(changes: &mut Vec<Change<'a>>, gone: &'a [Digest]) -> Result<(), AllocError>
    ensures { IfOk result (λ _. (t : Contents) → after_all changes.new.items t ≡ blobs_gone (digest_views gone.now) (after_all changes.old.items t)) }
{
    let mut rest = gone;
    'blobs: while let Some((digest, later)) = rest.split_first() {
        changes.push(Change::BlobGone(&digest.0))?;
        rest = later;
    }
    Ok(())
}

/// Writes what becomes of a state's rows by these changes, in one transaction.
pub(crate) fn write<S: Alter>(
    alloc: Global,
    conn: &mut Connection<S>,
    effects: &Effects,
) -> Result<(), StoreFault>
    requires autocommit { conn.old.in_transaction ≡ false }
    requires few { length effects.now.changes.roots.items ≤ most_held }
    ensures autocommit { conn.new.in_transaction ≡ false }
    ensures wrote { HasCleanDisk (state S.Store conn.new) → (U : trust.State) → IsState U → IsState (applied U (effects_view effects.now))
        → IsStore (state S.Store conn.old) (rows_of U) → OnOk result (IsStore (state S.Store conn.new) (rows_of (applied U (effects_view effects.now)))) }
    ensures some { HasCleanDisk (state S.Store conn.new) → (t : Contents) → IsStore (state S.Store conn.old) t → OnOk result ((u : Contents) × IsStore (state S.Store conn.new) u) }
    ensures kept { HasCleanDisk (state S.Store conn.new) → IsTrue (state S.Store conn.new).is_open → (t : Contents) → IsStore (state S.Store conn.old) t → OnErr result (IsStore (state S.Store conn.new) t) }
    ensures was_open { HasCleanDisk (state S.Store conn.new) → IsTrue (state S.Store conn.new).is_open → IsTrue (state S.Store conn.old).is_open }
    ensures crash { Survives (state S.Store conn.old) (state S.Store conn.new)
        (λ trees. (U : trust.State) → IsState U → IsState (applied U (effects_view effects.now))
        → IsStore (state S.Store conn.old) (rows_of U) → HoldsWhole trees (rows_of (applied U (effects_view effects.now)))) }
    ensures fault { result ≢ Err StoreFault.Damaged }
{
    rows_stay();
    let changes = changes_of(alloc, effects)?;
    write_all(conn, &changes)
}

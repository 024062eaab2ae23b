// Asking for the rows of all tables.
ghost use Rattle.std.specs.Prelude.{◌≡◌, ◌≢◌, [], ◌∷◌, List, false, true, Err, IfErr, IfOk, OnOk, IsTrue, if◌then◌else◌};
ghost use Rattle.std.specs.Ordering.{nat_cmp};
ghost use Rattle.std.specs.Cmp.Lexicographic.{slice_cmp};
ghost use Rattle.sqlite.specs.Order.{Row};
ghost use Rattle.sqlite.specs.State.{HasCleanDisk, IsUnchanged, Survives};
ghost use Rattle.sqlite.specs.Held.{state};
ghost use Rattle.repository_rows.specs.Contents.{slot_view};
ghost use Rattle.table_rows.specs.Schema.{held, root2_rows, HasFive, HasSix};
ghost use Rattle.table_rows.specs.Rows.{root_cells, root2_cells, current_cells, shelf_cells, blob_cells, version_cells};
ghost use Rattle.table_rows.specs.Tables.{row_cmp};
ghost use Rattle.table_rows.specs.Schema.{HasSome};
ghost use Rattle.table_rows.specs.steps.Loading.{AllComeOnce, QueriedRows, AreQueried, AreDamaged, AreItems, AreSorted, AreTaken, AreVersions, FitsFirst, FitsLength, FitsRoot, FitsShelf, HaveSlots, IsFirstRow, IsGathered, IsLengthRow, IsReadOnly, IsRootRow, Tell, IsShelfRow, document_shows, length_shows, root_shows};
ghost use Rattle.sql_tables.specs.Loading.{AreLoaded, ComeOnce, rises, with_rowid};

use crate::current::{Current, Versions};
use crate::faults::StoreFault;
use crate::fours::Fours;
use crate::reading::{Documents, FirstRoots, Roots};
use repository_rows::MetadataRows;
use sql_tables::{gather, take_rows};
use sqlite::{Alter, Connection};
use std::alloc::Global;

// The roots of `root`, by version, which is the rowid.
fn first_rows<S: Alter>(
    alloc: Global,
    conn: &mut Connection<S>,
) -> Result<(Option<Vec<(u32, u32, Vec<u8>)>>, bool), StoreFault>
    ensures rows { IfOk result (λ p. (rows : List Row) × (IsTrue p.1 → ComeOnce 0 rows) × IsGathered nat_cmp IsFirstRow FitsFirst root_shows rows p.0
        × (HasCleanDisk (state S.Store conn.new) → HasFive (state S.Store conn.old).now.schema → AreLoaded root_cells (rises ∷ []) ((state S.Store conn.old).now.trees 0) rows)) }
    ensures read_only { IsReadOnly S.Store conn.old conn.new HasFive result }
    ensures fault { result ≢ Err StoreFault.Damaged }
{
    Ok(gather::<S, FirstRoots>(
        alloc,
        conn,
        "SELECT version, bytes FROM root ORDER BY version",
    )?)
}

// The roots of `root2`, by version, which is the rowid.
fn second_rows<S: Alter>(
    alloc: Global,
    conn: &mut Connection<S>,
) -> Result<(Option<Vec<(u32, u32, Vec<u8>)>>, bool), StoreFault>
    ensures rows { IfOk result (λ p. (rows : List Row) × (IsTrue p.1 → ComeOnce 0 rows) × IsGathered nat_cmp IsRootRow FitsRoot root_shows rows p.0
        × (HasCleanDisk (state S.Store conn.new) → HasSix (state S.Store conn.old).now.schema → AreLoaded root2_cells (rises ∷ []) (root2_rows (state S.Store conn.old).now.schema (state S.Store conn.old).now.trees) rows)) }
    ensures read_only { IsReadOnly S.Store conn.old conn.new HasSix result }
    ensures fault { result ≢ Err StoreFault.Damaged }
{
    Ok(gather::<S, Roots>(
        alloc,
        conn,
        "SELECT version, profile, bytes FROM root2 ORDER BY version",
    )?)
}

// The roots of `root2`, where so many of the six tables are there. Where it is absent, it counts as empty and is not asked.
fn root_rows<S: Alter>(
    alloc: Global,
    conn: &mut Connection<S>,
    count: usize,
) -> Result<(Option<Vec<(u32, u32, Vec<u8>)>>, bool), StoreFault>
    ensures rows { IfOk result (λ p. (rows : List Row) × (IsTrue p.1 → ComeOnce 0 rows) × IsGathered nat_cmp IsRootRow FitsRoot root_shows rows p.0
        × (HasCleanDisk (state S.Store conn.new) → HasSome count (state S.Store conn.old).now.schema → AreLoaded root2_cells (rises ∷ []) (held (state S.Store conn.old).now.schema (state S.Store conn.old).now.trees 8) rows)) }
    ensures unchanged { HasCleanDisk (state S.Store conn.new) → HasSome count (state S.Store conn.old).now.schema → IsTrue (state S.Store conn.old).is_open → OnOk result (IsUnchanged (state S.Store conn.old) (state S.Store conn.new)) }
    ensures fault { result ≢ Err StoreFault.Damaged }
    ensures mode { conn.old.in_transaction ≡ false → conn.new.in_transaction ≡ false }
    ensures survives { Survives (state S.Store conn.old) (state S.Store conn.new) (λ _. ⊥) }
{
    if count == 5 {
        return Ok((Some(Vec::new(alloc)), true));
    }
    second_rows(alloc, conn)
}

// The slots of `current`.
fn current_rows<S: Alter>(
    alloc: Global,
    conn: &mut Connection<S>,
) -> Result<(Current, bool), StoreFault>
    ensures rows { IfOk result (λ p. (rows : List Row) × (IsTrue p.1 → ComeOnce 3 rows) × HaveSlots rows (slot_view p.0.timestamp) (slot_view p.0.snapshot) p.0.is_spoiled
        × (HasCleanDisk (state S.Store conn.new) → HasFive (state S.Store conn.old).now.schema → AreLoaded (with_rowid current_cells) [] ((state S.Store conn.old).now.trees 1) rows)) }
    ensures read_only { IsReadOnly S.Store conn.old conn.new HasFive result }
    ensures fault { result ≢ Err StoreFault.Damaged }
{
    Ok(take_rows(
        alloc,
        conn,
        "SELECT slot, version, bytes, rowid FROM current",
        Current::new(alloc),
    )?)
}

// The targets documents, by role and version.
fn shelf_rows<S: Alter>(
    alloc: Global,
    conn: &mut Connection<S>,
) -> Result<(Option<Vec<(String, u32, Vec<u8>)>>, bool), StoreFault>
    ensures rows { IfOk result (λ p. (rows : List Row) × (IsTrue p.1 → ComeOnce 3 rows) × IsGathered row_cmp IsShelfRow FitsShelf document_shows rows p.0
        × (HasCleanDisk (state S.Store conn.new) → HasFive (state S.Store conn.old).now.schema → AreLoaded (with_rowid shelf_cells) (rises ∷ rises ∷ []) ((state S.Store conn.old).now.trees 3) rows)) }
    ensures read_only { IsReadOnly S.Store conn.old conn.new HasFive result }
    ensures fault { result ≢ Err StoreFault.Damaged }
{
    Ok(gather::<S, Documents>(
        alloc,
        conn,
        "SELECT role, version, bytes, rowid FROM shelf ORDER BY role, version",
    )?)
}

// Digest and length of the target files, by digest. They are read by a cursor; how many rows are held at a time is as `each_row` says, and
// besides those up to three of at most 16 MiB each, so that four are hashed side by side.
fn blob_rows<S: Alter>(
    alloc: Global,
    conn: &mut Connection<S>,
) -> Result<(Option<Vec<([u8; 32], usize)>>, bool), StoreFault>
    ensures rows { IfOk result (λ p. (rows : List Row) × (IsTrue p.1 → ComeOnce 2 rows) × IsGathered (slice_cmp nat_cmp) IsLengthRow FitsLength length_shows rows p.0
        × (HasCleanDisk (state S.Store conn.new) → HasFive (state S.Store conn.old).now.schema → AreLoaded (with_rowid blob_cells) (rises ∷ []) ((state S.Store conn.old).now.trees 5) rows)) }
    ensures read_only { IsReadOnly S.Store conn.old conn.new HasFive result }
    ensures fault { result ≢ Err StoreFault.Damaged }
{
    let (files, once) = take_rows(
        alloc,
        conn,
        "SELECT digest, bytes, rowid FROM blob ORDER BY digest",
        Fours::new(alloc),
    )?;
    Ok((files.into_items()?, once))
}

// The rows of `schema`, whose version is the rowid.
fn version_rows<S: Alter>(
    alloc: Global,
    conn: &mut Connection<S>,
) -> Result<(Versions, bool), StoreFault>
    ensures rows { IfOk result (λ p. (rows : List Row) × (IsTrue p.1 → ComeOnce 0 rows) × AreVersions rows p.0.is_begun p.0.is_first p.0.is_second
        × (HasCleanDisk (state S.Store conn.new) → HasFive (state S.Store conn.old).now.schema → AreLoaded version_cells [] ((state S.Store conn.old).now.trees 7) rows)) }
    ensures read_only { IsReadOnly S.Store conn.old conn.new HasFive result }
    ensures fault { result ≢ Err StoreFault.Damaged }
{
    Ok(take_rows(alloc, conn, "SELECT version FROM schema", Versions::new())?)
}

// What was read of all tables: the roots of `root` and those of `root2` apart.
#[derive(Drop)]
pub(crate) struct Taken {
    pub first_roots: Option<Vec<(u32, u32, Vec<u8>)>>,
    pub current: Current,
    pub shelf: Option<Vec<(String, u32, Vec<u8>)>>,
    pub blobs: Option<Vec<([u8; 32], usize)>>,
    pub versions: Versions,
    pub roots: Option<Vec<(u32, u32, Vec<u8>)>>,
}

// A fault unless the rowids of each table are integers and come once.
fn check_rowids(
    first: bool,
    current: bool,
    shelf: bool,
    blob: bool,
    version: bool,
    root: bool,
) -> Result<(), StoreFault>
    ensures once { OnOk result (IsTrue first × IsTrue current × IsTrue shelf × IsTrue blob × IsTrue version × IsTrue root) }
    ensures fault { result ≢ Err StoreFault.Damaged }
{
    if first && current && shelf && blob && version && root {
        Ok(())
    } else {
        Err(StoreFault::Database)
    }
}

// Reads the rows of all tables, where so many of the six are there.
pub(crate) fn ask<S: Alter>(
    alloc: Global,
    conn: &mut Connection<S>,
    count: usize,
) -> Result<Taken, StoreFault>
    ensures rows { IfOk result (λ t. (a : QueriedRows) × AllComeOnce a × AreTaken a t
        × (HasCleanDisk (state S.Store conn.new) → HasSome count (state S.Store conn.old).now.schema → AreQueried (held (state S.Store conn.old).now.schema (state S.Store conn.old).now.trees) a)) }
    ensures read_only { IsReadOnly S.Store conn.old conn.new (HasSome count) result }
    ensures fault { result ≢ Err StoreFault.Damaged }
{
    let (first_roots, first_once) = first_rows(alloc, conn)?;
    let (current, current_once) = current_rows(alloc, conn)?;
    let (shelf, shelf_once) = shelf_rows(alloc, conn)?;
    let (blobs, blob_once) = blob_rows(alloc, conn)?;
    let (versions, version_once) = version_rows(alloc, conn)?;
    let (roots, root_once) = root_rows(alloc, conn, count)?;
    check_rowids(
        first_once,
        current_once,
        shelf_once,
        blob_once,
        version_once,
        root_once,
    )?;
    Ok(Taken {
        first_roots,
        current,
        shelf,
        blobs,
        versions,
        roots,
    })
}

// The roots of the one table, where the other has none: `Damaged` else.
fn one_of(
    first: Vec<(u32, u32, Vec<u8>)>,
    second: Vec<(u32, u32, Vec<u8>)>,
    is_first: bool,
) -> Result<Vec<(u32, u32, Vec<u8>)>, StoreFault>
    ensures roots { IfOk result (λ v. v ≡ (if is_first then first else second)) }
    ensures none { OnOk result ((if is_first then second else first).items ≡ []) }
    ensures some { IfErr result (λ f. (f ≡ StoreFault.Damaged) × ((if is_first then second else first).items ≢ [])) }
{
    let (roots, others) = if is_first {
        (first, second)
    } else {
        (second, first)
    };
    if !others.is_empty() {
        return Err(StoreFault::Damaged);
    }
    Ok(roots)
}

/// The rows of the metadata, and digest and length of each target file.
pub type Rows = (MetadataRows, Vec<([u8; 32], usize)>);

// The items of the rows, whether `schema` has a row, and whether that is 1.
pub(crate) fn rows_of(taken: Taken) -> Result<(Rows, bool, bool), StoreFault>
    ensures read { (a : QueriedRows) → AreTaken a taken → IfOk result (λ p. AreItems p.2 a p.0.0 p.0.1.items) }
    ensures told { (a : QueriedRows) → AreTaken a taken → IfOk result (λ p. Tell p.2 a.version) }
    ensures some { (a : QueriedRows) → AreTaken a taken → IfOk result (λ p. p.1 ≡ true → a.version ≢ []) }
    ensures none { (a : QueriedRows) → AreTaken a taken → IfOk result (λ p. p.1 ≡ false → (a.version ≡ []) × (p.2 ≡ false)) }
    ensures damaged { (a : QueriedRows) → AreTaken a taken → result ≡ Err StoreFault.Damaged → AreSorted a → AreDamaged a }
    ensures fault { IfErr result (λ f. f ≡ StoreFault.Damaged) }
{
    let Taken {
        first_roots,
        current,
        shelf,
        blobs,
        versions,
        roots,
    } = taken;
    if !versions.is_first && !versions.is_second {
        return Err(StoreFault::Damaged);
    }
    if current.is_spoiled {
        return Err(StoreFault::Damaged);
    }
    let Some(first_roots) = first_roots else {
        return Err(StoreFault::Damaged);
    };
    let Some(roots) = roots else {
        return Err(StoreFault::Damaged);
    };
    let Some(shelf) = shelf else {
        return Err(StoreFault::Damaged);
    };
    let Some(blobs) = blobs else {
        return Err(StoreFault::Damaged);
    };
    let is_first = versions.is_begun && versions.is_first;
    let metadata = MetadataRows {
        roots: one_of(first_roots, roots, is_first)?,
        timestamp: current.timestamp,
        snapshot: current.snapshot,
        shelf,
    };
    Ok(((metadata, blobs), versions.is_begun, is_first))
}

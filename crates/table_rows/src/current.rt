// The rows of `current` as its two slots, and the row of `schema`.
ghost use Rattle.std.specs.Prelude.{◌≡◌, ◌≢◌, ◌++◌, [], ◌∷◌, List, not, ℕ, IfOk, IsTrue, MatchOption, None, Some, false, ◌⊎◌};
ghost use Rattle.repository_rows.specs.Contents.{slot_view, value_view};
ghost use Rattle.sqlite.specs.Order.{Row};
ghost use Rattle.sql_tables.specs.Loading.{AreRead};
ghost use Rattle.table_rows.specs.steps.Loading.{AreAll, AreVersions, FitsSlot, HaveSlots, IsOf, IsSlotRow, current_items, slot_name};

use sql_tables::{TakeRows, blob_at, is_same, number_at, text_at};
use sqlite::Row;
use std::alloc::{AllocError, Global};

// The slot of a row of `current`, whether `timestamp` or `snapshot`, with its version and bytes; `None` exactly where it is that
// of none.
fn slot_of(alloc: Global, row: &Row) -> Result<Option<(bool, (u32, Vec<u8>))>, AllocError>
    ensures { IfOk result (λ found. MatchOption found ((r : List ℕ × (ℕ × List ℕ)) → FitsSlot r → IsSlotRow row.now r → ⊥)
        (λ r. IsSlotRow row.now (slot_name r.0, (r.1.0, r.1.1.items)) × FitsSlot (slot_name r.0, (r.1.0, r.1.1.items)))) }
{
    let Some(slot) = text_at(row, 0) else {
        return Ok(None);
    };
    let Some(version) = number_at(row, 1) else {
        return Ok(None);
    };
    let Some(bytes) = blob_at(row, 2) else {
        return Ok(None);
    };
    let is_timestamp = is_same(slot, b"timestamp");
    if !is_timestamp && !is_same(slot, b"snapshot") {
        return Ok(None);
    }
    Ok(Some((is_timestamp, (version, Vec::from_slice(alloc, bytes)?))))
}

fn is_held(held: &(u32, Vec<u8>), item: &(u32, Vec<u8>)) -> bool
    ensures same { IsTrue result → value_view item.now ≡ value_view held.now }
    ensures other { result ≡ false → value_view item.now ≢ value_view held.now }
{
    let same = is_same(held.1.as_slice(), item.1.as_slice());
    held.0 == item.0 && same
}

// Puts the item into the slot, unless the slot holds another.
fn fill(slot: &mut Option<(u32, Vec<u8>)>, item: (u32, Vec<u8>)) -> bool
    ensures filled { IsTrue result → slot_view slot.new ≡ Some (value_view item) }
    ensures was { IsTrue result → (slot_view slot.old ≡ None) ⊎ (slot_view slot.old ≡ Some (value_view item)) }
    ensures refused { result ≡ false → (y : ℕ × List ℕ) × (slot_view slot.old ≡ Some y) × (value_view item ≢ y) }
{
    match slot {
        Some(held) => is_held(held, &item),
        None => {
            *slot = Some(item);
            true
        }
    }
}

// Puts the item into its slot of the two, unless that slot holds another.
fn fill_one(
    timestamp: &mut Option<(u32, Vec<u8>)>,
    snapshot: &mut Option<(u32, Vec<u8>)>,
    is_timestamp: bool,
    item: (u32, Vec<u8>),
) -> bool
    ensures { (rows : List Row) (r : Row) → AreRead IsSlotRow FitsSlot rows (current_items (slot_view timestamp.old) (slot_view snapshot.old)) → IsSlotRow r (slot_name is_timestamp, value_view item) → FitsSlot (slot_name is_timestamp, value_view item)
        → HaveSlots (rows ++ r ∷ []) (slot_view timestamp.new) (slot_view snapshot.new) (not result) }
{
    if is_timestamp {
        fill(timestamp, item)
    } else {
        fill(snapshot, item)
    }
}

// The rows of `current`, each slot at most once. Rows of the same cells are one.
#[derive(Drop)]
pub(crate) struct Current {
    alloc: Global,
    pub timestamp: Option<(u32, Vec<u8>)>,
    pub snapshot: Option<(u32, Vec<u8>)>,
    pub is_spoiled: bool,
}

impl Current {
    // Of no rows yet.
    pub(crate) fn new(alloc: Global) -> Current
        ensures { HaveSlots [] (slot_view result.timestamp) (slot_view result.snapshot) result.is_spoiled }
    {
        Current {
            alloc,
            timestamp: None,
            snapshot: None,
            is_spoiled: false,
        }
    }
}

impl TakeRows for Current {
    ghost Took = { λ rows c. HaveSlots rows (slot_view c.timestamp) (slot_view c.snapshot) c.is_spoiled };

    ghost ROWID = { 3 };

    const ROWID: usize = 3;

    fn take_row(&mut self, row: &Row) -> Result<(), AllocError> {
        if self.is_spoiled {
            return Ok(());
        }
        let Some((is_timestamp, item)) = slot_of(self.alloc, row)? else {
            self.is_spoiled = true;
            return Ok(());
        };
        self.is_spoiled = !fill_one(&mut self.timestamp, &mut self.snapshot, is_timestamp, item);
        Ok(())
    }
}

// Whether the row of `schema` is that of this version.
fn is_of(row: &Row, version: u32) -> bool
    ensures yes { IsTrue result → IsOf version row.now }
    ensures no { result ≡ false → IsOf version row.now → ⊥ }
{
    match number_at(row, 0) {
        Some(number) => number == version,
        None => false,
    }
}

// Whether all rows are of this version, with one more, where those before it are so or not.
fn are_still(row: &Row, version: u32, were: bool) -> bool
    ensures { (rows : List Row) → AreAll version rows were → AreAll version (rows ++ row.now ∷ []) result }
{
    if is_of(row, version) { were } else { false }
}

// The rows of `schema`: whether there is one, and whether all are 1, and whether all are 2.
#[derive(Drop)]
pub(crate) struct Versions {
    pub is_begun: bool,
    pub is_first: bool,
    pub is_second: bool,
}

impl Versions {
    // Of no rows yet.
    pub(crate) fn new() -> Versions
        ensures { AreVersions [] result.is_begun result.is_first result.is_second }
    {
        Versions {
            is_begun: false,
            is_first: true,
            is_second: true,
        }
    }
}

impl TakeRows for Versions {
    ghost Took = { λ rows v. AreVersions rows v.is_begun v.is_first v.is_second };

    ghost ROWID = { 0 };

    const ROWID: usize = 0;

    fn take_row(&mut self, row: &Row) -> Result<(), AllocError> {
        self.is_begun = true;
        self.is_first = are_still(row, 1, self.is_first);
        self.is_second = are_still(row, 2, self.is_second);
        Ok(())
    }
}

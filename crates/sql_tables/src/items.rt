// Items that are read from the rows of a table, by their keys.
ghost use Rattle.std.specs.Prelude.{◌≡◌, ◌≢◌, ℕ, List, [], ◌∷◌, ◌++◌, false, IsTrue, IfOk, MatchOption, OnOk, map};
ghost use Rattle.std.specs.Cmp.{IsTotalOrder};
ghost use Rattle.std.specs.declared.cmp.Ordering.{Ordering};
ghost use Rattle.std.specs.declared.cmp.Ordering.TheVariants.{Equal};
ghost use Rattle.sqlite_value.specs.declared.keys.Key.{Key};
ghost use Rattle.sqlite.specs.Order.{Row};
ghost use Rattle.sqlite.specs.Schema.{Schema};
ghost use Rattle.sqlite.specs.Held.{state};
ghost use Rattle.sqlite.specs.State.{CommitsShowing, HasCleanDisk, IsUnchanged, Survives};
ghost use Rattle.sql_tables.specs.Asking.{Reads};
ghost use Rattle.sql_tables.specs.Loading.{AreGathered, AreLoaded, AreOrdered, AreSpoiled, ComeOnce, HasGathered, IsItem, IsPlace};

use crate::numbering::take_rows;
use crate::stepping::TakeRows;
use sqlite::{Alter, Connection, Error, Row};
use std::alloc::{AllocError, Global};
use std::cmp::Ordering;

/// What the rows of a table are read as: items of a key and a value each.
pub trait Item {
    /// An item.
    type Of: Drop;

    /// What its key is to contracts.
    ghost Key: { Type 0 };

    /// What its value is to contracts.
    ghost Kept: { Type 0 };

    /// Its key and its value.
    ghost shows: { Self.Of → Key × Kept };

    /// The order of keys.
    ghost key_cmp: { Key → Key → Ordering };

    /// The row has the cells of the key and the value.
    ghost Reads: { Row → Key × Kept → Type 0 };

    /// The key and the value are such as may stand in the table.
    ghost Fits: { Key × Kept → Type 0 };

    /// The column of the query in which the rowid stands.
    ghost ROWID: { ℕ };

    /// The column of the query in which the rowid stands.
    const ROWID: usize;

    /// The item of a row, and `None` exactly where it is that of none.
    fn read(alloc: Global, row: &Row) -> Result<Option<Self::Of>, AllocError>
        ensures { IfOk result (λ found. IsItem Reads Fits shows row.now found) };

    /// How the key of one stands to that of another.
    fn order(one: &Self::Of, other: &Self::Of) -> Ordering
        ensures { result ≡ key_cmp (shows one.now).0 (shows other.now).0 };

    /// Whether two have one value.
    fn is_equal(one: &Self::Of, other: &Self::Of) -> bool
        ensures same { IsTrue result → (shows one.now).1 ≡ (shows other.now).1 }
        ensures other { result ≡ false → (shows one.now).1 ≢ (shows other.now).1 };

    ghost total: { IsTotalOrder key_cmp };

    ghost exact: { (a b : Key) → key_cmp a b ≡ Equal → a ≡ b };
}

// Where an item stands to the last one before it.
#[derive(Clone, Copy)]
enum Place {
    // Its key is higher.
    Behind,
    // It is the same.
    Same,
    // Neither.
    Neither,
}

// Where an item stands to the last of those that were read before it. The values are compared only where the keys are the same.
fn place_of<T: Item>(items: &[T::Of], item: &T::Of) -> Place
    ensures { IsPlace T.key_cmp (map T.shows items.now) (T.shows item.now) result }
{
    let Some((last, _)) = items.split_last() else {
        return Place::Behind;
    };
    match T::order(last, item) {
        Ordering::Less => Place::Behind,
        Ordering::Equal if T::is_equal(last, item) => Place::Same,
        _ => Place::Neither,
    }
}

/// The items of a table, gathered from its rows in the order of their keys. Rows of the same cells are one item.
#[derive(Drop)]
pub struct Gathered<T: Item> {
    alloc: Global,
    /// The items of the rows so far.
    pub items: Vec<T::Of>,
    /// Whether a row was that of no item, or two rows had one key and two values.
    pub is_spoiled: bool,
}

impl<T: Item> Gathered<T> {
    /// Of no rows yet.
    pub fn new(alloc: Global) -> Gathered<T>
        ensures { HasGathered T.key_cmp T.Reads T.Fits [] (map T.shows result.items.items) result.is_spoiled }
    {
        Gathered {
            alloc,
            items: Vec::new(alloc),
            is_spoiled: false,
        }
    }

    /// Takes one more row as the item that it was read as, or as that of none. It fails only for want of memory.
    pub fn take_item(&mut self, found: Option<T::Of>) -> Result<(), AllocError>
        ensures { OnOk result ((rows : List Row) (row : Row) → IsItem T.Reads T.Fits T.shows row found
            → HasGathered T.key_cmp T.Reads T.Fits rows (map T.shows self.old.items.items) self.old.is_spoiled
            → HasGathered T.key_cmp T.Reads T.Fits (rows ++ row ∷ []) (map T.shows self.new.items.items) self.new.is_spoiled) }
    {
        if self.is_spoiled {
            return Ok(());
        }
        let Some(item) = found else {
            self.is_spoiled = true;
            return Ok(());
        };
        match place_of::<T>(self.items.as_slice(), &item) {
            Place::Behind => self.items.push(item)?,
            Place::Same => {}
            Place::Neither => self.is_spoiled = true,
        }
        Ok(())
    }

    /// The items, and `None` where a row was that of no item, or two rows had one key and two values.
    pub fn into_items(self) -> Option<Vec<T::Of>>
        ensures { (rows : List Row) → HasGathered T.key_cmp T.Reads T.Fits rows (map T.shows self.items.items) self.is_spoiled
            → MatchOption result (AreOrdered T.key_cmp T.Reads T.Fits rows → AreSpoiled T.Reads T.Fits rows) (λ v. AreGathered T.key_cmp T.Reads T.Fits rows (map T.shows v.items)) }
    {
        if self.is_spoiled {
            return None;
        }
        Some(self.items)
    }
}

impl<T: Item> TakeRows for Gathered<T> {
    ghost Took = { λ rows g. HasGathered T.key_cmp T.Reads T.Fits rows (map T.shows g.items.items) g.is_spoiled };

    ghost ROWID = { T.ROWID };

    const ROWID: usize = T::ROWID;

    fn take_row(&mut self, row: &Row) -> Result<(), AllocError> {
        if self.is_spoiled {
            return Ok(());
        }
        let found = T::read(self.alloc, row)?;
        self.take_item(found)
    }
}

/// The items of a table, by their keys, and whether the rowids are integers that come once. Rows of the same cells are one item.
/// There are `None` where a row is that of no item, or two rows have one key and two values; of rows that do not come in the order
/// of their keys this is not known. A row's bytes are let go once it is read, as `each_row` says, but what the items keep.
pub fn gather<S: Alter, T: Item>(
    alloc: Global,
    conn: &mut Connection<S>,
    sql: &str,
) -> Result<(Option<Vec<T::Of>>, bool), Error>
    ensures rows { IfOk result (λ p. (rows : List Row) × (IsTrue p.1 → ComeOnce T.ROWID rows)
        × MatchOption p.0 (AreOrdered T.key_cmp T.Reads T.Fits rows → AreSpoiled T.Reads T.Fits rows) (λ v. AreGathered T.key_cmp T.Reads T.Fits rows (map T.shows v.items))
        × (HasCleanDisk (state S.Store conn.new) → (schema : Schema) (tree : ℕ) (shown : Row → Row) (keys : List Key) → Reads schema sql.now tree shown keys → (state S.Store conn.old).now.schema ≡ schema
        → AreLoaded shown keys ((state S.Store conn.old).now.trees tree) rows)) }
    ensures unchanged { HasCleanDisk (state S.Store conn.new) → (schema : Schema) (tree : ℕ) (shown : Row → Row) (keys : List Key) → Reads schema sql.now tree shown keys → (state S.Store conn.old).now.schema ≡ schema
        → OnOk result (IsUnchanged (state S.Store conn.old) (state S.Store conn.new)) }
    ensures mode { conn.old.in_transaction ≡ false → conn.new.in_transaction ≡ false }
    ensures survives { Survives (state S.Store conn.old) (state S.Store conn.new) (CommitsShowing sql.now [] (state S.Store conn.old)) }
{
    let (gathered, once) = take_rows(alloc, conn, sql, Gathered::<T>::new(alloc))?;
    Ok((gathered.into_items(), once))
}

// The rows of a table, and that their rowids are integers and come once. A database has it so by its own laws, but no clause of a
// connection says it, and to learn it from those laws takes a new connection, which goes over every row several times.
ghost use Rattle.std.specs.Prelude.{◌≡◌, ◌++◌, [], ◌∷◌, ℕ, ℤ, true, false, List, IsTrue, IfOk, IfSome, OnOk, map};
ghost use Rattle.std.specs.List.Sorted.{IsPermutation};
ghost use Rattle.sqlite_value.specs.declared.keys.Key.{Key};
ghost use Rattle.sqlite.specs.declared.types.Value.TheVariants.{Int};
ghost use Rattle.sqlite.specs.Order.{Row, column};
ghost use Rattle.sqlite.specs.Schema.{Schema};
ghost use Rattle.sqlite.specs.Held.{state};
ghost use Rattle.sqlite.specs.State.{CommitsShowing, HasCleanDisk, IsUnchanged, Survives};
ghost use Rattle.sql_tables.specs.Asking.{Reads};
ghost use Rattle.sql_tables.specs.Loading.{AreLoaded, ComeOnce, comes_first, rise};

use crate::stepping::{TakeRows, each_row};
use sqlite::{Alter, Connection, Error, Row};
use sqlite_value::value::ValueRef;
use std::alloc::{AllocError, Global};

// The integer of a cell, if it is one.
fn integer_at(row: &Row, at: usize) -> Option<i64>
    ensures { IfSome result (λ n. column row.now at ≡ Int n) }
{
    match row.get_ref(at) {
        Ok(ValueRef::Int(number)) => Some(number),
        _ => None,
    }
}

// Whether an integer is below the first of these.
fn is_before_first(id: i64, later: &[i64]) -> bool
    ensures { result ≡ comes_first id later.now }
{
    match later.first() {
        Some(next) => id.cmp(next).is_lt(),
        None => true,
    }
}

// Whether each integer is below the next.
fn do_rise(ids: &[i64]) -> bool
    ensures { result ≡ rise ids.now }
{
    let mut rest = ids;
    'ids: while let Some((id, later)) = rest.split_first() {
        if !is_before_first(*id, later) {
            return false;
        }
        rest = later;
    }
    true
}

// Whether no integer comes twice. They are put into their order.
fn are_distinct(ids: &mut [i64]) -> bool
    ensures { result ≡ true → (up : List ℤ) × IsPermutation ids.old up × (rise up ≡ true) }
{
    ids.sort_unstable();
    do_rise(ids)
}

// The same of integers that are those of all rows only where this is so.
fn come_once(ids: &mut [i64], are_integers: bool) -> bool
    ensures { IsTrue result → (are_integers ≡ true) × ((up : List ℤ) × IsPermutation ids.old up × (rise up ≡ true)) }
{
    are_integers && are_distinct(ids)
}

// What takes rows, with their rowids, as far as these are integers.
#[derive(Drop)]
struct Numbered<T> {
    taker: T,
    ids: Vec<i64>,
    are_integers: bool,
}

impl<T: TakeRows> TakeRows for Numbered<T> {
    ghost Took = { λ rows n. T.Took rows n.taker × (n.are_integers ≡ true → map (λ r. column r T.ROWID) rows ≡ map Int n.ids.items) };

    ghost ROWID = { T.ROWID };

    const ROWID: usize = T::ROWID;

    fn take_row(&mut self, row: &Row) -> Result<(), AllocError> {
        match integer_at(row, T::ROWID) {
            Some(id) => self.ids.push(id)?,
            None => self.are_integers = false,
        }
        self.taker.take_row(row)
    }
}

/// Hands each row of a table to what takes them, in the order of the query and each once, and tells whether their rowids are
/// integers that come once. The rows are read by a cursor, as `each_row` says. A fault ends it at any row.
pub fn take_rows<S: Alter, T: TakeRows + Drop>(
    alloc: Global,
    conn: &mut Connection<S>,
    sql: &str,
    taker: T,
) -> Result<(T, bool), Error>
    ensures rows { T.Took [] taker → IfOk result (λ p. (rows : List Row) × T.Took rows p.0 × (IsTrue p.1 → ComeOnce T.ROWID rows)
        × (HasCleanDisk (state S.Store conn.new) → (schema : Schema) (tree : ℕ) (shown : Row → Row) (keys : List Key) → Reads schema sql.now tree shown keys → (state S.Store conn.old).now.schema ≡ schema
        → AreLoaded shown keys ((state S.Store conn.old).now.trees tree) rows)) }
    ensures unchanged { HasCleanDisk (state S.Store conn.new) → (schema : Schema) (tree : ℕ) (shown : Row → Row) (keys : List Key) → Reads schema sql.now tree shown keys → (state S.Store conn.old).now.schema ≡ schema → T.Took [] taker
        → OnOk result (IsUnchanged (state S.Store conn.old) (state S.Store conn.new)) }
    ensures mode { conn.old.in_transaction ≡ false → conn.new.in_transaction ≡ false }
    ensures survives { Survives (state S.Store conn.old) (state S.Store conn.new) (CommitsShowing sql.now [] (state S.Store conn.old)) }
{
    let mut numbered = Numbered {
        taker,
        ids: Vec::new(alloc),
        are_integers: true,
    };
    each_row(conn, sql, &mut numbered)?;
    let Numbered {
        taker,
        mut ids,
        are_integers,
    } = numbered;
    let once = come_once(ids.as_mut_slice(), are_integers);
    Ok((taker, once))
}

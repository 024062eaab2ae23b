// The rows of a query, one at a time.
ghost use Rattle.std.specs.Prelude.{◌≡◌, ◌++◌, [], ◌∷◌, false, List, OnOk, ℕ};
ghost use Rattle.sqlite.specs.Order.{Row};
ghost use Rattle.sqlite.specs.Given.{IsPlain};
ghost use Rattle.sqlite.specs.Held.{state};
ghost use Rattle.sqlite.specs.Listing.{understood};
ghost use Rattle.sqlite.specs.State.{CommitsShowing, HasCleanDisk, Shown, Survives};

use sqlite::{Alter, Connection, Error, ErrorCode, Row};
use std::alloc::AllocError;

/// What takes the rows of a query, one after the other.
pub trait TakeRows {
    /// What it is once it has taken these rows, in this order.
    ghost Took: { List Row → Self → Type 0 };

    /// The column of the query in which the rowid stands.
    ghost ROWID: { ℕ };

    /// The column of the query in which the rowid stands.
    const ROWID: usize;

    /// Takes one more row, of which it may keep a copy. It fails only for want of memory.
    fn take_row(&mut self, row: &Row) -> Result<(), AllocError>
        ensures { OnOk result ((rows : List Row) → Took rows self.old → Took (rows ++ row.now ∷ []) self.new) };
}

/// Hands each row of a query to what takes them, in their order and each once. The rows are read by a cursor where
/// the database can give them in their order without a sort: by the rowid, by a key, or in no order. It reads ahead as many rows as
/// would have 256 KiB together if each were as long as the last, so long rows after short ones are held together. A fault ends it at any row.
pub fn each_row<S: Alter, T: TakeRows>(
    conn: &mut Connection<S>,
    sql: &str,
    taker: &mut T,
) -> Result<(), Error>
    ensures rows { T.Took [] taker.old → OnOk result ((rows : List Row) × T.Took rows taker.new
        × (HasCleanDisk (state S.Store conn.new) → IsPlain (understood conn.old.schema sql.now) → Shown sql.now [] (state S.Store conn.old) (state S.Store conn.new) rows)) }
    ensures mode { conn.old.in_transaction ≡ false → conn.new.in_transaction ≡ false }
    ensures survives { Survives (state S.Store conn.old) (state S.Store conn.new) (CommitsShowing sql.now [] (state S.Store conn.old)) }
{
    let mut rows = conn.query(sql, &[])?;
    'rows: for _ in 0..u64::MAX {
        rows.advance()?;
        let Some(row) = rows.get() else {
            return Ok(());
        };
        taker.take_row(row)?;
    }
    Err(Error::SqliteFailure(ErrorCode::OutOfMemory))
}

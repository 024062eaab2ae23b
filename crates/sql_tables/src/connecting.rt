// A connection between two transactions, and whether it still answers.
ghost use Rattle.std.specs.Prelude.{◌≡◌, ◌⊎◌, [], Ok, true, false, IsTrue, IfOk, List, OnOk, ℕ};
ghost use Rattle.sqlite_value.specs.declared.keys.Key.{Key};
ghost use Rattle.sqlite.specs.Order.{Row};
ghost use Rattle.sqlite.specs.Schema.{Schema};
ghost use Rattle.sqlite.specs.Held.{state};
ghost use Rattle.sqlite.specs.State.{CommitsShowing, HasCleanDisk, IsRolledBack, IsUnchanged, Survives};
ghost use Rattle.sql_tables.specs.Asking.{Reads};
ghost use Rattle.sql_tables.specs.Faults.{fault_of};
ghost use Rattle.sql_tables.specs.Opening.{IsSettled};

use sqlite::{Alter, Connection, Error, ErrorCode};
use sqlite_trees::error::StoreError;
use sqlite_trees::store::Store;
use std::alloc::Global;

// The fault of a connection for one of its store. Want of memory stays what it is.
fn error_of(error: StoreError) -> Error
    ensures { result ≡ fault_of error }
{
    match error {
        StoreError::OutOfMemory => Error::SqliteFailure(ErrorCode::OutOfMemory),
        StoreError::Io => Error::SqliteFailure(ErrorCode::SystemIoFailure),
        StoreError::Corrupt => Error::SqliteFailure(ErrorCode::DatabaseCorrupt),
        StoreError::Full => Error::SqliteFailure(ErrorCode::DiskFull),
        StoreError::Broken => Error::SqliteFailure(ErrorCode::Closed),
        StoreError::Unstorable => Error::SqliteFailure(ErrorCode::TooBig),
    }
}

/// A connection between two transactions, over the same store. Where a transaction was under way it is undone, and the connection
/// is made anew; its clock and step limit are then lost, and on a fault the store is closed.
pub fn renew<S: Alter + Drop>(alloc: Global, conn: Connection<S>) -> Result<Connection<S>, Error>
    ensures settled { IfOk result (λ c. HasCleanDisk (state S.Store c) → IsSettled (state S.Store c)) }
    ensures same { IfOk result (λ c. HasCleanDisk (state S.Store c) → IsTrue (state S.Store c).is_open → (state S.Store c).now.trees ≡ (state S.Store conn).committed.trees) }
    ensures autocommit { IfOk result (λ c. c.in_transaction ≡ false) }
    ensures untouched { conn.in_transaction ≡ false → result ≡ Ok conn }
    ensures was_open { IfOk result (λ c. HasCleanDisk (state S.Store c) → IsTrue (state S.Store c).is_open → IsTrue (state S.Store conn).is_open) }
    ensures anew { conn.in_transaction ≡ true → IfOk result (λ c. HasCleanDisk (state S.Store c) → IsTrue (state S.Store c).is_open) }
{
    if conn.is_autocommit() {
        return Ok(conn);
    }
    let mut store = conn.into_store();
    match store.commit() {
        Ok(()) => {}
        Err(error) => return Err(error_of(error)),
    }
    match Connection::over(alloc, store) {
        Ok(conn) => Ok(conn),
        Err((error, _)) => Err(error),
    }
}

/// Whether the connection still answers, by one query of a table. After a fault has shut it, nothing may be answered from memory
/// alone: a crash may still leave what stood before or after the faulty call.
pub fn check_open<S: Alter>(conn: &mut Connection<S>, sql: &str) -> Result<(), Error>
    ensures open { HasCleanDisk (state S.Store conn.new) → OnOk result (IsTrue (state S.Store conn.old).is_open × IsTrue (state S.Store conn.new).is_open) }
    ensures was_open { HasCleanDisk (state S.Store conn.new) → IsTrue (state S.Store conn.new).is_open → IsTrue (state S.Store conn.old).is_open }
    ensures kept { HasCleanDisk (state S.Store conn.new) → (schema : Schema) (tree : ℕ) (shown : Row → Row) (keys : List Key) → Reads schema sql.now tree shown keys → (state S.Store conn.old).now.schema ≡ schema
        → IsUnchanged (state S.Store conn.old) (state S.Store conn.new) ⊎ IsRolledBack (state S.Store conn.old) (state S.Store conn.new) }
    ensures mode { conn.old.in_transaction ≡ false → conn.new.in_transaction ≡ false }
    ensures survives { Survives (state S.Store conn.old) (state S.Store conn.new) (CommitsShowing sql.now [] (state S.Store conn.old)) }
{
    conn.query_all(sql, &[])?;
    Ok(())
}

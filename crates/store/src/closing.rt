//! The end of a store over two files: what the next open finds in them.
ghost use Rattle.std.specs.Prelude.{◌≡◌, ◌≢◌, ◌⊎◌, [], false, Err, IfOk, IsSomeAnd, IsTrue};
ghost use Rattle.sqlite.specs.Files.{file_state};
ghost use Rattle.sqlite.specs.Held.{state};
ghost use Rattle.sqlite.specs.State.{HasCleanDisk};
ghost use Rattle.sqlite_trees.specs.Tree.{Trees};
ghost use Rattle.sqlite_wal.specs.Files.{outcomes};
ghost use Rattle.sqlite_wal.specs.Reads.{AreClean};
ghost use Rattle.sqlite_wal.specs.Recovery.{Image};
ghost use Rattle.trust_rules.specs.State.{State};
ghost use Rattle.trust_rules.specs.Runs.{Steps};
ghost use Rattle.table_rows.specs.Tables.{HoldsWhole};
ghost use Rattle.store.specs.Applies.{HoldsReply, HoldsStep, IsEither};
ghost use Rattle.store.specs.Standing.{StandsAt, seen};
ghost use Rattle.store.specs.StateRows.{Begins, Recovers, Reopens, RestsAt, rows_of};
ghost use Rattle.sql_tables.specs.Opening.{IsFound};
ghost use Rattle.store.specs.Views.{command_view, reply_view};

use crate::command::{Command, Reply};
use crate::laws::{leaves_committed, trees_tell_state};
use crate::opening::Unopened;
use crate::store::Store;
use machine::stays_valid;
use metadata::Moment;
use repository_tables::StoreFault;
use sql_tables::close;
use sqlite::{Alter, Connection, Error, FileStore, Files};
use sqlite_disk::Disk;
use std::alloc::Global;

/// Makes a command at a moment, as `Store::apply` does, and hands back the two files. Whatever a crash leaves of them, inside the
/// call or after it, the next open finds the rows of the state before the command or of the state after it, and after a reply
/// those of the state after it. A crash inside the call is one from which on each call of the disks fails. Nothing is said where the
/// connection was shut and no reply is answered, nor where a wrong answer of the disks was taken as true.
pub fn apply_and_close<D: Disk + Drop>(
    store: Store<FileStore<D>>,
    command: Command<'_>,
    now: Moment,
) -> (Result<Reply, StoreFault>, Files<D>)
    ensures before_or_after { AreClean D.Disk result.1.log result.1.db → IsTrue (file_state store.conn).is_open
        → (U : State) → StandsAt (seen store.kept (file_state store.conn)) U
        → (left : Image) → outcomes D.Disk result.1.log result.1.db left → (found : Trees) → IsFound left found
        → ∥ HoldsWhole found (rows_of U) ⊎ HoldsStep U (command_view command.entry) now found ∥₁ }
    ensures after { AreClean D.Disk result.1.log result.1.db
        → (U : State) → StandsAt (seen store.kept (file_state store.conn)) U
        → (left : Image) → outcomes D.Disk result.1.log result.1.db left → (found : Trees) → IsFound left found
        → IfOk result.0 (λ reply. ∥ HoldsReply U (command_view command.entry) now (reply_view reply) found ∥₁) }
    ensures reopened { AreClean D.Disk result.1.log result.1.db → IsTrue (file_state store.conn).is_open
        → (U : State) → StandsAt (seen store.kept (file_state store.conn)) U
        → (left : Image) → outcomes D.Disk result.1.log result.1.db left → (found : Trees) → IsFound left found
        → Reopens found (IsEither U (command_view command.entry) now) }
    ensures reopened_after { AreClean D.Disk result.1.log result.1.db
        → (U : State) → StandsAt (seen store.kept (file_state store.conn)) U
        → (left : Image) → outcomes D.Disk result.1.log result.1.db left → (found : Trees) → IsFound left found
        → IfOk result.0 (λ reply. Reopens found (λ V. Steps U (command_view command.entry) now (V, reply_view reply))) }
{
    stays_valid();
    trees_tell_state();
    let (result, conn) = applied(store, command, now);
    (result, close(conn))
}

/// Opens a store over two files in which no transaction is under way, as `Store::open_over` does, and hands them back. Whatever a crash
/// leaves of them, inside the opening or after it, the next open finds what it could have found before, or all six tables with the rows of the
/// state for which the tables stood. Nothing is said where a wrong answer of the disks was taken as true.
pub fn open_and_close<D: Disk + Drop>(
    alloc: Global,
    conn: Connection<FileStore<D>>,
) -> (Result<(), StoreFault>, Option<Files<D>>)
    ensures crash { conn.in_transaction ≡ false → IsSomeAnd result.1 (λ files. AreClean D.Disk files.log files.db
        → (left : Image) → outcomes D.Disk files.log files.db left → (found : Trees) → IsFound left found
        → ∥ (file_state conn).may_leave found ⊎ Begins (file_state conn) found ∥₁) }
    ensures reopened { conn.in_transaction ≡ false → IsSomeAnd result.1 (λ files. AreClean D.Disk files.log files.db
        → (U : State) → RestsAt (file_state conn) U
        → (left : Image) → outcomes D.Disk files.log files.db left → (found : Trees) → IsFound left found
        → Reopens found (λ V. V ≡ U)) }
{
    trees_tell_state();
    leaves_committed(&conn);
    let (result, conn) = opened(alloc, conn);
    match conn {
        Some(conn) => (result, Some(close(conn))),
        None => (result, None),
    }
}

/// Closes a store: what its log has is copied into the database file, which then holds the rows of its state by itself. Whatever a crash
/// leaves of the two files, the next open finds this state, and so it does where the log is lost, or left behind, and an empty one stands in
/// its place. On a fault the rows need their log still: what a reply said of them is kept there (`durable` of `Store::apply`). Nothing is
/// said where a wrong answer of the disks was taken as true.
pub fn close_into_file<D: Disk + Drop>(store: Store<FileStore<D>>) -> Result<Files<D>, StoreFault>
    ensures both { IfOk result (λ files. AreClean D.Disk files.log files.db → (U : State) → StandsAt (seen store.kept (file_state store.conn)) U
        → (left : Image) → outcomes D.Disk files.log files.db left → (found : Trees) → IsFound left found → ∥ Recovers found U ∥₁) }
    ensures alone { IfOk result (λ files. AreClean D.Disk files.log files.db → (U : State) → StandsAt (seen store.kept (file_state store.conn)) U
        → (left : Image) → outcomes D.Disk files.log files.db left → (found : Trees) → IsFound (record left { log = [] }) found → ∥ Recovers found U ∥₁) }
    ensures sound { result ≢ Err StoreFault.Damaged }
{
    let conn = at_rest(store);
    match conn.close_files() {
        Ok(files) => Ok(files),
        Err(unclosed) => Err(fault_of(unclosed)),
    }
}

// Why something was not closed, which is let go.
fn fault_of<T: Drop>(unclosed: (Error, T)) -> StoreFault
    ensures { result ≢ StoreFault.Damaged }
{
    let (error, _rest) = unclosed;
    StoreFault::from(error)
}

// The connection of a store, whose last commit has the rows of its state.
fn at_rest<S: Alter>(store: Store<S>) -> Connection<S>
    ensures { HasCleanDisk (state S.Store result) → IsTrue (state S.Store result).is_open → (U : State) → StandsAt (seen store.kept (state S.Store store.conn)) U
        → Recovers (state S.Store result).committed.trees U }
{
    trees_tell_state();
    let conn = store.into_connection();
    leaves_committed(&conn);
    conn
}

// Makes a command, and hands back the connection.
fn applied<S: Alter + Drop>(
    mut store: Store<S>,
    command: Command<'_>,
    now: Moment,
) -> (Result<Reply, StoreFault>, Connection<S>)
    ensures crash { HasCleanDisk (state S.Store result.1) → IsTrue (state S.Store store.conn).is_open
        → (U : State) → StandsAt (seen store.kept (state S.Store store.conn)) U
        → (found : Trees) → (state S.Store result.1).may_leave found → HoldsWhole found (rows_of U) ⊎ HoldsStep U (command_view command.entry) now found }
    ensures after { HasCleanDisk (state S.Store result.1)
        → (U : State) → StandsAt (seen store.kept (state S.Store store.conn)) U
        → (found : Trees) → ∥ (state S.Store result.1).may_leave found ∥₁ → IfOk result.0 (λ reply. ∥ HoldsReply U (command_view command.entry) now (reply_view reply) found ∥₁) }
{
    let result = store.apply(command, now);
    let conn = store.into_connection();
    (result, conn)
}

// Opens a store, and hands back the connection, where there still is one.
fn opened<S: Alter + Drop>(
    alloc: Global,
    conn: Connection<S>,
) -> (Result<(), StoreFault>, Option<Connection<S>>)
    ensures { conn.in_transaction ≡ false → IsSomeAnd result.1 (λ c. HasCleanDisk (state S.Store c) → (found : Trees) → (state S.Store c).may_leave found
        → (state S.Store conn).may_leave found ⊎ Begins (state S.Store conn) found) }
{
    match Store::open_over(alloc, conn) {
        Ok(store) => (Ok(()), Some(store.into_connection())),
        Err(unopened) => {
            let Unopened { fault, conn } = unopened;
            (Err(fault), conn)
        }
    }
}

// Two files in memory, each of which stops after a number of its calls.
use sqlite::types::ValueRef;
use sqlite::{Connection, FileStore, Files};
use sqlite_disk::{Fuse, Memory};
use sqlite_pager::Options;
use std::alloc::Global;

/// A store over such files.
pub type Disks = FileStore<Fuse<Memory>>;

/// New files, one of which stops after so many calls.
pub fn files_that_stop(alloc: Global, stops_log: bool, calls: u64) -> Files<Fuse<Memory>> {
    let (log, db) = stops(stops_log, calls);
    Files {
        log: Fuse::new(Memory::new(alloc), log),
        db: Fuse::new(Memory::new(alloc), db),
    }
}

/// New files, neither of which stops.
pub fn calm_files(alloc: Global) -> Files<Fuse<Memory>> {
    files_that_stop(alloc, true, u64::MAX)
}

/// After how many calls the log stops, and the database.
pub fn stops(stops_log: bool, calls: u64) -> (u64, u64) {
    if stops_log {
        (calls, u64::MAX)
    } else {
        (u64::MAX, calls)
    }
}

/// The files of a connection that is done.
pub fn closed(conn: Connection<Disks>) -> Files<Fuse<Memory>> {
    conn.into_store().close()
}

/// A connection over these files, or the files.
pub fn connected(
    alloc: Global,
    files: Files<Fuse<Memory>>,
    options: Options,
) -> Result<Connection<Disks>, Files<Fuse<Memory>>> {
    if !files.may_be_used() {
        return Err(files);
    }
    match Connection::open_files(alloc, files, options) {
        Ok(conn) => Ok(conn),
        Err((_, left)) => Err(left.into_files()),
    }
}

pub fn is_same_value(one: ValueRef<'_>, other: ValueRef<'_>) -> bool {
    match (one, other) {
        (ValueRef::Int(a), ValueRef::Int(b)) => a == b,
        (ValueRef::Text(a), ValueRef::Text(b)) => a == b,
        (ValueRef::Blob(a), ValueRef::Blob(b)) => a == b,
        _ => false,
    }
}

//! A search over the files that a store hands out, by one that knows nothing of their signatures.
use delegations::{
    File, Moment, RoleName, Root, Row, Rows, Shelf, Snapshot, Steps, TargetPath, search_counted,
};
use metadata::{read_root_file, read_snapshot_file, read_targets_file, read_timestamp_file};
use path_patterns::metadata_name;
use script_words::LineFault;
use std::alloc::Global;
use store::Held;

/// How many signatures the search checks, and how many roles it visits, where a root, a timestamp and a snapshot are held.
pub fn cold_search(
    alloc: Global,
    held: &Held,
    root_version: u32,
    path: &TargetPath,
    now: Moment,
) -> Result<(u64, u64), LineFault> {
    let root = root_of(alloc, held, root_version)?;
    search_under(alloc, held, &root.body, path, now)
}

// The same under this root.
fn search_under(
    alloc: Global,
    held: &Held,
    root: &Root,
    path: &TargetPath,
    now: Moment,
) -> Result<(u64, u64), LineFault> {
    let snapshot = snapshot_of(alloc, held)?;
    search_in(alloc, held, root, &snapshot.body, path, now)
}

// The same in what this snapshot lists.
fn search_in(
    alloc: Global,
    held: &Held,
    root: &Root,
    snapshot: &Snapshot,
    path: &TargetPath,
    now: Moment,
) -> Result<(u64, u64), LineFault> {
    let added = rows_of(alloc, held, snapshot)?;
    let rows = Rows {
        held: &[],
        added: &added,
    };
    let shelf = Shelf::new(root, snapshot, rows);
    let mut checks = Steps::new();
    let mut visits = Steps::new();
    let _ = search_counted(&shelf, path, now, &mut checks, &mut visits);
    Ok((checks.count(), visits.count()))
}

fn root_of(alloc: Global, held: &Held, version: u32) -> Result<File<Root>, LineFault> {
    let name = metadata_name(alloc, version, "root")?;
    shaped(read_root_file(alloc, file(held, name.as_str())?))
}

// The snapshot that the timestamp names.
fn snapshot_of(alloc: Global, held: &Held) -> Result<File<Snapshot>, LineFault> {
    let version = snapshot_version(alloc, held)?;
    let name = metadata_name(alloc, version, "snapshot")?;
    shaped(read_snapshot_file(alloc, file(held, name.as_str())?))
}

fn snapshot_version(alloc: Global, held: &Held) -> Result<u32, LineFault> {
    match read_timestamp_file(alloc, file(held, "timestamp.json")?) {
        Ok(timestamp) => Ok(timestamp.body.snapshot.version),
        Err(_) => Err(LineFault::NotUnderstood),
    }
}

// The rows that the snapshot lists and that are held.
fn rows_of(alloc: Global, held: &Held, snapshot: &Snapshot) -> Result<Vec<Row>, LineFault> {
    let mut rows = Vec::new(alloc);
    for (role, entry) in &snapshot.meta {
        let text = role.as_str();
        let version = entry.version;
        let name = metadata_name(alloc, version, text)?;
        if let Some(bytes) = held.metadata_file(name.as_str()) {
            let row = row_of(alloc, text, version, bytes)?;
            rows.push(row)?;
        }
    }
    Ok(rows)
}

fn row_of(alloc: Global, role: &str, version: u32, bytes: &[u8]) -> Result<Row, LineFault> {
    let Some(role) = RoleName::read(alloc, role)? else {
        return Err(LineFault::NotUnderstood);
    };
    let file = shaped(read_targets_file(alloc, bytes))?;
    Ok(Row {
        role,
        version,
        file,
    })
}

fn file<'a>(held: &'a Held, name: &str) -> Result<&'a [u8], LineFault> {
    match held.metadata_file(name) {
        Some(bytes) => Ok(bytes),
        None => Err(LineFault::NotUnderstood),
    }
}

fn shaped<T, E: Drop>(read: Result<T, E>) -> Result<T, LineFault> {
    match read {
        Ok(file) => Ok(file),
        Err(_) => Err(LineFault::NotUnderstood),
    }
}

//! The state that the rows of a case's database stand for. What is read is kept in place, so that nothing large is let go where a read fails.
use crate::base::Base;
use path_patterns::Digest;
use repository_rows::{Contents, MetadataRows};
use script_words::LineFault;
use sqlite::{Connection, Error, MemStore, Row};
use std::alloc::{AllocError, Global};
use store::State;

// A row of a version and bytes.
type Versioned = (u32, Vec<u8>);

const ROOTS: &str = "SELECT version, profile, bytes FROM root2 ORDER BY version";

const TIMESTAMP: &str = "SELECT version, bytes FROM current WHERE slot = 'timestamp'";

const SNAPSHOT: &str = "SELECT version, bytes FROM current WHERE slot = 'snapshot'";

const SHELF: &str = "SELECT role, version, bytes FROM shelf ORDER BY role, version";

const BLOBS: &str = "SELECT digest, bytes FROM blob ORDER BY digest";

/// The state of a database that is open or shut, and is left as it was.
pub fn state_of(alloc: Global, base: &mut Base) -> Result<State, LineFault> {
    let is_open = base.is_open();
    base.shut();
    let contents = contents_of(alloc, base);
    let is_back = !is_open || base.open(alloc).is_ok();
    match contents {
        Some(contents) if is_back => settled(State::load(alloc, contents)),
        _ => Err(LineFault::OutOfMemory),
    }
}

// The state, where the rows are those of one.
fn settled(loaded: Result<Option<State>, AllocError>) -> Result<State, LineFault> {
    match loaded {
        Ok(Some(state)) => Ok(state),
        Ok(None) => Err(LineFault::NotUnderstood),
        Err(_) => Err(LineFault::OutOfMemory),
    }
}

// The rows of a database that is shut, if memory sufficed.
fn contents_of(alloc: Global, base: &mut Base) -> Option<Contents> {
    let mut contents = Contents {
        metadata: MetadataRows::empty(alloc),
        blobs: Vec::new(alloc),
    };
    let is_read = match base.connection() {
        Some(conn) => read_into(conn, &mut contents).is_ok(),
        None => false,
    };
    if is_read { Some(contents) } else { None }
}

fn read_into(conn: &mut Connection<MemStore>, contents: &mut Contents) -> Result<(), Error> {
    read_metadata(conn, &mut contents.metadata)?;
    read_blobs(conn, &mut contents.blobs)
}

fn read_metadata(
    conn: &mut Connection<MemStore>,
    metadata: &mut MetadataRows,
) -> Result<(), Error> {
    read_roots(conn, &mut metadata.roots)?;
    read_current(conn, TIMESTAMP, &mut metadata.timestamp)?;
    read_current(conn, SNAPSHOT, &mut metadata.snapshot)?;
    read_shelf(conn, &mut metadata.shelf)
}

fn read_roots(
    conn: &mut Connection<MemStore>,
    found: &mut Vec<(u32, u32, Vec<u8>)>,
) -> Result<(), Error> {
    let rows = conn.query_all(ROOTS, &[])?;
    for row in rows.iter() {
        let version: u32 = row.get(0)?;
        let profile: u32 = row.get(1)?;
        found
            .push((version, profile, row.get(2)?))
            .map_err(AllocError::from)?;
    }
    Ok(())
}

fn versioned(row: &Row) -> Result<Versioned, Error> {
    let version: u32 = row.get(0)?;
    Ok((version, row.get(1)?))
}

// The row of a slot, if there is one.
fn read_current(
    conn: &mut Connection<MemStore>,
    text: &str,
    slot: &mut Option<Versioned>,
) -> Result<(), Error> {
    let rows = conn.query_all(text, &[])?;
    for row in rows.iter() {
        *slot = Some(versioned(row)?);
    }
    Ok(())
}

fn read_shelf(
    conn: &mut Connection<MemStore>,
    found: &mut Vec<(String, u32, Vec<u8>)>,
) -> Result<(), Error> {
    let rows = conn.query_all(SHELF, &[])?;
    for row in rows.iter() {
        let version: u32 = row.get(1)?;
        let role: String = row.get(0)?;
        found
            .push((role, version, row.get(2)?))
            .map_err(AllocError::from)?;
    }
    Ok(())
}

fn read_blobs(
    conn: &mut Connection<MemStore>,
    found: &mut Vec<([u8; 32], Vec<u8>)>,
) -> Result<(), Error> {
    let rows = conn.query_all(BLOBS, &[])?;
    for row in rows.iter() {
        let digits: String = row.get(0)?;
        if let Some(digest) = Digest::read(digits.as_str()) {
            found
                .push((digest.bytes(), row.get(1)?))
                .map_err(AllocError::from)?;
        }
    }
    Ok(())
}

//! Rows that are written behind the store's back, as many as a script asks for.
use crate::roots::root_file;
use metadata::digest_of;
use sqlite::{Connection, Error, MemStore, params};
use std::alloc::Global;

// Writes the row of a blob.
fn put_blob(alloc: Global, conn: &mut Connection<MemStore>, bytes: &[u8]) -> Result<(), Error> {
    let digits = digest_of(bytes).text(alloc)?;
    conn.execute(
        "INSERT INTO blob (digest, bytes) VALUES (?1, ?2)",
        params![digits.as_str(), bytes],
    )?;
    Ok(())
}

// Writes the row of a targets document of another role.
fn put_row(conn: &mut Connection<MemStore>, role: u32, bytes: &[u8]) -> Result<(), Error> {
    conn.execute(
        "INSERT INTO shelf (role, version, bytes) VALUES ('r' || ?1, 1, ?2)",
        params![role, bytes],
    )?;
    Ok(())
}

// Writes the row of a root of this version.
fn put_root(alloc: Global, conn: &mut Connection<MemStore>, version: u32) -> Result<(), Error> {
    let file = root_file(alloc, version)?;
    conn.execute(
        "INSERT INTO root2 (version, profile, bytes) VALUES (?1, 1, ?2)",
        params![version, file.as_bytes()],
    )?;
    Ok(())
}

/// What a table is filled with.
#[derive(Drop)]
pub enum Filling {
    /// Roots 1, 2 and so on: one key, of the seed 1, for all roles.
    Roots,
    /// These bytes at version 1 of so many roles.
    Shelf(Vec<u8>),
    /// The numbers from 0, as four bytes each.
    Blobs,
    /// These bytes.
    Blob(Vec<u8>),
}

/// Writes so many rows into a table, in one transaction.
pub fn put_rows(
    alloc: Global,
    conn: &mut Connection<MemStore>,
    filling: &Filling,
    count: u32,
) -> Result<(), Error> {
    conn.execute_batch("BEGIN")?;
    for number in 0..count {
        match filling {
            Filling::Roots => put_root(alloc, conn, number.saturating_add(1))?,
            Filling::Shelf(bytes) => put_row(conn, number, bytes)?,
            Filling::Blobs => put_blob(alloc, conn, &number.to_be_bytes())?,
            Filling::Blob(bytes) => put_blob(alloc, conn, bytes)?,
        }
    }
    conn.execute_batch("COMMIT")
}

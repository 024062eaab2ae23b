//! How many targets are listed.
use crate::held::HeldFiles;
use crate::standing::{Standing, file_at, listed, named_at, part, snapshot_at};
use canonical_json::{ReadFault, read};
use metadata::members_of;
use std::alloc::{AllocError, Global};

/// How many targets the targets metadata in use lists: that which the snapshot lists that the timestamp names. A path that two roles list
/// counts twice. None where no timestamp or no such snapshot is held.
pub fn listed_targets<H: HeldFiles>(
    alloc: Global,
    held: &mut H,
) -> Result<Option<u64>, AllocError> {
    let standing = Standing {
        offered: &[],
        keeps_held: true,
    };
    let Some(named) = named_at(alloc, held, standing) else {
        return Ok(None);
    };
    match snapshot_at(alloc, held, standing, named)? {
        Some(snapshot) => Ok(Some(listed_by(alloc, held, standing, &snapshot)?)),
        None => Ok(None),
    }
}

fn listed_by<H: HeldFiles>(
    alloc: Global,
    held: &mut H,
    standing: Standing<'_>,
    snapshot: &[u8],
) -> Result<u64, AllocError> {
    let rows = listed(alloc, snapshot)?;
    let mut count = 0u64;
    for (role, version) in &rows {
        if let Some(file) = file_at(alloc, held, standing, role.as_str(), *version)? {
            count = count.saturating_add(listings_of(alloc, &file)?);
        }
    }
    Ok(count)
}

// How many targets a document lists.
fn listings_of(alloc: Global, file: &[u8]) -> Result<u64, AllocError> {
    let Some(targets) = part(file, &["signed", "targets"]) else {
        return Ok(0);
    };
    match read(alloc, targets) {
        Ok(value) => Ok(members_of(&value).map_or(0, |rows| rows.len() as u64)),
        Err(ReadFault::OutOfMemory) => Err(AllocError),
        Err(_) => Ok(0),
    }
}

//! Which rule a document did not meet, and by how many keys.
use crate::counts::{Tally, counted};
use crate::held::HeldFiles;
use crate::path::Found;
use crate::standing::{
    Standing, file_at, held_root, last_of, listed, named_at, snapshot_at, standing_after,
};
use metadata::Kind;
use std::alloc::{AllocError, Global};

/// How many keys have signed, as `1 of 2 keys have signed`. None where they are as many as the rule asks for: then it is not the rule
/// that was not met.
pub(crate) fn worded(alloc: Global, tally: Option<Tally>) -> Found {
    match tally {
        Some(Tally { count, threshold }) if count < threshold => {
            Ok(Some(format!(in alloc; "{count} of {threshold} keys have signed")?))
        }
        _ => Ok(None),
    }
}

/// By the rule for the role of the root that is trusted after the documents.
pub(crate) fn by_root<H: HeldFiles>(
    alloc: Global,
    held: &mut H,
    documents: &[(&str, &[u8])],
    role: &str,
    offered: &[u8],
) -> Result<Option<Tally>, AllocError> {
    if let Some(root) = last_of(documents, "root", None) {
        return counted(alloc, Kind::Root, root, role, offered);
    }
    match held_root(alloc, held)? {
        Some(root) => counted(alloc, Kind::Root, &root, role, offered),
        None => Ok(None),
    }
}

/// By the first delegation to the role in the targets metadata that stands after the documents, that of `targets` before all others.
pub(crate) fn by_delegation<H: HeldFiles>(
    alloc: Global,
    held: &mut H,
    documents: &[(&str, &[u8])],
    role: &str,
    offered: &[u8],
) -> Result<Option<Tally>, AllocError> {
    let standing = standing_after(alloc, held, documents)?;
    let Some(named) = named_at(alloc, held, standing) else {
        return Ok(None);
    };
    match snapshot_at(alloc, held, standing, named)? {
        Some(snapshot) => by_listed(alloc, held, standing, &snapshot, role, offered),
        None => Ok(None),
    }
}

fn by_listed<H: HeldFiles>(
    alloc: Global,
    held: &mut H,
    standing: Standing<'_>,
    snapshot: &[u8],
    role: &str,
    offered: &[u8],
) -> Result<Option<Tally>, AllocError> {
    let rows = listed(alloc, snapshot)?;
    for (delegating, version) in &rows {
        if let Some(file) = file_at(alloc, held, standing, delegating.as_str(), *version)? {
            let found = counted(alloc, Kind::Targets, &file, role, offered)?;
            if found.is_some() {
                return Ok(found);
            }
        }
    }
    Ok(None)
}

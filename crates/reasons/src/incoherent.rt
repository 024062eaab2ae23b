//! Why what a batch leaves does not belong together.
use crate::held::HeldFiles;
use crate::path::Found;
use crate::standing::{Standing, file_at, listed, named_at, snapshot_at, standing_after};
use std::alloc::Global;

/// The documents that the snapshot lists and that are neither held nor offered, as `missing: tools 3, dev 1`, or the version of the
/// snapshot that the timestamp names and that is not there, as `the timestamp names snapshot 4`.
pub(crate) fn incoherent<H: HeldFiles>(
    alloc: Global,
    held: &mut H,
    documents: &[(&str, &[u8])],
) -> Found {
    let standing = standing_after(alloc, held, documents)?;
    let Some(named) = named_at(alloc, held, standing) else {
        return Ok(None);
    };
    match snapshot_at(alloc, held, standing, named)? {
        Some(snapshot) => missing(alloc, held, standing, &snapshot),
        None => Ok(Some(format!(in alloc; "the timestamp names snapshot {named}")?)),
    }
}

fn missing<H: HeldFiles>(
    alloc: Global,
    held: &mut H,
    standing: Standing<'_>,
    snapshot: &[u8],
) -> Found {
    let rows = listed(alloc, snapshot)?;
    let mut told = String::new(alloc);
    for (role, version) in &rows {
        if file_at(alloc, held, standing, role.as_str(), *version)?.is_none() {
            let front = if told.is_empty() { "missing:" } else { "," };
            let text = format!(in alloc; "{front} {role} {version}")?;
            told.push_str(text.as_str())?;
        }
    }
    if told.is_empty() {
        Ok(None)
    } else {
        Ok(Some(told))
    }
}

//! What stands at a place of a batch: what was offered before it, and what is held.
use crate::held::{HeldFiles, file_of};
use crate::path::find;
use canonical_json::{ReadFault, Value, member, read};
use judging::keeps_roles;
use metadata::{Body, Kind, ShapeFault, members_of, read_document};
use std::alloc::{AllocError, Global};

// The names that lead to the version of a document.
const VERSION: [&str; 2] = ["signed", "version"];

/// What was offered before a place of a batch, and whether the held documents still stand there. A root with other keys or another
/// threshold of the timestamp or the snapshot takes away those of before it.
#[derive(Clone, Copy)]
pub(crate) struct Standing<'a> {
    pub offered: &'a [(&'a str, &'a [u8])],
    pub keeps_held: bool,
}

/// What stands after these documents.
pub(crate) fn standing_after<'a, H: HeldFiles>(
    alloc: Global,
    held: &mut H,
    documents: &'a [(&'a str, &'a [u8])],
) -> Result<Standing<'a>, AllocError> {
    let last = match held_root(alloc, held)? {
        Some(root) => last_rotation(alloc, &root, documents)?,
        None => None,
    };
    match last {
        Some(place) if place <= documents.len() => Ok(Standing {
            offered: &documents[place..],
            keeps_held: false,
        }),
        _ => Ok(Standing {
            offered: documents,
            keeps_held: true,
        }),
    }
}

// The place of the last root that takes away what stands before it.
fn last_rotation(
    alloc: Global,
    root: &[u8],
    documents: &[(&str, &[u8])],
) -> Result<Option<usize>, AllocError> {
    let mut trusted = root;
    let mut last = None;
    for (i, (role, bytes)) in documents.iter().enumerate() {
        if *role == "root" {
            if !keeps(alloc, trusted, bytes)? {
                last = Some(i);
            }
            trusted = *bytes;
        }
    }
    Ok(last)
}

// Whether the second root keeps the rules of the first for the timestamp and the snapshot. One that is no root keeps none.
fn keeps(alloc: Global, old: &[u8], new: &[u8]) -> Result<bool, AllocError> {
    match read_document(alloc, Kind::Root, old) {
        Ok(old) => keeps_of(alloc, &old.body, new),
        Err(ShapeFault::OutOfMemory) => Err(AllocError),
        Err(_) => Ok(false),
    }
}

fn keeps_of(alloc: Global, old: &Body, new: &[u8]) -> Result<bool, AllocError> {
    match read_document(alloc, Kind::Root, new) {
        Ok(new) => Ok(are_kept(old, &new.body)),
        Err(ShapeFault::OutOfMemory) => Err(AllocError),
        Err(_) => Ok(false),
    }
}

fn are_kept(old: &Body, new: &Body) -> bool {
    match (old, new) {
        (Body::Root(old), Body::Root(new)) => keeps_roles(old, new),
        _ => false,
    }
}

/// The last document of the role among these, if a version is given of this version.
pub(crate) fn last_of<'a>(
    documents: &'a [(&'a str, &'a [u8])],
    role: &str,
    version: Option<u32>,
) -> Option<&'a [u8]> {
    let mut last = None;
    for (name, bytes) in documents {
        if *name == role && (version.is_none() || number(bytes, &VERSION) == version) {
            last = Some(*bytes);
        }
    }
    last
}

/// What spells the part of a document that these names lead to.
pub(crate) fn part<'a>(bytes: &'a [u8], names: &[&str]) -> Option<&'a [u8]> {
    let mut at = bytes;
    for name in names {
        at = member(at, name)?;
    }
    Some(at)
}

// The number that stands there.
fn number(bytes: &[u8], names: &[&str]) -> Option<u32> {
    let mut number = 0u32;
    for digit in part(bytes, names)? {
        if !digit.is_ascii_digit() {
            return None;
        }
        number = number
            .checked_mul(10)?
            .checked_add(u32::from(*digit - b'0'))?;
    }
    Some(number)
}

/// The trusted root.
pub(crate) fn held_root<H: HeldFiles>(
    alloc: Global,
    held: &mut H,
) -> Result<Option<Vec<u8>>, AllocError> {
    let Some(version) = held.root_version() else {
        return Ok(None);
    };
    let name = format!(in alloc; "{version}.root.json")?;
    Ok(file_of(alloc, held, name.as_str()))
}

/// The document of the role and the version.
pub(crate) fn file_at<H: HeldFiles>(
    alloc: Global,
    held: &mut H,
    standing: Standing<'_>,
    role: &str,
    version: u32,
) -> Result<Option<Vec<u8>>, AllocError> {
    if let Some(bytes) = last_of(standing.offered, role, Some(version)) {
        return Ok(Some(Vec::from_slice(alloc, bytes)?));
    }
    if !standing.keeps_held {
        return Ok(None);
    }
    let name = format!(in alloc; "{version}.{role}.json")?;
    Ok(file_of(alloc, held, name.as_str()))
}

/// The version of the snapshot that the timestamp names, if there is a timestamp.
pub(crate) fn named_at<H: HeldFiles>(
    alloc: Global,
    held: &mut H,
    standing: Standing<'_>,
) -> Option<u32> {
    let names = ["signed", "meta", "snapshot.json", "version"];
    if let Some(bytes) = last_of(standing.offered, "timestamp", None) {
        return number(bytes, &names);
    }
    if !standing.keeps_held {
        return None;
    }
    let bytes = file_of(alloc, held, "timestamp.json")?;
    number(&bytes, &names)
}

/// The snapshot, if it has the version that the timestamp names.
pub(crate) fn snapshot_at<H: HeldFiles>(
    alloc: Global,
    held: &mut H,
    standing: Standing<'_>,
    named: u32,
) -> Result<Option<Vec<u8>>, AllocError> {
    match last_of(standing.offered, "snapshot", None) {
        Some(bytes) if number(bytes, &VERSION) == Some(named) => {
            Ok(Some(Vec::from_slice(alloc, bytes)?))
        }
        Some(_) => Ok(None),
        None => file_at(alloc, held, standing, "snapshot", named),
    }
}

/// The roles that the snapshot lists, with their versions, `targets` before all others.
pub(crate) fn listed(alloc: Global, snapshot: &[u8]) -> Result<Vec<(String, u32)>, AllocError> {
    let Some(meta) = part(snapshot, &["signed", "meta"]) else {
        return Ok(Vec::new(alloc));
    };
    match read(alloc, meta) {
        Ok(value) => rows_of(alloc, &value),
        Err(ReadFault::OutOfMemory) => Err(AllocError),
        Err(_) => Ok(Vec::new(alloc)),
    }
}

fn rows_of(alloc: Global, meta: &Value) -> Result<Vec<(String, u32)>, AllocError> {
    let mut rows = Vec::new(alloc);
    let Some(members) = members_of(meta) else {
        return Ok(rows);
    };
    for (name, entry) in members {
        if let Some((role, version)) = row_of(name.as_str(), entry) {
            let row = (String::from_str(alloc, role)?, version);
            let place = if role == "targets" { 0 } else { rows.len() };
            rows.insert(place, row)?;
        }
    }
    Ok(rows)
}

// The role whose file this is, and the version that the value says of it.
fn row_of<'a>(name: &'a str, entry: &Value) -> Option<(&'a str, u32)> {
    let role = name.strip_suffix(".json")?;
    match find(entry, "version")? {
        Value::Int(number) => Some((role, u32::try_from(*number).ok()?)),
        _ => None,
    }
}

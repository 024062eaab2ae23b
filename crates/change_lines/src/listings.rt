//! Targets as targets metadata list them, and documents as a snapshot or a timestamp names them.
use crate::lines::{Lines, changes_in};
use crate::places::{member_of, number_of, text_of};
use crate::spelling::{digits_of, spelled};
use canonical_json::Value;
use plain_text::plain;
use std::alloc::AllocError;
use value_changes::{Change, Step};

/// The lines of a target that is listed otherwise than before.
pub(crate) fn put_listing(
    lines: &mut Lines<'_>,
    path: &str,
    before: &Value,
    after: &Value,
) -> Result<(), AllocError> {
    let path = plain(lines.alloc, path)?;
    let found = changes_in(lines.alloc, before, after)?;
    if found.iter().any(|change| is_of_file(change)) {
        let before = file_words(lines, before)?;
        let after = file_words(lines, after)?;
        lines.put(format!(in lines.alloc; "~ {path}: {before}, now {after}"))?;
    }
    for change in &found {
        if !is_of_file(change) {
            lines.put_change(path.as_str(), change)?;
        }
    }
    Ok(())
}

/// The lines of a target that is new or gone.
pub(crate) fn put_listing_side(
    lines: &mut Lines<'_>,
    mark: char,
    path: &str,
    value: &Value,
) -> Result<(), AllocError> {
    let path = plain(lines.alloc, path)?;
    let words = file_words(lines, value)?;
    lines.put(format!(in lines.alloc; "{mark} {path}: {words}"))?;
    lines.put_others(mark, path.as_str(), value, &["hashes", "length"])
}

// Whether a change within a listing is one of its length or of its digest.
fn is_of_file(change: &Change<'_>) -> bool {
    match change.place.first() {
        Some(Step::Member(name)) => *name == "length" || *name == "hashes",
        _ => false,
    }
}

// A target's length and digest, or all of its listing where it has not just these.
fn file_words(lines: &Lines<'_>, value: &Value) -> Result<String, AllocError> {
    let alloc = lines.alloc;
    let hashes = member_of(value, "hashes");
    let is_alone = match hashes {
        Some(Value::Object(members)) => members.len() == 1,
        _ => false,
    };
    match (number_of(value, "length"), text_of(hashes, "sha256")) {
        (Some(length), Some(digits)) if is_alone => {
            let digits = plain(alloc, digits_of(digits, lines.whole))?;
            format!(in alloc; "{length} bytes, {digits}")
        }
        _ => spelled(alloc, value, true),
    }
}

/// The lines of a document that a snapshot or a timestamp names otherwise than before.
pub(crate) fn put_named(
    lines: &mut Lines<'_>,
    file: &str,
    before: &Value,
    after: &Value,
) -> Result<(), AllocError> {
    let name = plain(lines.alloc, role_of(file))?;
    for change in &changes_in(lines.alloc, before, after)? {
        match (change.place.as_slice(), change.before, change.after) {
            ([Step::Member(member)], Some(before), Some(after)) if *member == "version" => {
                let before = spelled(lines.alloc, before, lines.whole)?;
                let after = spelled(lines.alloc, after, lines.whole)?;
                lines.put(format!(in lines.alloc; "~ {name} {before}, now {after}"))?;
            }
            _ => lines.put_change(name.as_str(), change)?,
        }
    }
    Ok(())
}

/// The lines of a document that is named now, or no more.
pub(crate) fn put_named_side(
    lines: &mut Lines<'_>,
    mark: char,
    file: &str,
    value: &Value,
) -> Result<(), AllocError> {
    let name = plain(lines.alloc, role_of(file))?;
    match member_of(value, "version") {
        Some(version) => {
            let version = spelled(lines.alloc, version, lines.whole)?;
            lines.put(format!(in lines.alloc; "{mark} {name} {version}"))?;
            lines.put_others(mark, name.as_str(), value, &["version"])
        }
        None => lines.put_parts(mark, name.as_str(), &[], value),
    }
}

fn role_of(file: &str) -> &str {
    file.strip_suffix(".json").unwrap_or(file)
}

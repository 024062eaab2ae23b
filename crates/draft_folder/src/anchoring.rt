//! Whether what is held in a folder, which somebody else may have given, has its signatures from a root that is trusted.
use crate::counting::meets_in;
use crate::said::version_in;
use crate::targets_read::TargetsRead;
use crate::vouching::rules_in_roots;
use cli_faults::{Fault, Notes};
use cli_files::Folder;
use std::alloc::Global;
use std::io::Write;

/// Whether each held document meets its rules from this root: the root that is held those of this root and its own, at this root's version
/// or a later one, and every other one those that what is held has for it. One that does not is warned of.
pub fn is_held_from<E: Write>(
    alloc: Global,
    folder: Folder<'_>,
    root: &[u8],
    notes: &mut Notes<'_, E>,
) -> Result<bool, Fault> {
    let mut targets = TargetsRead::of_held(alloc, folder);
    let mut is_held = true;
    for role in &folder.held_roles(notes)? {
        if let Some(why) = unmet(alloc, folder, &mut targets, role.as_str(), root, notes)? {
            let name = format!(in alloc; "held/{role}.json")?;
            notes.warn(&folder.place(name.as_str())?, &why);
            is_held = false;
        }
    }
    Ok(is_held)
}

// Why a held document does not meet its rules from a root, if it does not.
fn unmet<E: Write>(
    alloc: Global,
    folder: Folder<'_>,
    targets: &mut TargetsRead<'_>,
    role: &str,
    root: &[u8],
    notes: &mut Notes<'_, E>,
) -> Result<Option<&'static str>, Fault> {
    let Some(bytes) = folder.held(role, notes)? else {
        return Ok(None);
    };
    match is_met(alloc, folder, targets, role, root, &bytes, notes) {
        Ok(false) => Ok(Some("it is not signed by its rules from the root that is given")),
        Ok(true) if role == "root" && is_older(alloc, &bytes, root) => {
            Ok(Some("it is older than the root that is given"))
        }
        Ok(true) => Ok(None),
        Err(Fault::Denied(_, _)) => Ok(Some("it has no rules from the root that is given")),
        Err(fault) => Err(fault),
    }
}

fn is_met<E: Write>(
    alloc: Global,
    folder: Folder<'_>,
    targets: &mut TargetsRead<'_>,
    role: &str,
    root: &[u8],
    bytes: &[u8],
    notes: &mut Notes<'_, E>,
) -> Result<bool, Fault> {
    let rules = match role {
        "root" => {
            let roots = [("root.json", Some(root)), ("held/root.json", Some(bytes))];
            rules_in_roots(alloc, folder, role, &roots, None, notes)?
        }
        "targets" | "snapshot" | "timestamp" => {
            let held = folder.held("root", notes)?;
            let roots = [("held/root.json", held.as_deref())];
            rules_in_roots(alloc, folder, role, &roots, None, notes)?
        }
        _ => targets.rules(role, notes)?,
    };
    meets_in(alloc, role, &rules, bytes)
}

// Whether a root is of a lower version than another.
fn is_older(alloc: Global, root: &[u8], other: &[u8]) -> bool {
    match (
        version_in(alloc, "root", root),
        version_in(alloc, "root", other),
    ) {
        (Ok(version), Ok(least)) => version < least,
        _ => true,
    }
}

//! `draft seal`: the next snapshot and timestamp.
use cli_faults::{Fault, Notes, Slip};
use cli_repository::forgets;
use cli_tasks::Drafting;
use draft_commands::{Before, document_or_fault, terms_of};
use draft_folder::{Folder, Said, TargetsRead, held_said, layout_in, target_of_layout, version_in};
use drafting::{draft_snapshot, draft_timestamp};
use metadata::{Kind, Moment};
use show_limits::put_draft;
use show_rows::lacks_targets;
use std::alloc::Global;
use std::io::Write;

// The days that first ones are valid.
const SNAPSHOT_DAYS: u64 = 30;

const TIMESTAMP_DAYS: u64 = 7;

/// Drafts the next timestamp, and the next snapshot where a listed document is new, where the old one is due, or where a new root makes the
/// repository forget it. Documents that they are over have to have their signatures.
pub fn seal<E: Write>(
    rt: &HostRuntime,
    folder: Folder<'_>,
    asked: &Drafting,
    now: Moment,
    notes: &mut Notes<'_, E>,
) -> Result<(), Fault> {
    let alloc = rt.alloc();
    let forgets = forgets_all(alloc, folder, notes)?;
    if forgets {
        bring_in(folder, notes)?;
    }
    let mut targets = TargetsRead::new(alloc, folder);
    targets.see_signatures("snapshot", notes)?;
    see_layouts(alloc, folder, &mut targets, notes)?;
    see_targets(folder, notes)?;
    let version = seal_snapshot(rt, folder, asked, forgets, now, notes)?;
    draft_next_timestamp(rt, folder, asked, version, now, notes)
}

// Drafts the next timestamp, which names the snapshot of this version.
fn draft_next_timestamp<E: Write>(
    rt: &HostRuntime,
    folder: Folder<'_>,
    asked: &Drafting,
    version: u32,
    now: Moment,
    notes: &mut Notes<'_, E>,
) -> Result<(), Fault> {
    let alloc = rt.alloc();
    let before = Before::of(rt, folder, "timestamp", asked.anew, notes)?;
    let given = asked.expires.as_deref();
    let terms = terms_of(alloc, given, before.latest(), TIMESTAMP_DAYS, now)?;
    let draft = draft_timestamp(alloc, before.held(), before.begun(), terms, version);
    let draft = document_or_fault(alloc, draft, "timestamp", notes)?;
    put_draft(alloc, folder, "timestamp", &draft, notes)
}

/// Whether the drafted root is one behind the held one that a repository forgets its timestamp, its snapshot and its targets metadata by.
pub fn forgets_all<E: Write>(
    alloc: Global,
    folder: Folder<'_>,
    notes: &mut Notes<'_, E>,
) -> Result<bool, Fault> {
    match (folder.held("root", notes)?, folder.draft("root", notes)?) {
        (Some(held), Some(draft)) => forgets(alloc, &held, &draft),
        _ => Ok(false),
    }
}

// What the repository forgets comes in as it is held.
fn bring_in<E: Write>(folder: Folder<'_>, notes: &mut Notes<'_, E>) -> Result<(), Fault> {
    for role in &folder.held_roles(notes)? {
        let role = role.as_str();
        if Kind::of_role(role) == Kind::Targets && folder.draft(role, notes)?.is_none() {
            if let Some(bytes) = folder.held(role, notes)? {
                folder.put_draft(role, &bytes, notes)?;
            }
        }
    }
    Ok(())
}

// Each layout on its way has the signatures that its owners' rule asks for.
fn see_layouts<E: Write>(
    alloc: Global,
    folder: Folder<'_>,
    targets: &mut TargetsRead<'_>,
    notes: &mut Notes<'_, E>,
) -> Result<(), Fault> {
    for name in &folder.chain_files("layouts", notes)? {
        if let Some(target) = target_of_layout(alloc, name.as_str())? {
            let bytes = layout_in(alloc, folder, target.as_str(), notes)?;
            if let Some(bytes) = bytes {
                see_owners(name.as_str(), target.as_str(), &bytes, targets, notes)?;
            }
        }
    }
    Ok(())
}

fn see_owners<E: Write>(
    name: &str,
    target: &str,
    bytes: &[u8],
    targets: &mut TargetsRead<'_>,
    notes: &mut Notes<'_, E>,
) -> Result<(), Fault> {
    if !targets.owners_have_signed(target, bytes, notes)? {
        notes.warn(&name, &"too few signatures of its owners");
        return Err(Fault::Slip(Slip::Order));
    }
    Ok(())
}

// There is something that a snapshot can list.
fn see_targets<E: Write>(folder: Folder<'_>, notes: &mut Notes<'_, E>) -> Result<(), Fault> {
    if lacks_targets(folder, notes)? {
        notes.warn(
            &"targets",
            &"there are no targets metadata: draft and sign them first",
        );
        return Err(Fault::Slip(Slip::Order));
    }
    Ok(())
}

// Drafts the next snapshot where one is wanted, and answers the version of the snapshot that the timestamp is to name.
fn seal_snapshot<E: Write>(
    rt: &HostRuntime,
    folder: Folder<'_>,
    asked: &Drafting,
    forgets: bool,
    now: Moment,
    notes: &mut Notes<'_, E>,
) -> Result<u32, Fault> {
    let listed = listed_versions(rt.alloc(), folder, notes)?;
    if !forgets && folder.draft("snapshot", notes)?.is_none() {
        if let Some(version) = held_version(rt.alloc(), folder, &listed, now, notes)? {
            return Ok(version);
        }
    }
    draft_next_snapshot(rt, folder, asked, &listed, now, notes)
}

// The version of the held snapshot, where it lists these versions and is not due.
fn held_version<E: Write>(
    alloc: Global,
    folder: Folder<'_>,
    listed: &[(String, u32)],
    now: Moment,
    notes: &mut Notes<'_, E>,
) -> Result<Option<u32>, Fault> {
    let held = held_said(alloc, folder, "snapshot", notes)?;
    Ok(match &held {
        Some(said) if !is_due(said, now) && names_all(said, listed) => Some(said.version),
        _ => None,
    })
}

fn is_due(said: &Said, now: Moment) -> bool {
    said.expires.is_none_or(|expires| expires <= next_day(now))
}

fn draft_next_snapshot<E: Write>(
    rt: &HostRuntime,
    folder: Folder<'_>,
    asked: &Drafting,
    listed: &[(String, u32)],
    now: Moment,
    notes: &mut Notes<'_, E>,
) -> Result<u32, Fault> {
    let alloc = rt.alloc();
    let before = Before::of(rt, folder, "snapshot", asked.anew, notes)?;
    let given = asked.expires.as_deref();
    let terms = terms_of(alloc, given, before.latest(), SNAPSHOT_DAYS, now)?;
    let draft = draft_snapshot(alloc, before.held(), before.begun(), terms, listed);
    let draft = document_or_fault(alloc, draft, "snapshot", notes)?;
    put_draft(alloc, folder, "snapshot", &draft, notes)?;
    version_in(alloc, "snapshot", &draft)
}

// What expires by then is renewed.
fn next_day(now: Moment) -> Moment {
    Moment::new(now.seconds().saturating_add(86_400)).unwrap_or(now)
}

// The versions of the drafted targets metadata.
fn listed_versions<E: Write>(
    alloc: Global,
    folder: Folder<'_>,
    notes: &mut Notes<'_, E>,
) -> Result<Vec<(String, u32)>, Fault> {
    let mut listed = Vec::new(alloc);
    for role in &folder.roles(notes)? {
        if Kind::of_role(role.as_str()) == Kind::Targets {
            let draft = folder.draft_or_none(role.as_str(), notes)?;
            let version = version_in(alloc, role.as_str(), &draft)?;
            let name = String::from_str(alloc, role.as_str())?;
            listed.push((name, version))?;
        }
    }
    Ok(listed)
}

// Whether the snapshot names these versions.
fn names_all(said: &Said, listed: &[(String, u32)]) -> bool {
    listed
        .iter()
        .all(|row| said.named(row.0.as_str()) == Some(row.1))
}

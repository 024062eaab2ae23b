//! `draft targets --spread`: each target in the role that covers it.
use crate::adding::Adding;
use crate::drafting_faults::document_or_fault;
use crate::listing::TARGETS_DAYS;
use crate::saving::{Before, see_unsigned};
use crate::terms::terms_of;
use cli_faults::{Fault, Notes, Slip};
use cli_files::read_at_most;
use cli_tasks::{Drafting, TargetsDraft};
use draft_folder::{Folder, Sought, roles_of};
use drafting::{Addition, TargetsChanges, draft_targets};
use limits::BLOB_LIMIT;
use metadata::{Digest, Moment, TargetPath, digest_of};
use show_limits::{put_draft, see_room};
use std::alloc::{AllocError, Global};
use std::io::Write;

// What is said of a path that is to be removed and that no role lists any more.
const NOT_LISTED: &str = "not listed, or named twice";

// What is to change of one role.
#[derive(Drop)]
struct Share {
    role: String,
    add: Vec<Addition>,
    remove: Vec<String>,
}

// The next document of a role, which is not written yet.
#[derive(Drop)]
struct Made {
    role: String,
    before: Before,
    draft: Vec<u8>,
}

/// Drafts the next targets metadata of each role that has a change. Each target that is added goes into the first role that covers its path
/// and delegates it no further, or that lists it already; each that is removed out of the first that lists it. Before all drafts are made
/// nothing is written.
pub(crate) fn spread<E: Write>(
    rt: &HostRuntime,
    folder: Folder<'_>,
    asked: &Drafting,
    told: &TargetsDraft,
    now: Moment,
    notes: &mut Notes<'_, E>,
) -> Result<(), Fault> {
    let mut adding = Adding::new(rt, None);
    adding.add_all(&told.add, notes)?;
    let (added, files) = adding.into_parts();
    let mut shares = Vec::new(rt.alloc());
    share_removed(rt.alloc(), folder, &told.remove, &mut shares, notes)?;
    share_added(rt.alloc(), folder, added, &mut shares, notes)?;
    see_some(&shares, told, notes)?;
    let made = drafts_of(rt, folder, asked, shares, now, notes)?;
    for one in &made {
        see_room(rt.alloc(), folder, one.role.as_str(), &one.draft, notes)?;
    }
    take_signatures_off(rt.alloc(), folder, &made, notes)?;
    put_files(rt, folder, &files, notes)?;
    put_drafts(rt.alloc(), folder, &made, notes)
}

// Shares out what is removed. What no role lists is warned of.
fn share_removed<E: Write>(
    alloc: Global,
    folder: Folder<'_>,
    words: &[String],
    shares: &mut Vec<Share>,
    notes: &mut Notes<'_, E>,
) -> Result<(), Fault> {
    let (paths, removed) = paths_of(alloc, words, notes)?;
    let roles = roles_of(alloc, folder, Sought::Lister, paths, notes)?;
    for (at, path) in removed.into_iter().enumerate() {
        match roles.get(at) {
            Some(Some(role)) => remove_from(alloc, shares, role.as_str(), path, notes)?,
            _ => notes.warn(&path, &NOT_LISTED),
        }
    }
    Ok(())
}

// The words that are paths, also as texts. Nothing lists another word.
fn paths_of<E: Write>(
    alloc: Global,
    words: &[String],
    notes: &mut Notes<'_, E>,
) -> Result<(Vec<TargetPath>, Vec<String>), AllocError> {
    let mut paths = Vec::new(alloc);
    let mut texts = Vec::new(alloc);
    for word in words {
        match TargetPath::read(alloc, word.as_str())? {
            Some(path) => {
                paths.push(path)?;
                texts.push(String::from_str(alloc, word.as_str())?)?;
            }
            None => notes.warn(word, &NOT_LISTED),
        }
    }
    Ok((paths, texts))
}

// The role lists the path no more.
fn remove_from<E: Write>(
    alloc: Global,
    shares: &mut Vec<Share>,
    role: &str,
    path: String,
    notes: &mut Notes<'_, E>,
) -> Result<(), Fault> {
    let at = place_of(alloc, shares, role)?;
    if let Some(share) = shares.get_mut(at) {
        if share.remove.contains(&path) {
            notes.warn(&path, &NOT_LISTED);
        } else {
            share.remove.push(path)?;
        }
    }
    Ok(())
}

// Shares out what is added.
fn share_added<E: Write>(
    alloc: Global,
    folder: Folder<'_>,
    added: Vec<Addition>,
    shares: &mut Vec<Share>,
    notes: &mut Notes<'_, E>,
) -> Result<(), Fault> {
    let paths = paths_in(alloc, &added)?;
    let roles = roles_of(alloc, folder, Sought::Place, paths, notes)?;
    for (at, addition) in added.into_iter().enumerate() {
        match roles.get(at) {
            Some(Some(role)) => add_to(alloc, shares, role.as_str(), addition)?,
            _ => {
                notes.warn(
                    &addition.path,
                    &"a search ends before it comes to a role that delegates it no further",
                );
                return Err(Fault::Slip(Slip::Path));
            }
        }
    }
    Ok(())
}

// The paths of what is added, each of which is one.
fn paths_in(alloc: Global, added: &[Addition]) -> Result<Vec<TargetPath>, AllocError> {
    let mut paths = Vec::new(alloc);
    for addition in added {
        if let Some(path) = TargetPath::read(alloc, addition.path.as_str())? {
            paths.push(path)?;
        }
    }
    Ok(paths)
}

// The role lists the target.
fn add_to(
    alloc: Global,
    shares: &mut Vec<Share>,
    role: &str,
    addition: Addition,
) -> Result<(), AllocError> {
    let at = place_of(alloc, shares, role)?;
    if let Some(share) = shares.get_mut(at) {
        share.add.push(addition)?;
    }
    Ok(())
}

// Which of the shares is the role's: the last one, where it had none.
fn place_of(alloc: Global, shares: &mut Vec<Share>, role: &str) -> Result<usize, AllocError> {
    for (at, share) in shares.iter().enumerate() {
        if share.role.as_str() == role {
            return Ok(at);
        }
    }
    let at = shares.len();
    shares.push(Share {
        role: String::from_str(alloc, role)?,
        add: Vec::new(alloc),
        remove: Vec::new(alloc),
    })?;
    Ok(at)
}

// Some role has a change.
fn see_some<E: Write>(
    shares: &[Share],
    told: &TargetsDraft,
    notes: &mut Notes<'_, E>,
) -> Result<(), Fault> {
    if !shares.is_empty() {
        return Ok(());
    }
    if told.add.is_empty() && !told.remove.is_empty() {
        return Err(Fault::Slip(Slip::Path));
    }
    notes.warn(&"--spread", &"no target is added or removed");
    Err(Fault::Slip(Slip::Nothing))
}

// The next document of each role that has a share.
fn drafts_of<E: Write>(
    rt: &HostRuntime,
    folder: Folder<'_>,
    asked: &Drafting,
    shares: Vec<Share>,
    now: Moment,
    notes: &mut Notes<'_, E>,
) -> Result<Vec<Made>, Fault> {
    let mut made = Vec::new(rt.alloc());
    for share in shares {
        made.push(draft_of(rt, folder, asked, share, now, notes)?)?;
    }
    Ok(made)
}

fn draft_of<E: Write>(
    rt: &HostRuntime,
    folder: Folder<'_>,
    asked: &Drafting,
    share: Share,
    now: Moment,
    notes: &mut Notes<'_, E>,
) -> Result<Made, Fault> {
    let alloc = rt.alloc();
    let role = share.role.as_str();
    let before = Before::read(folder, role, notes)?;
    if !asked.anew {
        see_unsigned(alloc, folder, role, before.begun(), false, notes)?;
    }
    let given = asked.expires.as_deref();
    let terms = terms_of(alloc, given, before.latest(), TARGETS_DAYS, now)?;
    let changes = TargetsChanges {
        add: &share.add,
        remove: &share.remove,
    };
    let draft = draft_targets(alloc, before.held(), before.begun(), terms, &changes);
    let draft = document_or_fault(alloc, draft, role, notes)?;
    Ok(Made {
        role: String::from_str(alloc, role)?,
        before,
        draft,
    })
}

// Drafts that had signatures are kept as spent. Without `--anew` none has.
fn take_signatures_off<E: Write>(
    alloc: Global,
    folder: Folder<'_>,
    made: &[Made],
    notes: &mut Notes<'_, E>,
) -> Result<(), Fault> {
    for one in made {
        let begun = one.before.begun();
        see_unsigned(alloc, folder, one.role.as_str(), begun, true, notes)?;
    }
    Ok(())
}

// Puts the files of what is added, each of which was read before.
fn put_files<E: Write>(
    rt: &HostRuntime,
    folder: Folder<'_>,
    files: &[(String, Digest)],
    notes: &mut Notes<'_, E>,
) -> Result<(), Fault> {
    for (file, digest) in files {
        let bytes = read_at_most(rt, file.as_str(), BLOB_LIMIT, notes)?;
        if digest_of(&bytes) != *digest {
            notes.fault(file, &"not the file that it was a moment before");
            return Err(Fault::File);
        }
        folder.put_file(&bytes, notes)?;
    }
    Ok(())
}

fn put_drafts<E: Write>(
    alloc: Global,
    folder: Folder<'_>,
    made: &[Made],
    notes: &mut Notes<'_, E>,
) -> Result<(), Fault> {
    for one in made {
        put_draft(alloc, folder, one.role.as_str(), &one.draft, notes)?;
    }
    Ok(())
}

//! `draft take`: what another machine sends back.
use crate::linking::take_link;
use cli_faults::{Denial, Fault, Notes, Slip};
use cli_files::{FILE_LIMIT, read_regular};
use draft_commands::last_segment;
use draft_folder::{
    Folder, ListedFile, Vouching, owners_of, read_said, rules_for, signatures_in, target_of_layout,
    version_in, without_false_entries,
};
use limits::BLOB_LIMIT;
use metadata::{Digest, Kind, RoleName, digest_of};
use signer::{JoinFault, join};
use std::alloc::Global;
use std::io::Write;

/// Takes each of the files: one over the same signed part as a draft joins its signatures, and a delegated role's document of which there is
/// no draft comes in as it is, with the target files beside it. Anything else is refused.
pub fn take_all<E: Write>(
    rt: &HostRuntime,
    folder: Folder<'_>,
    target: Option<&str>,
    files: &[String],
    notes: &mut Notes<'_, E>,
) -> Result<(), Fault> {
    for file in files {
        take(rt, folder, target, file.as_str(), notes)?;
    }
    Ok(())
}

fn take<E: Write>(
    rt: &HostRuntime,
    folder: Folder<'_>,
    target: Option<&str>,
    file: &str,
    notes: &mut Notes<'_, E>,
) -> Result<(), Fault> {
    let Some(bytes) = read_regular(rt, file, FILE_LIMIT, notes)? else {
        notes.warn(&file, &"it is not there");
        return Err(Fault::File);
    };
    if take_link(rt, folder, target, &bytes, notes)?
        || take_layout(rt, folder, file, &bytes, notes)?
    {
        return Ok(());
    }
    take_document(rt, folder, file, &bytes, notes)
}

// Takes the document of a role.
fn take_document<E: Write>(
    rt: &HostRuntime,
    folder: Folder<'_>,
    file: &str,
    bytes: &[u8],
    notes: &mut Notes<'_, E>,
) -> Result<(), Fault> {
    let (beside, role) = role_of(file);
    let Some(role) = role else {
        return Err(different(file, notes));
    };
    if RoleName::read(rt.alloc(), role)?.is_none() {
        return Err(different(file, notes));
    }
    match folder.draft(role, notes)? {
        Some(draft) => join_in(rt, folder, role, &draft, bytes, file, notes),
        None if Kind::of_role(role) == Kind::Targets && role != "targets" => {
            take_whole(rt, folder, role, beside, bytes, notes)
        }
        None => Err(different(file, notes)),
    }
}

// Takes a document of a delegated role as it is, with its target files.
fn take_whole<E: Write>(
    rt: &HostRuntime,
    folder: Folder<'_>,
    role: &str,
    beside: &str,
    bytes: &[u8],
    notes: &mut Notes<'_, E>,
) -> Result<(), Fault> {
    let said = read_said(rt.alloc(), role, bytes)?;
    take_files(rt, folder, beside, &said.files, notes)?;
    folder.put_draft(role, bytes, notes)
}

// The folder of a file, and the role of which it is the document by its name.
fn role_of(file: &str) -> (&str, Option<&str>) {
    let (beside, name) = match file.rsplit_once('/') {
        Some(both) => both,
        None => (".", file),
    };
    (beside, name.strip_suffix(".json"))
}

fn different<E: Write>(file: &str, notes: &mut Notes<'_, E>) -> Fault {
    notes.warn(
        &file,
        &"neither over the signed part of a draft, nor targets metadata of another role",
    );
    Fault::Slip(Slip::Different)
}

// Takes a layout: over the same signed part as the one of this name here it joins its signatures. Answers whether there is one.
fn take_layout<E: Write>(
    rt: &HostRuntime,
    folder: Folder<'_>,
    file: &str,
    bytes: &[u8],
    notes: &mut Notes<'_, E>,
) -> Result<bool, Fault> {
    let last = last_segment(file);
    let name = format!(in rt.alloc(); "layouts/{last}")?;
    let Some(begun) = folder.file(name.as_str(), notes)? else {
        return Ok(false);
    };
    let rules = match target_of_layout(rt.alloc(), last)? {
        Some(target) => owners_of(rt.alloc(), folder, target.as_str(), notes)?,
        None => Vec::new(rt.alloc()),
    };
    let joining = Joining {
        alloc: rt.alloc(),
        rules: &rules,
        file,
    };
    let joined = joining.joined(&begun, bytes, notes)?;
    folder.put_named(name.as_str(), &joined, notes)?;
    Ok(true)
}

// Joins the signatures of both, where the bytes are a document of the role.
fn join_in<E: Write>(
    rt: &HostRuntime,
    folder: Folder<'_>,
    role: &str,
    draft: &[u8],
    bytes: &[u8],
    file: &str,
    notes: &mut Notes<'_, E>,
) -> Result<(), Fault> {
    version_in(rt.alloc(), role, bytes)?;
    let rules = rules_for(rt.alloc(), folder, role, notes)?;
    let joining = Joining {
        alloc: rt.alloc(),
        rules: &rules,
        file,
    };
    let joined = joining.joined(draft, bytes, notes)?;
    folder.put_draft(role, &joined, notes)
}

// A file whose signatures are joined with those of a draft, and the rules of the draft.
#[derive(Clone, Copy)]
struct Joining<'a> {
    alloc: Global,
    rules: &'a [Vouching],
    file: &'a str,
}

impl Joining<'_> {
    // The draft with the signatures of the file. Of the rules' keys only what verifies counts, here and there.
    fn joined<E: Write>(
        &self,
        draft: &[u8],
        bytes: &[u8],
        notes: &mut Notes<'_, E>,
    ) -> Result<Vec<u8>, Fault> {
        let before = without_false_entries(self.alloc, self.rules, draft)?;
        let further = without_false_entries(self.alloc, self.rules, bytes)?;
        let joined = self.join(&before, &further, notes)?;
        let had = signatures_in(self.alloc, self.rules, &before)?;
        if signatures_in(self.alloc, self.rules, &joined)? == had {
            notes.warn(
                &self.file,
                &"it adds no signature of a key that has to sign",
            );
        }
        Ok(joined)
    }

    fn join<E: Write>(
        &self,
        draft: &[u8],
        bytes: &[u8],
        notes: &mut Notes<'_, E>,
    ) -> Result<Vec<u8>, Fault> {
        match join(self.alloc, draft, bytes) {
            Ok(joined) => Ok(joined),
            Err(JoinFault::Different) => Err(different(self.file, notes)),
            Err(JoinFault::First(denial) | JoinFault::Second(denial) | JoinFault::Denied(denial)) =>
                Err(Fault::Denied(denial, None)),
            Err(JoinFault::OutOfMemory) => Err(Fault::Memory),
        }
    }
}

// Takes the target files that are listed and stand beside the document, in `files`.
fn take_files<E: Write>(
    rt: &HostRuntime,
    folder: Folder<'_>,
    beside: &str,
    files: &[ListedFile],
    notes: &mut Notes<'_, E>,
) -> Result<(), Fault> {
    for listing in files {
        let digits = listing.digest.text(rt.alloc())?;
        let place = format!(in rt.alloc(); "{beside}/files/{digits}")?;
        if let Some(bytes) = read_regular(rt, place.as_str(), BLOB_LIMIT, notes)? {
            take_file(folder, place.as_str(), &bytes, &listing.digest, notes)?;
        }
    }
    Ok(())
}

// Takes the target file of a digest, if it is that file.
fn take_file<E: Write>(
    folder: Folder<'_>,
    place: &str,
    bytes: &[u8],
    digest: &Digest,
    notes: &mut Notes<'_, E>,
) -> Result<(), Fault> {
    if digest_of(bytes) != *digest {
        notes.warn(&place, &"another file than its name says");
        return Err(Fault::Denied(Denial::DigestMismatch, None));
    }
    folder.put_file(bytes, notes)?;
    Ok(())
}

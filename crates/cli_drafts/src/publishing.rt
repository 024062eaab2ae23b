//! `publish` of a folder of drafts.
use crate::sealing::forgets_all;
use cli_faults::{Fault, Notes, Slip};
use cli_repository::{Offer, Waiting};
use draft_folder::{Folder, ListedFile, offer_order, read_said};
use metadata::{Digest, Kind, RoleName, digest_of};
use std::alloc::{AllocError, Global};
use std::io::Write;

/// The documents of a folder of drafts, in the order in which they are offered: the roles, the arguments by which they are told, and the bytes.
#[derive(Drop)]
pub struct Drafted {
    roles: Vec<String>,
    pub arguments: Vec<String>,
    files: Vec<Vec<u8>>,
}

/// The documents of a folder of drafts.
pub fn batch_in<E: Write>(
    alloc: Global,
    folder: Folder<'_>,
    notes: &mut Notes<'_, E>,
) -> Result<Drafted, Fault> {
    let mut batch = Drafted {
        roles: Vec::new(alloc),
        arguments: Vec::new(alloc),
        files: Vec::new(alloc),
    };
    let roles = folder.roles(notes)?;
    for order in 0..5u8 {
        for role in &roles {
            if offer_order(role.as_str()) == order {
                batch.add(alloc, folder, role.as_str(), notes)?;
            }
        }
    }
    Ok(batch)
}

impl Drafted {
    fn add<E: Write>(
        &mut self,
        alloc: Global,
        folder: Folder<'_>,
        role: &str,
        notes: &mut Notes<'_, E>,
    ) -> Result<(), Fault> {
        if let Some(bytes) = folder.draft(role, notes)? {
            let place = folder.place_of(role)?;
            self.roles.push(String::from_str(alloc, role)?)?;
            self.arguments.push(format!(in alloc; "{role}:{place}")?)?;
            self.files.push(bytes)?;
        }
        Ok(())
    }

    /// Whether it has targets metadata and no timestamp: it was not sealed.
    pub fn is_unsealed(&self) -> bool {
        let mut has_targets = false;
        for role in &self.roles {
            match role.as_str() {
                "timestamp" => return false,
                "root" | "snapshot" => {}
                _ => has_targets = true,
            }
        }
        has_targets
    }

    // The digests of the target files that its documents list.
    fn listed(&self, alloc: Global) -> Result<Vec<Digest>, Fault> {
        let mut listed = Vec::new(alloc);
        for (role, bytes) in self.roles.iter().zip(self.files.iter()) {
            if Kind::of_role(role.as_str()) == Kind::Targets {
                add_digests(&read_said(alloc, role.as_str(), bytes)?.files, &mut listed)?;
            }
        }
        Ok(listed)
    }

    /// What is offered, in order.
    pub fn offers(&self, alloc: Global) -> Result<Vec<(Offer, &[u8])>, AllocError> {
        let mut offers = Vec::new(alloc);
        for (role, bytes) in self.roles.iter().zip(self.files.iter()) {
            if let Some(name) = RoleName::read(alloc, role.as_str())? {
                offers.push((Offer::of(name), bytes.as_slice()))?;
            }
        }
        Ok(offers)
    }
}

/// What a folder has to publish. A root that makes a repository forget its timestamp is refused without the next one, since after it every
/// target would be denied.
pub fn complete_batch_in<E: Write>(
    alloc: Global,
    folder: Folder<'_>,
    notes: &mut Notes<'_, E>,
) -> Result<Drafted, Fault> {
    let batch = batch_in(alloc, folder, notes)?;
    if batch.roles.is_empty() {
        notes.warn(&folder.path(), &"no draft");
        return Err(Fault::Slip(Slip::Nothing));
    }
    let has_timestamp = batch.roles.iter().any(|role| role.as_str() == "timestamp");
    if !has_timestamp && forgets_all(alloc, folder, notes)? {
        notes.warn(
            &"root",
            &"it has other keys for the timestamp or the snapshot: every target would be denied until these are published, so seal first",
        );
        return Err(Fault::Slip(Slip::Bare));
    }
    Ok(batch)
}

/// Takes away what was published: the drafts, and the target files and layouts that they list. What is held by then stays, to be compared with,
/// and so does what nothing that was published lists, as a layout that is on its way.
pub fn clear_published<E: Write>(
    alloc: Global,
    folder: Folder<'_>,
    batch: &Drafted,
    notes: &mut Notes<'_, E>,
) -> Result<(), Fault> {
    let listed = batch.listed(alloc)?;
    for (role, bytes) in batch.roles.iter().zip(batch.files.iter()) {
        folder.put_held(role.as_str(), bytes, notes)?;
        folder.drop_draft(role.as_str(), notes)?;
    }
    for name in &folder.files(notes)? {
        if Digest::read(name.as_str()).is_some_and(|digest| listed.contains(&digest)) {
            remove(alloc, folder, "files", name.as_str(), notes)?;
        }
    }
    for name in &folder.chain_files("layouts", notes)? {
        remove_layout(alloc, folder, name.as_str(), &listed, notes)?;
    }
    Ok(())
}

// Takes a layout away that is listed as it stands.
fn remove_layout<E: Write>(
    alloc: Global,
    folder: Folder<'_>,
    name: &str,
    listed: &[Digest],
    notes: &mut Notes<'_, E>,
) -> Result<(), Fault> {
    let place = format!(in alloc; "layouts/{name}")?;
    let bytes = folder.file_or_none(place.as_str(), notes)?;
    if listed.contains(&digest_of(&bytes)) {
        remove(alloc, folder, "layouts", name, notes)?;
    }
    Ok(())
}

fn remove<E: Write>(
    alloc: Global,
    folder: Folder<'_>,
    inner: &str,
    name: &str,
    notes: &mut Notes<'_, E>,
) -> Result<(), Fault> {
    let path = format!(in alloc; "{inner}/{name}")?;
    let place = folder.place(path.as_str())?;
    folder.remove(place.as_str(), notes)
}

/// The digests of the target files that wait to be put, those that a draft lists. One that is no regular file of its digest is refused.
pub fn waiting_files<E: Write>(
    alloc: Global,
    folder: Folder<'_>,
    notes: &mut Notes<'_, E>,
) -> Result<Vec<Digest>, Fault> {
    let listed = listed_files(alloc, folder, notes)?;
    let mut waiting = Vec::new(alloc);
    for name in &folder.files(notes)? {
        if let Some(digest) = Digest::read(name.as_str()) {
            if listed.contains(&digest) {
                waiting.push(digest)?;
            }
        }
    }
    see_all(folder, &waiting, notes)?;
    Ok(waiting)
}

// Each waiting file is the one of its digest.
fn see_all<E: Write>(
    folder: Folder<'_>,
    digests: &[Digest],
    notes: &mut Notes<'_, E>,
) -> Result<(), Fault> {
    for digest in digests {
        let _bytes = Waiting { folder, digests }.read(digest, notes)?;
    }
    Ok(())
}

// The digests of the target files that drafts list.
fn listed_files<E: Write>(
    alloc: Global,
    folder: Folder<'_>,
    notes: &mut Notes<'_, E>,
) -> Result<Vec<Digest>, Fault> {
    let mut listed = Vec::new(alloc);
    for role in &folder.roles(notes)? {
        if Kind::of_role(role.as_str()) == Kind::Targets {
            let bytes = folder.draft_or_none(role.as_str(), notes)?;
            add_digests(&read_said(alloc, role.as_str(), &bytes)?.files, &mut listed)?;
        }
    }
    Ok(listed)
}

fn add_digests(files: &[ListedFile], listed: &mut Vec<Digest>) -> Result<(), AllocError> {
    for file in files {
        listed.push(file.digest)?;
    }
    Ok(())
}

//! What a folder of drafts follows: the documents that a database holds.
use cli_faults::{Denial, Fault, Notes};
use cli_files::see_database;
use cli_repository::{Command, Reply, Store, Work, worked};
use draft_folder::{Folder, read_said, version_in};
use metadata::{Kind, Moment, read_signed};
use path_patterns::metadata_name;
use sqlite::Alter;
use std::alloc::Global;
use std::io::Write;

/// Puts into the folder what the database holds: the trusted root, the timestamp, the snapshot that it names, and the targets metadata that
/// this lists. Drafts that are held by now are let go.
pub fn follow<E: Write>(
    rt: &HostRuntime,
    db: &str,
    folder: Folder<'_>,
    now: Moment,
    notes: &mut Notes<'_, E>,
) -> Result<(), Fault> {
    see_database(rt, db, notes)?;
    let mut following = Following {
        alloc: rt.alloc(),
        folder,
        now,
    };
    worked(rt, db, &mut following, notes)?;
    let_go(rt.alloc(), folder, notes)
}

#[derive(Clone, Copy)]
struct Following<'a> {
    alloc: Global,
    folder: Folder<'a>,
    now: Moment,
}

impl Work for Following<'_> {
    type Done = ();

    fn work<S: Alter, E: Write>(
        &mut self,
        repository: &mut Store<S>,
        notes: &mut Notes<'_, E>,
    ) -> Result<(), Fault> {
        let Some(root) = repository.root_version() else {
            return Err(Fault::Denied(Denial::NoRoot, None));
        };
        for role in &self.folder.held_roles(notes)? {
            self.folder.drop_held(role.as_str(), notes)?;
        }
        let name = metadata_name(self.alloc, root, "root")?;
        self.keep(repository, name.as_str(), "root", notes)?;
        if self.keep(repository, "timestamp.json", "timestamp", notes)? {
            self.keep_named(repository, "timestamp", notes)?;
            self.keep_named(repository, "snapshot", notes)?;
        }
        Ok(())
    }
}

impl Following<'_> {
    // Keeps what a role's document that is kept names, as far as it is held.
    fn keep_named<S: Alter, E: Write>(
        &self,
        repository: &mut Store<S>,
        role: &str,
        notes: &mut Notes<'_, E>,
    ) -> Result<(), Fault> {
        let Some(bytes) = self.folder.held(role, notes)? else {
            return Ok(());
        };
        let said = read_said(self.alloc, role, &bytes)?;
        self.keep_all(repository, &said.names, notes)
    }

    fn keep_all<S: Alter, E: Write>(
        &self,
        repository: &mut Store<S>,
        names: &[(String, u32)],
        notes: &mut Notes<'_, E>,
    ) -> Result<(), Fault> {
        for (role, version) in names {
            let role = role.as_str();
            let name = metadata_name(self.alloc, *version, role)?;
            self.keep(repository, name.as_str(), role, notes)?;
        }
        Ok(())
    }

    // Keeps a role's document by its file's name, and answers whether it is held.
    fn keep<S: Alter, E: Write>(
        &self,
        repository: &mut Store<S>,
        name: &str,
        role: &str,
        notes: &mut Notes<'_, E>,
    ) -> Result<bool, Fault> {
        match file_of(repository, name, self.now) {
            Some(bytes) => {
                self.folder.put_held(role, &bytes, notes)?;
                Ok(true)
            }
            None => Ok(false),
        }
    }
}

/// The metadata file of this name, if it is held.
pub fn file_of<S: Alter>(repository: &mut Store<S>, name: &str, now: Moment) -> Option<Vec<u8>> {
    match repository.apply(Command::Metadata(name), now) {
        Ok(Reply::Bytes(bytes)) => Some(bytes),
        _ => None,
    }
}

// Lets drafts go of which this version or a later one is held.
fn let_go<E: Write>(
    alloc: Global,
    folder: Folder<'_>,
    notes: &mut Notes<'_, E>,
) -> Result<(), Fault> {
    for role in &folder.roles(notes)? {
        let role = role.as_str();
        if is_held(alloc, folder, role, notes)? {
            notes.warn(&role, &"its draft is let go: one of its version is held");
            keep_signatures(alloc, folder, role, notes)?;
            folder.drop_draft(role, notes)?;
        }
    }
    Ok(())
}

// Keeps a draft that has signatures as spent: what is held may be another document.
fn keep_signatures<E: Write>(
    alloc: Global,
    folder: Folder<'_>,
    role: &str,
    notes: &mut Notes<'_, E>,
) -> Result<(), Fault> {
    let draft = folder.draft_or_none(role, notes)?;
    if folder.held(role, notes)?.as_deref() == Some(draft.as_slice()) {
        return Ok(());
    }
    if read_signed(alloc, &draft)?.signatures.is_empty() {
        return Ok(());
    }
    folder.put_spent(&draft, notes)
}

// Whether the draft of a role is of a version that is held, or of an earlier one. A draft that has just the bytes that are held may have come
// in after a new root, which makes a repository forget them.
fn is_held<E: Write>(
    alloc: Global,
    folder: Folder<'_>,
    role: &str,
    notes: &mut Notes<'_, E>,
) -> Result<bool, Fault> {
    let Some(held) = folder.held(role, notes)? else {
        return Ok(false);
    };
    let draft = folder.draft_or_none(role, notes)?;
    let is_new = Kind::of_role(role) == Kind::Targets && draft == held;
    if is_new && folder.draft("root", notes)?.is_some() {
        return Ok(false);
    }
    Ok(version_in(alloc, role, &draft)? <= version_in(alloc, role, &held)?)
}

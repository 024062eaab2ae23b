//! The files of a folder of drafts.
use crate::files::{names_of, read_regular, standing, unused};
use crate::locking::FolderLock;
use crate::on_disk::put_told;
use cli_faults::{Fault, Notes};
use limits::FILE_LIMIT;
use metadata::{Digest, RoleName, digest_of};
use std::alloc::{AllocError, Global};
use std::fs;
use std::io::{ErrorKind, Write};

/// The mode of what everybody may read, less the process's mask.
pub const FOR_ALL: u32 = 0o666;

/// A folder of drafts: `ROLE.json` of each document that is on its way, `held/ROLE.json` of what is held, `files/DIGEST` of each target
/// file that waits to be put, `layouts/PATH` of each layout and link that is listed as a target, with `~` for each slash of its path,
/// `links/STEP.json` of each link that is made here, and `spent/DIGEST.json` of each file whose signatures were taken off.
#[derive(Clone, Copy)]
pub struct Folder<'a> {
    rt: &'a HostRuntime,
    path: &'a str,
}

impl<'a> Folder<'a> {
    pub fn new(rt: &'a HostRuntime, path: &'a str) -> Folder<'a> {
        Folder { rt, path }
    }

    /// The folder's path.
    pub fn path(&self) -> &'a str {
        self.path
    }

    fn alloc(&self) -> Global {
        self.rt.alloc()
    }

    /// The folder is there.
    pub fn see<E: Write>(&self, notes: &mut Notes<'_, E>) -> Result<(), Fault> {
        match fs::metadata(self.rt, self.path) {
            Ok(found) if found.is_dir() => Ok(()),
            Ok(_) => {
                notes.fault(&self.path, &"no folder");
                Err(Fault::File)
            }
            Err(error) => Err(unused(self.path, &error, notes)),
        }
    }

    /// A fault of the file of this name in the folder. Where the file is denied, it is told which one it is.
    pub fn fault_of<E: Write>(&self, name: &str, fault: Fault, notes: &mut Notes<'_, E>) -> Fault {
        if let Fault::Denied(denial, _) = &fault {
            if let Ok(place) = self.place(name) {
                notes.denied(&place, denial.number());
            }
        }
        fault
    }

    /// Keeps every other command from writing in the folder, as long as what is answered is there.
    pub fn lock<E: Write>(&self, notes: &mut Notes<'_, E>) -> Result<FolderLock, Fault> {
        self.see(notes)?;
        FolderLock::of(self.rt, self.path, notes)
    }

    /// Makes the folder, and the two folders in it, where they are not there.
    pub fn make<E: Write>(&self, notes: &mut Notes<'_, E>) -> Result<(), Fault> {
        self.make_inner("held", notes)?;
        self.make_inner("files", notes)
    }

    /// Makes a folder in it, where it is not there.
    pub fn make_inner<E: Write>(&self, name: &str, notes: &mut Notes<'_, E>) -> Result<(), Fault> {
        let inner = self.place(name)?;
        match fs::create_dir_all(self.rt, inner.as_str()) {
            Ok(()) => Ok(()),
            Err(error) => Err(unused(inner.as_str(), &error, notes)),
        }
    }

    /// Where a file of the folder stands.
    pub fn place(&self, name: &str) -> Result<String, AllocError> {
        let path = self.path;
        format!(in self.alloc(); "{path}/{name}")
    }

    /// Where the draft of a role's document stands.
    pub fn place_of(&self, role: &str) -> Result<String, AllocError> {
        let path = self.path;
        format!(in self.alloc(); "{path}/{role}.json")
    }

    fn held_place(&self, role: &str) -> Result<String, AllocError> {
        let path = self.path;
        format!(in self.alloc(); "{path}/held/{role}.json")
    }

    /// Where the target file of a digest stands.
    pub fn file_place(&self, digest: &Digest) -> Result<String, AllocError> {
        let path = self.path;
        let digits = digest.text(self.alloc())?;
        format!(in self.alloc(); "{path}/files/{digits}")
    }

    /// The draft of a role's document, if there is one.
    pub fn draft<E: Write>(
        &self,
        role: &str,
        notes: &mut Notes<'_, E>,
    ) -> Result<Option<Vec<u8>>, Fault> {
        let place = self.place_of(role)?;
        self.read_if_there(place.as_str(), notes)
    }

    /// The role's document that is held, if there is one.
    pub fn held<E: Write>(
        &self,
        role: &str,
        notes: &mut Notes<'_, E>,
    ) -> Result<Option<Vec<u8>>, Fault> {
        let place = self.held_place(role)?;
        self.read_if_there(place.as_str(), notes)
    }

    /// The draft of a role's document, or else the one that is held, with its name in the folder.
    pub fn latest_named<E: Write>(
        &self,
        role: &str,
        notes: &mut Notes<'_, E>,
    ) -> Result<(Option<Vec<u8>>, String), Fault> {
        match self.draft(role, notes)? {
            Some(draft) => Ok((Some(draft), format!(in self.alloc(); "{role}.json")?)),
            None => {
                let held = self.held(role, notes)?;
                Ok((held, format!(in self.alloc(); "held/{role}.json")?))
            }
        }
    }

    /// The draft of a role's document, or else the one that is held.
    pub fn latest<E: Write>(
        &self,
        role: &str,
        notes: &mut Notes<'_, E>,
    ) -> Result<Option<Vec<u8>>, Fault> {
        Ok(self.latest_named(role, notes)?.0)
    }

    // The bytes of a file of the folder, where it is there. The folder in which it stands is no link either.
    fn read_if_there<E: Write>(
        &self,
        place: &str,
        notes: &mut Notes<'_, E>,
    ) -> Result<Option<Vec<u8>>, Fault> {
        self.see_folder_of(place, notes)?;
        read_regular(self.rt, place, FILE_LIMIT, notes)
    }

    // A folder in this one is no link: what stands after one is not of this folder.
    fn see_folder_of<E: Write>(&self, place: &str, notes: &mut Notes<'_, E>) -> Result<(), Fault> {
        match place.rsplit_once('/') {
            Some((inner, _)) if inner != self.path => self.see_inner(inner, notes),
            _ => Ok(()),
        }
    }

    fn see_inner<E: Write>(&self, inner: &str, notes: &mut Notes<'_, E>) -> Result<(), Fault> {
        match standing(self.rt, inner) {
            Ok(Some(found)) if !found.is_dir() => {
                notes.fault(&inner, &"no folder, and no link is followed");
                Err(Fault::File)
            }
            Ok(_) => Ok(()),
            Err(error) => Err(unused(inner, &error, notes)),
        }
    }

    /// The draft of a role's document. That there is one is for the caller to see to: else it is an empty file, which is no document.
    pub fn draft_or_none<E: Write>(
        &self,
        role: &str,
        notes: &mut Notes<'_, E>,
    ) -> Result<Vec<u8>, Fault> {
        let draft = self.draft(role, notes)?;
        Ok(draft.unwrap_or(Vec::new(self.alloc())))
    }

    /// The file of this name in the folder, if there is one.
    pub fn file<E: Write>(
        &self,
        name: &str,
        notes: &mut Notes<'_, E>,
    ) -> Result<Option<Vec<u8>>, Fault> {
        let place = self.place(name)?;
        self.read_if_there(place.as_str(), notes)
    }

    /// The file of this name. That it is there is for the caller to see to: else it is an empty one.
    pub fn file_or_none<E: Write>(
        &self,
        name: &str,
        notes: &mut Notes<'_, E>,
    ) -> Result<Vec<u8>, Fault> {
        let file = self.file(name, notes)?;
        Ok(file.unwrap_or(Vec::new(self.alloc())))
    }

    /// Writes the file of this name.
    pub fn put_named<E: Write>(
        &self,
        name: &str,
        bytes: &[u8],
        notes: &mut Notes<'_, E>,
    ) -> Result<(), Fault> {
        let place = self.place(name)?;
        put_told(self.rt, place.as_str(), bytes, FOR_ALL, notes)
    }

    /// Keeps a file whose signatures are taken off, under its digest: the leaves that they are by are spent.
    pub fn put_spent<E: Write>(&self, bytes: &[u8], notes: &mut Notes<'_, E>) -> Result<(), Fault> {
        let digits = digest_of(bytes).text(self.alloc())?;
        self.make_inner("spent", notes)?;
        let name = format!(in self.alloc(); "spent/{digits}.json")?;
        self.put_named(name.as_str(), bytes, notes)
    }

    /// The names of the layouts and links that are listed as targets, of the links that are made here, or of what is spent: those in
    /// `layouts`, `links` or `spent` with their ending, in order.
    pub fn chain_files<E: Write>(
        &self,
        inner: &str,
        notes: &mut Notes<'_, E>,
    ) -> Result<Vec<String>, Fault> {
        let folder = format!(in self.alloc(); "/{inner}")?;
        let names = self.names_in(folder.as_str(), notes)?;
        let mut files = Vec::new(self.alloc());
        for name in names {
            if name.as_str().ends_with(".json") {
                files.push(name)?;
            }
        }
        Ok(files)
    }

    /// Writes the draft of a role's document.
    pub fn put_draft<E: Write>(
        &self,
        role: &str,
        bytes: &[u8],
        notes: &mut Notes<'_, E>,
    ) -> Result<(), Fault> {
        let place = self.place_of(role)?;
        put_told(self.rt, place.as_str(), bytes, FOR_ALL, notes)
    }

    /// Writes a role's document that is held.
    pub fn put_held<E: Write>(
        &self,
        role: &str,
        bytes: &[u8],
        notes: &mut Notes<'_, E>,
    ) -> Result<(), Fault> {
        let place = self.held_place(role)?;
        put_told(self.rt, place.as_str(), bytes, FOR_ALL, notes)
    }

    /// Writes a target file under its digest, and answers it.
    pub fn put_file<E: Write>(
        &self,
        bytes: &[u8],
        notes: &mut Notes<'_, E>,
    ) -> Result<Digest, Fault> {
        let digest = digest_of(bytes);
        let place = self.file_place(&digest)?;
        put_told(self.rt, place.as_str(), bytes, FOR_ALL, notes)?;
        Ok(digest)
    }

    /// Takes the draft of a role's document away.
    pub fn drop_draft<E: Write>(&self, role: &str, notes: &mut Notes<'_, E>) -> Result<(), Fault> {
        let place = self.place_of(role)?;
        self.remove(place.as_str(), notes)
    }

    /// Takes away a role's document that is held no more.
    pub fn drop_held<E: Write>(&self, role: &str, notes: &mut Notes<'_, E>) -> Result<(), Fault> {
        let place = self.held_place(role)?;
        self.remove(place.as_str(), notes)
    }

    /// Takes a file away. Where none stands, that is well.
    pub fn remove<E: Write>(&self, place: &str, notes: &mut Notes<'_, E>) -> Result<(), Fault> {
        match fs::remove_file(self.rt, place) {
            Ok(()) => Ok(()),
            Err(error) if error.kind() == ErrorKind::NotFound => Ok(()),
            Err(error) => Err(unused(place, &error, notes)),
        }
    }

    /// The bytes of a target file that waits to be put, and none where it is not there. A link is none.
    pub fn length_of_file(&self, digest: &Digest) -> Result<Option<u64>, AllocError> {
        let place = self.file_place(digest)?;
        match standing(self.rt, place.as_str()) {
            Ok(Some(found)) if found.is_file() => Ok(Some(found.len())),
            _ => Ok(None),
        }
    }

    /// The target file of this digest that waits to be put, of at most so many bytes, where it is there and is that file.
    pub fn file_of<E: Write>(
        &self,
        digest: &Digest,
        limit: usize,
        notes: &mut Notes<'_, E>,
    ) -> Result<Option<Vec<u8>>, Fault> {
        let place = self.file_place(digest)?;
        self.see_folder_of(place.as_str(), notes)?;
        match read_regular(self.rt, place.as_str(), limit, notes)? {
            Some(bytes) if digest_of(&bytes) == *digest => Ok(Some(bytes)),
            _ => Ok(None),
        }
    }

    /// Whether the target file of this digest and length waits to be put.
    pub fn has_file<E: Write>(
        &self,
        digest: &Digest,
        length: u32,
        notes: &mut Notes<'_, E>,
    ) -> Result<bool, Fault> {
        if self.length_of_file(digest)? != Some(u64::from(length)) {
            return Ok(false);
        }
        Ok(self.file_of(digest, length as usize, notes)?.is_some())
    }

    /// The roles of the drafts, in the order of their names.
    pub fn roles<E: Write>(&self, notes: &mut Notes<'_, E>) -> Result<Vec<String>, Fault> {
        self.roles_in("", notes)
    }

    /// The roles of which a document is held, in the order of their names.
    pub fn held_roles<E: Write>(&self, notes: &mut Notes<'_, E>) -> Result<Vec<String>, Fault> {
        self.roles_in("/held", notes)
    }

    // The roles whose documents stand in the folder, or in the one in it, in the order of their names.
    fn roles_in<E: Write>(
        &self,
        inner: &str,
        notes: &mut Notes<'_, E>,
    ) -> Result<Vec<String>, Fault> {
        let names = self.names_in(inner, notes)?;
        let mut roles = Vec::new(self.alloc());
        for name in &names {
            if let Some(role) = name.as_str().strip_suffix(".json") {
                if RoleName::read(self.alloc(), role)?.is_some() {
                    roles.push(String::from_str(self.alloc(), role)?)?;
                }
            }
        }
        roles.sort_unstable();
        Ok(roles)
    }

    /// The names of the target files that wait to be put.
    pub fn files<E: Write>(&self, notes: &mut Notes<'_, E>) -> Result<Vec<String>, Fault> {
        let names = self.names_in("/files", notes)?;
        let mut files = Vec::new(self.alloc());
        for name in names {
            if Digest::read(name.as_str()).is_some() {
                files.push(name)?;
            }
        }
        Ok(files)
    }

    // The names of the files in the folder, or in one in it, in their order. Of a folder that is not there there are none.
    fn names_in<E: Write>(
        &self,
        inner: &str,
        notes: &mut Notes<'_, E>,
    ) -> Result<Vec<String>, Fault> {
        let path = self.path;
        let folder = format!(in self.alloc(); "{path}{inner}")?;
        if !inner.is_empty() {
            self.see_inner(folder.as_str(), notes)?;
        }
        match names_of(self.rt, folder.as_str(), notes) {
            Ok(names) => Ok(names),
            Err(error) if error.kind() == ErrorKind::NotFound => Ok(Vec::new(self.alloc())),
            Err(error) => Err(unused(folder.as_str(), &error, notes)),
        }
    }
}

//! The files of a repository in a folder, under the names that clients ask for.
use cli_faults::{Denial, Fault, Notes};
use cli_files::{FOR_ALL, put_in_place, unused};
use cli_repository::{Command, Reply, Store, fault_of_store};
use exported_files::Mirror;
use limits::BLOB_LIMIT;
use metadata::{Listing, Moment, digest_of};
use sqlite::Alter;
use std::fs::{self, File, Metadata};
use std::io::{self, ErrorKind, Read, Write};

/// A repository that is written into a folder. What is told of it has the name of its database file.
#[derive(Drop)]
pub struct Exporting<'a, 'n, 'e, S: Alter, E: Write> {
    rt: &'a HostRuntime,
    repository: &'a mut Store<S>,
    db: &'a str,
    folder: &'a str,
    now: Moment,
    notes: &'n mut Notes<'e, E>,
    written: u64,
}

impl<'a, 'n, 'e, S: Alter, E: Write> Exporting<'a, 'n, 'e, S, E> {
    pub fn new(
        rt: &'a HostRuntime,
        repository: &'a mut Store<S>,
        db: &'a str,
        folder: &'a str,
        now: Moment,
        notes: &'n mut Notes<'e, E>,
    ) -> Exporting<'a, 'n, 'e, S, E> {
        Exporting {
            rt,
            repository,
            db,
            folder,
            now,
            notes,
            written: 0,
        }
    }

    /// How many files were written.
    pub fn written(&self) -> u64 {
        self.written
    }

    /// The version of the last root, where there is one and a folder may stand where it is to be.
    pub fn root(&mut self) -> Result<u32, Fault> {
        let Some(root) = self.repository.root_version() else {
            self.notes.denied(&self.db, Denial::NoRoot.number());
            return Err(Fault::Denied(Denial::NoRoot, None));
        };
        if is_no_folder(self.rt, self.folder) {
            self.notes.fault(&self.folder, &"no folder");
            return Err(Fault::File);
        }
        Ok(root)
    }

    // The file of a target in its place. A path may be one that no folder takes, since its name is too long or is that of a folder of another
    // target: such a one is warned of and left out, for one role that lists it may not keep all others from being exported.
    fn write_target(&mut self, place: &str, listing: &Listing, bytes: &[u8]) -> Result<(), Fault> {
        match put_in_folder(self.rt, place, bytes) {
            Ok(()) => {
                self.written = self.written.saturating_add(1);
                Ok(())
            }
            Err(error) => match why_left_out(error.kind()) {
                Some(why) => {
                    self.notes.warn(&listing.path.as_str(), &why);
                    Ok(())
                }
                None => Err(unused(place, &error, self.notes)),
            },
        }
    }

    // A file in its place, whose folder is made where there is none.
    fn write(&mut self, place: &str, bytes: &[u8]) -> Result<(), Fault> {
        match put_in_folder(self.rt, place, bytes) {
            Ok(()) => {
                self.written = self.written.saturating_add(1);
                Ok(())
            }
            Err(error) => Err(unused(place, &error, self.notes)),
        }
    }

    fn ask(&mut self, command: Command<'_>) -> Result<Reply, Fault> {
        match self.repository.apply(command, self.now) {
            Ok(reply) => Ok(reply),
            Err(fault) => {
                self.notes.fault(&self.db, &fault);
                Err(fault_of_store(fault))
            }
        }
    }
}

impl<S: Alter, E: Write> Mirror for Exporting<'_, '_, '_, S, E> {
    type Fault = Fault;

    fn metadata(&mut self, name: &str) -> Result<Option<Vec<u8>>, Fault> {
        match self.ask(Command::Metadata(name))? {
            Reply::Bytes(bytes) => Ok(Some(bytes)),
            _ => Ok(None),
        }
    }

    // A denial is told.
    fn target(&mut self, listing: &Listing) -> Result<Option<Vec<u8>>, Fault> {
        let command = Command::Target(listing.path.as_str(), Some(listing.digest));
        match self.ask(command)? {
            Reply::Bytes(bytes) => Ok(Some(bytes)),
            Reply::Denied(denial, _) => {
                self.notes.tell(&listing.path.as_str(), &denial.name());
                Ok(None)
            }
            _ => Ok(None),
        }
    }

    fn has_bytes(&mut self, place: &str, bytes: &[u8]) -> bool {
        has_bytes(self.rt, place, bytes)
    }

    fn has_target(&mut self, place: &str, listing: &Listing) -> bool {
        has_digest(self.rt, place, listing)
    }

    fn put(&mut self, place: &str, bytes: &[u8]) -> Result<(), Fault> {
        self.write(place, bytes)
    }

    fn put_target(&mut self, place: &str, listing: &Listing, bytes: &[u8]) -> Result<(), Fault> {
        self.write_target(place, listing, bytes)
    }
}

// Whether something else than a folder stands there.
fn is_no_folder(rt: &HostRuntime, folder: &str) -> bool {
    match fs::metadata(rt, folder) {
        Ok(found) => !found.is_dir(),
        Err(_) => false,
    }
}

// Why a target has no place in the folder, if that is the fault.
fn why_left_out(kind: ErrorKind) -> Option<&'static str> {
    match kind {
        ErrorKind::InvalidFilename => Some("not exported: its name is too long for a file"),
        ErrorKind::NotADirectory | ErrorKind::IsADirectory | ErrorKind::AlreadyExists => {
            Some("not exported: another file stands in its place")
        }
        ErrorKind::InvalidInput => Some("not exported: what stands in its place is no file"),
        _ => None,
    }
}

// Whether the file of the target stands there. What is no file, a link too, is not looked into.
fn has_digest(rt: &HostRuntime, place: &str, listing: &Listing) -> bool {
    if !has_length(rt, place, u64::from(listing.length)) {
        return false;
    }
    match beginning(rt, place) {
        Ok(found) => digest_of(&found) == listing.digest,
        Err(_) => false,
    }
}

// Whether a file of this length stands there.
fn has_length(rt: &HostRuntime, place: &str, length: u64) -> bool {
    match fs::symlink_metadata(rt, place) {
        Ok(found) => is_file_of(&found, length),
        Err(_) => false,
    }
}

fn is_file_of(found: &Metadata, length: u64) -> bool {
    found.len() == length && found.is_file()
}

// Whether a file of these bytes stands there. What is no file, a link too, is not looked into.
fn has_bytes(rt: &HostRuntime, place: &str, bytes: &[u8]) -> bool {
    if !has_length(rt, place, bytes.len() as u64) {
        return false;
    }
    match beginning(rt, place) {
        Ok(found) => found.as_slice() == bytes,
        Err(_) => false,
    }
}

// The bytes of a file, and of one that is longer than each that is exported a beginning that is too long, too.
fn beginning(rt: &HostRuntime, place: &str) -> io::Result<Vec<u8>> {
    let file = File::open(rt, place)?;
    let mut bytes = Vec::new(rt.alloc());
    file.take(BLOB_LIMIT as u64 + 1).read_to_end(&mut bytes)?;
    Ok(bytes)
}

fn put_in_folder(rt: &HostRuntime, place: &str, bytes: &[u8]) -> io::Result<()> {
    if let Some((folder, _)) = place.rsplit_once('/') {
        fs::create_dir_all(rt, folder)?;
    }
    put_in_place(rt, place, bytes, FOR_ALL)
}

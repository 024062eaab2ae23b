//! Files that are added to a listing.
use cli_faults::{Denial, Fault, Notes};
use cli_files::{names_of, read_at_most, unused};
use draft_folder::Folder;
use drafting::Addition;
use limits::BLOB_LIMIT;
use metadata::{Digest, TargetPath, digest_of};
use std::alloc::{AllocError, Global};
use std::io::{IsTerminal, Write};
use std::{fmt, fs};

// Files that are added to a listing. On a terminal each is told as it is. Each that cannot be listed is told of, and the first is the answer.
#[derive(Drop)]
pub(crate) struct Adding<'a, 'b> {
    rt: &'a HostRuntime,
    into: Option<Folder<'b>>,
    is_watched: bool,
    added: Vec<Addition>,
    files: Vec<(String, Digest)>,
    refused: Option<Denial>,
}

impl<'a, 'b> Adding<'a, 'b> {
    /// Nothing yet. The bytes of each file go into the folder, where one is given.
    pub(crate) fn new(rt: &'a HostRuntime, into: Option<Folder<'b>>) -> Adding<'a, 'b> {
        Adding {
            rt,
            into,
            is_watched: rt.stderr().is_terminal(),
            added: Vec::new(rt.alloc()),
            files: Vec::new(rt.alloc()),
            refused: None,
        }
    }

    /// What was added.
    pub(crate) fn added(&self) -> &[Addition] {
        &self.added
    }

    /// What was added, and each file with its digest.
    pub(crate) fn into_parts(self) -> (Vec<Addition>, Vec<(String, Digest)>) {
        let Adding { added, files, .. } = self;
        (added, files)
    }

    /// Adds the file, or all files of the folder, of each word `PATH[=FILE]`.
    pub(crate) fn add_all<E: Write>(
        &mut self,
        words: &[String],
        notes: &mut Notes<'_, E>,
    ) -> Result<(), Fault> {
        for word in words {
            let (path, file) = match word.as_str().split_once('=') {
                Some(both) => both,
                None => (word.as_str(), word.as_str()),
            };
            self.add(path, file, notes)?;
        }
        match self.refused.take() {
            Some(denial) => Err(Fault::Denied(denial, None)),
            None => Ok(()),
        }
    }

    // Adds a file, or what a folder has, folders in it too.
    fn add<E: Write>(
        &mut self,
        path: &str,
        file: &str,
        notes: &mut Notes<'_, E>,
    ) -> Result<(), Fault> {
        let alloc = self.rt.alloc();
        let mut waiting = Vec::new(alloc);
        waiting.push((
            String::from_str(alloc, path)?,
            String::from_str(alloc, file)?,
        ))?;
        for _ in 0..MOST_FOUND {
            let Some((path, file)) = waiting.pop() else {
                return Ok(());
            };
            self.add_one(path.as_str(), file.as_str(), &mut waiting, notes)?;
        }
        notes.warn(&file, &"more files and folders than a listing can have");
        Err(Fault::File)
    }

    fn add_one<E: Write>(
        &mut self,
        path: &str,
        file: &str,
        waiting: &mut Vec<(String, String)>,
        notes: &mut Notes<'_, E>,
    ) -> Result<(), Fault> {
        if is_folder(self.rt, file) {
            self.look_into(path, file, waiting, notes)
        } else {
            self.add_file(path, file, notes)
        }
    }

    // What a folder has is to be added, too.
    fn look_into<E: Write>(
        &mut self,
        path: &str,
        folder: &str,
        waiting: &mut Vec<(String, String)>,
        notes: &mut Notes<'_, E>,
    ) -> Result<(), Fault> {
        let alloc = self.rt.alloc();
        let names = match names_of(self.rt, folder, notes) {
            Ok(names) => names,
            Err(error) => return Err(unused(folder, &error, notes)),
        };
        for name in &names {
            let both = both_below(alloc, path, folder, name.as_str())?;
            if is_followed(self.rt, both.1.as_str(), notes) {
                waiting.push(both)?;
            }
        }
        Ok(())
    }

    // Adds a file.
    fn add_file<E: Write>(
        &mut self,
        path: &str,
        file: &str,
        notes: &mut Notes<'_, E>,
    ) -> Result<(), Fault> {
        let alloc = self.rt.alloc();
        if TargetPath::read(alloc, path)?.is_none() {
            notes.warn(&path, &"no target path; PATH=FILE gives a file another one");
            self.refuse(Denial::BadPath);
            return Ok(());
        }
        let bytes = read_at_most(self.rt, file, BLOB_LIMIT, notes)?;
        if bytes.len() > BLOB_LIMIT {
            notes.warn(&file, &"longer than 1,048,576 bytes");
            self.refuse(Denial::BlobLength);
        }
        if self.refused.is_some() {
            return Ok(());
        }
        let addition = match self.into {
            Some(folder) => digest_in(alloc, folder, path, &bytes, notes)?,
            None => addition_of(alloc, path, &bytes)?,
        };
        self.files
            .push((String::from_str(alloc, file)?, addition.digest))?;
        self.added.push(addition)?;
        if self.is_watched {
            let count = self.added.len();
            notes.progress(&Added { path, count });
        }
        Ok(())
    }

    // A file cannot be listed. What comes after it is looked at, and not put into the folder.
    fn refuse(&mut self, denial: Denial) {
        if self.refused.is_none() {
            self.refused = Some(denial);
        }
    }
}

// The path and the place of what has this name in a folder.
fn both_below(
    alloc: Global,
    path: &str,
    folder: &str,
    name: &str,
) -> Result<(String, String), AllocError> {
    let inner = format!(in alloc; "{path}/{name}")?;
    let file = format!(in alloc; "{folder}/{name}")?;
    Ok((inner, file))
}

// A file that was added, and how many are.
#[derive(Clone, Copy)]
struct Added<'a> {
    path: &'a str,
    count: usize,
}

impl fmt::Display for Added<'_> {
    fn fmt<W: fmt::Write>(&self, f: &mut fmt::Formatter<W>) -> fmt::Result {
        let Added { path, count } = self;
        write!(f, "added {path}, {count} so far")
    }
}

/// A file as an addition to a listing. Its bytes, at most 1,048,576, go into the folder under their digest.
pub fn digest_in<E: Write>(
    alloc: Global,
    folder: Folder<'_>,
    path: &str,
    bytes: &[u8],
    notes: &mut Notes<'_, E>,
) -> Result<Addition, Fault> {
    let addition = addition_of(alloc, path, bytes)?;
    folder.put_file(bytes, notes)?;
    Ok(addition)
}

/// The same, and its bytes go nowhere.
pub fn addition_of(alloc: Global, path: &str, bytes: &[u8]) -> Result<Addition, Fault> {
    let Ok(length) = u32::try_from(bytes.len()) else {
        return Err(Fault::Denied(Denial::BlobLength, None));
    };
    let path = String::from_str(alloc, path)?;
    Ok(Addition {
        path,
        length,
        digest: digest_of(bytes),
    })
}

// More files and folders than these are not looked at: a listing has room for fewer.
const MOST_FOUND: u32 = 16_384;

// Whether what stands in an added folder is added: files and folders are. A link, which may lead anywhere, and whatever else there is are
// warned of and passed by.
fn is_followed<E: Write>(rt: &HostRuntime, path: &str, notes: &mut Notes<'_, E>) -> bool {
    match fs::symlink_metadata(rt, path) {
        Ok(found) if !found.is_file() && !found.is_dir() => {
            notes.warn(
                &path,
                &"a link or no file, which is passed by: name it to add it",
            );
            false
        }
        _ => true,
    }
}

fn is_folder(rt: &HostRuntime, path: &str) -> bool {
    match fs::metadata(rt, path) {
        Ok(found) => found.is_dir(),
        Err(_) => false,
    }
}

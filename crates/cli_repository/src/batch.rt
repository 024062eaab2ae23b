//! What is published together.
use cli_faults::{Fault, Notes, Slip};
use cli_files::Folder;
use limits::BLOB_LIMIT;
use metadata::Digest;
use reasons::{HeldFiles, reason};
use std::alloc::{AllocError, Global};
use std::fmt;
use std::io::Write;
use store::Offer;

/// What is published: the target files that are put first, and the documents that are offered together after them, in order. Each document
/// has its argument, ROLE:FILE, by which it is told.
#[derive(Clone, Copy)]
pub struct Batch<'a> {
    pub files: Waiting<'a>,
    pub arguments: &'a [String],
    pub documents: &'a [(Offer, &'a [u8])],
}

/// The target files that wait to be put in a folder of drafts, by their digests.
#[derive(Clone, Copy)]
pub struct Waiting<'a> {
    pub folder: Folder<'a>,
    pub digests: &'a [Digest],
}

// After so many target files it is told again how many are put.
const FILES_BETWEEN: usize = 16;

impl Waiting<'_> {
    /// Tells on a terminal how many of them are put, before the one at this place is.
    pub fn tell_put<E: Write>(&self, place: usize, notes: &mut Notes<'_, E>) {
        if place > 0 && place % FILES_BETWEEN == 0 {
            let count = self.digests.len();
            notes.progress(&Put { place, count });
        }
    }

    /// The bytes of one of them. It is read with its digest in hand: another file is refused.
    pub fn read<E: Write>(
        &self,
        digest: &Digest,
        notes: &mut Notes<'_, E>,
    ) -> Result<Vec<u8>, Fault> {
        if let Some(bytes) = self.folder.file_of(digest, BLOB_LIMIT, notes)? {
            return Ok(bytes);
        }
        let digits = digest.digits();
        let digits = str::from_utf8(&digits).unwrap_or("-");
        notes.warn(
            &digits,
            &"its file in the folder is another one than its name says",
        );
        Err(Fault::Slip(Slip::File))
    }
}

// How many target files of all are put.
#[derive(Clone, Copy)]
struct Put {
    place: usize,
    count: usize,
}

impl fmt::Display for Put {
    fn fmt<W: fmt::Write>(&self, f: &mut fmt::Formatter<W>) -> fmt::Result {
        let Put { place, count } = self;
        write!(f, "{place} of {count} target files are put")
    }
}

/// The role whose document is offered.
pub fn role_of(offer: &Offer) -> &str {
    match offer {
        Offer::Root => "root",
        Offer::Timestamp => "timestamp",
        Offer::Snapshot => "snapshot",
        Offer::Targets(role) => role.as_str(),
    }
}

impl Batch<'_> {
    /// Tells why the document at the index was denied, or the batch, by the number of the denial: its member, the keys that have signed,
    /// or what is missing. Where facts are not told, nothing is asked for.
    pub fn tell<H: HeldFiles, E: Write>(
        &self,
        alloc: Global,
        held: &mut H,
        number: u8,
        index: usize,
        notes: &mut Notes<'_, E>,
    ) {
        if !notes.are_told() {
            return;
        }
        if let Ok(Some(found)) = self.reason(alloc, held, number, index) {
            match self.arguments.get(index) {
                Some(argument) => notes.tell(&argument.as_str(), &found),
                None => notes.tell(&"the documents together", &found),
            }
        }
    }

    fn reason<H: HeldFiles>(
        &self,
        alloc: Global,
        held: &mut H,
        number: u8,
        index: usize,
    ) -> Result<Option<String>, AllocError> {
        let mut documents = Vec::new(alloc);
        for (offer, bytes) in self.documents {
            documents.push((role_of(offer), *bytes))?;
        }
        reason(alloc, held, &documents, number, index)
    }
}

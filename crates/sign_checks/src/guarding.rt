//! The guard of a book: each signature of the key that stands in the folder is by a leaf that the book keeps for what it is over. A book
//! that was copied back, or a second one of the seed, is found so before it spends a leaf a second time.
use crate::spent::Spent;
use cli_faults::{Fault, Notes, Slip};
use draft_folder::Folder;
use keys_roles::{Key, KeyId, KeyTable, RoleRule, key_id, meets, top_key};
use metadata::{SignedFile, read_signed};
use signer::Book;
use sqlite::Alter;
use std::alloc::{AllocError, Global};
use std::io::Write;

/// The key that is to sign: its id, the id of its top tree as a key of its own, under which a book has it, and the rule that it meets alone, by
/// which an entry of it counts.
#[derive(Drop)]
pub struct Signer {
    key: Key,
    id: KeyId,
    top: KeyId,
    rule: RoleRule,
    keys: KeyTable,
}

impl Signer {
    /// The signer by this key.
    pub fn new(alloc: Global, key: Key) -> Result<Signer, AllocError> {
        let id = key_id(alloc, &key)?;
        let top = key_id(alloc, &Key::Lms(*top_key(&key)))?;
        let mut keyids = Vec::new(alloc);
        keyids.push(id)?;
        let mut entries = Vec::new(alloc);
        entries.push((id, key))?;
        let rule = RoleRule {
            keyids,
            threshold: 1,
        };
        Ok(Signer {
            key,
            id,
            top,
            rule,
            keys: KeyTable { entries },
        })
    }

    /// The key's id.
    pub fn id(&self) -> &KeyId {
        &self.id
    }

    /// The id of its top tree, under which a book has it: of a key of one level its own.
    pub fn top(&self) -> &KeyId {
        &self.top
    }

    /// What a signature of it is by.
    pub fn spent_in(
        &self,
        alloc: Global,
        file: &SignedFile<'_>,
    ) -> Result<Option<Spent>, AllocError> {
        for entry in &file.signatures {
            if entry.keyid == self.id {
                return Spent::of(alloc, &self.key, entry.sig.as_str());
            }
        }
        Ok(None)
    }

    /// Whether the key has signed the file. An entry of its id that does not verify is no signature of it: anybody can write one.
    pub fn has_signed(&self, file: &SignedFile<'_>) -> bool {
        meets(&self.rule, &self.keys, file.signed, &file.signatures)
    }
}

// The folders of which each has files with signatures, in the order in which they are looked at.
const FOLDERS: [&str; 5] = ["held", "", "layouts", "links", "spent"];

/// A file at its place in the folder, whether it was read, and the leaves and the signed part of the key's signature, which the book knew.
#[derive(Drop)]
pub struct Seen {
    place: String,
    is_read: bool,
    kept: Option<(Spent, Vec<u8>)>,
}

impl Seen {
    fn new(place: String) -> Seen {
        Seen {
            place,
            is_read: false,
            kept: None,
        }
    }

    /// The file at this place was written, and is read again.
    pub fn written(&mut self, place: &str) {
        if self.place.as_str() == place {
            self.is_read = false;
            self.kept = None;
        }
    }
}

// Whose signatures are looked for, and where.
#[derive(Clone, Copy)]
pub struct Guard<'a> {
    pub alloc: Global,
    pub folder: Folder<'a>,
    pub signer: &'a Signer,
    pub name: &'a str,
}

impl Guard<'_> {
    // The book knows each signature of the key in the folder: in what is held, the drafts, layouts, links, and what was taken off. A file that
    // was seen is not read again, as long as the book knows what it has of the key.
    pub fn see<S: Alter, E: Write>(
        &self,
        seen: &mut Vec<Vec<Seen>>,
        book: &Book<S>,
        notes: &mut Notes<'_, E>,
    ) -> Result<(), Fault> {
        for (index, inner) in FOLDERS.iter().enumerate() {
            if seen.len() <= index {
                seen.push(self.files_in(inner, notes)?)?;
            }
            if let Some(files) = seen.get_mut(index) {
                self.see_each(files, book, notes)?;
            }
        }
        Ok(())
    }

    // The files with signatures in a folder in it, or in itself.
    fn files_in<E: Write>(
        &self,
        inner: &str,
        notes: &mut Notes<'_, E>,
    ) -> Result<Vec<Seen>, Fault> {
        let names = match inner {
            "held" => self.folder.held_roles(notes)?,
            "" => self.folder.roles(notes)?,
            _ => self.folder.chain_files(inner, notes)?,
        };
        let mut files = Vec::new(self.alloc);
        for name in &names {
            let place = match inner {
                "held" => format!(in self.alloc; "held/{name}.json")?,
                "" => format!(in self.alloc; "{name}.json")?,
                _ => format!(in self.alloc; "{inner}/{name}")?,
            };
            files.push(Seen::new(place))?;
        }
        Ok(files)
    }

    fn see_each<S: Alter, E: Write>(
        &self,
        files: &mut Vec<Seen>,
        book: &Book<S>,
        notes: &mut Notes<'_, E>,
    ) -> Result<(), Fault> {
        for file in files {
            let is_known = match &file.kept {
                Some((spent, signed)) => spent.is_kept(book, &self.signer.top, signed),
                None => file.is_read,
            };
            if !is_known {
                file.kept = self.see_file(book, file.place.as_str(), notes)?;
                file.is_read = true;
            }
        }
        Ok(())
    }

    // The book knows the key's signature of the file at this place in the folder, if it has signed it: its leaves, and the signed part.
    fn see_file<S: Alter, E: Write>(
        &self,
        book: &Book<S>,
        place: &str,
        notes: &mut Notes<'_, E>,
    ) -> Result<Option<(Spent, Vec<u8>)>, Fault> {
        let Some(bytes) = self.folder.file(place, notes)? else {
            return Ok(None);
        };
        let file = match read_signed(self.alloc, &bytes) {
            Ok(file) => file,
            Err(fault) => return Err(self.folder.fault_of(place, Fault::from(fault), notes)),
        };
        let Some(spent) = self.signer.spent_in(self.alloc, &file)? else {
            return Ok(None);
        };
        if spent.is_kept(book, &self.signer.top, file.signed) {
            return Ok(Some((spent, Vec::from_slice(self.alloc, file.signed)?)));
        }
        if !self.signer.has_signed(&file) {
            return Ok(None);
        }
        self.tell(book, place, &spent, notes)?;
        Err(Fault::Slip(Slip::Book))
    }

    // Tells of a leaf that the book does not keep for what it signs, and what is to be done.
    fn tell<S: Alter, E: Write>(
        &self,
        book: &Book<S>,
        place: &str,
        spent: &Spent,
        notes: &mut Notes<'_, E>,
    ) -> Result<(), Fault> {
        let leaf = spent.number();
        if spent.is_used(book, &self.signer.top) {
            let told = format!(in self.alloc;
                "leaf {leaf} has signed {place}, and another document in this book: anybody may sign by it, so replace the key by a new root"
            )?;
            notes.warn(&self.name, &told);
            return Ok(());
        }
        let told = format!(in self.alloc;
            "leaf {leaf} of another book in {place}: sign with the book that has this leaf, or replace the key by a new root"
        )?;
        notes.warn(&self.name, &told);
        Ok(())
    }
}

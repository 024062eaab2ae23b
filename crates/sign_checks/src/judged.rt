//! What is looked at before a leaf is spent on a draft, in this order; the first that fails is the answer.
use crate::guarding::{Guard, Seen, Signer};
use cli_faults::{Denial, Fault, Notes, Slip};
use draft_folder::{
    Folder, Said, TargetsRead, held_said, listed_otherwise, read_said, read_said_of, see_link,
};
use judging::{Refusal, follows};
use metadata::{Kind, Moment, live};
use reasons::place_of;
use signer::Book;
use sqlite::Alter;
use std::alloc::{AllocError, Global};
use std::io::Write;

/// By what a draft is judged: the folder, the key with its name, and the moment. The folder is read once, and again where it may have changed
/// otherwise than by the signatures of which it is told.
#[derive(Drop)]
pub struct Judged<'a> {
    pub alloc: Global,
    pub folder: Folder<'a>,
    pub signer: &'a Signer,
    pub name: &'a str,
    now: Moment,
    targets: TargetsRead<'a>,
    seen: Vec<Vec<Seen>>,
}

impl<'a> Judged<'a> {
    pub fn new(
        alloc: Global,
        folder: Folder<'a>,
        signer: &'a Signer,
        name: &'a str,
        now: Moment,
    ) -> Judged<'a> {
        Judged {
            alloc,
            folder,
            signer,
            name,
            now,
            targets: TargetsRead::new(alloc, folder),
            seen: Vec::new(alloc),
        }
    }

    /// The folder is read again: another command may have written in it.
    pub fn forget(&mut self) {
        self.targets = TargetsRead::new(self.alloc, self.folder);
        self.seen = Vec::new(self.alloc);
    }

    /// The file at this place in the folder is read again: it was signed.
    pub fn written(&mut self, place: &str) {
        self.targets.written(place);
        for files in &mut self.seen {
            for file in files {
                file.written(place);
            }
        }
    }

    /// Whether a rule of a role has the key.
    pub fn has_rule<E: Write>(
        &mut self,
        role: &str,
        notes: &mut Notes<'_, E>,
    ) -> Result<bool, Fault> {
        self.targets.have_key(role, self.signer.id(), notes)
    }

    /// Whether the owners of a target's layout have the key.
    pub fn is_owner<E: Write>(
        &mut self,
        target: &str,
        notes: &mut Notes<'_, E>,
    ) -> Result<bool, Fault> {
        let owners = self.targets.owners(target, notes)?;
        Ok(
            owners
                .iter()
                .any(|vouching| vouching.rule.keyids.contains(self.signer.id())),
        )
    }

    /// Judges the draft of a role: its shape; whether a rule has the key for it; whether the book knows each signature of the key that stands
    /// in the folder; what is held, whose version it follows; its expiry; the signatures of what it is over; and the files that it lists.
    pub fn judge<S: Alter, E: Write>(
        &mut self,
        book: &Book<S>,
        role: &str,
        bytes: &[u8],
        notes: &mut Notes<'_, E>,
    ) -> Result<(), Fault> {
        match read_said(self.alloc, role, bytes) {
            Ok(said) => self.judge_said(book, role, bytes, &said, notes),
            Err(fault) => {
                self.tell_place(Kind::of_role(role), role, bytes, notes);
                let name = format!(in self.alloc; "{role}.json")?;
                Err(self.folder.fault_of(name.as_str(), fault, notes))
            }
        }
    }

    // Tells where a document is at fault that is none of its kind.
    fn tell_place<E: Write>(&self, kind: Kind, name: &str, bytes: &[u8], notes: &mut Notes<'_, E>) {
        if let Ok(Some(place)) = place_of(self.alloc, kind, bytes) {
            notes.warn(&name, &place);
        }
    }

    fn judge_said<S: Alter, E: Write>(
        &mut self,
        book: &Book<S>,
        role: &str,
        bytes: &[u8],
        said: &Said,
        notes: &mut Notes<'_, E>,
    ) -> Result<(), Fault> {
        self.see_rule(role, notes)?;
        self.see_book(book, notes)?;
        let held = held_said(self.alloc, self.folder, role, notes)?;
        self.see_held(role, bytes, notes)?;
        self.see_said(role, held.as_ref(), said, notes)
    }

    /// Judges a layout: its shape; whether its owners' rule has the key; whether the book knows each signature of the key; and its expiry.
    pub fn judge_layout<S: Alter, E: Write>(
        &mut self,
        book: &Book<S>,
        target: &str,
        bytes: &[u8],
        notes: &mut Notes<'_, E>,
    ) -> Result<(), Fault> {
        match read_said_of(self.alloc, Kind::Layout, bytes) {
            Ok(said) => {
                self.see_owners(target, notes)?;
                self.see_book(book, notes)?;
                self.see_expiry(target, &said, notes)
            }
            Err(fault) => {
                self.tell_place(Kind::Layout, target, bytes, notes);
                Err(fault)
            }
        }
    }

    /// Judges a link: its shape, and whether the book knows each signature of the key.
    pub fn judge_link<S: Alter, E: Write>(
        &mut self,
        book: &Book<S>,
        name: &str,
        bytes: &[u8],
        notes: &mut Notes<'_, E>,
    ) -> Result<(), Fault> {
        if let Err(fault) = see_link(self.alloc, bytes, self.signer.id()) {
            notes.warn(&name, &"it is no link");
            return Err(fault);
        }
        self.see_book(book, notes)
    }

    // The owners of a target's layout have the key.
    fn see_owners<E: Write>(
        &mut self,
        target: &str,
        notes: &mut Notes<'_, E>,
    ) -> Result<(), Fault> {
        if self.is_owner(target, notes)? {
            return Ok(());
        }
        notes.warn(&target, &"its layout's owners do not have this key");
        Err(Fault::Slip(Slip::Stranger))
    }

    fn see_expiry<E: Write>(
        &self,
        role: &str,
        said: &Said,
        notes: &mut Notes<'_, E>,
    ) -> Result<(), Fault> {
        if said.expires.is_some_and(|expires| !live(expires, self.now)) {
            notes.warn(&role, &"it expires at the moment or before it");
            return Err(Fault::Slip(Slip::Past));
        }
        Ok(())
    }

    fn see_said<E: Write>(
        &mut self,
        role: &str,
        held: Option<&Said>,
        said: &Said,
        notes: &mut Notes<'_, E>,
    ) -> Result<(), Fault> {
        self.see_expiry(role, said, notes)?;
        self.see_order(role, notes)?;
        self.see_layouts(said, notes)?;
        self.see_files(held, said, notes)
    }

    // The document may follow what is held of its role. A timestamp of the held one's version would count as the same, and never be taken.
    fn see_held<E: Write>(
        &self,
        role: &str,
        bytes: &[u8],
        notes: &mut Notes<'_, E>,
    ) -> Result<(), Fault> {
        let Some(held) = self.folder.held(role, notes)? else {
            return Ok(());
        };
        let denial = match follows(self.alloc, Kind::of_role(role), &held, bytes) {
            Ok(true) => return Ok(()),
            Ok(false) => Denial::TimestampRollback,
            Err(Refusal::Denied(denial)) => denial,
            Err(Refusal::OutOfMemory) => return Err(Fault::from(AllocError)),
        };
        notes.warn(&role, &denial.name());
        Err(Fault::Denied(denial, None))
    }

    // A rule has the key for the role's document.
    fn see_rule<E: Write>(&mut self, role: &str, notes: &mut Notes<'_, E>) -> Result<(), Fault> {
        if self.has_rule(role, notes)? {
            return Ok(());
        }
        notes.warn(&role, &"no rule has this key for it");
        Err(Fault::Slip(Slip::Stranger))
    }

    // The book knows each signature of the key that stands in the folder.
    fn see_book<S: Alter, E: Write>(
        &mut self,
        book: &Book<S>,
        notes: &mut Notes<'_, E>,
    ) -> Result<(), Fault> {
        let guard = Guard {
            alloc: self.alloc,
            folder: self.folder,
            signer: self.signer,
            name: self.name,
        };
        guard.see(&mut self.seen, book, notes)
    }

    // A snapshot or timestamp is over documents that have their signatures.
    fn see_order<E: Write>(&mut self, role: &str, notes: &mut Notes<'_, E>) -> Result<(), Fault> {
        if role != "snapshot" && role != "timestamp" {
            return Ok(());
        }
        self.targets.see_signatures(role, notes)
    }

    // Targets metadata list layouts and links as they stand, so these are signed first.
    fn see_layouts<E: Write>(
        &mut self,
        said: &Said,
        notes: &mut Notes<'_, E>,
    ) -> Result<(), Fault> {
        let Some(target) = self.targets.unfinished_layout(said, notes)? else {
            return Ok(());
        };
        notes.warn(
            &target,
            &"its layout is not signed, or links are wanting: it would be listed otherwise after that",
        );
        Err(Fault::Slip(Slip::Order))
    }

    // Each listed file is in the folder, or is listed so in what is held.
    fn see_files<E: Write>(
        &self,
        held: Option<&Said>,
        said: &Said,
        notes: &mut Notes<'_, E>,
    ) -> Result<(), Fault> {
        for file in &said.files {
            let is_held = held.is_some_and(|held| held.has_file(file.length, &file.digest));
            if !is_held && !self.folder.has_file(&file.digest, file.length, notes)? {
                notes.warn(
                    &file.path,
                    &"its file is neither in the folder nor held, or is another one",
                );
                return Err(Fault::Slip(Slip::File));
            }
        }
        self.see_listed(said, notes)
    }

    // Layouts and links are listed as they stand here: they may have been signed since.
    fn see_listed<E: Write>(&self, said: &Said, notes: &mut Notes<'_, E>) -> Result<(), Fault> {
        let Some(path) = listed_otherwise(self.alloc, self.folder, said, notes)? else {
            return Ok(());
        };
        notes.warn(
            &path,
            &"it has changed since it was listed; draft the targets metadata again",
        );
        Err(Fault::Slip(Slip::File))
    }
}

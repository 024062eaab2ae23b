//! A key whose files were read and whose book has it.
use crate::files::{KeyFiles, book_place, leaf_count};
use crate::one::Knowing;
use cli_faults::{Fault, Notes, Slip};
use lms::Params;
use sign_books::{BookAt, BookLook, BookWork, Pair, looked_over, worked_over};
use sign_checks::Signer;
use std::io::Write;

/// A key by its name: its files, by what its signatures are known, where its book stands, and of two levels the parameters of the trees below.
#[derive(Drop)]
pub struct ReadyKey {
    pub name: String,
    pub files: KeyFiles,
    pub signer: Signer,
    pub lower: Option<Params>,
    book: String,
}

impl ReadyKey {
    /// The key of this name. Its book is there, and has it.
    pub fn read<E: Write>(
        rt: &HostRuntime,
        name: &str,
        notes: &mut Notes<'_, E>,
    ) -> Result<ReadyKey, Fault> {
        let files = KeyFiles::read(rt, name, notes)?;
        let mut key = ReadyKey {
            name: String::from_str(rt.alloc(), name)?,
            files,
            signer: Signer::new(rt.alloc(), files.half.key)?,
            lower: None,
            book: book_place(rt, name)?,
        };
        let half = &files.half;
        match key.look_over(rt, &mut Knowing { half }, notes)? {
            Some(lower) => key.lower = lower,
            None => return Err(key.unknown(notes)),
        }
        Ok(key)
    }

    /// Does what is to be done over the key's book, which has to be there and to have the key.
    pub fn work_over<W: BookWork, E: Write>(
        &self,
        rt: &HostRuntime,
        work: &mut W,
        notes: &mut Notes<'_, E>,
    ) -> Result<W::Done, Fault> {
        match worked_over(rt, self.at(), work, notes) {
            Err(Fault::UnknownKey) => Err(self.unknown(notes)),
            done => done,
        }
    }

    /// Looks for something in that book.
    pub fn look_over<W: BookLook, E: Write>(
        &self,
        rt: &HostRuntime,
        look: &mut W,
        notes: &mut Notes<'_, E>,
    ) -> Result<W::Done, Fault> {
        match looked_over(rt, self.at(), look, notes) {
            Err(Fault::UnknownKey) => Err(self.unknown(notes)),
            done => done,
        }
    }

    fn at(&self) -> BookAt<'_> {
        BookAt {
            place: self.book.as_str(),
            name: self.name.as_str(),
            known: true,
        }
    }

    fn unknown<E: Write>(&self, notes: &mut Notes<'_, E>) -> Fault {
        notes.warn(&self.name, &"its book does not have the key");
        Fault::Slip(Slip::Book)
    }

    /// The key pair, whose tree is hashed.
    pub fn pair<E: Write>(
        &self,
        rt: &HostRuntime,
        notes: &mut Notes<'_, E>,
    ) -> Result<Pair, Fault> {
        self.files.pair(rt, self.lower, notes)
    }

    /// How many documents it signs in all.
    pub fn most(&self) -> u32 {
        leaf_count(self.files.half.params, self.lower)
    }
}

//! One document of a folder, which is judged and signed over the book of a key.
ghost use Rattle.std.specs.Prelude.{◌≡◌, IfOk, false};
ghost use Rattle.sign_books.specs.Works.{IsSignedBy, IsSignedOnceBy, Leads};

use crate::files::PublicHalf;
use cli_faults::{Fault, Notes, Slip};
use leaf_plans::leaves_of;
use lms::Params;
use metadata::read_signed;
use sign_books::{BookLook, BookWork, Pair, book_fault, tell_of_other_tree};
use sign_checks::Judged;
use signer::{Book, BookFault, SignFileFault, SignOnceFault, lower_params};
use sqlite::Alter;
use std::io::Write;

/// What is signed of a folder: a draft of a role, the layout of a target, or a link by its name.
#[derive(Clone, Copy)]
pub enum What<'a> {
    Draft(&'a str),
    Layout(&'a str),
    Link(&'a str),
}

/// What is signed, and its place in the folder.
#[derive(Clone, Copy)]
pub struct One<'a> {
    pub what: What<'a>,
    pub place: &'a str,
}

impl<'a> One<'a> {
    /// What it is called: its role, or its place.
    pub fn name(&self) -> &'a str {
        match self.what {
            What::Draft(role) => role,
            What::Layout(_) | What::Link(_) => self.place,
        }
    }

    fn judge<S: Alter, E: Write>(
        &self,
        judged: &mut Judged<'_>,
        book: &Book<S>,
        bytes: &[u8],
        notes: &mut Notes<'_, E>,
    ) -> Result<(), Fault> {
        match self.what {
            What::Draft(role) => judged.judge(book, role, bytes, notes),
            What::Layout(target) => judged.judge_layout(book, target, bytes, notes),
            What::Link(name) => judged.judge_link(book, name, bytes, notes),
        }
    }
}

/// Whether the book has a key, and of one of two levels the parameters of the trees below, which the book says.
#[derive(Clone, Copy)]
pub struct Knowing<'a> {
    pub half: &'a PublicHalf,
}

impl BookLook for Knowing<'_> {
    type Done = Option<Option<Params>>;

    fn look<S: Alter, E: Write>(
        &mut self,
        book: &Book<S>,
        _notes: &mut Notes<'_, E>,
    ) -> Result<Option<Option<Params>>, Fault> {
        if book.registered(&self.half.top).is_none() {
            return Ok(None);
        }
        if !self.half.has_two_levels() {
            return Ok(Some(None));
        }
        match lower_params(book, &self.half.top) {
            Some(lower) => Ok(Some(Some(lower))),
            None => Ok(None),
        }
    }
}

/// Judges a document over the book.
#[derive(Drop)]
pub struct Judging<'m, 'j, 'o> {
    pub judged: &'m mut Judged<'j>,
    pub one: One<'o>,
    pub bytes: &'o [u8],
}

impl BookLook for Judging<'_, '_, '_> {
    type Done = ();

    fn look<S: Alter, E: Write>(
        &mut self,
        book: &Book<S>,
        notes: &mut Notes<'_, E>,
    ) -> Result<(), Fault> {
        self.one.judge(self.judged, book, self.bytes, notes)
    }
}

/// Judges a document and signs it, by the book that has the key; and whether another document of its kind and version may be signed.
#[derive(Drop)]
pub struct SigningOne<'m, 'j, 'o, 'p> {
    pub judging: Judging<'m, 'j, 'o>,
    pub pair: &'p mut Pair,
    pub again: bool,
    /// Whether somebody sees on a terminal what takes a while.
    pub is_watched: bool,
}

impl BookWork for SigningOne<'_, '_, '_, '_> {
    ghost use Rattle.std.specs.Prelude.{◌≡◌, IfOk, false};
    ghost use Rattle.sign_books.specs.Works.{IsSignedBy, IsSignedOnceBy};

    type Done = Vec<u8>;

    ghost does = { λ work b r c _. IfOk r (λ out. IsSignedBy work.pair.now work.judging.bytes.now b out.items c
        × (work.again ≡ false → IsSignedOnceBy work.pair.now work.judging.bytes.now b out.items c)) };

    fn work<S: Alter, E: Write>(
        &mut self,
        book: &mut Book<S>,
        _is_new: bool,
        notes: &mut Notes<'_, E>,
    ) -> Result<Vec<u8>, Fault> {
        let (one, bytes) = (self.judging.one, self.judging.bytes);
        one.judge(self.judging.judged, book, bytes, notes)?;
        if book.registered(self.judging.judged.signer.top()).is_none() {
            return Err(Fault::UnknownKey);
        }
        self.tell_tree(book, notes);
        self.signed(book, notes)
    }
}

impl SigningOne<'_, '_, '_, '_> {
    // Tells on a terminal where a key of two levels begins a new tree: its leaf of the top tree is the next one.
    fn tell_tree<S: Alter, E: Write>(&self, book: &Book<S>, notes: &mut Notes<'_, E>) {
        let judged = &self.judging.judged;
        let Ok(file) = read_signed(judged.alloc, self.judging.bytes) else {
            return;
        };
        let Some((q, lower)) = self.pair.tree_of(judged.alloc, book, file.signed) else {
            return;
        };
        if self.is_watched && book.next_leaf(judged.signer.top()) == Some(q) {
            let most = leaves_of(self.pair.top().params());
            let each = leaves_of(lower);
            let line = format!(in judged.alloc;
                "a new tree, number {q} of {most}: hashing its {each} leaves"
            );
            if let Ok(line) = line {
                notes.progress(&line);
            }
        }
    }

    // The document with the key's signature.
    fn signed<S: Alter, E: Write>(
        &mut self,
        book: &mut Book<S>,
        notes: &mut Notes<'_, E>,
    ) -> Result<Vec<u8>, Fault>
        ensures signed { IfOk result (λ out. IsSignedBy self.old.pair.now self.old.judging.bytes.now book.old.book out.items book.new.book) }
        ensures once { self.old.again ≡ false → IfOk result (λ out. IsSignedOnceBy self.old.pair.now self.old.judging.bytes.now book.old.book out.items book.new.book) }
        ensures leads { Leads book.old.book book.new.book }
    {
        let alloc = self.judging.judged.alloc;
        let (one, bytes) = (self.judging.one, self.judging.bytes);
        if self.again {
            return match self.pair.sign(alloc, book, bytes) {
                Ok(signed) => Ok(signed),
                Err(fault) => Err(self.fault_of(fault, book, notes)),
            };
        }
        match self.pair.sign_once(alloc, book, bytes) {
            Ok(signed) => Ok(signed),
            Err(SignOnceFault::Other(_)) => {
                notes.warn(
                    &one.name(),
                    &"the key has signed another document of this kind and version; --again goes on",
                );
                Err(Fault::Slip(Slip::Other))
            }
            Err(SignOnceFault::Unsigned(fault)) => Err(self.fault_of(fault, book, notes)),
        }
    }

    fn fault_of<S: Alter, E: Write>(
        &self,
        fault: SignFileFault,
        book: &Book<S>,
        notes: &mut Notes<'_, E>,
    ) -> Fault {
        match fault {
            SignFileFault::Denied(denial) => Fault::Denied(denial, None),
            SignFileFault::Book(BookFault::OtherTree) => {
                let judged = &self.judging.judged;
                let top = self.pair.top();
                let tree = (top.seed(), top.params(), judged.signer.top());
                match tell_of_other_tree(judged.alloc, judged.name, book, tree, notes) {
                    Ok(_) => Fault::Slip(Slip::Book),
                    Err(fault) => fault,
                }
            }
            SignFileFault::Book(fault) => book_fault(fault),
            SignFileFault::OutOfMemory => Fault::Memory,
        }
    }
}

//! `sign`: signs a document by a leaf that no other document gets.
ghost use Rattle.std.specs.Prelude.{IfOk};
ghost use Rattle.signer.specs.Files.{SignsFile};
ghost use Rattle.sign_books.specs.Works.{Leads};

use crate::seeds::seed_at;
use cli_faults::{Fault, Notes, Slip, moment};
use cli_files::{FILE_LIMIT, print, read_at_most};
use cli_tasks::Signing;
use draft_folder::typed_kind;
use keys_roles::{Key, KeyId, key_id};
use lms::{KeyPair, Params, SigningHeight};
use metadata::{Kind, read_signed};
use reasons::place_of;
use sign_books::{BookAt, BookWork, book_fault, tell_of_other_tree, worked_over};
use signer::{Book, BookFault, Seed, SignFileFault, sign_file_with};
use sqlite::Alter;
use std::alloc::Global;
use std::io::{IsTerminal, Write};

/// Prints the document with a signature of the seed's key. The leaf is reserved in the book, which is made where there is none, before
/// anything is signed; the same document gets the same leaf again. A book that is made, and a key that is put into it, are warned of: a
/// second book for a key signs a second document by the same leaf. Where the book has to be known, none is made, and no key put into it.
pub fn sign<O: Write, E: Write>(
    rt: &HostRuntime,
    asked: &Signing,
    at: Option<u64>,
    out: &mut O,
    notes: &mut Notes<'_, E>,
) -> Result<(), Fault> {
    let _now = moment(rt, at)?;
    let seed = seed_at(rt, asked.seed.as_str(), notes)?;
    let file = asked.file.as_str();
    let bytes = read_at_most(rt, file, FILE_LIMIT, notes)?;
    warn_of_shape(rt.alloc(), file, &bytes, notes);
    let signed = signed_by(rt, &seed, asked, &bytes, notes)?;
    print(out, &signed, notes)
}

// Warns where the document is none of the kind that it says it is: it would be denied once it is signed.
fn warn_of_shape<E: Write>(alloc: Global, name: &str, bytes: &[u8], notes: &mut Notes<'_, E>) {
    let Ok(file) = read_signed(alloc, bytes) else {
        return;
    };
    let Some(kind) = typed_kind(file.signed) else {
        return;
    };
    // A link without a signature is none yet.
    if kind == Kind::Link && file.signatures.is_empty() {
        return;
    }
    if let Ok(Some(place)) = place_of(alloc, kind, bytes) {
        if let Ok(told) = format!(in alloc; "it would be denied: {place}") {
            notes.warn(&name, &told);
        }
    }
}

fn signed_by<E: Write>(
    rt: &HostRuntime,
    seed: &Seed,
    asked: &Signing,
    bytes: &[u8],
    notes: &mut Notes<'_, E>,
) -> Result<Vec<u8>, Fault> {
    let at = BookAt {
        place: asked.book.as_str(),
        name: asked.book.as_str(),
        known: asked.known,
    };
    let mut work = Appending {
        rt,
        seed,
        asked,
        bytes,
    };
    worked_over(rt, at, &mut work, notes)
}

// Puts a signature to a document.
#[derive(Clone, Copy)]
struct Appending<'a> {
    rt: &'a HostRuntime,
    seed: &'a Seed,
    asked: &'a Signing,
    bytes: &'a [u8],
}

impl BookWork for Appending<'_> {
    ghost use Rattle.std.specs.Prelude.{IfOk};
    ghost use Rattle.signer.specs.Files.{SignsFile};

    type Done = Vec<u8>;

    ghost does = { λ work b r c _. IfOk r (λ out. SignsFile b work.seed.now work.asked.now.params work.bytes.now out.items c) };

    fn work<S: Alter, E: Write>(
        &mut self,
        book: &mut Book<S>,
        is_new: bool,
        notes: &mut Notes<'_, E>,
    ) -> Result<Vec<u8>, Fault> {
        let asked = self.asked;
        if is_new {
            notes.warn(&asked.book, &"a new book");
        }
        tell_of_tree(self.rt, asked.params, notes);
        signed_with(self.rt.alloc(), book, self.seed, asked, self.bytes, notes)
    }
}

fn signed_with<S: Alter, E: Write>(
    alloc: Global,
    book: &mut Book<S>,
    seed: &Seed,
    asked: &Signing,
    bytes: &[u8],
    notes: &mut Notes<'_, E>,
) -> Result<Vec<u8>, Fault>
    ensures signed { IfOk result (λ out. SignsFile book.old.book seed.now asked.now.params bytes.now out.items book.new.book) }
    ensures leads { Leads book.old.book book.new.book }
{
    let pair = KeyPair::new(alloc, seed, asked.params)?;
    let id = key_id(alloc, &Key::Lms(pair.public()))?;
    let was_known = is_registered(book, &id);
    if asked.known && !was_known {
        notes.fault(&asked.book, &"the book does not have the key");
        return Err(Fault::UnknownKey);
    }
    let signed = sign_file_with(alloc, book, &pair, bytes);
    if !was_known && is_registered(book, &id) {
        notes.warn(&asked.book, &"a new key ID");
    }
    match signed {
        Ok(signed) => Ok(signed),
        Err(SignFileFault::Book(BookFault::OtherTree)) => {
            let tree = (seed, asked.params, &id);
            tell_of_other_tree(alloc, asked.book.as_str(), book, tree, notes)?;
            Err(Fault::Slip(Slip::Book))
        }
        Err(fault) => Err(tell_fault(fault, asked, notes)),
    }
}

fn is_registered<S: Alter>(book: &Book<S>, id: &KeyId) -> bool {
    book.registered(id).is_some()
}

/// Tells on a terminal that the hashes of a tree of height 10 take seconds.
pub fn tell_of_tree<E: Write>(rt: &HostRuntime, params: Params, notes: &mut Notes<'_, E>) {
    if params.height == SigningHeight::H10 && rt.stderr().is_terminal() {
        notes.progress(&"hashing the 1,024 leaves of the key");
    }
}

// What a fault of signing comes to. It is told with the file that it is about.
fn tell_fault<E: Write>(fault: SignFileFault, asked: &Signing, notes: &mut Notes<'_, E>) -> Fault {
    match fault {
        SignFileFault::Denied(denial) => {
            notes.denied(&asked.file, denial.number());
            Fault::Denied(denial, None)
        }
        SignFileFault::Book(fault) => {
            notes.fault(&asked.book, &fault);
            book_fault(fault)
        }
        SignFileFault::OutOfMemory => Fault::Memory,
    }
}

//! How a key stands to a message, by which one of several is chosen.
use crate::files::PublicHalf;
use crate::leaves::{trees_of, used_in};
use cli_faults::{Fault, Notes};
use keys_roles::KeyId;
use leaf_plans::leaf_for;
use lms::Params;
use sign_books::{BookLook, book_fault};
use signer::{Book, SignFileFault, other_document};
use sqlite::Alter;
use std::alloc::Global;
use std::io::Write;

/// How a key stands to a message.
#[derive(Clone, Copy)]
pub enum Standing {
    /// Its book keeps a leaf for the message: signed again, it gets this one.
    Keeps,
    /// It has a leaf left.
    HasLeaf,
    /// Its book keeps a leaf for another document of this kind and version.
    Other,
    /// All its leaves are kept for other messages.
    Spent,
}

/// Asks a book how its key stands to a message.
#[derive(Clone, Copy)]
pub struct Asking<'a> {
    pub alloc: Global,
    pub half: &'a PublicHalf,
    pub lower: Option<Params>,
    /// The id of its top tree's key.
    pub top: &'a KeyId,
    pub file: &'a [u8],
    pub message: &'a [u8],
}

impl BookLook for Asking<'_> {
    type Done = Standing;

    fn look<S: Alter, E: Write>(
        &mut self,
        book: &Book<S>,
        _notes: &mut Notes<'_, E>,
    ) -> Result<Standing, Fault> {
        if self.is_kept(book)? {
            return Ok(Standing::Keeps);
        }
        match other_document(self.alloc, book, self.top, self.file) {
            Ok(None) => {}
            Ok(Some(_)) => return Ok(Standing::Other),
            Err(fault) => return Err(unlooked(fault)),
        }
        let (used, most) = used_in(self.alloc, book, self.half, self.lower)?;
        if used < most {
            Ok(Standing::HasLeaf)
        } else {
            Ok(Standing::Spent)
        }
    }
}

impl Asking<'_> {
    // Whether a tree of the key keeps a leaf for the message.
    fn is_kept<S: Alter>(&self, book: &Book<S>) -> Result<bool, Fault> {
        for tree in &trees_of(self.alloc, book, self.half)? {
            if let Some(key) = tree {
                if leaf_for(book.kept(), key, self.message).is_some() {
                    return Ok(true);
                }
            }
        }
        Ok(false)
    }
}

// Why a book could not be asked for other documents.
fn unlooked(fault: SignFileFault) -> Fault {
    match fault {
        SignFileFault::Denied(denial) => Fault::Denied(denial, None),
        SignFileFault::Book(fault) => book_fault(fault),
        SignFileFault::OutOfMemory => Fault::Memory,
    }
}

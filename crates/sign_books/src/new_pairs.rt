//! New keys, which are registered in their books.
ghost use Rattle.sign_books.specs.Works.{Leads};

use crate::books::{BookWork, book_fault};
use cli_faults::{Fault, Notes};
use keys_roles::Key;
use lms::{HssKeyPair, KeyPair, Levels, Params, Seed};
use signer::{Book, sign_message};
use sqlite::Alter;
use std::alloc::{AllocError, Global};
use std::io::Write;

/// Of which kind new keys are: the parameters of the tree, and of the trees below in a key of two levels.
#[derive(Clone, Copy)]
pub struct NewKey {
    pub params: Params,
    pub lower: Option<Params>,
}

/// A new key whose trees are hashed; of two levels with its first tree below.
#[derive(Drop)]
pub enum NewPair {
    One(KeyPair),
    Two(HssKeyPair, KeyPair),
}

impl NewPair {
    /// The pairs of a seed.
    pub fn new(alloc: Global, seed: &Seed, kind: NewKey) -> Result<NewPair, AllocError> {
        let top = kind.params;
        let Some(bottom) = kind.lower else {
            return Ok(NewPair::One(KeyPair::new(alloc, seed, top)?));
        };
        let pair = HssKeyPair::new(alloc, seed, Levels { top, bottom })?;
        let below = pair.below(alloc, 0)?;
        Ok(NewPair::Two(pair, below))
    }

    /// Its public key.
    pub fn public(&self) -> Key {
        match self {
            NewPair::One(pair) => Key::Lms(pair.public()),
            NewPair::Two(pair, _) => Key::Hss(pair.public()),
        }
    }
}

/// Registers a key in a book; one of two levels with its first tree below, for which leaf 0 of the top tree is kept.
#[derive(Clone, Copy)]
pub struct Registering<'a> {
    pub alloc: Global,
    pub pair: &'a NewPair,
}

impl BookWork for Registering<'_> {
    type Done = ();

    fn work<S: Alter, E: Write>(
        &mut self,
        book: &mut Book<S>,
        _is_new: bool,
        _notes: &mut Notes<'_, E>,
    ) -> Result<(), Fault> {
        match self.pair {
            NewPair::One(pair) => register(book, pair),
            NewPair::Two(pair, below) => {
                keep_first_tree(self.alloc, book, pair.top(), below)?;
                register(book, below)
            }
        }
    }
}

fn register<S: Alter>(book: &mut Book<S>, pair: &KeyPair) -> Result<(), Fault>
    ensures { Leads book.old.book book.new.book }
{
    match book.register_pair(pair) {
        Ok(_) => Ok(()),
        Err(fault) => Err(book_fault(fault)),
    }
}

// Registers the top tree of a pair, and keeps its leaf 0 for the first tree below.
fn keep_first_tree<S: Alter>(
    alloc: Global,
    book: &mut Book<S>,
    top: &KeyPair,
    below: &KeyPair,
) -> Result<(), Fault>
    ensures { Leads book.old.book book.new.book }
{
    match sign_message(alloc, book, top, &below.public()) {
        Ok(_) => Ok(()),
        Err(fault) => Err(book_fault(fault)),
    }
}

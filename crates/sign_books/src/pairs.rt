//! The pair of a key of one level or of two, by which documents are signed.
ghost use Rattle.std.specs.Prelude.{IfOk};
ghost use Rattle.sign_books.specs.Works.{IsSignedBy, IsSignedOnceBy, Leads};

use lms::{HssKeyPair, KeyPair, Levels, Params};
use signer::{
    Book, HssSigner, Seed, SignFileFault, SignOnceFault, sign_file_below, sign_file_below_once,
    sign_file_once, sign_file_with, tree_for,
};
use sqlite::Alter;
use std::alloc::{AllocError, Global};

/// A pair of one level, or one of two, whose lower trees are made as they are wanted.
#[derive(Drop)]
pub enum Pair {
    One(KeyPair),
    Two(HssSigner),
}

impl Pair {
    /// The pair of a seed. It hashes the leaves of its tree, or of its top tree.
    pub fn new(
        alloc: Global,
        seed: &Seed,
        params: Params,
        lower: Option<Params>,
    ) -> Result<Pair, AllocError> {
        match lower {
            None => Ok(Pair::One(KeyPair::new(alloc, seed, params)?)),
            Some(bottom) => {
                let top = params;
                let pair = HssKeyPair::new(alloc, seed, Levels { top, bottom })?;
                Ok(Pair::Two(HssSigner::new(pair)))
            }
        }
    }

    /// The tree, or the top tree.
    pub fn top(&self) -> &KeyPair {
        match self {
            Pair::One(pair) => pair,
            Pair::Two(signer) => signer.pair().top(),
        }
    }

    /// The file with a signature of the key, where it has signed no other document of its kind and version.
    pub fn sign_once<S: Alter>(
        &mut self,
        alloc: Global,
        book: &mut Book<S>,
        file: &[u8],
    ) -> Result<Vec<u8>, SignOnceFault>
        ensures signed { IfOk result (λ out. IsSignedOnceBy self.old file.now book.old.book out.items book.new.book) }
        ensures leads { Leads book.old.book book.new.book }
    {
        match self {
            Pair::One(pair) => sign_file_once(alloc, book, pair, file),
            Pair::Two(signer) => sign_file_below_once(alloc, book, signer, file),
        }
    }

    /// The same, whatever it has signed.
    pub fn sign<S: Alter>(
        &mut self,
        alloc: Global,
        book: &mut Book<S>,
        file: &[u8],
    ) -> Result<Vec<u8>, SignFileFault>
        ensures signed { IfOk result (λ out. IsSignedBy self.old file.now book.old.book out.items book.new.book) }
        ensures leads { Leads book.old.book book.new.book }
    {
        match self {
            Pair::One(pair) => sign_file_with(alloc, book, pair, file),
            Pair::Two(signer) => sign_file_below(alloc, book, signer, file),
        }
    }

    /// The leaf of the top tree of a key of two levels whose tree signs the message, and the parameters of this tree.
    pub fn tree_of<S: Alter>(
        &self,
        alloc: Global,
        book: &Book<S>,
        message: &[u8],
    ) -> Option<(u32, Params)> {
        let Pair::Two(signer) = self else {
            return None;
        };
        let pair = signer.pair();
        let q = tree_for(alloc, book, pair, message)?;
        Some((q, pair.levels().bottom))
    }
}

//! Trees that one seed has in a book at two widths or heights, which share their one-time keys.
use cli_faults::{Fault, Notes};
use keys_roles::KeyId;
use lms::{OtsType, Params, Seed, SigningHeight};
use signer::Book;
use sqlite::Alter;
use std::alloc::Global;
use std::io::Write;

// The widths and heights that a tree may have, as words of a command line.
const TREES: [(OtsType, SigningHeight, &str); 8] = [
    (OtsType::W1, SigningHeight::H5, "--ots 1 --height 5"),
    (OtsType::W1, SigningHeight::H10, "--ots 1 --height 10"),
    (OtsType::W2, SigningHeight::H5, "--ots 2 --height 5"),
    (OtsType::W2, SigningHeight::H10, "--ots 2 --height 10"),
    (OtsType::W4, SigningHeight::H5, "--ots 4 --height 5"),
    (OtsType::W4, SigningHeight::H10, "--ots 4 --height 10"),
    (OtsType::W8, SigningHeight::H5, "--ots 8 --height 5"),
    (OtsType::W8, SigningHeight::H10, "--ots 8 --height 10"),
];

/// Warns of a tree that the seed of a key has in the book at another width or height, and says what is to be done. Whether there is one.
pub fn tell_of_other_tree<S: Alter, E: Write>(
    alloc: Global,
    name: &str,
    book: &Book<S>,
    pair: (&Seed, Params, &KeyId),
    notes: &mut Notes<'_, E>,
) -> Result<bool, Fault> {
    let (seed, params, id) = pair;
    let Some(words) = other_tree(book, seed, params) else {
        return Ok(false);
    };
    let told = if book.registered(id).is_some() {
        format!(in alloc;
            "two trees of this seed stand here, this one and that of {words}, and have the same one-time keys: replace both keys by a new root"
        )?
    } else {
        format!(in alloc;
            "the seed signs here with {words}, and at another width or height it has the same one-time keys: sign with {words}, or by a key with a seed of its own"
        )?
    };
    notes.warn(&name, &told);
    Ok(true)
}

// The words for a tree of the seed in the book other than this one, if there is one.
fn other_tree<S: Alter>(book: &Book<S>, seed: &Seed, params: Params) -> Option<&'static str> {
    for (ots, height, words) in TREES {
        let other = Params { ots, height };
        if other != params && book.has_tree(seed, other) {
            return Some(words);
        }
    }
    None
}

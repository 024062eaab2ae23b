//! How many leaves keys have left.
use crate::files::{PublicHalf, book_place, leaf_count};
use crate::seeds::seed_at;
use cli_faults::{Fault, Notes, Slip};
use keys_roles::{Key, KeyId, key_id};
use lms::Params;
use sign_books::{BookAt, BookLook, has_bytes, looked_over, tell_of_other_tree};
use signer::{Book, Seed, lower_params};
use sqlite::Alter;
use std::alloc::Global;
use std::io::Write;

/// Of each key of these names, by its public half and its book: its id, how many leaves are left, and of how many; of two levels over all
/// trees. Where its seed is there too, and has another tree in the book, no key may sign any more: that is refused.
pub fn leaves_of<E: Write>(
    rt: &HostRuntime,
    names: &[String],
    notes: &mut Notes<'_, E>,
) -> Result<Vec<(KeyId, u32, u32)>, Fault> {
    let mut found = Vec::new(rt.alloc());
    for name in names {
        let half = PublicHalf::read(rt, name.as_str(), notes)?;
        let (used, most) = used_of(rt, name.as_str(), &half, notes)?;
        found.push((half.id, most.saturating_sub(used), most))?;
    }
    Ok(found)
}

// How many leaves of the key its book keeps, and how many there are.
fn used_of<E: Write>(
    rt: &HostRuntime,
    name: &str,
    half: &PublicHalf,
    notes: &mut Notes<'_, E>,
) -> Result<(u32, u32), Fault> {
    let book = book_place(rt, name)?;
    if !has_bytes(rt, book.as_str()) {
        notes.warn(&book, &"no such book");
        return Err(Fault::Slip(Slip::Book));
    }
    let seed = seed_if_there(rt, name, notes)?;
    let at = BookAt {
        place: book.as_str(),
        name: book.as_str(),
        known: false,
    };
    let mut counting = Counting {
        alloc: rt.alloc(),
        name,
        half,
        seed,
    };
    looked_over(rt, at, &mut counting, notes)
}

// The seed of the key of this name, which need not be where leaves are counted.
fn seed_if_there<E: Write>(
    rt: &HostRuntime,
    name: &str,
    notes: &mut Notes<'_, E>,
) -> Result<Option<Seed>, Fault> {
    let place = format!(in rt.alloc(); "{name}.seed")?;
    if !has_bytes(rt, place.as_str()) {
        return Ok(None);
    }
    Ok(Some(seed_at(rt, place.as_str(), notes)?))
}

// Counts the leaves of a key, if its seed has no other tree.
#[derive(Clone, Copy)]
struct Counting<'a> {
    alloc: Global,
    name: &'a str,
    half: &'a PublicHalf,
    seed: Option<Seed>,
}

impl BookLook for Counting<'_> {
    type Done = (u32, u32);

    fn look<S: Alter, E: Write>(
        &mut self,
        book: &Book<S>,
        notes: &mut Notes<'_, E>,
    ) -> Result<(u32, u32), Fault> {
        let id = &self.half.top;
        if let Some(seed) = &self.seed {
            let tree = (seed, self.half.params, id);
            if tell_of_other_tree(self.alloc, self.name, book, tree, notes)? {
                return Err(Fault::Slip(Slip::Book));
            }
        }
        if !self.half.has_two_levels() {
            return used_in(self.alloc, book, self.half, None);
        }
        let Some(lower) = lower_params(book, id) else {
            notes.warn(&self.name, &"its book does not have the key");
            return Err(Fault::Slip(Slip::Book));
        };
        used_in(self.alloc, book, self.half, Some(lower))
    }
}

/// How many leaves of a key its book keeps, and how many there are; of two levels, whose trees below have these parameters, over all trees. A
/// leaf of a top tree that is kept for no tree has none to give.
pub fn used_in<S: Alter>(
    alloc: Global,
    book: &Book<S>,
    half: &PublicHalf,
    lower: Option<Params>,
) -> Result<(u32, u32), Fault> {
    let each = match lower {
        Some(lower) => leaf_count(lower, None),
        None => 0,
    };
    let mut used = 0u32;
    for tree in &trees_of(alloc, book, half)? {
        let here = match tree {
            Some(key) => count_of(book, key),
            None => each,
        };
        used = used.saturating_add(here);
    }
    Ok((used, leaf_count(half.params, lower)))
}

/// The trees by which a key signs documents, as the ids of their keys: its own tree, or of two levels each that a leaf of the top tree is kept
/// for, and `None` of a leaf that is kept for something else.
pub fn trees_of<S: Alter>(
    alloc: Global,
    book: &Book<S>,
    half: &PublicHalf,
) -> Result<Vec<Option<KeyId>>, Fault> {
    let mut trees = Vec::new(alloc);
    if !half.has_two_levels() {
        trees.push(Some(half.top))?;
        return Ok(trees);
    }
    for kept in book.kept() {
        if kept.key == half.top {
            trees.push(tree_in(alloc, &kept.message)?)?;
        }
    }
    Ok(trees)
}

// The id of the public key that a leaf of a top tree is kept for, if it is one.
fn tree_in(alloc: Global, message: &[u8]) -> Result<Option<KeyId>, Fault> {
    match message.as_array::<56>() {
        Some(public) => Ok(Some(key_id(alloc, &Key::Lms(*public))?)),
        None => Ok(None),
    }
}

fn count_of<S: Alter>(book: &Book<S>, id: &KeyId) -> u32 {
    let mut count = 0u32;
    for kept in book.kept() {
        if kept.key == *id {
            count = count.saturating_add(1);
        }
    }
    count
}

//! Where in a document a reading stands.
use std::cmp::min;

/// A step from a value to a part of it.
#[derive(Clone, Copy)]
pub enum Part {
    /// The member of this name.
    Member(&'static str),
    /// The member at this place of an object whose names a document is free to choose, counted from 0.
    Entry(usize),
    /// The item at this place of a list, counted from 0.
    Item(usize),
}

// The parts of the longest way into a document: to the public key in a table of the layout that a target refers to.
const MOST_PARTS: usize = 9;

/// The way from a document to the part that is read. A reader that fails leaves it where it stood, so that it tells where the fault is.
/// No reader asks what it says. It takes no memory.
#[derive(Drop)]
pub struct Trail {
    parts: [Part; MOST_PARTS],
    depth: usize,
}

impl Trail {
    /// The way to the document itself.
    pub fn new() -> Trail {
        Trail {
            parts: [Part::Item(0); MOST_PARTS],
            depth: 0,
        }
    }

    /// Goes to the member of this name of the object where it stands.
    pub fn enter(&mut self, name: &'static str) {
        self.push(Part::Member(name));
    }

    /// Goes to the first member of the object where it stands, whatever its name.
    pub fn enter_entries(&mut self) {
        self.push(Part::Entry(0));
    }

    /// Goes to the first item of the list where it stands.
    pub fn enter_items(&mut self) {
        self.push(Part::Item(0));
    }

    /// Goes from the member where it stands to the one of this name.
    pub fn turn(&mut self, name: &'static str) {
        self.leave();
        self.enter(name);
    }

    /// Goes from the member or the item where it stands to the one after it.
    pub fn next(&mut self) {
        self.leave();
        let next = match self.parts.get(self.depth) {
            Some(Part::Entry(place)) => Part::Entry(place.saturating_add(1)),
            Some(Part::Item(place)) => Part::Item(place.saturating_add(1)),
            _ => Part::Item(0),
        };
        self.push(next);
    }

    /// Goes back to the value that the part is of.
    pub fn leave(&mut self) {
        self.depth = self.depth.saturating_sub(1);
    }

    fn push(&mut self, part: Part) {
        if self.depth < MOST_PARTS {
            self.parts[self.depth] = part;
        }
        self.depth = self.depth.saturating_add(1);
    }

    /// The steps from the document, the first one first: at most nine.
    pub fn parts(&self) -> &[Part] {
        self.parts.get(..min(self.depth, MOST_PARTS)).unwrap_or(&[])
    }
}

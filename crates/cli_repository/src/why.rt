//! What a repository holds, as it is asked for why documents were denied.
use cli_faults::Notes;
use reasons::{HeldFiles, reason};
use std::alloc::Global;
use std::io::Write;
use store::Held;

/// What a repository holds. It is looked at, and nothing is asked of its database.
#[derive(Clone, Copy)]
pub struct Holding<'a> {
    pub held: &'a Held,
}

impl HeldFiles for Holding<'_> {
    fn ask(&self, alloc: Global, name: &str) -> Option<Option<Vec<u8>>> {
        match self.held.metadata_file(name) {
            Some(bytes) => Some(Some(Vec::from_slice(alloc, bytes).ok()?)),
            None => Some(None),
        }
    }

    fn root_version(&self) -> Option<u32> {
        self.held.root_version()
    }
}

// Nothing is held.
#[derive(Clone, Copy)]
struct Nothing;

impl HeldFiles for Nothing {
    fn ask(&self, _alloc: Global, _name: &str) -> Option<Option<Vec<u8>>> {
        Some(None)
    }

    fn root_version(&self) -> Option<u32> {
        None
    }
}

/// Tells why a first root was denied, by the number of the denial.
pub fn tell_first_root<E: Write>(
    alloc: Global,
    file: &str,
    bytes: &[u8],
    number: u8,
    notes: &mut Notes<'_, E>,
) {
    if !notes.are_told() {
        return;
    }
    if let Ok(Some(found)) = reason(alloc, &mut Nothing, &[("root", bytes)], number, 0) {
        notes.tell(&file, &found);
    }
}

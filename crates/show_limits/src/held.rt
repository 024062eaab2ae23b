//! How much of its limits a repository uses.
use cli_faults::Notes;
use limits::MOST_HELD;
use metadata::{File, Snapshot};
use show_texts::{Limits, Used};
use std::alloc::Global;
use std::fmt::Display;
use std::io::Write;
use store::Held;

/// The most roles that a snapshot names: what `metadata` reads no more than.
const ROLES_LIMIT: usize = 128;

// What is to be done where rows or target files are many.
const PRUNE: &str = "'release prune' takes away what the snapshot does not list";

// What is to be done where roles are many.
const ROLES_STAY: &str =
    "a snapshot goes on naming each role that it named, so give what is new to roles that are there";

/// How much a repository uses: the rows of its shelf, its target files, and the roles that its snapshot names.
pub fn limits_of(held: &Held) -> Limits {
    let trusted = held.trusted();
    Limits {
        rows: used(trusted.shelf.len(), MOST_HELD),
        target_files: used(held.lengths().len(), MOST_HELD),
        roles: used(roles_in(&trusted.snapshot), ROLES_LIMIT),
    }
}

fn roles_in(snapshot: &Option<File<Snapshot>>) -> usize {
    match snapshot {
        Some(snapshot) => snapshot.body.meta.len(),
        None => 0,
    }
}

fn used(count: usize, most: usize) -> Used {
    Used {
        count: count as u64,
        most: most as u64,
    }
}

/// Warns of each limit of the repository of this name of which three quarters or more are used, with what is to be done.
pub fn warn_near<N: Display, E: Write>(
    alloc: Global,
    held: &Held,
    name: &N,
    notes: &mut Notes<'_, E>,
) {
    for (what, used) in limits_of(held).named() {
        if used.is_near() {
            let advice = if what == "roles" { ROLES_STAY } else { PRUNE };
            if let Ok(told) = format!(in alloc; "{used} {what} are used: {advice}") {
                notes.warn(name, &told);
            }
        }
    }
}

//! The targets that a repository serves.
use crate::keys::denial_row;
use cli_faults::{Denial, Fault, Notes};
use cli_files::print;
use cli_repository::{
    Command, Reply, Search, Store, Work, fault_of_store, listed_paths, search_of, worked,
};
use metadata::{Listing, Moment, TargetPath};
use show_texts::{DenialRow, ListedRow, TargetRow, targets_as_json, targets_as_lines};
use sqlite::Alter;
use std::alloc::{AllocError, Global};
use std::io::Write;

/// Prints the targets of a database, each path once and in order, as lines or as JSON: those that targets metadata list which the snapshot
/// names. Of each stands what the search of a request for it finds, and what denies such a request, if anything does. A repository without a
/// trusted root is denied, and one without a snapshot has none.
pub fn show_targets<O: Write, E: Write>(
    rt: &HostRuntime,
    db: &str,
    as_json: bool,
    now: Moment,
    out: &mut O,
    notes: &mut Notes<'_, E>,
) -> Result<(), Fault> {
    let mut gathering = Gathering {
        alloc: rt.alloc(),
        now,
        targets: Vec::new(rt.alloc()),
    };
    worked(rt, db, &mut gathering, notes)?;
    let text = if as_json {
        targets_as_json(rt.alloc(), &gathering.targets)?
    } else {
        targets_as_lines(rt.alloc(), &gathering.targets)?
    };
    print(out, &text, notes)
}

// The targets so far.
#[derive(Drop)]
struct Gathering {
    alloc: Global,
    now: Moment,
    targets: Vec<TargetRow>,
}

impl Work for Gathering {
    type Done = ();

    fn work<S: Alter, E: Write>(
        &mut self,
        repository: &mut Store<S>,
        _notes: &mut Notes<'_, E>,
    ) -> Result<(), Fault> {
        if repository.root_version().is_none() {
            return Err(Fault::Denied(Denial::NoRoot, None));
        }
        for path in &listed_paths(self.alloc, repository.held())? {
            self.gather(repository, path.as_str())?;
        }
        Ok(())
    }
}

impl Gathering {
    fn gather<S: Alter>(&mut self, repository: &mut Store<S>, path: &str) -> Result<(), Fault> {
        let listed = listed_in(self.alloc, repository, path, self.now)?;
        let denied = denied_by(repository, path, self.now)?;
        let path = String::from_str(self.alloc, path)?;
        self.targets.push(TargetRow {
            path,
            listed,
            denied,
        })?;
        Ok(())
    }
}

// What the search of a request for the path finds, if one is made and finds anything.
fn listed_in<S: Alter>(
    alloc: Global,
    repository: &mut Store<S>,
    path: &str,
    now: Moment,
) -> Result<Option<ListedRow>, Fault> {
    let Some(target) = TargetPath::read(alloc, path)? else {
        return Ok(None);
    };
    match search_of(repository.held(), &target, now) {
        Ok(search) => Ok(found_by(alloc, &search)?),
        Err(_) => Ok(None),
    }
}

fn found_by(alloc: Global, search: &Search<'_>) -> Result<Option<ListedRow>, AllocError> {
    match &search.answer {
        Ok(found) => Ok(Some(listed_row(alloc, found.role, found.listing)?)),
        Err(_) => Ok(None),
    }
}

/// What a role lists of a target.
pub fn listed_row(alloc: Global, role: &str, listing: &Listing) -> Result<ListedRow, AllocError> {
    let digest = listing.digest.text(alloc)?;
    let role = String::from_str(alloc, role)?;
    Ok(ListedRow {
        length: u64::from(listing.length),
        digest,
        role,
    })
}

// What denies a request for the path, if anything does.
fn denied_by<S: Alter>(
    repository: &mut Store<S>,
    path: &str,
    now: Moment,
) -> Result<Option<DenialRow>, Fault> {
    match repository.apply(Command::Target(path, None), now) {
        Ok(Reply::Bytes(_)) => Ok(None),
        Ok(Reply::Denied(denial, _)) => Ok(Some(denial_row(&denial))),
        Ok(_) => Err(Fault::Database),
        Err(fault) => Err(fault_of_store(fault)),
    }
}

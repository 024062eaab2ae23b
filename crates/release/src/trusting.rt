//! The root by which what a folder of drafts holds is judged before it is signed over: from a file, or from a repository.
use cli_client::root_at;
use cli_faults::{Fault, Notes, moment};
use cli_files::{FILE_LIMIT, read_at_most, see_database};
use cli_repository::{Work, worked};
use cli_sign::{Anchor, Anchoring};
use cli_tasks::Anchor as From;
use draft_folder::{Folder, version_in};
use metadata::Moment;
use sqlite::Alter;
use std::alloc::Global;
use std::io::Write;
use store::{Command, Reply, Store};

/// Where the root is from, if one is asked for, and the moment that was handed in.
#[derive(Clone, Copy)]
pub struct TrustedRoot<'a> {
    pub from: Option<&'a From>,
    pub at: Option<u64>,
}

impl Anchoring for TrustedRoot<'_> {
    fn anchor<E: Write>(
        &mut self,
        rt: &HostRuntime,
        folder: Folder<'_>,
        notes: &mut Notes<'_, E>,
    ) -> Result<Anchor, Fault> {
        let asked = *self;
        match asked.from {
            Some(from) => anchor_from(rt, from, asked.at, folder, notes),
            None => Ok(Anchor::Unasked),
        }
    }
}

fn anchor_from<E: Write>(
    rt: &HostRuntime,
    from: &From,
    at: Option<u64>,
    folder: Folder<'_>,
    notes: &mut Notes<'_, E>,
) -> Result<Anchor, Fault> {
    match from {
        From::Root(file) => root_in_file(rt, file, notes),
        From::Database(db) => {
            see_database(rt, db, notes)?;
            let now = moment(rt, at)?;
            match held_version(rt.alloc(), folder, notes)? {
                Some(version) => root_in_database(rt, db, version, now, notes),
                None => Ok(Anchor::Unknown),
            }
        }
        From::Port(port) => match held_version(rt.alloc(), folder, notes)? {
            Some(version) => Ok(anchor_of(root_at(rt, *port, version, notes)?)),
            None => Ok(Anchor::Unknown),
        },
    }
}

// The root of a version that the repository in a database has.
fn root_in_database<E: Write>(
    rt: &HostRuntime,
    db: &str,
    version: u32,
    now: Moment,
    notes: &mut Notes<'_, E>,
) -> Result<Anchor, Fault> {
    let mut finding = Finding {
        alloc: rt.alloc(),
        version,
        now,
    };
    Ok(anchor_of(worked(rt, db, &mut finding, notes)?))
}

fn anchor_of(root: Option<Vec<u8>>) -> Anchor {
    match root {
        Some(root) => Anchor::Root(root),
        None => Anchor::Unknown,
    }
}

// The root in a file.
fn root_in_file<E: Write>(
    rt: &HostRuntime,
    file: &str,
    notes: &mut Notes<'_, E>,
) -> Result<Anchor, Fault> {
    let bytes = read_at_most(rt, file, FILE_LIMIT, notes)?;
    match version_in(rt.alloc(), "root", &bytes) {
        Ok(_) => Ok(Anchor::Root(bytes)),
        Err(fault) => {
            if let Fault::Denied(denial, _) = &fault {
                notes.denied(&file, denial.number());
            }
            Err(fault)
        }
    }
}

// The version of the root that is held in the folder, if one is.
fn held_version<E: Write>(
    alloc: Global,
    folder: Folder<'_>,
    notes: &mut Notes<'_, E>,
) -> Result<Option<u32>, Fault> {
    let Some(bytes) = folder.held("root", notes)? else {
        return Ok(None);
    };
    match version_in(alloc, "root", &bytes) {
        Ok(version) => Ok(Some(version)),
        Err(fault) => Err(folder.fault_of("held/root.json", fault, notes)),
    }
}

// Finds the root of a version in a repository.
#[derive(Clone, Copy)]
struct Finding {
    alloc: Global,
    version: u32,
    now: Moment,
}

impl Work for Finding {
    type Done = Option<Vec<u8>>;

    fn work<S: Alter, E: Write>(
        &mut self,
        repository: &mut Store<S>,
        _notes: &mut Notes<'_, E>,
    ) -> Result<Option<Vec<u8>>, Fault> {
        let version = self.version;
        let name = format!(in self.alloc; "{version}.root.json")?;
        match repository.apply(Command::Metadata(name.as_str()), self.now) {
            Ok(Reply::Bytes(root)) => Ok(Some(root)),
            Ok(_) => Ok(None),
            Err(fault) => Err(cli_repository::fault_of_store(fault)),
        }
    }
}

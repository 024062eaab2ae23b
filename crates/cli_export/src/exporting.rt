//! `export`: the repository as files that any web server can send.
use crate::files::Exporting;
use cli_faults::{Fault, Notes, moment};
use cli_files::print;
use cli_repository::{Store, Work, worked};
use exported_files::export_files;
use metadata::Moment;
use sqlite::Alter;
use std::io::Write;

/// Writes into a folder what the repository in the database file would answer for the names that clients ask for, each file where it
/// is not there already, and prints how many were written.
pub fn export<O: Write, E: Write>(
    rt: &HostRuntime,
    db: &str,
    folder: &str,
    at: Option<u64>,
    out: &mut O,
    notes: &mut Notes<'_, E>,
) -> Result<(), Fault> {
    let now = moment(rt, at)?;
    let mut to_folder = ToFolder {
        rt,
        db,
        folder,
        now,
    };
    let count = worked(rt, db, &mut to_folder, notes)?;
    let line = format!(in rt.alloc(); "exported {count}\n")?;
    print(out, line.as_bytes(), notes)
}

// What is done over the repository: its files are written into the folder, each where it is not there already, and counted: target
// files, targets metadata, the snapshot, the roots from the last to the first, and the timestamp, so that whoever reads meanwhile finds
// what a file names.
#[derive(Clone, Copy)]
struct ToFolder<'a> {
    rt: &'a HostRuntime,
    db: &'a str,
    folder: &'a str,
    now: Moment,
}

impl Work for ToFolder<'_> {
    type Done = u64;

    fn work<S: Alter, E: Write>(
        &mut self,
        repository: &mut Store<S>,
        notes: &mut Notes<'_, E>,
    ) -> Result<u64, Fault> {
        let mut exporting = Exporting::new(
            self.rt,
            repository,
            self.db,
            self.folder,
            self.now,
            notes,
        );
        let root = exporting.root()?;
        match export_files(self.rt.alloc(), self.folder, root, exporting) {
            Ok(exported) => Ok(exported.written()),
            Err(fault) => Err(fault),
        }
    }
}

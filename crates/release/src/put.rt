//! `put`: stores a target file.
ghost use Rattle.std.specs.Prelude.{◌≡◌, Bool};
ghost use Rattle.sha2.specs.Sha256.{sha256};
ghost use Rattle.trust_rules.specs.Runs.{PutBlob, Stored};
ghost use Rattle.cli_repository.specs.Works.{Ends};

use crate::printing::print_line;
use cli_client::put_at;
use cli_faults::{Fault, Notes, moment};
use cli_files::read_at_most;
use cli_repository::{applied, refused};
use cli_tasks::Place;
use http_messages::BLOB_LIMIT;
use metadata::{Moment, digest_of};
use std::io::Write;
use store::{Command, Reply};

/// Stores the file under its SHA-256 in the repository in the database file or behind the port, and prints its 64 hex digits, also
/// where it was stored already.
pub fn put<O: Write, E: Write>(
    rt: &HostRuntime,
    place: &Place,
    file: &str,
    at: Option<u64>,
    out: &mut O,
    notes: &mut Notes<'_, E>,
) -> Result<(), Fault> {
    match place {
        Place::Database(db) => {
            let now = moment(rt, at)?;
            let bytes = read_at_most(rt, file, BLOB_LIMIT, notes)?;
            put_now(rt, db, file, &bytes, now, out, notes)
        }
        Place::Port(port) => put_at(rt, *port, file, out, notes),
    }
}

fn put_now<O: Write, E: Write>(
    rt: &HostRuntime,
    db: &str,
    name: &str,
    bytes: &[u8],
    now: Moment,
    out: &mut O,
    notes: &mut Notes<'_, E>,
) -> Result<(), Fault>
    ensures { Ends (PutBlob (sha256 bytes.now) bytes.now) now (λ reply. (new : Bool) × (reply ≡ Stored new)) result }
{
    let digest = digest_of(bytes);
    let reply = match applied(rt, db, Command::PutBlob(digest, bytes), now, notes) {
        Ok(reply) => reply,
        Err(fault) => return Err(fault),
    };
    match reply {
        Reply::Stored(_) => print_line(out, &digest.digits(), notes),
        other => {
            if let Reply::Denied(denial, _) = &other {
                notes.denied(&name, denial.number());
            }
            Err(refused(other))
        }
    }
}

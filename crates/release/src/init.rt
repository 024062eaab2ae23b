//! `init`: begins the trust with a first root.
ghost use Rattle.std.specs.Prelude.{◌≡◌};
ghost use Rattle.trust_rules.specs.Runs.{Begun, Init};
ghost use Rattle.cli_repository.specs.Works.{Ends};

use cli_faults::{Fault, Notes, moment};
use cli_files::{FILE_LIMIT, print, read_at_most};
use cli_repository::{applied, refused, tell_first_root};
use metadata::Moment;
use std::io::Write;
use store::{Command, Reply};

/// Begins the trust of the repository in the database file with the root metadata in the other file, and prints `begun`.
pub fn init<O: Write, E: Write>(
    rt: &HostRuntime,
    db: &str,
    root: &str,
    at: Option<u64>,
    out: &mut O,
    notes: &mut Notes<'_, E>,
) -> Result<(), Fault> {
    let now = moment(rt, at)?;
    let bytes = read_at_most(rt, root, FILE_LIMIT, notes)?;
    begin(rt, db, root, &bytes, now, out, notes)
}

// The same with the bytes of the root, whose file has this name.
fn begin<O: Write, E: Write>(
    rt: &HostRuntime,
    db: &str,
    root: &str,
    bytes: &[u8],
    now: Moment,
    out: &mut O,
    notes: &mut Notes<'_, E>,
) -> Result<(), Fault>
    ensures { Ends (Init bytes.now) now (λ reply. reply ≡ Begun) result }
{
    let reply = match applied(rt, db, Command::Init(bytes), now, notes) {
        Ok(reply) => reply,
        Err(fault) => return Err(fault),
    };
    match reply {
        Reply::Begun => print(out, b"begun\n", notes),
        other => {
            if let Reply::Denied(denial, _) = &other {
                notes.denied(&root, denial.number());
                tell_first_root(rt.alloc(), root, bytes, denial.number(), notes);
            }
            Err(refused(other))
        }
    }
}

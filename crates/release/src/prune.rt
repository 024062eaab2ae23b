//! `prune`: takes away what the listed documents do not ask for.
ghost use Rattle.std.specs.Prelude.{◌≡◌, ℕ};
ghost use Rattle.trust_rules.specs.Runs.{Prune, Pruned};
ghost use Rattle.cli_repository.specs.Works.{Ends};

use crate::printing::print_line;
use cli_client::prune_at;
use cli_faults::{Fault, Notes, moment};
use cli_repository::{applied, refused};
use cli_tasks::Place;
use http_messages::pruned_body;
use metadata::Moment;
use std::io::Write;
use store::{Command, Reply};

/// Takes away the targets documents at versions that the snapshot does not list, and the target files that no other one lists, and
/// prints how many of each. At a port the server does it.
pub fn prune<O: Write, E: Write>(
    rt: &HostRuntime,
    place: &Place,
    at: Option<u64>,
    out: &mut O,
    notes: &mut Notes<'_, E>,
) -> Result<(), Fault> {
    match place {
        Place::Database(db) => prune_now(rt, db, moment(rt, at)?, out, notes),
        Place::Port(port) => prune_at(rt, *port, out, notes),
    }
}

fn prune_now<O: Write, E: Write>(
    rt: &HostRuntime,
    db: &str,
    now: Moment,
    out: &mut O,
    notes: &mut Notes<'_, E>,
) -> Result<(), Fault>
    ensures { Ends Prune now (λ reply. (blobs : ℕ) × (rows : ℕ) × (reply ≡ Pruned blobs rows)) result }
{
    let reply = match applied(rt, db, Command::Prune, now, notes) {
        Ok(reply) => reply,
        Err(fault) => return Err(fault),
    };
    match reply {
        Reply::Pruned { blobs, rows } => print_line(out, &pruned_body(blobs, rows), notes),
        other => {
            if let Reply::Denied(denial, _) = &other {
                notes.denied(&db, denial.number());
            }
            Err(refused(other))
        }
    }
}

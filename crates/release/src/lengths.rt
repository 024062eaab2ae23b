//! Which documents are too long, where a command was denied for one of them.
use cli_faults::{Fault, Notes};
use cli_tasks::{Draft, Subcommand, Task};
use show_limits::{tell_long, tell_long_argument, tell_long_files};
use std::io::Write;

/// Where the task was denied for a document that is too long, names each that is: in a folder, or by its place in a batch.
pub fn tell_lengths<E: Write>(
    rt: &HostRuntime,
    task: &Task,
    fault: &Fault,
    notes: &mut Notes<'_, E>,
) {
    match &task.subcommand {
        Subcommand::Draft(drafting) => {
            tell_long(rt, drafting.folder.as_str(), fault, notes);
            if let Draft::Take { files, .. } = &drafting.kind {
                tell_long_files(rt, files, fault, notes);
            }
        }
        Subcommand::Show(showing) => {
            if let Some(folder) = &showing.folder {
                tell_long(rt, folder.as_str(), fault, notes);
            }
        }
        Subcommand::SignIn(signing) => tell_long(rt, signing.folder.as_str(), fault, notes),
        Subcommand::PublishIn { folder, .. } => tell_long(rt, folder.as_str(), fault, notes),
        Subcommand::Publish { documents, .. } => tell_long_argument(rt, documents, fault, notes),
        _ => {}
    }
}

//! The subcommands of `release` by which documents are written: `draft` and `show`, and `publish` of a folder of drafts.
#![tactic(auto)]

mod publishing;
mod sealing;
mod showing;

use cli_faults::{Fault, Notes, moment};
use cli_tasks::{Draft, Drafting};
use draft_chains::{attach_signature, draft_chain, draft_step, relist, see_listable, take_all};
use draft_commands::{draft_listing, draft_rules, print_message};
use draft_folder::Folder;
pub use publishing::{Drafted, clear_published, complete_batch_in, waiting_files};
use sealing::seal;
use show_rows::follow;
pub use showing::show;
use showing::show_folder;
use std::io::Write;

/// Drafts the next document of a kind into a folder, over what a database holds where one is given, and prints what the folder then has. No
/// leaf is spent. Layouts and links are listed as they stand signed after it; where that is refused as the folder stands, nothing is drafted.
/// No other command writes in the folder meanwhile. What is signed of a draft is printed, and no file changes.
pub fn draft<O: Write, E: Write>(
    rt: &HostRuntime,
    asked: &Drafting,
    at: Option<u64>,
    out: &mut O,
    notes: &mut Notes<'_, E>,
) -> Result<(), Fault> {
    let now = moment(rt, at)?;
    let folder = Folder::new(rt, asked.folder.as_str());
    if let Draft::Message { role } = &asked.kind {
        return print_message(rt, folder, role, out, notes);
    }
    folder.make(notes)?;
    let _lock = folder.lock(notes)?;
    if let Some(db) = &asked.db {
        follow(rt, db, folder, now, notes)?;
    }
    if !asked.anew {
        see_listable(rt, folder, notes)?;
    }
    let drafted = match &asked.kind {
        Draft::Root { rules } => draft_rules(rt, folder, asked, rules, now, notes),
        Draft::Targets(told) => draft_listing(rt, folder, asked, told, now, notes),
        Draft::Seal => seal(rt, folder, asked, now, notes),
        Draft::Layout(told) => draft_chain(rt, folder, asked, told, now, notes),
        Draft::Link(told) => draft_step(rt, folder, told, asked.anew, notes),
        Draft::Take { target, files } => take_all(rt, folder, target.as_deref(), files, notes),
        Draft::Message { .. } => Ok(()),
        Draft::Attach(told) => attach_signature(rt, folder, told, notes),
    };
    drafted?;
    relist(rt, folder, asked.anew, notes)?;
    show_folder(rt, folder, now, out, notes)
}

//! `show`: what a database holds, and what a folder of drafts has.
use crate::publishing::batch_in;
use cli_faults::{Fault, Notes, moment};
use cli_files::{OWNER_ALONE, print, put_told, see_database};
use cli_repository::{BatchRefusal, Offer, Store, Work, worked, would_take};
use cli_tasks::Showing;
use draft_folder::Folder;
use keys_roles::KeyId;
use metadata::Moment;
use show_rows::{denial_row, drafts_in, show_standing, show_targets};
use show_texts::{Answer, Drafts, drafts_as_json, drafts_as_lines, drafts_as_page};
use sqlite::Alter;
use std::alloc::Global;
use std::io::{IsTerminal, Write};

/// Shows what a database holds, or what a folder of drafts has and what is to be done next; where both are given, also whether it is ready:
/// what `publish` would be answered. Where something held expires within the days that are given, that is told last. Of a database the targets
/// alone are listed, where that is asked for.
pub fn show<O: Write, E: Write>(
    rt: &HostRuntime,
    asked: &Showing,
    leaves: &[(KeyId, u32, u32)],
    at: Option<u64>,
    out: &mut O,
    notes: &mut Notes<'_, E>,
) -> Result<(), Fault> {
    let now = moment(rt, at)?;
    if let Some(db) = &asked.db {
        see_database(rt, db, notes)?;
    }
    match (&asked.folder, &asked.db) {
        (Some(folder), None) => {
            let folder = Folder::new(rt, folder);
            folder.see(notes)?;
            let shown = drafts_in(rt.alloc(), folder, None, now, notes)?;
            show_drafts(rt, asked, &shown, out, notes)
        }
        (Some(folder), Some(db)) => {
            let folder = Folder::new(rt, folder);
            folder.see(notes)?;
            show_judged(rt, asked, folder, db, now, out, notes)
        }
        (None, Some(db)) if asked.list => show_targets(rt, db, asked.json, now, out, notes),
        (None, Some(db)) => show_standing(rt, db, asked, leaves, now, out, notes),
        (None, None) => Ok(()),
    }
}

/// Shows each draft: its version and the held one, when it expires, what it changes, and how many have signed; and last what is to be done
/// next.
pub fn show_folder<O: Write, E: Write>(
    rt: &HostRuntime,
    folder: Folder<'_>,
    now: Moment,
    out: &mut O,
    notes: &mut Notes<'_, E>,
) -> Result<(), Fault> {
    let shown = drafts_in(rt.alloc(), folder, None, now, notes)?;
    let text = drafts_as_lines(rt.alloc(), &shown, rt.stdout().is_terminal())?;
    print(out, &text, notes)
}

// Shows the folder as lines or as JSON, and where a file is given, writes a page.
fn show_drafts<O: Write, E: Write>(
    rt: &HostRuntime,
    asked: &Showing,
    shown: &Drafts,
    out: &mut O,
    notes: &mut Notes<'_, E>,
) -> Result<(), Fault> {
    if let Some(file) = &asked.html {
        let page = drafts_as_page(rt.alloc(), shown)?;
        put_told(rt, file.as_str(), &page, OWNER_ALONE, notes)?;
    }
    let text = if asked.json {
        drafts_as_json(rt.alloc(), shown)?
    } else {
        drafts_as_lines(rt.alloc(), shown, rt.stdout().is_terminal())?
    };
    print(out, &text, notes)
}

// Shows the folder, and whether it is ready: `publish` of it would be taken at the moment over what the database holds. Where it is not,
// what it would be denied for is the answer.
fn show_judged<O: Write, E: Write>(
    rt: &HostRuntime,
    asked: &Showing,
    folder: Folder<'_>,
    db: &str,
    now: Moment,
    out: &mut O,
    notes: &mut Notes<'_, E>,
) -> Result<(), Fault> {
    let mut shown = drafts_in(rt.alloc(), folder, Some(db), now, notes)?;
    if shown.drafts.is_empty() {
        return show_drafts(rt, asked, &shown, out, notes);
    }
    let judged = judge(rt, folder, db, now, notes);
    shown.answer = answer_of(&judged);
    show_drafts(rt, asked, &shown, out, notes)?;
    judged
}

fn answer_of(judged: &Result<(), Fault>) -> Option<Answer> {
    match judged {
        Ok(()) => Some(Answer::Ready),
        Err(Fault::Denied(denial, Some(index))) => Some(Answer::Denied(denial_row(denial), *index)),
        Err(_) => None,
    }
}

fn judge<E: Write>(
    rt: &HostRuntime,
    folder: Folder<'_>,
    db: &str,
    now: Moment,
    notes: &mut Notes<'_, E>,
) -> Result<(), Fault> {
    let batch = batch_in(rt.alloc(), folder, notes)?;
    let offers = batch.offers(rt.alloc())?;
    let mut judging = Judging {
        alloc: rt.alloc(),
        offers: &offers,
        now,
    };
    worked(rt, db, &mut judging, notes)
}

#[derive(Clone, Copy)]
struct Judging<'a> {
    alloc: Global,
    offers: &'a [(Offer, &'a [u8])],
    now: Moment,
}

impl Work for Judging<'_> {
    type Done = ();

    fn work<S: Alter, E: Write>(
        &mut self,
        repository: &mut Store<S>,
        _notes: &mut Notes<'_, E>,
    ) -> Result<(), Fault> {
        match would_take(self.alloc, repository.held(), self.offers, self.now) {
            Ok(()) => Ok(()),
            Err(BatchRefusal::Denied(denial, index)) => Err(Fault::Denied(denial, Some(index))),
            Err(BatchRefusal::OutOfMemory) => Err(Fault::Memory),
        }
    }
}

//! What a database holds, shown as a tree: each document with its version, how long it lives, the rule that it meets and what is delegated
//! to it.
use crate::tree::Looking;
use crate::visits::look_for;
use cli_faults::{Denial, Fault, Notes};
use cli_files::{OWNER_ALONE, print, put_told};
use cli_repository::{Store, Work, worked};
use cli_tasks::Showing;
use keys_roles::KeyId;
use metadata::Moment;
use show_limits::limits_of;
use show_texts::{Days, Overview, as_bars, as_columns, as_json, as_page};
use sqlite::Alter;
use std::alloc::{AllocError, Global};
use std::io::{IsTerminal, Write};

// What expires within so many days is shown as due, where it is not said otherwise.
const DUE: u64 = 7;

/// Shows what a database holds, as columns, on a terminal with bars, or as JSON; and where a file is given, writes a page. Where something
/// expires within the days that are given, or the leaves of a key, or of all keys of which any one meets a rule, are a quarter or fewer, or three
/// quarters of a limit or more are used, that is the answer; before it what denies the target that is asked for.
pub fn show_standing<'a, O: Write, E: Write>(
    rt: &HostRuntime,
    db: &str,
    asked: &'a Showing,
    leaves: &'a [(KeyId, u32, u32)],
    now: Moment,
    out: &mut O,
    notes: &mut Notes<'_, E>,
) -> Result<(), Fault> {
    let mut looking = Looked {
        looking: Looking::new(rt.alloc(), now, asked.due.unwrap_or(DUE), leaves),
        asked,
        denial: None,
    };
    worked(rt, db, &mut looking, notes)?;
    show_all(rt, asked, &looking.looking.shown, out, notes)?;
    if let Some(denial) = looking.denial.take() {
        return Err(Fault::Denied(denial, None));
    }
    if asked.due.is_none() {
        return Ok(());
    }
    end(rt.alloc(), &looking.looking.shown, notes)
}

// What is looked at over the repository: all that it holds, and a target, if one is asked for, with what denies it.
#[derive(Drop)]
struct Looked<'a> {
    looking: Looking<'a>,
    asked: &'a Showing,
    denial: Option<Denial>,
}

impl Work for Looked<'_> {
    type Done = ();

    fn work<S: Alter, E: Write>(
        &mut self,
        repository: &mut Store<S>,
        _notes: &mut Notes<'_, E>,
    ) -> Result<(), Fault> {
        self.looking.look(repository)?;
        self.looking.shown.limits = limits_of(repository.held());
        if let Some(path) = self.asked.paths.first() {
            let (row, denial) = look_for(
                self.looking.alloc,
                repository,
                path.as_str(),
                self.looking.now,
            )?;
            self.looking.shown.path = Some(row);
            self.denial = denial;
        }
        Ok(())
    }
}

fn show_all<O: Write, E: Write>(
    rt: &HostRuntime,
    asked: &Showing,
    shown: &Overview,
    out: &mut O,
    notes: &mut Notes<'_, E>,
) -> Result<(), Fault> {
    if let Some(file) = &asked.html {
        let page = as_page(rt.alloc(), shown)?;
        put_told(rt, file.as_str(), &page, OWNER_ALONE, notes)?;
    }
    let text = text_of(rt, asked, shown)?;
    print(out, &text, notes)
}

fn text_of(rt: &HostRuntime, asked: &Showing, shown: &Overview) -> Result<Vec<u8>, AllocError> {
    if asked.json {
        as_json(rt.alloc(), shown)
    } else if rt.stdout().is_terminal() {
        as_bars(rt.alloc(), shown)
    } else {
        as_columns(rt.alloc(), shown)
    }
}

// Whether something is due is what the command answers. Each document that is due is told, with why.
fn end<E: Write>(alloc: Global, shown: &Overview, notes: &mut Notes<'_, E>) -> Result<(), Fault> {
    let mut is_due = false;
    for row in &shown.rows {
        if shown.is_due(row) {
            is_due = true;
            let told = why_due(alloc, shown.days(row))?;
            notes.fault(&row.role, &told);
        }
        if row.is_low() {
            is_due = true;
            notes.fault(&row.role, &"its keys have few leaves left");
        }
    }
    let are_near = are_limits_near(alloc, shown, notes)?;
    let are_long = are_documents_long(alloc, shown, notes)?;
    if is_due || are_near || are_long {
        Err(Fault::Due)
    } else {
        Ok(())
    }
}

// Whether three quarters or more are used of a limit of the repository. Each is told.
fn are_limits_near<E: Write>(
    alloc: Global,
    shown: &Overview,
    notes: &mut Notes<'_, E>,
) -> Result<bool, AllocError> {
    let mut are_near = false;
    for (name, used) in shown.limits.named() {
        if used.is_near() {
            are_near = true;
            let told = format!(in alloc; "{used} are used")?;
            notes.fault(&name, &told);
        }
    }
    Ok(are_near)
}

// Whether a document has three quarters or more of the bytes that it may have. Each is told.
fn are_documents_long<E: Write>(
    alloc: Global,
    shown: &Overview,
    notes: &mut Notes<'_, E>,
) -> Result<bool, AllocError> {
    let mut are_long = false;
    for row in &shown.rows {
        if row.bytes.is_near() {
            are_long = true;
            let bytes = row.bytes;
            let told = format!(in alloc; "it has {bytes} bytes")?;
            notes.fault(&row.role, &told);
        }
    }
    Ok(are_long)
}

// Why a document is due, by the days that it has left.
fn why_due(alloc: Global, days: Days) -> Result<String, AllocError> {
    match days {
        Days::Left(days) => format!(in alloc; "it expires in {days} days"),
        Days::Past(days) => format!(in alloc; "it expired {days} days ago"),
        Days::Unknown => String::from_str(alloc, "it is not held"),
    }
}

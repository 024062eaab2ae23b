//! Runs of a client over the sources of the case.
use crate::replies::{bytes_text, denial_text, text_of};
use crate::session::Session;
use crate::source::{Asked, Mirror, fetch_text};
use client::{ClientFault, FetchFault, fetch_by_each, fetch_target, update, update_by_each};
use machine::TargetPath;
use script_words::{File, LineFault, number_of};
use std::alloc::Global;

// What a client is to do: from the first source, or from so many in turn.
#[derive(Drop)]
enum Wish {
    Update,
    UpdateByEach(usize),
    Target(TargetPath),
    TargetByEach(usize, TargetPath),
}

impl Wish {
    // Whether the names are told that were asked for. Of several sources they are not: a run that is made once more may ask each anew.
    fn tells_names(&self) -> bool {
        matches!(self, Wish::Update | Wish::Target(_))
    }
}

// What a run asked for, and how it ended: with the bytes of a target, or without any.
#[derive(Drop)]
struct Run {
    asked: Vec<Asked>,
    end: Result<Option<Vec<u8>>, ClientFault>,
    // Whether the source was without memory since the script says so.
    is_said: bool,
}

impl Run {
    // Whether it ended since memory was refused to it or to its source.
    fn wants_memory(&self) -> bool {
        match &self.end {
            Err(ClientFault::OutOfMemory) => true,
            Err(ClientFault::Fetch(FetchFault::OutOfMemory)) => !self.is_said,
            _ => false,
        }
    }

    // A line for each name that was asked for, and one that tells the end.
    fn text(&self, alloc: Global, files: &[File]) -> Result<String, LineFault> {
        let mut text = lines_without(alloc, &self.asked, &[])?;
        text.push_str(end_text(alloc, files, &self.end)?.as_str())?;
        Ok(text)
    }
}

/// How a run ended.
pub fn end_text(
    alloc: Global,
    files: &[File],
    end: &Result<Option<Vec<u8>>, ClientFault>,
) -> Result<String, LineFault> {
    match end {
        Ok(None) => text_of(alloc, "updated"),
        Ok(Some(bytes)) => bytes_text(alloc, files, bytes),
        Err(ClientFault::Denied(denial)) => denial_text(alloc, denial, None),
        Err(ClientFault::Fetch(fault)) => {
            let text = fetch_text(*fault);
            Ok(format!(in alloc; "fault {text}")?)
        }
        Err(ClientFault::Database) => text_of(alloc, "fault database"),
        Err(ClientFault::OutOfMemory) => text_of(alloc, "fault memory"),
    }
}

// A line for each name but those of others.
fn lines_without(alloc: Global, asked: &[Asked], others: &[Asked]) -> Result<String, LineFault> {
    let mut text = String::new(alloc);
    for one in asked {
        if !is_asked(others, one.name.as_str()) {
            text.push_str("  ")?;
            text.push_str(one.line.as_str())?;
            text.push_str("\n")?;
        }
    }
    Ok(text)
}

fn is_asked(asked: &[Asked], name: &str) -> bool {
    for one in asked {
        if one.name.as_str() == name {
            return true;
        }
    }
    false
}

// Whether what the first run was given before its last name is not asked for again: but for the timestamp, which each update asks for,
// and for files that the source does not have.
fn is_kept(first: &[Asked], again: &[Asked]) -> bool {
    let Some((_, given)) = first.split_last() else {
        return true;
    };
    for asked in given {
        let name = asked.name.as_str();
        let may_repeat = asked.is_absent || name == "metadata/timestamp.json";
        if !may_repeat && is_asked(again, name) {
            return false;
        }
    }
    true
}

impl Session<'_> {
    /// `update`: brings the client up to date; `update each COUNT`: by each of so many sources in turn.
    pub fn update(&mut self, text: &str) -> Result<String, LineFault> {
        match text.strip_prefix("each ") {
            Some(count) => self.run(&Wish::UpdateByEach(number_of(count)? as usize)),
            None => self.run(&Wish::Update),
        }
    }

    /// `fetch PATH`: fetches a target; `fetch each COUNT PATH`: by each of so many sources in turn.
    pub fn fetch(&mut self, text: &str) -> Result<String, LineFault> {
        let Some(rest) = text.strip_prefix("each ") else {
            let path = self.path_of(text)?;
            return self.run(&Wish::Target(path));
        };
        let (count, path) = rest.split_once(' ').unwrap_or((rest, ""));
        let path = self.path_of(path)?;
        self.run(&Wish::TargetByEach(number_of(count)? as usize, path))
    }

    fn path_of(&self, text: &str) -> Result<TargetPath, LineFault> {
        match TargetPath::read(self.alloc, text)? {
            Some(path) => Ok(path),
            None => Err(LineFault::NotUnderstood),
        }
    }

    // Where memory was refused, what was taken before has to stay, and the run is made once more: both are told as one.
    fn run(&mut self, wish: &Wish) -> Result<String, LineFault> {
        let alloc = self.alloc;
        let first = self.run_once(wish)?;
        if !first.wants_memory() {
            return self.told(wish, &first);
        }
        self.refusals = self.refusals.saturating_add(1);
        let again = self.run_once(wish)?;
        if !wish.tells_names() {
            return self.told(wish, &again);
        }
        if !is_kept(&first.asked, &again.asked) {
            return text_of(alloc, "what was taken is asked for again");
        }
        let mut text = lines_without(alloc, &first.asked, &again.asked)?;
        text.push_str(again.text(alloc, &self.files)?.as_str())?;
        Ok(text)
    }

    fn told(&self, wish: &Wish, run: &Run) -> Result<String, LineFault> {
        if wish.tells_names() {
            run.text(self.alloc, &self.files)
        } else {
            end_text(self.alloc, &self.files, &run.end)
        }
    }

    fn run_once(&mut self, wish: &Wish) -> Result<Run, LineFault> {
        let alloc = self.alloc;
        let now = self.now;
        self.begin_client()?;
        let Some(store) = self.client.store() else {
            return Err(LineFault::NotUnderstood);
        };
        let Some(server) = self.base.store() else {
            return Err(LineFault::NotUnderstood);
        };
        let mut source = Mirror {
            place: 0,
            routes: &self.routes,
            server,
            now,
            files: &self.files,
            answers: &self.answers,
            asked: Vec::new(alloc),
            is_said: false,
        };
        let end = match wish {
            Wish::Update => none_of(update(alloc, store, &mut source, now)),
            Wish::UpdateByEach(count) => {
                none_of(update_by_each(alloc, store, &mut source, *count, now))
            }
            Wish::Target(path) => some_of(fetch_target(alloc, store, &mut source, path, now)),
            Wish::TargetByEach(count, path) => {
                let count = *count;
                some_of(fetch_by_each(alloc, store, &mut source, count, path, now))
            }
        };
        Ok(Run {
            asked: source.asked,
            end,
            is_said: source.is_said,
        })
    }
}

fn none_of(end: Result<(), ClientFault>) -> Result<Option<Vec<u8>>, ClientFault> {
    match end {
        Ok(()) => Ok(None),
        Err(fault) => Err(fault),
    }
}

fn some_of(end: Result<Vec<u8>, ClientFault>) -> Result<Option<Vec<u8>>, ClientFault> {
    match end {
        Ok(bytes) => Ok(Some(bytes)),
        Err(fault) => Err(fault),
    }
}

//! A client's sources: each answers what the server of the case would, but for the names whose answers a script says.
use crate::replies::{bytes_text, head_and_body, text_of};
use crate::requests::{NO_MEMORY, response};
use case_databases::Store;
use client::{ClientFault, FetchFault, Source, Sources};
use http_serve::Routes;
use metadata::Moment;
use script_words::{File, LineFault, find};
use sqlite::MemStore;
use std::alloc::Global;

/// What is answered in place of what the server would.
#[derive(Drop)]
pub enum Said {
    Nothing,
    Broken,
    Refused,
    Bytes(Vec<u8>),
}

/// What one of the sources answers for a name.
#[derive(Drop)]
pub struct Answer {
    pub place: usize,
    pub name: String,
    pub said: Said,
}

impl Answer {
    /// Whether it is what the source at this place answers for the name.
    pub fn is_of(&self, place: usize, name: &str) -> bool {
        self.place == place && self.name.as_str() == name
    }
}

/// A name that was asked for, and the line that tells it with its limit and its answer.
#[derive(Drop)]
pub struct Asked {
    pub name: String,
    pub line: String,
    /// Whether the source had no such file.
    pub is_absent: bool,
}

/// What the word says: `none`, `broken`, `refused` or `file NAME`, and nothing at `served`.
pub fn said_by(files: &[File], word: &str) -> Result<Option<Said>, LineFault> {
    match word {
        "served" => Ok(None),
        "none" => Ok(Some(Said::Nothing)),
        "broken" => Ok(Some(Said::Broken)),
        "refused" => Ok(Some(Said::Refused)),
        _ => match word.strip_prefix("file ") {
            Some(name) => Ok(Some(Said::Bytes(find(files, name)?.bytes.clone()?))),
            None => Err(LineFault::NotUnderstood),
        },
    }
}

/// A fault of a source.
pub fn fetch_text(fault: FetchFault) -> &'static str {
    match fault {
        FetchFault::TooLong => "too long",
        FetchFault::Broken => "broken",
        FetchFault::OutOfMemory => "refused",
    }
}

/// The sources, of which the one at a place is asked, and what they were asked for.
#[derive(Drop)]
pub struct Mirror<'a> {
    pub place: usize,
    pub routes: &'a Routes,
    pub server: &'a mut Store<MemStore>,
    pub now: Moment,
    pub files: &'a [File],
    pub answers: &'a [Answer],
    pub asked: Vec<Asked>,
    /// Whether it answered a refusal of memory since the script says so.
    pub is_said: bool,
}

impl Source for Mirror<'_> {
    fn fetch(
        &mut self,
        alloc: Global,
        name: &str,
        limit: usize,
    ) -> Result<Option<Vec<u8>>, FetchFault> {
        let answer = self.answer(alloc, name);
        let asked = asked_of(alloc, self.files, name, limit, &answer);
        match self.keep(asked) {
            Ok(()) => answer,
            Err(_) => Err(FetchFault::OutOfMemory),
        }
    }
}

impl Sources for Mirror<'_> {
    fn turn(&mut self, place: usize) {
        self.place = place;
    }

    fn failed(&mut self, _place: usize, _fault: &ClientFault) {}
}

impl Mirror<'_> {
    fn keep(&mut self, asked: Result<Asked, LineFault>) -> Result<(), LineFault> {
        self.asked.push(asked?)?;
        Ok(())
    }

    fn answer(&mut self, alloc: Global, name: &str) -> Result<Option<Vec<u8>>, FetchFault> {
        match said_of(self.answers, self.place, name) {
            Some(Said::Nothing) => Ok(None),
            Some(Said::Broken) => Err(FetchFault::Broken),
            Some(Said::Refused) => {
                self.is_said = true;
                Err(FetchFault::OutOfMemory)
            }
            Some(Said::Bytes(bytes)) => Ok(Some(bytes.clone()?)),
            None => self.served(alloc, name),
        }
    }

    // The body of the server's response where its status is 200. Where the server has no memory, neither has the source.
    fn served(&mut self, alloc: Global, name: &str) -> Result<Option<Vec<u8>>, FetchFault> {
        let request = format!(in alloc; "GET /{name} HTTP/1.1\r\n\r\n")?;
        let request = request.as_bytes();
        let Ok(given) = response(alloc, self.routes, self.server, request, self.now) else {
            return Err(FetchFault::OutOfMemory);
        };
        if given.as_slice() == NO_MEMORY {
            return Err(FetchFault::OutOfMemory);
        }
        if !given.starts_with(b"HTTP/1.1 200 ") {
            return Ok(None);
        }
        let (_, body) = head_and_body(&given);
        Ok(Some(Vec::from_slice(alloc, body)?))
    }
}

// What is said of the name, or else of any, where the source at this place is asked.
fn said_of<'a>(answers: &'a [Answer], place: usize, name: &str) -> Option<&'a Said> {
    let mut other = None;
    for answer in answers {
        if answer.is_of(place, name) {
            return Some(&answer.said);
        }
        if answer.is_of(place, "*") {
            other = Some(&answer.said);
        }
    }
    other
}

fn asked_of(
    alloc: Global,
    files: &[File],
    name: &str,
    limit: usize,
    answer: &Result<Option<Vec<u8>>, FetchFault>,
) -> Result<Asked, LineFault> {
    let text = match answer {
        Ok(Some(bytes)) => bytes_text(alloc, files, bytes)?,
        Ok(None) => text_of(alloc, "none")?,
        Err(fault) => text_of(alloc, fetch_text(*fault))?,
    };
    Ok(Asked {
        name: String::from_str(alloc, name)?,
        line: format!(in alloc; "{name} {limit} {text}")?,
        is_absent: matches!(answer, Ok(None)),
    })
}

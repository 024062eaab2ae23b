//! A client that fetches from the state of the case's server, in place of its source.
use crate::client_runs::end_text;
use crate::replies::{bytes_text, denial_text};
use crate::session::Session;
use case_databases::state_of;
use client::{ClientFault, FetchFault, fetch_from_state};
use machine::{Moment, Refusal, State, TargetPath, get};
use script_words::{File, LineFault};
use std::alloc::Global;

// How a fetch ended.
type End = Result<Option<Vec<u8>>, ClientFault>;

fn wants_memory(end: &End) -> bool {
    matches!(
        end,
        Err(ClientFault::OutOfMemory | ClientFault::Fetch(FetchFault::OutOfMemory))
    )
}

// What the state itself answers.
fn granted_by(
    alloc: Global,
    files: &[File],
    state: &State,
    path: &TargetPath,
    now: Moment,
) -> Result<String, LineFault> {
    match get(alloc, state, path, now) {
        Ok(bytes) => bytes_text(alloc, files, bytes),
        Err(Refusal::Denied(denial)) => denial_text(alloc, &denial, None),
        Err(Refusal::OutOfMemory) => Err(LineFault::OutOfMemory),
    }
}

impl Session<'_> {
    /// `agree PATH`: fetches a target into the client's database from the state that the server's rows stand for: how that ends, and
    /// after ` | ` what the state itself answers.
    pub fn agree(&mut self, text: &str) -> Result<String, LineFault> {
        self.begin_client()?;
        match TargetPath::read(self.alloc, text)? {
            Some(path) => self.agree_on(&path),
            None => Err(LineFault::NotUnderstood),
        }
    }

    fn agree_on(&mut self, path: &TargetPath) -> Result<String, LineFault> {
        match state_of(self.alloc, self.base) {
            Ok(state) => self.both_ends(&state, path),
            Err(fault) => Err(fault),
        }
    }

    fn both_ends(&mut self, state: &State, path: &TargetPath) -> Result<String, LineFault> {
        let own = granted_by(self.alloc, &self.files, state, path, self.now)?;
        let end = self.fetched_from(state, path)?;
        Ok(format!(in self.alloc; "{end} | {own}")?)
    }

    // Where memory was refused, what was taken before stays, and the call is made once more: the second end is told.
    fn fetched_from(&mut self, state: &State, path: &TargetPath) -> Result<String, LineFault> {
        let mut end = self.fetch_once(state, path);
        if wants_memory(&end) {
            self.refusals = self.refusals.saturating_add(1);
            end = self.fetch_once(state, path);
        }
        end_text(self.alloc, &self.files, &end)
    }

    fn fetch_once(&mut self, state: &State, path: &TargetPath) -> End {
        let Some(store) = self.client.store() else {
            return Err(ClientFault::Database);
        };
        match fetch_from_state(self.alloc, state, store, path, self.now) {
            Ok(bytes) => Ok(Some(bytes)),
            Err(fault) => Err(fault),
        }
    }
}

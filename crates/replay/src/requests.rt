//! Requests over HTTP, each answered by its whole response in one line.
use crate::replies::{response_text, text_of};
use crate::session::Session;
use case_databases::Store;
use http_serve::{Routes, serve_one};
use metadata::Moment;
use script_words::{LineFault, expanded};
use sqlite::MemStore;
use std::alloc::Global;

/// The response to a request. A writer that is a list takes all but for want of memory, which is not the store's.
pub fn response(
    alloc: Global,
    routes: &Routes,
    store: &mut Store<MemStore>,
    request: &[u8],
    now: Moment,
) -> Result<Vec<u8>, LineFault> {
    let mut reader = request;
    let mut writer = Vec::new(alloc);
    match serve_one(alloc, routes, &mut reader, &mut writer, store, now) {
        Ok(()) => Ok(writer),
        Err(_) => Err(LineFault::OutOfMemory),
    }
}

/// The response where memory was refused.
pub const NO_MEMORY: &[u8] =
    b"HTTP/1.1 503 Service Unavailable\r\nContent-Type: application/json\r\nContent-Length: 18\r\nConnection: close\r\n\r\n{\"fault\":\"memory\"}";

impl Session<'_> {
    // The response over the store that is open.
    fn answer(&mut self, request: &[u8]) -> Result<Vec<u8>, LineFault> {
        let now = self.now;
        match self.base.store() {
            Some(store) => response(self.alloc, &self.routes, store, request, now),
            None => Err(LineFault::NotUnderstood),
        }
    }

    /// `http TEXT`: a request with escapes. Where memory was refused, the rows have to be as before, and it is made once more.
    pub fn request(&mut self, text: &str) -> Result<String, LineFault> {
        let request = expanded(self.alloc, &self.files, text)?;
        self.respond(&request)
    }

    fn respond(&mut self, request: &[u8]) -> Result<String, LineFault> {
        let given = self.answer(request)?;
        if given.as_slice() == NO_MEMORY {
            return self.respond_again(request);
        }
        self.rows = None;
        response_text(self.alloc, &self.files, &given)
    }

    fn respond_again(&mut self, request: &[u8]) -> Result<String, LineFault> {
        self.refusals = self.refusals.saturating_add(1);
        if !self.has_rows_of_before()? {
            return text_of(self.alloc, "rows are changed by a refusal");
        }
        let given = self.answer(request)?;
        self.rows = None;
        response_text(self.alloc, &self.files, &given)
    }
}

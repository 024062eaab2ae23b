//! Rows that are written behind the store's back, as many as a script asks for.
use crate::replies::text_of;
use crate::session::Session;
use case_databases::{Filling, put_rows};
use script_words::{LineFault, find, number_of};

impl Session<'_> {
    /// `fill roots N`: roots 1 to N, one key, of seed 1, for all roles. `fill blobs N`: the blobs of the numbers below N, as four
    /// bytes each. `fill shelf N NAME`: the file at version 1 of N roles. `fill blob NAME`: the file as a blob.
    pub fn fill(&mut self, text: &str) -> Result<String, LineFault> {
        let (table, rest) = text.split_once(' ').unwrap_or((text, ""));
        let (first, second) = rest.split_once(' ').unwrap_or((rest, ""));
        let count = if table == "blob" {
            1
        } else {
            number_of(first)?
        };
        let filling = match table {
            "roots" => Filling::Roots,
            "blobs" => Filling::Blobs,
            "blob" => Filling::Blob(find(&self.files, first)?.bytes.clone()?),
            "shelf" => Filling::Shelf(find(&self.files, second)?.bytes.clone()?),
            _ => return Err(LineFault::NotUnderstood),
        };
        self.rows = None;
        self.base.shut();
        let done = match self.base.connection() {
            Some(conn) => put_rows(self.alloc, conn, &filling, count).is_ok(),
            None => false,
        };
        text_of(self.alloc, if done { "done" } else { "failed" })
    }
}

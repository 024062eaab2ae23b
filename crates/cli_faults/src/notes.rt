//! What is told besides, on standard error, where it is asked for.
use plain_text::plain;
use std::alloc::{AllocError, Global};
use std::fmt::Display;
use std::io::Write;

/// The number of the last denial.
pub const MOST_DENIALS: u8 = 53;

/// Standard error, and whether facts are told on it. What is told may have names from outside in it, so each fact goes through
/// `plain_text::plain`: it is one line, and gives a terminal no orders.
#[derive(Drop)]
pub struct Notes<'e, E: Write> {
    alloc: Global,
    err: &'e mut E,
    verbose: bool,
    passed_over: Vec<String>,
}

impl<'e, E: Write> Notes<'e, E> {
    pub fn new(alloc: Global, err: &'e mut E, verbose: bool) -> Notes<'e, E> {
        Notes {
            alloc,
            err,
            verbose,
            passed_over: Vec::new(alloc),
        }
    }

    /// Whether facts are told.
    pub fn are_told(&self) -> bool {
        self.verbose
    }

    /// Tells what takes a while, in a line. A write that fails is disregarded.
    pub fn progress<F: Display>(&mut self, fact: &F) {
        let line = format!(in self.alloc; "{fact}");
        self.line(line);
    }

    /// Warns of what has this name, in a line, also where facts are not told. A write that fails is disregarded.
    pub fn warn<N: Display, F: Display>(&mut self, name: &N, fact: &F) {
        let line = format!(in self.alloc; "warning: {name}: {fact}");
        self.line(line);
    }

    /// Warns once of what is passed over at a place, however often it is looked at.
    pub fn warn_once<F: Display>(&mut self, place: &str, fact: &F) {
        if self.passed_over.iter().any(|told| told.as_str() == place) {
            return;
        }
        self.warn(&place, fact);
        if let Ok(place) = String::from_str(self.alloc, place) {
            let _ = self.passed_over.push(place);
        }
    }

    /// Says why what has this name was not done, in a line, also where facts are not told. The line of the fault stands after it. A write that
    /// fails is disregarded.
    pub fn fault<N: Display, F: Display>(&mut self, name: &N, reason: &F) {
        let line = format!(in self.alloc; "release: {name}: {reason}");
        self.line(line);
    }

    /// The same of what was denied, by the number of the rule that failed: where there is such a rule, the line says by which words it is told
    /// in full.
    pub fn denied<N: Display>(&mut self, name: &N, number: u8) {
        let line = if number == 0 || number > MOST_DENIALS {
            format!(in self.alloc; "release: {name}: denied")
        } else {
            format!(in self.alloc;
                "release: {name}: denied; 'release help {number}' says what to do"
            )
        };
        self.line(line);
    }

    /// Tells one fact of what has this name, in a line. A write that fails is disregarded.
    pub fn tell<N: Display, F: Display>(&mut self, name: &N, fact: &F) {
        if self.verbose {
            let line = format!(in self.alloc; "{name}: {fact}");
            self.line(line);
        }
    }

    // Writes a line. In the place of one that finds no memory a warning stands.
    fn line(&mut self, line: Result<String, AllocError>) {
        match plainly(self.alloc, line) {
            Ok(line) => {
                let _ = writeln!(self.err, "{line}");
            }
            Err(_) => {
                let _ = writeln!(
                    self.err,
                    "warning: memory was refused for a line that stood here"
                );
            }
        }
    }
}

fn plainly(alloc: Global, line: Result<String, AllocError>) -> Result<String, AllocError> {
    let line = line?;
    plain(alloc, line.as_str())
}

//! The turns of a call of a client: whose each was, what it gave, and how it ended.
use crate::server::Peer;
use client::{ClientFault, FetchFault};
use show_texts::Growing;
use std::alloc::{AllocError, Global};
use std::fmt;

/// A denial, by its number and its name.
#[derive(Clone, Copy)]
pub struct Denied {
    pub number: u8,
    pub name: &'static str,
}

impl fmt::Display for Denied {
    fn fmt<W: fmt::Write>(&self, f: &mut fmt::Formatter<W>) -> fmt::Result {
        let Denied { number, name } = self;
        write!(f, "denied {number} {name}")
    }
}

/// How a turn ended that did not end well.
#[derive(Clone, Copy)]
pub enum End {
    Denied(Denied),
    Fault(FetchFault),
}

/// A turn.
#[derive(Clone, Copy)]
pub struct Turn<'a> {
    /// Whose it was: nobody's, where all were asked together.
    pub peer: Option<Peer<'a>>,
    /// So many files were given.
    pub files: u64,
    /// Who gave the last of them.
    pub giver: Option<Peer<'a>>,
    /// Whether a timestamp was given.
    pub has_timestamp: bool,
    /// How it ended, where it did not end well.
    pub end: Option<End>,
    // whether the last answer was a file
    gave: bool,
}

impl<'a> Turn<'a> {
    /// Whose turn it was and how it ended, where that is a wrong of its own: a denial of a file that it gave, or a file over its limit.
    pub fn wrong(&self) -> Option<(Peer<'a>, End)> {
        let peer = self.peer?;
        match self.end? {
            End::Denied(denial) if self.gave => Some((peer, End::Denied(denial))),
            End::Fault(FetchFault::TooLong) => Some((peer, End::Fault(FetchFault::TooLong))),
            _ => None,
        }
    }
}

/// The turns so far.
#[derive(Drop)]
pub struct Turns<'a> {
    past: Growing<Turn<'a>>,
    now: Option<Turn<'a>>,
}

impl<'a> Turns<'a> {
    pub fn new(alloc: Global) -> Turns<'a> {
        Turns {
            past: Growing::new(alloc),
            now: None,
        }
    }

    /// From now on it is the turn of this one, or of all together.
    pub fn begin(&mut self, peer: Option<Peer<'a>>) {
        self.close();
        self.now = Some(Turn {
            peer,
            files: 0,
            giver: None,
            has_timestamp: false,
            end: None,
            gave: false,
        });
    }

    /// A file was given by this one, or none was given; the file is a timestamp, or another.
    pub fn answered(&mut self, giver: Option<Peer<'a>>, is_timestamp: bool) {
        if let Some(mut turn) = self.now {
            turn.gave = giver.is_some();
            if turn.gave {
                turn.has_timestamp |= is_timestamp;
                turn.files = turn.files.saturating_add(1);
                turn.giver = giver;
            }
            self.now = Some(turn);
        }
    }

    /// The turn ended in this fault. Want of memory and a fault of the database end the call, and no turn.
    pub fn failed(&mut self, fault: &ClientFault) {
        let end = match fault {
            ClientFault::Denied(denial) => End::Denied(Denied {
                number: denial.number(),
                name: denial.name(),
            }),
            ClientFault::Fetch(fault) => End::Fault(*fault),
            ClientFault::Database | ClientFault::OutOfMemory => return,
        };
        if let Some(mut turn) = self.now {
            turn.end = Some(end);
            self.now = Some(turn);
        }
    }

    fn close(&mut self) {
        if let Some(turn) = self.now {
            self.past.put(Ok(turn));
        }
        self.now = None;
    }

    /// All of them, in order.
    pub fn done(self) -> Result<Vec<Turn<'a>>, AllocError> {
        let mut turns = self;
        turns.close();
        let Turns { past, .. } = turns;
        past.done()
    }
}

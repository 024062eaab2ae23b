//! `update`: brings a client's own state up to date.
use crate::fault::told;
use crate::remote::{Call, Remote, tell_wrongs};
use crate::report::{Found, is_answer, update_as_json};
use crate::server::{Named, see_folders};
use crate::turns::Turn;
use cli_faults::{Fault, Notes, moment, warn_of_clock};
use cli_files::print;
use cli_repository::{FirstExpiry, Store, Versions, Work, tell_standing, worked};
use cli_tasks::Updating;
use client::update_by_each;
use metadata::Moment;
use sqlite::Alter;
use std::alloc::AllocError;
use std::fmt;
use std::io::{IsTerminal, Write};

/// Takes new roots, the timestamp and the snapshot from the repository at the port, or in folders and at mirrors, into the state in the database
/// file, each where the state's own rules accept it, and prints `updated`, or what it found as JSON, then also where it was denied or the
/// network failed. It warns where the repository has no timestamp, or the one that is held then has expired: from then on nothing is granted.
/// Where it is to be fresh, it ends as not fresh in those two cases, and where no turn that ended well gave a timestamp. All of it has so many
/// seconds, 600 where none are given.
pub fn update<O: Write, E: Write>(
    rt: &HostRuntime,
    asked: &Updating,
    at: Option<u64>,
    out: &mut O,
    notes: &mut Notes<'_, E>,
) -> Result<(), Fault> {
    let now = moment(rt, at)?;
    warn_of_clock(now, notes);
    see_folders(rt, &asked.server, notes)?;
    let call = Call::begun(rt, asked.within)?;
    let mut bringing = Bringing {
        call,
        asked,
        now,
        found: None,
    };
    let done = worked(rt, asked.db.as_str(), &mut bringing, notes);
    let Bringing { found, .. } = bringing;
    let done = seen_fresh(done, asked.fresh, &found, now);
    if !asked.json {
        done?;
        return print(out, b"updated\n", notes);
    }
    match found {
        Some(found) if is_answer(&done) => {
            let text = update_as_json(rt.alloc(), &found?, &done, now)?;
            print(out, &text, notes)?;
            done
        }
        _ => done,
    }
}

// How an update ends that is to be fresh, or need not be.
fn seen_fresh(
    done: Result<(), Fault>,
    is_wanted: bool,
    found: &Option<Result<Found<'_>, AllocError>>,
    now: Moment,
) -> Result<(), Fault> {
    done?;
    if !is_wanted {
        return Ok(());
    }
    match found {
        Some(Ok(found)) if found.is_fresh(now) => Ok(()),
        Some(Err(_)) => Err(Fault::Memory),
        _ => Err(Fault::NotFresh),
    }
}

// What is done over the client's state. A fault is told with the name of its database.
#[derive(Drop)]
struct Bringing<'a> {
    call: Call<'a>,
    asked: &'a Updating,
    now: Moment,
    found: Option<Result<Found<'a>, AllocError>>,
}

impl<'a> Work for Bringing<'a> {
    ghost use Rattle.cli_client.specs.Clients.{Updated};

    type Done = ();

    ghost does = { λ bringing A _ B _. Updated bringing.now A B };

    fn work<S: Alter, E: Write>(
        &mut self,
        state: &mut Store<S>,
        notes: &mut Notes<'_, E>,
    ) -> Result<(), Fault> {
        let alloc = self.call.rt().alloc();
        let asked: &'a Updating = self.asked;
        let before = Versions::of(alloc, state.held());
        let (done, turns, lacks_timestamp) = {
            let mut remote = Remote::new(self.call, &asked.server, notes);
            let count = remote.count();
            let done = update_by_each(alloc, state, &mut remote, count, self.now);
            (done, remote.take_turns(), remote.lacks_timestamp())
        };
        self.found = Some(self.find(before, state, turns, notes));
        match done {
            Ok(()) => {
                self.tell_found(state, notes);
                if lacks_timestamp {
                    notes.warn(&Named(&asked.server), &"no timestamp");
                }
                Ok(())
            }
            Err(fault) => Err(told(&asked.db.as_str(), fault, notes)),
        }
    }
}

impl<'a> Bringing<'a> {
    // Warns of the turns that ended in a wrong of their own, and finds what is held now; what expires first only where it is printed.
    fn find<S: Alter, E: Write>(
        &self,
        before: Result<Versions, AllocError>,
        state: &Store<S>,
        turns: Result<Vec<Turn<'a>>, AllocError>,
        notes: &mut Notes<'_, E>,
    ) -> Result<Found<'a>, AllocError> {
        let alloc = self.call.rt().alloc();
        let (before, turns) = (before?, turns?);
        tell_wrongs(&self.asked.server, &turns, None, notes);
        let after = Versions::of(alloc, state.held())?;
        let first = if self.asked.json {
            FirstExpiry::of(alloc, state.held())?
        } else {
            None
        };
        Ok(Found {
            before,
            after,
            first,
            turns,
        })
    }

    // Tells the versions before and after an update and the first expiry, and warns of a timestamp that has expired.
    fn tell_found<S: Alter, E: Write>(&self, state: &Store<S>, notes: &mut Notes<'_, E>) {
        let Some(Ok(found)) = &self.found else {
            return;
        };
        let (rt, db) = (self.call.rt(), self.asked.db.as_str());
        let change = Change {
            before: found.before,
            found: found.after,
        };
        notes.tell(&db, &change);
        if notes.are_told() {
            tell_standing(rt.alloc(), db, state.held(), notes);
        } else if rt.stderr().is_terminal() {
            notes.progress(&change);
            if let Ok(Some(first)) = FirstExpiry::of(rt.alloc(), state.held()) {
                notes.progress(&first);
            }
        }
        if found.after.has_expired(self.now) {
            notes.warn(&db, &"the timestamp has expired");
        }
    }
}

// The versions before an update and after it.
#[derive(Clone, Copy)]
struct Change {
    before: Versions,
    found: Versions,
}

impl fmt::Display for Change {
    fn fmt<W: fmt::Write>(&self, f: &mut fmt::Formatter<W>) -> fmt::Result {
        let Change { before, found } = self;
        write!(f, "{found}; before: {before}")
    }
}

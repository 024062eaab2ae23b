//! `get` of one target, into a file.
ghost use Rattle.std.specs.Prelude.{IfOk};
ghost use Rattle.cli_get.specs.Getting.{IsGranted};

use crate::below::is_of_database;
use crate::report::{Got, get_as_json};
use cli_client::{Call, Remote, Turn, is_answer, see_folders, tell_wrongs, told};
use cli_faults::{Denial, Fault, Notes, moment, warn_of_clock};
use cli_files::{OWNER_ALONE, print, put_in_place, unused};
use cli_repository::{Store, Work, worked};
use cli_tasks::{Getting, Server};
use client::{ClientFault, fetch_by_each};
use metadata::Moment;
use path_patterns::TargetPath;
use sqlite::Alter;
use std::alloc::{AllocError, Global};
use std::io::Write;

/// Fetches what the client's own state misses for the target, and writes the target's file where that state grants it. Prints
/// `written`, or what it got as JSON, then also where it was denied or the network failed. The file that is written may not be the client's
/// own database or its log, by whatever name.
pub fn get<'a, O: Write, E: Write>(
    rt: &'a HostRuntime,
    asked: &'a Getting,
    at: Option<u64>,
    out: &mut O,
    notes: &mut Notes<'_, E>,
) -> Result<(), Fault> {
    let now = moment(rt, at)?;
    warn_of_clock(now, notes);
    let path = target_path(rt, asked.path.as_str(), notes)?;
    see_folders(rt, &asked.server, notes)?;
    let call = Call::begun(rt, asked.within)?;
    let (fetched, turns) = granted(call, asked, &path, now, notes);
    let (done, bytes) = match fetched {
        Ok(bytes) => (put(rt, asked, &bytes, notes), Some(bytes)),
        Err(fault) => (Err(fault), None),
    };
    if !asked.json {
        done?;
        return print(out, b"written\n", notes);
    }
    let got = Got {
        path: asked.path.as_str(),
        bytes,
        turns: turns?,
    };
    print_got(rt.alloc(), &got, done, now, out, notes)
}

// Prints what was got as JSON, where the sources made the end.
fn print_got<O: Write, E: Write>(
    alloc: Global,
    got: &Got<'_>,
    done: Result<(), Fault>,
    now: Moment,
    out: &mut O,
    notes: &mut Notes<'_, E>,
) -> Result<(), Fault> {
    if is_answer(&done) {
        let text = get_as_json(alloc, got, &done, now)?;
        print(out, &text, notes)?;
    }
    done
}

// The bytes that the state in the database grants, after a fetch, and the turns of the sources.
fn granted<'a, E: Write>(
    call: Call<'a>,
    asked: &'a Getting,
    path: &'a TargetPath,
    now: Moment,
    notes: &mut Notes<'_, E>,
) -> (Result<Vec<u8>, Fault>, Result<Vec<Turn<'a>>, AllocError>)
    ensures { IfOk result.0 (λ bytes. IsGranted path.now now bytes.items) }
{
    let rt = call.rt();
    let mut fetching = Fetching {
        rt,
        call,
        from: &asked.server,
        path,
        now,
        turns: Ok(Vec::new(rt.alloc())),
    };
    let done = worked(rt, asked.db.as_str(), &mut fetching, notes);
    let Fetching { turns, .. } = fetching;
    (done, turns)
}

// Writes the target's file, unless it is of the client's own database.
fn put<E: Write>(
    rt: &HostRuntime,
    asked: &Getting,
    bytes: &[u8],
    notes: &mut Notes<'_, E>,
) -> Result<(), Fault> {
    let out = asked.out.as_str();
    if is_of_database(rt, asked.db.as_str(), out)? {
        notes.fault(&out, &"a file of the client's own database");
        return Err(Fault::File);
    }
    match put_in_place(rt, out, bytes, OWNER_ALONE) {
        Ok(()) => Ok(()),
        Err(error) => Err(unused(out, &error, notes)),
    }
}

fn target_path<E: Write>(
    rt: &HostRuntime,
    path: &str,
    notes: &mut Notes<'_, E>,
) -> Result<TargetPath, Fault> {
    match TargetPath::read(rt.alloc(), path)? {
        Some(path) => Ok(path),
        None => {
            notes.denied(&path, Denial::BadPath.number());
            Err(Fault::Denied(Denial::BadPath, None))
        }
    }
}

// What is done over the client's own state: the bytes of the target that it grants are fetched. A fault is told with the target's path.
#[derive(Drop)]
struct Fetching<'a> {
    rt: &'a HostRuntime,
    call: Call<'a>,
    from: &'a Server,
    path: &'a TargetPath,
    now: Moment,
    turns: Result<Vec<Turn<'a>>, AllocError>,
}

impl Work for Fetching<'_> {
    ghost use Rattle.cli_get.specs.Getting.{Fetched};

    type Done = Vec<u8>;

    ghost does = { λ fetching A r B _. Fetched fetching.path.now fetching.now A r B };

    fn work<S: Alter, E: Write>(
        &mut self,
        state: &mut Store<S>,
        notes: &mut Notes<'_, E>,
    ) -> Result<Vec<u8>, Fault> {
        let alloc = self.rt.alloc();
        let (done, turns) = {
            let mut remote = Remote::joined(self.call, self.from, notes);
            let count = remote.count();
            let done = fetch_by_each(alloc, state, &mut remote, count, self.path, self.now);
            (done, remote.take_turns())
        };
        self.turns = turns;
        self.tell(number_of(&done), notes);
        match done {
            Ok(bytes) => Ok(bytes),
            Err(fault) => { Err(told(&self.path.as_str(), fault, notes)) }
        }
    }
}

impl Fetching<'_> {
    // Warns of the turns that ended in a wrong of their own, but not of the denial that is told of the call.
    fn tell<E: Write>(&self, told: Option<u8>, notes: &mut Notes<'_, E>) {
        if let Ok(turns) = &self.turns {
            tell_wrongs(self.from, turns, told, notes);
        }
    }
}

// The number of the denial in which a fetch ended.
fn number_of(done: &Result<Vec<u8>, ClientFault>) -> Option<u8> {
    match done {
        Err(ClientFault::Denied(denial)) => Some(denial.number()),
        _ => None,
    }
}

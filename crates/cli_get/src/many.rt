//! `get` of several targets, into a folder.
ghost use Rattle.std.specs.Prelude.{None, Ok, IfOk};
ghost use Rattle.sqlite.specs.Held.{state};
ghost use Rattle.trust_rules.specs.Grants.{grants};
ghost use Rattle.store.specs.Standing.{IsClean, seen};
ghost use Rattle.client.specs.Changes.{Changes};
ghost use Rattle.client.specs.Taken.{IsTaking, RunsOn};
ghost use Rattle.cli_client.specs.Clients.{Updated};
ghost use Rattle.cli_get.specs.Getting.{IsGranted};

use crate::below::{is_in_the_way, is_no_folder, is_of_database, put_below};
use crate::report::{Account, End};
use crate::wanted::{Wanted, covered, covers_some, see_patterns};
use cli_client::{Call, Denied, Remote, Turn, see_folders, tell_wrongs, told};
use cli_faults::{Denial, Fault, Notes, moment, warn_of_clock};
use cli_files::{print, unused};
use cli_repository::{Held, Store, Work, denied_to_all, listed_paths, worked};
use cli_tasks::{GettingMany, Server};
use client::{ClientFault, fetch_by_each, fetch_roles_by_each};
use metadata::Moment;
use path_patterns::{Pattern, TargetPath};
use sqlite::Alter;
use std::alloc::{AllocError, Global};
use std::fmt::{self, Display};
use std::io::{IsTerminal, Write};
use std::mem::replace;
use store::stands;

// After so many targets it is told again how many are done.
const TARGETS_BETWEEN: usize = 16;

/// Fetches what the client's own state misses for each of the paths, in the order of their bytes and each once, and writes the file of each
/// below the folder where that state grants it; prints `written PATH` of each, or all as JSON in the end. Where one is denied, has no answer, or
/// something else stands in its place, that is told, and the others are done. In the end the first fault is answered, or else the first
/// denial. Want of memory and a fault of the database or of the disk end it at once.
pub fn get_many<O: Write, E: Write>(
    rt: &HostRuntime,
    asked: &GettingMany,
    at: Option<u64>,
    out: &mut O,
    notes: &mut Notes<'_, E>,
) -> Result<(), Fault> {
    see_patterns(rt.alloc(), &asked.which)?;
    let now = moment(rt, at)?;
    warn_of_clock(now, notes);
    let wanted = Wanted::read(rt, &asked.which, notes)?;
    see_folders(rt, &asked.server, notes)?;
    if is_no_folder(rt, asked.to.as_str()) {
        notes.fault(&asked.to, &"no folder");
        return Err(Fault::File);
    }
    let task = Task {
        call: Call::begun(rt, asked.within)?,
        asked,
        moment: now,
    };
    let mut gathering = Gathering {
        task,
        wanted,
        ledger: Ledger {
            account: Account::new(rt.alloc(), asked.json),
            out,
        },
    };
    worked(rt, asked.db.as_str(), &mut gathering, notes)?;
    let Gathering { ledger, .. } = gathering;
    let Ledger { account, out } = ledger;
    let (done, text) = account.done(rt.alloc(), now);
    if asked.json {
        print(out, &text?, notes)?;
    }
    done
}

// What is done over the client's own state: each path is fetched, and its file written.
#[derive(Drop)]
struct Gathering<'a, 'o, O: Write> {
    task: Task<'a>,
    wanted: Wanted,
    ledger: Ledger<'o, O>,
}

// What is asked for, in which call, and at which moment.
#[derive(Clone, Copy)]
struct Task<'a> {
    call: Call<'a>,
    asked: &'a GettingMany,
    moment: Moment,
}

// What became of the paths so far, and where it is printed.
#[derive(Drop)]
struct Ledger<'o, O: Write> {
    account: Account,
    out: &'o mut O,
}

impl<O: Write> Work for Gathering<'_, '_, O> {
    ghost use Rattle.cli_client.specs.Clients.{Updated};

    type Done = ();

    ghost does = { λ gathering A _ B _. Updated gathering.task.moment A B };

    fn work<S: Alter, E: Write>(
        &mut self,
        store: &mut Store<S>,
        notes: &mut Notes<'_, E>,
    ) -> Result<(), Fault> {
        let none = Wanted::Texts(Vec::new(self.task.alloc()));
        let wanted = replace(&mut self.wanted, none);
        match self.task.texts(wanted, store, &mut self.ledger, notes) {
            Ok(texts) => { self.task.get_each(&texts, store, &mut self.ledger, notes) }
            Err(fault) => Err(fault),
        }
    }
}

impl<'a> Task<'a> {
    fn alloc(&self) -> Global {
        self.call.rt().alloc()
    }

    fn server(&self) -> &'a Server {
        let asked: &'a GettingMany = self.asked;
        &asked.server
    }

    // The texts that are wanted.
    fn texts<S: Alter, O: Write, E: Write>(
        &self,
        wanted: Wanted,
        store: &mut Store<S>,
        ledger: &mut Ledger<'_, O>,
        notes: &mut Notes<'_, E>,
    ) -> Result<Vec<String>, Fault>
        ensures { Updated self.now.moment (seen store.old.kept (state S.Store store.old.conn)) (seen store.new.kept (state S.Store store.new.conn)) }
    {
        match wanted {
            Wanted::Texts(texts) => Ok(texts),
            Wanted::Listed(patterns) => self.listed(&patterns, store, ledger, notes),
        }
    }

    // All that is listed, or what a pattern covers of it. Where the state grants no target at all, that is told, and nothing is.
    fn listed<S: Alter, O: Write, E: Write>(
        &self,
        patterns: &[Pattern],
        store: &mut Store<S>,
        ledger: &mut Ledger<'_, O>,
        notes: &mut Notes<'_, E>,
    ) -> Result<Vec<String>, Fault>
        ensures { Updated self.now.moment (seen store.old.kept (state S.Store store.old.conn)) (seen store.new.kept (state S.Store store.new.conn)) }
    {
        match denied_to_all(self.alloc(), store.held(), self.moment) {
            Ok(None) => self.listed_by_roles(patterns, store, ledger, notes),
            Ok(Some(denial)) => self.denied(denial, ledger, notes),
            Err(error) => Err(Fault::from(error)),
        }
    }

    // No text, where the state denies each.
    fn denied<O: Write, E: Write>(
        &self,
        denial: Denial,
        ledger: &mut Ledger<'_, O>,
        notes: &mut Notes<'_, E>,
    ) -> Result<Vec<String>, Fault> {
        ledger.miss(&self.asked.db, ClientFault::Denied(denial), notes)?;
        Ok(Vec::new(self.alloc()))
    }

    fn listed_by_roles<S: Alter, O: Write, E: Write>(
        &self,
        patterns: &[Pattern],
        store: &mut Store<S>,
        ledger: &mut Ledger<'_, O>,
        notes: &mut Notes<'_, E>,
    ) -> Result<Vec<String>, Fault>
        ensures { Updated self.now.moment (seen store.old.kept (state S.Store store.old.conn)) (seen store.new.kept (state S.Store store.new.conn)) }
    {
        match self.bring(store, ledger, notes) {
            Ok(()) => chosen(self.alloc(), store.held(), patterns, notes),
            Err(fault) => Err(fault),
        }
    }

    // Fetches the metadata of each role that the snapshot names. A fault that is none of the database or of memory is told, and what is then
    // listed is got all the same.
    fn bring<S: Alter, O: Write, E: Write>(
        &self,
        store: &mut Store<S>,
        ledger: &mut Ledger<'_, O>,
        notes: &mut Notes<'_, E>,
    ) -> Result<(), Fault>
        ensures { Updated self.now.moment (seen store.old.kept (state S.Store store.old.conn)) (seen store.new.kept (state S.Store store.new.conn)) }
    {
        let (done, turns) = {
            let mut remote = Remote::new(self.call, self.server(), notes);
            let count = remote.count();
            let done = fetch_roles_by_each(self.alloc(), store, &mut remote, count, self.moment);
            (done, remote.take_turns())
        };
        self.brought(done, turns, ledger, notes)
    }

    fn brought<O: Write, E: Write>(
        &self,
        done: Result<(), ClientFault>,
        turns: Result<Vec<Turn<'a>>, AllocError>,
        ledger: &mut Ledger<'_, O>,
        notes: &mut Notes<'_, E>,
    ) -> Result<(), Fault> {
        let turns = turns?;
        tell_wrongs(self.server(), &turns, number_of(&done), notes);
        ledger.account.take_turns(&turns);
        if let Err(fault) = done {
            ledger.miss(&self.asked.db, fault, notes)?;
        }
        Ok(())
    }

    // Each of the texts in turn.
    fn get_each<S: Alter, O: Write, E: Write>(
        &self,
        texts: &[String],
        store: &mut Store<S>,
        ledger: &mut Ledger<'_, O>,
        notes: &mut Notes<'_, E>,
    ) -> Result<(), Fault>
        ensures { Updated self.now.moment (seen store.old.kept (state S.Store store.old.conn)) (seen store.new.kept (state S.Store store.new.conn)) }
    {
        let mut rest = texts;
        'texts: while let Some((text, later)) = rest.split_first() {
            self.tell_place(texts.len().saturating_sub(rest.len()), texts.len(), notes);
            match self.get_text(text.as_str(), store, ledger, notes) {
                Ok(()) => {}
                Err(fault) => return Err(fault),
            }
            rest = later;
        }
        Ok(())
    }

    // Tells on a terminal how many targets are done, before the one at this place is.
    fn tell_place<E: Write>(&self, place: usize, count: usize, notes: &mut Notes<'_, E>) {
        if place > 0 && place % TARGETS_BETWEEN == 0 && self.call.rt().stderr().is_terminal() {
            notes.progress(&Done { place, count });
        }
    }

    // The file of a text, if that is a path.
    fn get_text<S: Alter, O: Write, E: Write>(
        &self,
        text: &str,
        store: &mut Store<S>,
        ledger: &mut Ledger<'_, O>,
        notes: &mut Notes<'_, E>,
    ) -> Result<(), Fault>
        ensures { Updated self.now.moment (seen store.old.kept (state S.Store store.old.conn)) (seen store.new.kept (state S.Store store.new.conn)) }
    {
        match TargetPath::read(self.alloc(), text) {
            Ok(Some(path)) => self.get_path(&path, store, ledger, notes),
            Ok(None) => ledger.miss_path(text, ClientFault::Denied(Denial::BadPath), &[], notes),
            Err(error) => Err(Fault::from(error)),
        }
    }

    // The file of a path.
    fn get_path<S: Alter, O: Write, E: Write>(
        &self,
        path: &TargetPath,
        store: &mut Store<S>,
        ledger: &mut Ledger<'_, O>,
        notes: &mut Notes<'_, E>,
    ) -> Result<(), Fault>
        ensures { Updated self.now.moment (seen store.old.kept (state S.Store store.old.conn)) (seen store.new.kept (state S.Store store.new.conn)) }
    {
        stands(store);
        let fetched = self.fetch(path, store, notes);
        let (done, turns) = fetched;
        self.got(path, done, turns, ledger, notes)
    }

    // The bytes of a path that the state grants, after a fetch, and the turns of the sources.
    fn fetch<S: Alter, E: Write>(
        &self,
        path: &TargetPath,
        store: &mut Store<S>,
        notes: &mut Notes<'_, E>,
    ) -> (
        Result<Vec<u8>, ClientFault>,
        Result<Vec<Turn<'a>>, AllocError>,
    )
        ensures { Changes (seen store.old.kept (state S.Store store.old.conn)) (seen store.new.kept (state S.Store store.new.conn))
            (λ C D. RunsOn IsTaking self.now.moment C D
            × (IsClean (seen store.new.kept (state S.Store store.new.conn)) → IfOk result.0 (λ b. grants D path.now None self.now.moment (Ok b.items)))) }
    {
        let mut remote = Remote::joined(self.call, self.server(), notes);
        let count = remote.count();
        let done = fetch_by_each(self.alloc(), store, &mut remote, count, path, self.moment);
        (done, remote.take_turns())
    }

    // What came of a fetch: the file is written, or it is told why not.
    fn got<O: Write, E: Write>(
        &self,
        path: &TargetPath,
        done: Result<Vec<u8>, ClientFault>,
        turns: Result<Vec<Turn<'a>>, AllocError>,
        ledger: &mut Ledger<'_, O>,
        notes: &mut Notes<'_, E>,
    ) -> Result<(), Fault>
        requires { IfOk done (λ bytes. IsGranted path.now self.now.moment bytes.items) }
    {
        let turns = turns?;
        tell_wrongs(self.server(), &turns, number_of(&done), notes);
        match done {
            Ok(bytes) => self.put(path, &bytes, &turns, ledger, notes),
            Err(fault) => ledger.miss_path(path.as_str(), fault, &turns, notes),
        }
    }

    // Writes the file of a path, which a state grants, and says so.
    fn put<O: Write, E: Write>(
        &self,
        path: &TargetPath,
        bytes: &[u8],
        turns: &[Turn<'_>],
        ledger: &mut Ledger<'_, O>,
        notes: &mut Notes<'_, E>,
    ) -> Result<(), Fault>
        requires { IsGranted path.now self.now.moment bytes.now }
    {
        let path = path.as_str();
        if !self.is_put(path, bytes, notes)? {
            ledger.account.fail(Fault::File);
            ledger.account.take(path, End::Fault("file"), turns);
            return Ok(());
        }
        ledger.account.take(path, End::Written(bytes), turns);
        if self.asked.json {
            return Ok(());
        }
        let line = format!(in self.alloc(); "written {path}\n")?;
        print(ledger.out, line.as_bytes(), notes)
    }

    // Whether the file of a path comes into its place, and not something else stands there, which is told.
    fn is_put<E: Write>(
        &self,
        path: &str,
        bytes: &[u8],
        notes: &mut Notes<'_, E>,
    ) -> Result<bool, Fault> {
        let (rt, to) = (self.call.rt(), self.asked.to.as_str());
        let place = format!(in rt.alloc(); "{to}/{path}")?;
        if is_of_database(rt, self.asked.db.as_str(), place.as_str())? {
            notes.fault(&place, &"a file of the client's own database");
            return Ok(false);
        }
        match put_below(rt, to, path, bytes) {
            Ok(()) => Ok(true),
            Err(error) => {
                let fault = unused(place.as_str(), &error, notes);
                if is_in_the_way(&error) {
                    Ok(false)
                } else {
                    Err(fault)
                }
            }
        }
    }
}

impl<O: Write> Ledger<'_, O> {
    // Tells why a path was not got, and takes that with the turns of its sources.
    fn miss_path<E: Write>(
        &mut self,
        path: &str,
        fault: ClientFault,
        turns: &[Turn<'_>],
        notes: &mut Notes<'_, E>,
    ) -> Result<(), Fault> {
        let end = self.miss(&path, fault, notes)?;
        self.account.take(path, end, turns);
        Ok(())
    }

    // Tells why what has this name was not done, and takes that. What ends the call at once is a fault.
    fn miss<N: Display, E: Write>(
        &mut self,
        name: &N,
        fault: ClientFault,
        notes: &mut Notes<'_, E>,
    ) -> Result<End<'static>, Fault> {
        match fault {
            ClientFault::Denied(denial) => {
                let denied = Denied {
                    number: denial.number(),
                    name: denial.name(),
                };
                notes.warn(name, &denied);
                self.account.fail(Fault::Denied(denial, None));
                Ok(End::Denied(denied))
            }
            other => match told(name, other, notes) {
                Fault::Network => {
                    self.account.fail(Fault::Network);
                    Ok(End::Fault("network"))
                }
                fault => Err(fault),
            },
        }
    }
}

// The paths that are listed, or those of them that a pattern covers. A pattern that covers none is warned of.
fn chosen<E: Write>(
    alloc: Global,
    held: &Held,
    patterns: &[Pattern],
    notes: &mut Notes<'_, E>,
) -> Result<Vec<String>, Fault> {
    let listed = listed_paths(alloc, held)?;
    for pattern in patterns {
        if !covers_some(alloc, pattern, &listed)? {
            notes.warn(
                &pattern.as_str(),
                &"no path that is listed is of this pattern",
            );
        }
    }
    Ok(covered(alloc, &listed, patterns)?)
}

// The number of the denial in which a call ended.
fn number_of<T>(done: &Result<T, ClientFault>) -> Option<u8> {
    match done {
        Err(ClientFault::Denied(denial)) => Some(denial.number()),
        _ => None,
    }
}

// So many of so many targets.
#[derive(Clone, Copy)]
struct Done {
    place: usize,
    count: usize,
}

impl fmt::Display for Done {
    fn fmt<W: fmt::Write>(&self, f: &mut fmt::Formatter<W>) -> fmt::Result {
        let Done { place, count } = self;
        write!(f, "{place} of {count} targets are done")
    }
}

//! The repository in a database file. One function owns its connection; what is done over it borrows the repository, and knows nothing of
//! files.
ghost use Rattle.std.specs.Prelude.{◌≡◌, IfErr, Result, ⊤};
ghost use Rattle.sqlite.specs.Held.{state};
ghost use Rattle.store.specs.Standing.{Standing, seen};
ghost use Rattle.store.specs.Views.{command_view};
ghost use Rattle.cli_faults.specs.Statuses.{status_of};
ghost use Rattle.cli_faults.specs.declared.fault.Fault.{Fault as Why};
ghost use Rattle.cli_repository.specs.Works.{IsAnswered, Worked};

use crate::faults::fault_of_store;
use cli_faults::{Fault, Notes};
use cli_files::connected;
use metadata::Moment;
use repository_tables::{has_first_schema, has_others_behind};
use sqlite::{Alter, Connection, FileStore};
use sqlite_disk::Disk;
use std::io::Write;
use std::time::Instant;
use store::{Command, Reply, Store, Unopened, close_into_file, stands};

// What is told of a database that another process has.
const IN_USE: &str = "in use by another process; where a server runs over it, use --port";

/// What is done over an open repository.
pub trait Work {
    /// What comes of it.
    type Done;

    /// The work as it was, where the store stood, what came of it, where the store stands, and the work that is left: whether it does so.
    /// Without a value of its own this claims nothing.
    ghost does: { Self → Standing → Result Self.Done Why → Standing → Self → Type 0 } = { λ _ _ _ _ _. ⊤ };

    fn work<S: Alter, E: Write>(
        &mut self,
        repository: &mut Store<S>,
        notes: &mut Notes<'_, E>,
    ) -> Result<Self::Done, Fault>
        ensures { does self.old (seen repository.old.kept (state S.Store repository.old.conn)) result (seen repository.new.kept (state S.Store repository.new.conn)) self.new };
}

/// Opens the repository in the file, which is made where there is none, does the work over it once, and closes it. The log is then copied
/// into the database file, so that the file alone is the whole repository. Where that fails, the log stays beside it, and the next open
/// reads both. Where no repository is opened, nothing is done.
pub fn worked<W: Work, E: Write>(
    rt: &HostRuntime,
    db: &str,
    work: &mut W,
    notes: &mut Notes<'_, E>,
) -> Result<W::Done, Fault>
    ensures { Worked W.does work.old result work.new }
{
    let began = Instant::now(rt).ok();
    let conn = match connected(rt, db, IN_USE, notes) {
        Ok(conn) => conn,
        Err(fault) => return Err(fault),
    };
    worked_in(rt, began, conn, db, work, notes)
}

// The same over a connection to two files, which is closed. Whatever an opening answers, what stood in the rows stands (`stays` of
// `Store::open_over`).
fn worked_in<D: Disk + Drop, W: Work, E: Write>(
    rt: &HostRuntime,
    began: Option<Instant>,
    conn: Connection<FileStore<D>>,
    db: &str,
    work: &mut W,
    notes: &mut Notes<'_, E>,
) -> Result<W::Done, Fault>
    ensures { Worked W.does work.old result work.new }
{
    match opened(rt, began, conn, db, notes) {
        Ok(repository) => worked_and_closed(repository, db, work, notes),
        Err((fault, conn)) => {
            if let Some(conn) = conn {
                let _ = conn.close();
            }
            Err(fault)
        }
    }
}

// The repository over a connection, which is given back where none is opened.
fn opened<S: Alter + Drop, E: Write>(
    rt: &HostRuntime,
    began: Option<Instant>,
    conn: Connection<S>,
    db: &str,
    notes: &mut Notes<'_, E>,
) -> Result<Store<S>, (Fault, Option<Connection<S>>)>
    ensures { IfErr result (λ unopened. status_of unopened.0 ≡ 3) }
{
    let is_first = has_first_schema(conn.schema());
    let has_others = has_others_behind(conn.schema());
    match Store::open_over(rt.alloc(), conn) {
        Ok(repository) => {
            if is_first {
                notes.tell(&db, &"schema 1 was brought to schema 2");
            }
            if notes.are_told() {
                tell_opening(rt, began, db, repository.held().known_signatures(), notes);
            }
            Ok(repository)
        }
        Err(unopened) => {
            notes.fault(&db, &unopened.fault);
            if has_others {
                notes.fault(
                    &db,
                    &"other tables, indexes or views stand after those of schema 1",
                );
            }
            let Unopened { fault, conn } = unopened;
            Err((fault_of_store(fault), conn))
        }
    }
}

// Does the work over an open repository, and closes it. What was done stands in the rows before it is answered (`durable` of
// `Store::apply`), so where the log cannot be copied, the answer stays: the next open reads the log.
fn worked_and_closed<D: Disk + Drop, W: Work, E: Write>(
    repository: Store<FileStore<D>>,
    db: &str,
    work: &mut W,
    notes: &mut Notes<'_, E>,
) -> Result<W::Done, Fault>
    ensures { Worked W.does work.old result work.new }
{
    stands(&repository);
    let mut repository = repository;
    let done = work.work(&mut repository, notes);
    if close_into_file(repository).is_err() {
        notes.tell(&db, &"its log is not copied into it");
    }
    done
}

// Tells how many signatures an opening checked, and how long it took since it began.
fn tell_opening<E: Write>(
    rt: &HostRuntime,
    began: Option<Instant>,
    db: &str,
    signatures: usize,
    notes: &mut Notes<'_, E>,
) {
    let Some(began) = began else {
        return;
    };
    let Ok(took) = began.elapsed(rt) else {
        return;
    };
    let took = took.as_millis();
    if let Ok(told) = format!(in rt.alloc();
        "signatures checked: {signatures}, opened in {took} ms"
    ) {
        notes.tell(&db, &told);
    }
}

// One command at a moment. A fault is told with the name of the database.
#[derive(Clone, Copy)]
struct Making<'a> {
    db: &'a str,
    command: Command<'a>,
    now: Moment,
}

impl Work for Making<'_> {
    ghost use Rattle.store.specs.Views.{command_view};
    ghost use Rattle.cli_repository.specs.Works.{MakesOne};

    type Done = Reply;

    ghost does = { λ making A r B _. MakesOne (command_view making.command) making.now A r B };

    fn work<S: Alter, E: Write>(
        &mut self,
        repository: &mut Store<S>,
        notes: &mut Notes<'_, E>,
    ) -> Result<Reply, Fault> {
        match repository.apply(self.command, self.now) {
            Ok(reply) => Ok(reply),
            Err(fault) => {
                notes.fault(&self.db, &fault);
                Err(fault_of_store(fault))
            }
        }
    }
}

/// Makes one command over the repository in the file. A reply is that of the machine's step, from a state at which the store that was opened
/// stood to the one at which it was closed; on a fault what stood stands.
pub fn applied<E: Write>(
    rt: &HostRuntime,
    db: &str,
    command: Command<'_>,
    now: Moment,
    notes: &mut Notes<'_, E>,
) -> Result<Reply, Fault>
    ensures { IsAnswered (command_view command.entry) now result }
{
    let mut making = Making { db, command, now };
    worked(rt, db, &mut making, notes)
}

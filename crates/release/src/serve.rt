//! `serve`: answers HTTP requests from the repository.
ghost use Rattle.sqlite.specs.Held.{state};
ghost use Rattle.store.specs.Standing.{seen};
ghost use Rattle.release.specs.Serving.{ServedOver};

use cli_faults::{Fault, Notes, moment};
use cli_files::print;
use cli_repository::{Work, tell_standing, worked};
use cli_sockets::{
    Beginning, Incoming, Outgoing, Timer, end, listen, next_stream, tell_connection,
};
use cli_tasks::Serving;
use http_serve::{Answer, Routes, Status, serve_list_reading, serve_list_told, serve_unavailable};
use metadata::Moment;
use sqlite::Alter;
use std::io::Write;
use std::net::{TcpListener, TcpStream};
use std::slice;
use store::Store;

/// Listens, says so, and serves one connection at a time. Each connection has its own moment. A database that a fault has
/// shut is opened again before the next connection is served.
pub fn serve<O: Write, E: Write>(
    rt: &HostRuntime,
    asked: &Serving,
    at: Option<u64>,
    out: &mut O,
    notes: &mut Notes<'_, E>,
) -> Result<(), Fault> {
    let routes = Routes::new(rt.alloc())?;
    let mut kept = Beginning::new();
    let mut server = Server {
        rt,
        asked,
        at,
        routes: &routes,
        kept: &mut kept,
        out,
        listener: None,
        left: asked.count.unwrap_or(u64::MAX),
        waiting: None,
    };
    server.serve(notes)
}

// A connection that was accepted, and its moment.
#[derive(Drop)]
struct Accepted {
    stream: TcpStream,
    now: Moment,
}

// What became of the next connection: it was served, and whether no fault can have shut the database meanwhile; or there is none; or it
// waits, since a fault has shut the database.
#[derive(Clone, Copy)]
enum Next {
    Served(bool),
    All,
    Shut,
}

// What a connection is read from and written to, its moment, and what it was answered.
type Sides<'a, 'k> = (Incoming<'a, 'k>, Outgoing<'a>, Moment, Option<Answer>);

// A server: what it is asked for, and the moment that was handed in. What it does over its repository it does as often as that is opened:
// so many connections are left, and one may have been accepted that waits for a database.
#[derive(Drop)]
struct Server<'a, 'k, O: Write> {
    rt: &'a HostRuntime,
    asked: &'a Serving,
    at: Option<u64>,
    routes: &'a Routes,
    kept: &'k mut Beginning,
    out: &'k mut O,
    listener: Option<TcpListener>,
    left: u64,
    waiting: Option<Accepted>,
}

impl<O: Write> Work for Server<'_, '_, O> {
    // Whether all connections were served: else a fault has shut the database, and one waits.
    type Done = Result<bool, Fault>;

    fn work<S: Alter, E: Write>(
        &mut self,
        repository: &mut Store<S>,
        notes: &mut Notes<'_, E>,
    ) -> Result<Result<bool, Fault>, Fault> {
        let reads_only = self.asked.read_only;
        Ok(self.serve_from(reads_only, repository, notes))
    }
}

impl<O: Write> Server<'_, '_, O> {
    // Where the database cannot be opened at first, nothing is served. Where it cannot be opened again, that is tried at each
    // further connection.
    fn serve<E: Write>(&mut self, notes: &mut Notes<'_, E>) -> Result<(), Fault> {
        let (rt, db) = (self.rt, self.asked.db.as_str());
        let done = worked(rt, db, self, notes)?;
        if done? {
            return Ok(());
        }
        for _ in 0..u64::MAX {
            let is_done = match worked(rt, db, self, notes) {
                Ok(done) => done?,
                Err(_) => !self.refuse(notes)?,
            };
            if is_done {
                return Ok(());
            }
        }
        Ok(())
    }

    fn serve_from<S: Alter, E: Write>(
        &mut self,
        reads_only: bool,
        repository: &mut Store<S>,
        notes: &mut Notes<'_, E>,
    ) -> Result<bool, Fault>
        ensures { ServedOver reads_only (seen repository.old.kept (state S.Store repository.old.conn)) (seen repository.new.kept (state S.Store repository.new.conn)) }
    {
        if self.listener.is_some() {
            notes.tell(&self.asked.db, &"opened again");
        } else if let Err(fault) = self.begin(repository, notes) {
            return Err(fault);
        }
        self.serve_all(reads_only, repository, notes)
    }

    // Listens, and says so.
    fn begin<S: Alter, E: Write>(
        &mut self,
        repository: &Store<S>,
        notes: &mut Notes<'_, E>,
    ) -> Result<(), Fault> {
        let rt = self.rt;
        let Serving { db, port, .. } = self.asked;
        let port = *port;
        self.listener = Some(listen(rt, port, notes)?);
        let line = format!(in rt.alloc(); "listening on 127.0.0.1:{port}\n")?;
        print(self.out, line.as_bytes(), notes)?;
        if notes.are_told() {
            tell_standing(rt.alloc(), db, repository.held(), notes);
        }
        Ok(())
    }

    // Serves the connection that waits and all further ones, until a fault has shut the database.
    fn serve_all<S: Alter, E: Write>(
        &mut self,
        reads_only: bool,
        repository: &mut Store<S>,
        notes: &mut Notes<'_, E>,
    ) -> Result<bool, Fault>
        ensures { ServedOver reads_only (seen repository.old.kept (state S.Store repository.old.conn)) (seen repository.new.kept (state S.Store repository.new.conn)) }
    {
        let mut is_available = self.serve_waiting(reads_only, repository, notes);
        for _ in 0..u64::MAX {
            match self.serve_next(reads_only, is_available, repository, notes) {
                Ok(Next::Served(available)) => is_available = available,
                Ok(Next::All) => return Ok(true),
                Ok(Next::Shut) => return Ok(false),
                Err(fault) => return Err(fault),
            }
        }
        Ok(true)
    }

    // Serves the connection that waits, if one does, and answers whether no fault can have shut the database meanwhile.
    fn serve_waiting<S: Alter, E: Write>(
        &mut self,
        reads_only: bool,
        repository: &mut Store<S>,
        notes: &mut Notes<'_, E>,
    ) -> bool
        ensures { ServedOver reads_only (seen repository.old.kept (state S.Store repository.old.conn)) (seen repository.new.kept (state S.Store repository.new.conn)) }
    {
        match self.waiting.take() {
            Some(accepted) => self.serve_one(reads_only, &accepted, repository, notes),
            None => true,
        }
    }

    // Serves the next connection, if one more is to be served, unless a fault has shut the database: then it waits.
    fn serve_next<S: Alter, E: Write>(
        &mut self,
        reads_only: bool,
        is_available: bool,
        repository: &mut Store<S>,
        notes: &mut Notes<'_, E>,
    ) -> Result<Next, Fault>
        ensures { ServedOver reads_only (seen repository.old.kept (state S.Store repository.old.conn)) (seen repository.new.kept (state S.Store repository.new.conn)) }
    {
        let accepted = match self.next(notes) {
            Ok(Some(accepted)) => accepted,
            Ok(None) => return Ok(Next::All),
            Err(fault) => return Err(fault),
        };
        if is_available {
            let available = self.serve_one(reads_only, &accepted, repository, notes);
            return Ok(Next::Served(available));
        }
        let is_shut = matches!(repository.is_open(), Ok(false));
        if is_shut {
            self.waiting = Some(accepted);
            return Ok(Next::Shut);
        }
        let available = self.serve_one(reads_only, &accepted, repository, notes);
        Ok(Next::Served(available))
    }

    // The next connection, if one more is to be served.
    fn next<E: Write>(&mut self, notes: &mut Notes<'_, E>) -> Result<Option<Accepted>, Fault> {
        let Some(listener) = &self.listener else {
            return Ok(None);
        };
        if self.left == 0 {
            return Ok(None);
        }
        self.left -= 1;
        let stream = next_stream(self.rt, listener, notes)?;
        let now = moment(self.rt, self.at)?;
        Ok(Some(Accepted { stream, now }))
    }

    // Serves one connection from the repository, and answers whether no fault can have shut its database meanwhile, which the reply
    // shows. One whose clock cannot be read is not served.
    fn serve_one<S: Alter, E: Write>(
        &mut self,
        reads_only: bool,
        accepted: &Accepted,
        repository: &mut Store<S>,
        notes: &mut Notes<'_, E>,
    ) -> bool
        ensures { ServedOver reads_only (seen repository.old.kept (state S.Store repository.old.conn)) (seen repository.new.kept (state S.Store repository.new.conn)) }
    {
        let rt = self.rt;
        let Ok(timer) = Timer::start(rt) else {
            return true;
        };
        let mut sides = sides_of(accepted, timer, self.kept);
        let connections = slice::from_mut(&mut sides);
        if reads_only {
            serve_list_reading(rt.alloc(), self.routes, connections, repository);
        } else {
            serve_list_told(rt.alloc(), self.routes, connections, repository);
        }
        end_one(rt, accepted, &sides, &timer, notes);
        is_available(sides.3)
    }

    // Answers the connection that waits while no database can be opened, and waits for the next one, if one more is to be served.
    fn refuse<E: Write>(&mut self, notes: &mut Notes<'_, E>) -> Result<bool, Fault> {
        if let Some(accepted) = self.waiting.take() {
            self.refuse_one(&accepted, notes);
        }
        self.waiting = self.next(notes)?;
        Ok(self.waiting.is_some())
    }

    fn refuse_one<E: Write>(&mut self, accepted: &Accepted, notes: &mut Notes<'_, E>) {
        let rt = self.rt;
        let Ok(timer) = Timer::start(rt) else {
            return;
        };
        let mut sides = sides_of(accepted, timer, self.kept);
        let (incoming, outgoing, _, answer) = &mut sides;
        let reads_only = self.asked.read_only;
        *answer = serve_unavailable(rt.alloc(), self.routes, reads_only, incoming, outgoing).1;
        end_one(rt, accepted, &sides, &timer, notes);
    }
}

fn sides_of<'a, 'k>(
    accepted: &'a Accepted,
    timer: Timer<'a>,
    kept: &'k mut Beginning,
) -> Sides<'a, 'k> {
    let stream = &accepted.stream;
    (
        Incoming::new(stream, timer, kept),
        Outgoing::new(stream, timer),
        accepted.now,
        None,
    )
}

// Whether an answer says nothing against the database: it is there, and has another status than 503.
fn is_available(answer: Option<Answer>) -> bool {
    answer.is_some_and(|answer| answer.status != Status::Unavailable)
}

// Tells of a connection, and ends it after its reply. Of a reply of which the peer took nothing nothing is told.
fn end_one<E: Write>(
    rt: &HostRuntime,
    accepted: &Accepted,
    sides: &Sides<'_, '_>,
    timer: &Timer<'_>,
    notes: &mut Notes<'_, E>,
) {
    let (incoming, outgoing, now, answer) = sides;
    let answer = if outgoing.sent() > 0 { *answer } else { None };
    let status = answer.map(|answer| answer.status);
    let denial = answer.and_then(|answer| answer.denial);
    tell_connection(incoming, outgoing, status, denial, *now, timer, notes);
    if let Some(status) = status {
        let is_of_command = status == Status::Ok || denial.is_some();
        end(rt, &accepted.stream, incoming, is_of_command, timer);
    }
}

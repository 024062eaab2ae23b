// Connections, served one after another.

ghost use Rattle.std.specs.Prelude.{◌≡◌, ℕ, false, map, true};
ghost use Rattle.sqlite.specs.Held.{state};
ghost use Rattle.http_messages.specs.Received.{request_of};
ghost use Rattle.http_messages.specs.Request.{target};
ghost use Rattle.http_serve.specs.Serving.{Ended, EndedBy, EndedUnavailable, Serves, ServesBy, TellsBy, ToldBy, ToldUnavailable};
ghost use Rattle.store.specs.Standing.{seen};
ghost use Rattle.http_serve.specs.steps.Views.{HasEnded, IsUnavailable};

use crate::replies::{Answer, Written, write_fault};
use crate::respond::respond;
use http_messages::{Asked, Fault, Receive, ReceiveFault, Routes, Transmit, read_request_of};
use metadata::Moment;
use path_patterns::read_asked;
use sqlite::Alter;
use std::alloc::Global;
use store::Store;
use thiserror::Error;

/// Why a connection was not served to its end.
#[derive(Clone, Copy, Debug, PartialEq, Eq, Error)]
pub enum ServeFault {
    /// A call of the reader answered an error. No command was made.
    #[error("the reader failed")]
    Read,
    /// A call of the writer answered an error, or took no byte of a rest that is not empty. The command stands, and the reply may
    /// be cut.
    #[error("the writer took no more")]
    Write,
}

/// Serves one connection: reads one request, makes at most one command at a moment, and writes one response.
///
/// A fault of the request is answered by its own status and changes nothing. A denial is answered 403, or 404 where something
/// is missing, and changes nothing. Where memory is refused, or the database answers a fault, the answer is 503 and nothing is
/// changed. The replies of commands that write, and those of 503, take no memory.
pub fn serve_one<R: Receive, W: Transmit, S: Alter>(
    alloc: Global,
    routes: &Routes,
    reader: &mut R,
    writer: &mut W,
    store: &mut Store<S>,
    now: Moment,
) -> Result<(), ServeFault>
    ensures { Ended (record { given = R.remaining reader.old; held = W.contents writer.old; now = now; reads = R.sound reader.old; writes = W.sound writer.old })
        (W.contents writer.new) (seen store.old.kept (state S.Store store.old.conn)) result
        (seen store.new.kept (state S.Store store.new.conn)) }
{
    let (ended, _) = serve_one_told(alloc, routes, reader, writer, store, now);
    ended
}

/// Serves one connection as `serve_one` does. Beside it stands what was answered: the status, and the number of the denial, if it was one. It stands
/// there where the writer took no more, too, and not where the reader failed.
pub fn serve_one_told<R: Receive, W: Transmit, S: Alter>(
    alloc: Global,
    routes: &Routes,
    reader: &mut R,
    writer: &mut W,
    store: &mut Store<S>,
    now: Moment,
) -> (Result<(), ServeFault>, Option<Answer>)
    ensures ended { Ended (record { given = R.remaining reader.old; held = W.contents writer.old; now = now; reads = R.sound reader.old; writes = W.sound writer.old })
        (W.contents writer.new) (seen store.old.kept (state S.Store store.old.conn)) result.0
        (seen store.new.kept (state S.Store store.new.conn)) }
    ensures told { ToldBy false (record { given = R.remaining reader.old; held = W.contents writer.old; now = now; reads = R.sound reader.old; writes = W.sound writer.old })
        (W.contents writer.new) (seen store.old.kept (state S.Store store.old.conn)) result.0 result.1
        (seen store.new.kept (state S.Store store.new.conn)) }
{
    serve_one_by(alloc, routes, false, reader, writer, store, now)
}

/// Serves one connection as `serve_one_told` does, but that routes by which something may be changed are not there: such a request is the
/// fault `route` (404), as one of an unknown path is, of whatever method; no byte of its body is read, and no command is made.
pub fn serve_one_reading<R: Receive, W: Transmit, S: Alter>(
    alloc: Global,
    routes: &Routes,
    reader: &mut R,
    writer: &mut W,
    store: &mut Store<S>,
    now: Moment,
) -> (Result<(), ServeFault>, Option<Answer>)
    ensures ended { EndedBy true (record { given = R.remaining reader.old; held = W.contents writer.old; now = now; reads = R.sound reader.old; writes = W.sound writer.old })
        (W.contents writer.new) (seen store.old.kept (state S.Store store.old.conn)) result.0
        (seen store.new.kept (state S.Store store.new.conn)) }
    ensures told { ToldBy true (record { given = R.remaining reader.old; held = W.contents writer.old; now = now; reads = R.sound reader.old; writes = W.sound writer.old })
        (W.contents writer.new) (seen store.old.kept (state S.Store store.old.conn)) result.0 result.1
        (seen store.new.kept (state S.Store store.new.conn)) }
{
    serve_one_by(alloc, routes, true, reader, writer, store, now)
}

// The same with all routes, or with those that only read.
fn serve_one_by<R: Receive, W: Transmit, S: Alter>(
    alloc: Global,
    routes: &Routes,
    reads_only: bool,
    reader: &mut R,
    writer: &mut W,
    store: &mut Store<S>,
    now: Moment,
) -> (Result<(), ServeFault>, Option<Answer>)
    ensures ended { EndedBy reads_only (record { given = R.remaining reader.old; held = W.contents writer.old; now = now; reads = R.sound reader.old; writes = W.sound writer.old })
        (W.contents writer.new) (seen store.old.kept (state S.Store store.old.conn)) result.0
        (seen store.new.kept (state S.Store store.new.conn)) }
    ensures told { ToldBy reads_only (record { given = R.remaining reader.old; held = W.contents writer.old; now = now; reads = R.sound reader.old; writes = W.sound writer.old })
        (W.contents writer.new) (seen store.old.kept (state S.Store store.old.conn)) result.0 result.1
        (seen store.new.kept (state S.Store store.new.conn)) }
{
    let received = match read_request_of(alloc, routes, reads_only, reader) {
        Ok(received) => received,
        Err(ReceiveFault::Read) => return (Err(ServeFault::Read), None),
        Err(ReceiveFault::OutOfMemory) => return ended(write_fault(writer, Fault::Memory)),
    };
    let asked = match received.asked(alloc) {
        Ok(asked) => asked,
        Err(_) => return ended(write_fault(writer, Fault::Memory)),
    };
    ended(respond(alloc, writer, store, asked, now))
}

/// Serves one connection while no database can be opened, with all routes, or with those that only read: reads one request, and writes its
/// own fault, or 503 `database` where it asks for a command, or 503 `memory` where memory was refused before it was known for which. What was
/// answered stands beside it, as with `serve_one_told`.
pub fn serve_unavailable<R: Receive, W: Transmit>(
    alloc: Global,
    routes: &Routes,
    reads_only: bool,
    reader: &mut R,
    writer: &mut W,
) -> (Result<(), ServeFault>, Option<Answer>)
    ensures ended { (now : ℕ) → EndedUnavailable reads_only (record { given = R.remaining reader.old; held = W.contents writer.old; now = now; reads = R.sound reader.old; writes = W.sound writer.old })
        (W.contents writer.new) result.0 }
    ensures told { (now : ℕ) → ToldUnavailable reads_only (record { given = R.remaining reader.old; held = W.contents writer.old; now = now; reads = R.sound reader.old; writes = W.sound writer.old })
        (W.contents writer.new) result.0 result.1 }
{
    let received = match read_request_of(alloc, routes, reads_only, reader) {
        Ok(received) => received,
        Err(ReceiveFault::Read) => return (Err(ServeFault::Read), None),
        Err(ReceiveFault::OutOfMemory) => return ended(write_fault(writer, Fault::Memory)),
    };
    let asked = match received.asked(alloc) {
        Ok(asked) => asked,
        Err(_) => return ended(write_fault(writer, Fault::Memory)),
    };
    ended(write_fault(writer, unavailable(alloc, asked)))
}

// What a request is answered while no database can be opened.
fn unavailable(alloc: Global, asked: Asked<'_>) -> Fault
    ensures { IsUnavailable (request_of asked.entry) result }
{
    match asked {
        Asked::Fault(fault) => fault,
        Asked::Batch(_) => Fault::Database,
        Asked::PutBlob(_, _) => Fault::Database,
        Asked::Prune => Fault::Database,
        Asked::Metadata(_) => Fault::Database,
        Asked::Target(text) => unavailable_target(alloc, text),
    }
}

// The same of a request for a target. Its path and digest take memory, as where it is served.
fn unavailable_target(alloc: Global, text: &str) -> Fault
    ensures { IsUnavailable (target text.now) result }
{
    match read_asked(alloc, text) {
        Ok(_) => Fault::Database,
        Err(_) => Fault::Memory,
    }
}

// How a connection ends by how its answer was written.
fn ended(reply: Written) -> (Result<(), ServeFault>, Option<Answer>)
    ensures { HasEnded reply.written reply.answer result }
{
    let served = match reply.written {
        Ok(()) => Ok(()),
        Err(_) => Err(ServeFault::Write),
    };
    (served, Some(reply.answer))
}

/// Serves connections in their order, each as `serve_one` does and at its own moment, whatever fault an earlier one met, and
/// answers how many ended without a fault.
pub fn serve_list<R: Receive, W: Transmit, S: Alter>(
    alloc: Global,
    routes: &Routes,
    connections: &mut [(R, W, Moment)],
    store: &mut Store<S>,
) -> usize
    ensures { Serves (map (λ c. record { given = R.remaining c.0; held = W.contents c.1; now = c.2; reads = R.sound c.0; writes = W.sound c.1 }) connections.old)
        (map (λ c. W.contents c.1) connections.new) (seen store.old.kept (state S.Store store.old.conn))
        (seen store.new.kept (state S.Store store.new.conn)) result }
{
    let mut count = 0;
    for (reader, writer, now) in connections.iter_mut() {
        let ended = serve_one(alloc, routes, reader, writer, store, *now);
        if ended.is_ok() {
            count += 1;
        }
    }
    count
}

/// Serves connections as `serve_list` does. What each was answered is put beside its moment: `None` where its reader failed.
pub fn serve_list_told<R: Receive, W: Transmit, S: Alter>(
    alloc: Global,
    routes: &Routes,
    connections: &mut [(R, W, Moment, Option<Answer>)],
    store: &mut Store<S>,
) -> usize
    ensures serves { Serves (map (λ c. record { given = R.remaining c.0; held = W.contents c.1; now = c.2; reads = R.sound c.0; writes = W.sound c.1 }) connections.old)
        (map (λ c. W.contents c.1) connections.new) (seen store.old.kept (state S.Store store.old.conn))
        (seen store.new.kept (state S.Store store.new.conn)) result }
    ensures told { TellsBy false (map (λ c. record { given = R.remaining c.0; held = W.contents c.1; now = c.2; reads = R.sound c.0; writes = W.sound c.1 }) connections.old)
        (map (λ c. W.contents c.1) connections.new) (map (λ c. c.3) connections.new) (seen store.old.kept (state S.Store store.old.conn))
        (seen store.new.kept (state S.Store store.new.conn)) result }
{
    serve_list_by(alloc, routes, false, connections, store)
}

/// Serves connections as `serve_list_told` does, each by `serve_one_reading`.
pub fn serve_list_reading<R: Receive, W: Transmit, S: Alter>(
    alloc: Global,
    routes: &Routes,
    connections: &mut [(R, W, Moment, Option<Answer>)],
    store: &mut Store<S>,
) -> usize
    ensures serves { ServesBy true (map (λ c. record { given = R.remaining c.0; held = W.contents c.1; now = c.2; reads = R.sound c.0; writes = W.sound c.1 }) connections.old)
        (map (λ c. W.contents c.1) connections.new) (seen store.old.kept (state S.Store store.old.conn))
        (seen store.new.kept (state S.Store store.new.conn)) result }
    ensures told { TellsBy true (map (λ c. record { given = R.remaining c.0; held = W.contents c.1; now = c.2; reads = R.sound c.0; writes = W.sound c.1 }) connections.old)
        (map (λ c. W.contents c.1) connections.new) (map (λ c. c.3) connections.new) (seen store.old.kept (state S.Store store.old.conn))
        (seen store.new.kept (state S.Store store.new.conn)) result }
{
    serve_list_by(alloc, routes, true, connections, store)
}

// The same with all routes, or with those that only read.
fn serve_list_by<R: Receive, W: Transmit, S: Alter>(
    alloc: Global,
    routes: &Routes,
    reads_only: bool,
    connections: &mut [(R, W, Moment, Option<Answer>)],
    store: &mut Store<S>,
) -> usize
    ensures serves { ServesBy reads_only (map (λ c. record { given = R.remaining c.0; held = W.contents c.1; now = c.2; reads = R.sound c.0; writes = W.sound c.1 }) connections.old)
        (map (λ c. W.contents c.1) connections.new) (seen store.old.kept (state S.Store store.old.conn))
        (seen store.new.kept (state S.Store store.new.conn)) result }
    ensures told { TellsBy reads_only (map (λ c. record { given = R.remaining c.0; held = W.contents c.1; now = c.2; reads = R.sound c.0; writes = W.sound c.1 }) connections.old)
        (map (λ c. W.contents c.1) connections.new) (map (λ c. c.3) connections.new) (seen store.old.kept (state S.Store store.old.conn))
        (seen store.new.kept (state S.Store store.new.conn)) result }
{
    let mut count = 0;
    for (reader, writer, now, told) in connections.iter_mut() {
        let (ended, answer) = serve_one_by(alloc, routes, reads_only, reader, writer, store, *now);
        *told = answer;
        if ended.is_ok() {
            count += 1;
        }
    }
    count
}

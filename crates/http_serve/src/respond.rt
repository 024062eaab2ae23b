// The answer to a request: at most one command, and one response.

ghost use Rattle.std.specs.Prelude.{◌≡◌, ◌≢◌, map};
ghost use Rattle.sqlite.specs.Held.{state};
ghost use Rattle.store.specs.Views.{command_view};
ghost use Rattle.table_rows.specs.declared.faults.StoreFault.TheVariants.{Damaged};
ghost use Rattle.http_messages.specs.Framing.{Document};
ghost use Rattle.http_messages.specs.Received.{request_of};
ghost use Rattle.http_messages.specs.Request.{batch, target};
ghost use Rattle.http_messages.specs.Sound.{StaysSound};
ghost use Rattle.store.specs.Standing.{seen};
ghost use Rattle.http_serve.specs.steps.Views.{IsUnmade, IsServed, Performed, Responded};

use crate::offers::offers_of;
use crate::replies::{Written, kind_of, write_fault, write_reply};
use http_messages::{Asked, Fault, Transmit};
use metadata::Moment;
use path_patterns::{RoleName, read_asked};
use sqlite::Alter;
use std::alloc::Global;
use store::{Command, Store, StoreFault, stands};

// Answers what a request asks.
pub fn respond<W: Transmit, S: Alter>(
    alloc: Global,
    writer: &mut W,
    store: &mut Store<S>,
    asked: Asked<'_>,
    now: Moment,
) -> Written
    ensures sound { StaysSound (W.sound writer.old) result.written (W.sound writer.new) }
    ensures responded { Responded (seen store.old.kept (state S.Store store.old.conn)) (request_of asked.entry) now
        (seen store.new.kept (state S.Store store.new.conn)) (W.contents writer.old) (W.contents writer.new) result }
{
    match asked {
        Asked::Fault(fault) => write_fault(writer, fault),
        Asked::Batch(documents) => respond_batch(alloc, writer, store, documents, now),
        Asked::PutBlob(digest, bytes) => {
            perform(alloc, writer, store, Command::PutBlob(digest, bytes), now)
        }
        Asked::Prune => perform(alloc, writer, store, Command::Prune, now),
        Asked::Metadata(name) => perform(alloc, writer, store, Command::Metadata(name), now),
        Asked::Target(text) => respond_target(alloc, writer, store, text, now),
    }
}

// Offers the documents of a batch.
fn respond_batch<W: Transmit, S: Alter>(
    alloc: Global,
    writer: &mut W,
    store: &mut Store<S>,
    documents: Vec<(RoleName, &[u8])>,
    now: Moment,
) -> Written
    ensures sound { StaysSound (W.sound writer.old) result.written (W.sound writer.new) }
    ensures responded { Responded (seen store.old.kept (state S.Store store.old.conn)) (batch (map {B = Document} (λ d. (d.0, d.1.now)) documents.entry.items)) now
        (seen store.new.kept (state S.Store store.new.conn)) (W.contents writer.old) (W.contents writer.new) result }
{
    match offers_of(alloc, documents) {
        Ok(offers) => perform(alloc, writer, store, Command::Batch(&offers), now),
        Err(_) => write_fault(writer, Fault::Memory),
    }
}

// Asks for a target.
fn respond_target<W: Transmit, S: Alter>(
    alloc: Global,
    writer: &mut W,
    store: &mut Store<S>,
    text: &str,
    now: Moment,
) -> Written
    ensures sound { StaysSound (W.sound writer.old) result.written (W.sound writer.new) }
    ensures responded { Responded (seen store.old.kept (state S.Store store.old.conn)) (target text.now) now
        (seen store.new.kept (state S.Store store.new.conn)) (W.contents writer.old) (W.contents writer.new) result }
{
    match read_asked(alloc, text) {
        Ok((path, asked)) => {
            let command = Command::Target(path.as_str(), asked);
            perform(alloc, writer, store, command, now)
        }
        Err(_) => write_fault(writer, Fault::Memory),
    }
}

// Makes a command, and writes the answer.
fn perform<W: Transmit, S: Alter>(
    alloc: Global,
    writer: &mut W,
    store: &mut Store<S>,
    command: Command<'_>,
    now: Moment,
) -> Written
    requires { IsServed (command_view command) }
    ensures sound { StaysSound (W.sound writer.old) result.written (W.sound writer.new) }
    ensures performed { Performed (seen store.old.kept (state S.Store store.old.conn)) (command_view command.entry) now
        (seen store.new.kept (state S.Store store.new.conn)) (W.contents writer.old) (W.contents writer.new) result }
{
    stands(store);
    let kind = kind_of(&command);
    let result = store.apply(command, now);
    match result {
        Ok(reply) => write_reply(alloc, writer, kind, &reply),
        Err(fault) => write_fault(writer, unmade(fault)),
    }
}

// How it is said that a command was not made.
fn unmade(fault: StoreFault) -> Fault
    requires { fault ≢ Damaged }
    ensures { IsUnmade fault result }
{
    match fault {
        StoreFault::OutOfMemory => Fault::Memory,
        StoreFault::Database => Fault::Database,
        StoreFault::Damaged => unreachable!(),
    }
}

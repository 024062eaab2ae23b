// Replies of the machine as the bytes of a response.

ghost use Rattle.std.specs.Prelude.{◌≡◌, None};
ghost use Rattle.denials.specs.Views.{denial_view};
ghost use Rattle.trust_rules.specs.Runs.{Refused};
ghost use Rattle.store.specs.Views.{command_view, reply_view};
ghost use Rattle.http_messages.specs.Faults.{fault_response};
ghost use Rattle.http_messages.specs.Sound.{StaysSound};
ghost use Rattle.http_messages.specs.Text.{response};
ghost use Rattle.http_serve.specs.Response.{denial_status, kind_of as kind_of_lem};
ghost use Rattle.http_serve.specs.steps.Views.{IsSaid, Told, WroteAs};

use http_messages::{
    Cut, Fault, Kind, Status, Transmit, accepted_body, denial_body, pruned_body, stored_body,
    write_response,
};
use std::alloc::Global;
use store::{Command, Denial, Reply};

/// What a connection is answered: the status of the response, and the number of the denial, if it is one.
#[derive(Clone, Copy, Debug, PartialEq, Eq)]
pub struct Answer {
    pub status: Status,
    pub denial: Option<u8>,
}

// An answer that was written, or a beginning of it.
#[derive(Clone, Copy)]
pub struct Written {
    pub written: Result<(), Cut>,
    pub answer: Answer,
}

// Writes the whole answer to a fault. It takes no memory.
pub fn write_fault<W: Transmit>(writer: &mut W, fault: Fault) -> Written
    ensures sound { StaysSound (W.sound writer.old) result.written (W.sound writer.new) }
    ensures wrote { WroteAs (W.contents writer.old) (W.contents writer.new) (fault_response fault) result }
{
    let written = http_messages::write_fault(writer, fault);
    let answer = Answer {
        status: fault.status(),
        denial: None,
    };
    Written { written, answer }
}

// Writes what was done. It takes no memory.
fn write_done<W: Transmit>(writer: &mut W, kind: Kind, body: &[u8]) -> Written
    ensures sound { StaysSound (W.sound writer.old) result.written (W.sound writer.new) }
    ensures wrote { WroteAs (W.contents writer.old) (W.contents writer.new) (response Status.Ok kind None body.now) result }
{
    let written = write_response(writer, Status::Ok, kind, None, body);
    let answer = Answer {
        status: Status::Ok,
        denial: None,
    };
    Written { written, answer }
}

// The type of the files that a command is answered with.
pub fn kind_of(command: &Command<'_>) -> Kind
    ensures { result ≡ kind_of_lem (command_view command.now) }
{
    match command {
        Command::Target(_, _) => Kind::Octets,
        Command::Init(_)
        | Command::Batch(_)
        | Command::Offer(_, _)
        | Command::PutBlob(_, _)
        | Command::Prune
        | Command::Metadata(_) => Kind::Json,
    }
}

// Writes a reply to a command of a request. All memory is taken before the first byte is written.
pub fn write_reply<W: Transmit>(alloc: Global, writer: &mut W, kind: Kind, reply: &Reply) -> Written
    requires { IsSaid (reply_view reply.now) }
    ensures sound { StaysSound (W.sound writer.old) result.written (W.sound writer.new) }
    ensures told { Told kind (reply_view reply.now) (W.contents writer.old) (W.contents writer.new) result }
{
    match reply {
        Reply::Begun => unreachable!(),
        Reply::Offered { same: _ } => unreachable!(),
        Reply::Batch { accepted, same } => {
            let body = accepted_body(*accepted, *same);
            write_done(writer, Kind::Json, &body)
        }
        Reply::Stored(new) => write_done(writer, Kind::Json, stored_body(*new)),
        Reply::Pruned { blobs, rows } => {
            let body = pruned_body(*blobs, *rows);
            write_done(writer, Kind::Json, &body)
        }
        Reply::Bytes(bytes) => write_done(writer, kind, bytes),
        Reply::Absent => write_fault(writer, Fault::Name),
        Reply::Denied(denial, index) => write_denial(alloc, writer, denial, *index),
    }
}

// Writes a denial, or that there is no memory for its body.
fn write_denial<W: Transmit>(
    alloc: Global,
    writer: &mut W,
    denial: &Denial,
    index: Option<usize>,
) -> Written
    ensures sound { StaysSound (W.sound writer.old) result.written (W.sound writer.new) }
    ensures told { Told Kind.Json (Refused (denial_view denial.now) index) (W.contents writer.old) (W.contents writer.new) result }
{
    let number = denial.number();
    let Ok(body) = denial_body(alloc, number, index, denial.name()) else {
        return write_fault(writer, Fault::Memory);
    };
    let status = status_of(denial);
    let written = write_response(writer, status, Kind::Json, None, body.as_bytes());
    let denial = Some(number);
    let answer = Answer { status, denial };
    Written { written, answer }
}

// The status of a denial: what is missing is not found, and all else is forbidden.
fn status_of(denial: &Denial) -> Status
    ensures { result ≡ denial_status (denial_view denial.now) }
{
    if denial.is_missing() {
        Status::NotFound
    } else {
        Status::Forbidden
    }
}

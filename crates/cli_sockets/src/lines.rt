//! What is told of a connection.
use crate::deadlines::Timer;
use crate::incoming::Incoming;
use crate::outgoing::Outgoing;
use cli_faults::Notes;
use http_messages::Status;
use metadata::Moment;
use std::fmt;
use std::io::Write;

/// Tells of a connection its moment, method, path, status, bytes that were sent, number of the denial, and milliseconds, with
/// `-` for what is not there.
pub fn tell_connection<E: Write>(
    incoming: &Incoming<'_, '_>,
    outgoing: &Outgoing<'_>,
    status: Option<Status>,
    denial: Option<u8>,
    now: Moment,
    timer: &Timer<'_>,
    notes: &mut Notes<'_, E>,
) {
    if !notes.are_told() {
        return;
    }
    let mut words = incoming.beginning().split(|b| *b <= b' ');
    let line = Line {
        method: visible(words.next()),
        path: visible(words.next()),
        status: status.map(number_of),
        bytes: outgoing.sent(),
        denial,
        milliseconds: timer.milliseconds(),
    };
    notes.tell(&now.seconds(), &line);
}

// A word of the head, if it is there and has no other bytes than a target may have.
fn visible(word: Option<&[u8]>) -> &str {
    match word {
        Some(word) if !word.is_empty() && word.iter().all(|b| 33 <= *b && *b <= 126) =>
            str::from_utf8(word).unwrap_or("-"),
        _ => "-",
    }
}

#[derive(Drop)]
struct Line<'a> {
    method: &'a str,
    path: &'a str,
    status: Option<u16>,
    bytes: u64,
    denial: Option<u8>,
    milliseconds: u128,
}

impl fmt::Display for Line<'_> {
    fn fmt<W: fmt::Write>(&self, f: &mut fmt::Formatter<W>) -> fmt::Result {
        let Line {
            method,
            path,
            status,
            bytes,
            denial,
            milliseconds,
        } = self;
        write!(f, "{method} {path} ")?;
        write_number(f, *status)?;
        write!(f, " {bytes} ")?;
        write_number(f, *denial)?;
        write!(f, " {milliseconds}")
    }
}

fn write_number<N: fmt::Display + Copy, W: fmt::Write>(
    f: &mut fmt::Formatter<W>,
    number: Option<N>,
) -> fmt::Result {
    match number {
        Some(number) => write!(f, "{number}"),
        None => f.write_str("-"),
    }
}

// The number of a status (RFC 9110, section 15).
fn number_of(status: Status) -> u16 {
    match status {
        Status::Ok => 200,
        Status::BadRequest => 400,
        Status::Forbidden => 403,
        Status::NotFound => 404,
        Status::MethodNotAllowed => 405,
        Status::TooLarge => 413,
        Status::Unavailable => 503,
    }
}

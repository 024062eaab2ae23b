//! The reading side of a connection: it has deadlines, and its beginning is kept.
ghost use Rattle.std.specs.Io.{ReadsAtMost};

use crate::deadlines::{ALL_SECONDS, HEAD_SECONDS, Timer};
use arrayvec::ArrayVec;
use http_messages::{Declared, FIELD_LIMIT, HEAD_LIMIT, Receive, declared_length};
use httparse::Status;
use httparse::spans::{EMPTY_HEADER_SPAN, parse_request};
use std::io::{self, ErrorKind, Read};
use std::net::TcpStream;

/// The beginning of what a peer sends, which has the whole head where there is one. Connections use it one after the other.
pub type Beginning = ArrayVec<u8, HEAD_LIMIT>;

/// What a peer sends. A call that waits past a deadline answers an error, and one that was interrupted is made again.
#[derive(Drop)]
pub struct Incoming<'a, 'k> {
    stream: &'a TcpStream,
    timer: Timer<'a>,
    kept: &'k mut Beginning,
    has_head: bool,
    received: u64,
}

// A head that came whole: its bytes, and those of its body where the fields declare them.
#[derive(Drop)]
struct Head {
    bytes: usize,
    body: Option<u64>,
}

impl<'a, 'k> Incoming<'a, 'k> {
    pub fn new(
        stream: &'a TcpStream,
        timer: Timer<'a>,
        kept: &'k mut Beginning,
    ) -> Incoming<'a, 'k> {
        kept.clear();
        Incoming {
            stream,
            timer,
            kept,
            has_head: false,
            received: 0,
        }
    }

    /// The beginning of what came, at most 8,192 bytes.
    pub fn beginning(&self) -> &[u8] {
        self.kept.as_slice()
    }

    /// Whether the request came whole: its head, and as many bytes after it as its fields declare.
    pub fn is_whole(&self) -> bool {
        match head_of(self.kept.as_slice()) {
            Some(
                Head {
                    bytes,
                    body: Some(body),
                },
            ) => body.saturating_add(bytes as u64) <= self.received,
            _ => false,
        }
    }

    // So many seconds since its beginning has the connection for the next call. What came is looked at only here, since most
    // requests come by one read.
    fn seconds(&mut self) -> u64 {
        if !self.has_head && self.received > 0 {
            self.has_head = head_of(self.kept.as_slice()).is_some();
        }
        if self.has_head {
            ALL_SECONDS
        } else {
            HEAD_SECONDS
        }
    }

    // Keeps what came as far as there is room.
    fn keep(&mut self, came: &[u8]) {
        self.received = self.received.saturating_add(came.len() as u64);
        if self.has_head {
            return;
        }
        let room = HEAD_LIMIT - self.kept.len();
        let _ = self
            .kept
            .try_extend_from_slice(&came[..came.len().min(room)]);
    }
}

impl Read for Incoming<'_, '_> {
    fn read(&mut self, buf: &mut [u8]) -> io::Result<usize> {
        let seconds = self.seconds();
        let timer = self.timer;
        let count = read_within(self.stream, buf, &timer, seconds)?;
        self.keep(&buf[..count]);
        Ok(count)
    }
}

impl Receive for Incoming<'_, '_> {
    ghost use Rattle.std.specs.Prelude.{false};

    ghost sound = { λ _. false };

    fn receive(&mut self, buf: &mut [u8]) -> io::Result<usize> {
        self.read(buf)
    }
}

/// One read, which waits for what is left of so many seconds. One that was interrupted is made again.
pub fn read_within(
    stream: &TcpStream,
    buf: &mut [u8],
    timer: &Timer<'_>,
    seconds: u64,
) -> io::Result<usize>
    ensures { ReadsAtMost result buf.new }
{
    let mut stream = stream;
    for _ in 0..u64::MAX {
        let left = timer.left(seconds)?;
        stream.set_read_timeout(Some(left))?;
        match stream.read(buf) {
            Err(error) if error.kind() == ErrorKind::Interrupted => {}
            ended => return ended,
        }
    }
    Err(io::Error::from(ErrorKind::TimedOut))
}

// The head at the beginning of these bytes, if a whole one is there.
fn head_of(bytes: &[u8]) -> Option<Head> {
    let mut headers = [EMPTY_HEADER_SPAN; FIELD_LIMIT];
    let Ok(Status::Complete(spans)) = parse_request(bytes, &mut headers) else {
        return None;
    };
    let body = match declared_length(bytes, &headers[..spans.headers]) {
        Declared::Ill => None,
        Declared::Absent => Some(0),
        Declared::Given(length) => Some(length),
    };
    Some(Head {
        bytes: spans.len,
        body,
    })
}

//! Connections to a host, with their deadlines.
ghost use Rattle.std.specs.Io.{ReadsAtMost, WritesAtMost};

use arrayvec::ArrayVec;
use cli_sockets::{QUIET_SECONDS, Timer};
use http_messages::{Receive, Transmit};
use std::alloc::{AllocError, Global};
use std::io::{self, ErrorKind, Read, Write};
use std::net::{TcpStream, ToSocketAddrs};
use std::time::Duration;

// So much of a reply is kept: its status, and most heads.
const KEPT: usize = 1024;

/// A connection to the host, and when it was begun. It has so many seconds to be made, by the first of the host's addresses that takes
/// it, and each of them 30 at most. How long the host's name is looked up the system decides.
pub fn connected<'a>(
    rt: &'a HostRuntime,
    host: &str,
    port: u16,
    seconds: u64,
) -> io::Result<(TcpStream, Timer<'a>)> {
    let timer = Timer::start(rt)?;
    let mut last = io::Error::from(ErrorKind::AddrNotAvailable);
    for there in (host, port).to_socket_addrs(rt)? {
        let quiet = timer.left(seconds)?.min(Duration::from_secs(QUIET_SECONDS));
        match TcpStream::connect_timeout(rt, &there, quiet) {
            Ok(stream) => return Ok((stream, timer)),
            Err(error) => last = error,
        }
    }
    Err(last)
}

/// The host as a request to a port of 127.0.0.1 names it.
pub fn host(alloc: Global, port: u16) -> Result<String, AllocError> {
    format!(in alloc; "127.0.0.1:{port}")
}

/// A connection, which has so many seconds since it was begun. A call that waits too long answers an error, and one that was interrupted
/// is made again.
#[derive(Clone, Copy)]
pub struct Wire<'a> {
    stream: &'a TcpStream,
    timer: Timer<'a>,
    seconds: u64,
}

impl<'a> Wire<'a> {
    pub fn new(stream: &'a TcpStream, timer: Timer<'a>, seconds: u64) -> Wire<'a> {
        Wire {
            stream,
            timer,
            seconds,
        }
    }

    // So long may the next call wait.
    fn left(&self) -> io::Result<Duration> {
        let left = self.timer.left(self.seconds)?;
        Ok(left.min(Duration::from_secs(QUIET_SECONDS)))
    }

    fn read_some(&self, buf: &mut [u8]) -> io::Result<usize>
        ensures { ReadsAtMost result buf.new }
    {
        let mut stream = self.stream;
        for _ in 0..u64::MAX {
            stream.set_read_timeout(Some(self.left()?))?;
            match stream.read(buf) {
                Err(error) if error.kind() == ErrorKind::Interrupted => {}
                ended => return ended,
            }
        }
        Err(io::Error::from(ErrorKind::TimedOut))
    }

    fn write_some(&self, buf: &[u8]) -> io::Result<usize>
        ensures { WritesAtMost result buf.now }
    {
        let mut stream = self.stream;
        for _ in 0..u64::MAX {
            stream.set_write_timeout(Some(self.left()?))?;
            match stream.write(buf) {
                Err(error) if error.kind() == ErrorKind::Interrupted => {}
                ended => return ended,
            }
        }
        Err(io::Error::from(ErrorKind::TimedOut))
    }
}

impl Read for Wire<'_> {
    fn read(&mut self, buf: &mut [u8]) -> io::Result<usize> {
        self.read_some(buf)
    }
}

impl Receive for Wire<'_> {
    ghost use Rattle.std.specs.Prelude.{false};

    ghost sound = { λ _. false };

    fn receive(&mut self, buf: &mut [u8]) -> io::Result<usize> {
        self.read_some(buf)
    }
}

impl Write for Wire<'_> {
    fn write(&mut self, buf: &[u8]) -> io::Result<usize> {
        self.write_some(buf)
    }

    fn flush(&mut self) -> io::Result<()> {
        Ok(())
    }
}

impl Transmit for Wire<'_> {
    ghost use Rattle.std.specs.Prelude.{false};

    ghost sound = { λ _. false };

    fn transmit(&mut self, buf: &[u8]) -> io::Result<usize> {
        self.write_some(buf)
    }
}

/// The reading side of a connection, of which the beginning is kept.
#[derive(Drop)]
pub struct Hearing<'a> {
    wire: Wire<'a>,
    kept: ArrayVec<u8, KEPT>,
}

impl<'a> Hearing<'a> {
    pub fn new(wire: Wire<'a>) -> Hearing<'a> {
        Hearing {
            wire,
            kept: ArrayVec::new(),
        }
    }

    /// The beginning of what came, at most 1,024 bytes.
    pub fn beginning(&self) -> &[u8] {
        self.kept.as_slice()
    }

    // Keeps what came as far as there is room.
    fn keep(&mut self, came: &[u8]) {
        let room = KEPT - self.kept.len();
        let _ = self
            .kept
            .try_extend_from_slice(&came[..came.len().min(room)]);
    }
}

impl Read for Hearing<'_> {
    fn read(&mut self, buf: &mut [u8]) -> io::Result<usize> {
        let count = self.wire.read_some(buf)?;
        self.keep(&buf[..count]);
        Ok(count)
    }
}

impl Receive for Hearing<'_> {
    ghost use Rattle.std.specs.Prelude.{false};

    ghost sound = { λ _. false };

    fn receive(&mut self, buf: &mut [u8]) -> io::Result<usize> {
        self.read(buf)
    }
}

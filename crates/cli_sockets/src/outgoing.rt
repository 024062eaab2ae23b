//! The writing side of a connection: it has a deadline, and its bytes are counted.
ghost use Rattle.std.specs.Prelude.{◌++◌};
ghost use Rattle.std.specs.Io.{WritesAtMost};

use crate::deadlines::{ALL_SECONDS, Timer};
use http_messages::Transmit;
use std::io::{self, ErrorKind, IoSlice, Write};
use std::net::TcpStream;

/// What a peer gets. A call that waits past the deadline answers an error, and one that was interrupted is made again.
#[derive(Drop)]
pub struct Outgoing<'a> {
    stream: &'a TcpStream,
    timer: Timer<'a>,
    sent: u64,
}

impl<'a> Outgoing<'a> {
    pub fn new(stream: &'a TcpStream, timer: Timer<'a>) -> Outgoing<'a> {
        Outgoing {
            stream,
            timer,
            sent: 0,
        }
    }

    /// The bytes of the reply that the system took.
    pub fn sent(&self) -> u64 {
        self.sent
    }

    fn count(&mut self, sent: usize) {
        self.sent = self.sent.saturating_add(sent as u64);
    }
}

impl Write for Outgoing<'_> {
    fn write(&mut self, buf: &[u8]) -> io::Result<usize> {
        let count = write_within(self.stream, &[], buf, &self.timer)?;
        self.count(count);
        Ok(count)
    }

    fn flush(&mut self) -> io::Result<()> {
        Ok(())
    }
}

impl Transmit for Outgoing<'_> {
    ghost use Rattle.std.specs.Prelude.{false};

    ghost sound = { λ _. false };

    fn transmit(&mut self, buf: &[u8]) -> io::Result<usize> {
        self.write(buf)
    }

    fn transmit_both(&mut self, front: &[u8], back: &[u8]) -> io::Result<usize> {
        let count = write_within(self.stream, front, back, &self.timer)?;
        self.count(count);
        Ok(count)
    }
}

// One write of two texts, which waits for what is left of the connection's time. One that was interrupted is made again.
fn write_within(
    stream: &TcpStream,
    front: &[u8],
    back: &[u8],
    timer: &Timer<'_>,
) -> io::Result<usize>
    ensures { WritesAtMost result (front.now ++ back.now) }
{
    for _ in 0..u64::MAX {
        let left = timer.left(ALL_SECONDS)?;
        stream.set_write_timeout(Some(left))?;
        match stream.write_vectored(&[IoSlice::new(front), IoSlice::new(back)]) {
            Err(error) if error.kind() == ErrorKind::Interrupted => {}
            ended => return ended,
        }
    }
    Err(io::Error::from(ErrorKind::TimedOut))
}

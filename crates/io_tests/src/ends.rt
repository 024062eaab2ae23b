// A reader and a writer that give and take little, and fail at a call.
ghost use Rattle.std.specs.Prelude.{◌++◌, false};
ghost use Rattle.std.specs.Io.{WritesAtMost};

use http_messages::{Receive, Transmit};
use std::io;
use std::io::{ErrorKind, Read, Write};

/// A reader that gives at most so many bytes at a time, and fails at a call, counted from 1; at 0 it never fails.
#[derive(Drop)]
pub struct Slow<'a> {
    pub bytes: &'a [u8],
    pub most: usize,
    pub calls: usize,
    pub fails_at: usize,
}

impl Read for Slow<'_> {
    fn read(&mut self, buf: &mut [u8]) -> io::Result<usize> {
        self.calls = self.calls.saturating_add(1);
        if self.calls == self.fails_at {
            return Err(io::Error::from(ErrorKind::ConnectionReset));
        }
        let count = self.bytes.len().min(buf.len()).min(self.most);
        buf[..count].copy_from_slice(&self.bytes[..count]);
        self.bytes = &self.bytes[count..];
        Ok(count)
    }
}

impl Receive for Slow<'_> {
    ghost sound = { λ _. false };

    fn receive(&mut self, buf: &mut [u8]) -> io::Result<usize> {
        self.read(buf)
    }
}

/// A writer that takes at most so many bytes at a time, of two pieces in one call where there are two. From a call on, counted from 1, it
/// fails, or takes nothing.
#[derive(Drop)]
pub struct Narrow {
    pub taken: Vec<u8>,
    pub most: usize,
    pub calls: usize,
    pub stops_at: usize,
    pub fails: bool,
}

impl Narrow {
    // One call, for two pieces.
    fn take(&mut self, front: &[u8], back: &[u8]) -> io::Result<usize>
        ensures { WritesAtMost result (front.now ++ back.now) }
    {
        self.calls = self.calls.saturating_add(1);
        if self.calls >= self.stops_at {
            if self.fails {
                return Err(io::Error::from(ErrorKind::BrokenPipe));
            }
            return Ok(0);
        }
        let of_front = front.len().min(self.most);
        let of_back = back.len().min(self.most - of_front);
        let kept = self.taken.extend_from_slice(&front[..of_front]);
        if kept.is_err() || self.taken.extend_from_slice(&back[..of_back]).is_err() {
            return Err(io::Error::from(ErrorKind::OutOfMemory));
        }
        Ok(of_front + of_back)
    }
}

impl Write for Narrow {
    fn write(&mut self, buf: &[u8]) -> io::Result<usize> {
        self.take(buf, &[])
    }

    fn flush(&mut self) -> io::Result<()> {
        Ok(())
    }
}

impl Transmit for Narrow {
    ghost sound = { λ _. false };

    fn transmit(&mut self, buf: &[u8]) -> io::Result<usize> {
        self.take(buf, &[])
    }

    fn transmit_both(&mut self, front: &[u8], back: &[u8]) -> io::Result<usize> {
        self.take(front, back)
    }
}

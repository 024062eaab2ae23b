// Readers and writers of which it can be said that they do not fail.
ghost use Rattle.std.specs.Prelude.{◌≡◌, ◌≤◌, ◌<◌, ◌+◌, ◌++◌, ℕ, List, Bool, Some, true, false, length, take, drop, IsOk, IfOk, IfErr, OnOk, OnErr};
ghost use Rattle.std.specs.Io.{ReadsAtMost, WritesAtMost};
ghost use Rattle.std.specs.IoError.{error_kind};
ghost use Rattle.std.specs.declared.io.ErrorKind.TheVariants as kinds;
ghost use Rattle.std.specs.Io.KnownBytes.{Appends, ReadConsumes, WriteAppends};
ghost use Rattle.http_messages.specs.Sound.{StaysSound, TakesSome};
ghost use Rattle.http_messages.specs.Taken.{TookSome};

use std::alloc::AllocError;
use std::io;
use std::io::{IoSlice, Read, Write};
use std::net::TcpStream;
use thiserror::Error;

/// A call of the writer answered an error, or took no byte of a rest that is not empty.
#[derive(Clone, Copy, Debug, PartialEq, Eq, Error)]
#[error("the writer took no more")]
pub struct Cut;

/// Why a request was not read.
#[derive(Clone, Copy, Debug, PartialEq, Eq, Error)]
pub enum ReceiveFault {
    /// A call of the reader answered an error.
    #[error("the reader failed")]
    Read,
    /// Memory was refused. It says nothing of the request.
    #[error("out of memory")]
    OutOfMemory,
}

impl From<io::Error> for ReceiveFault {
    ghost use Rattle.std.specs.Prelude.{◌≡◌};
    ghost use Rattle.http_messages.specs.declared.line.ReceiveFault.TheVariants.{Read};

    ghost from_gives = { λ _ fault. fault ≡ Read };

    fn from(_error: io::Error) -> ReceiveFault {
        ReceiveFault::Read
    }
}

impl From<AllocError> for ReceiveFault {
    ghost use Rattle.std.specs.Prelude.{◌≡◌};
    ghost use Rattle.http_messages.specs.declared.line.ReceiveFault.TheVariants.{OutOfMemory};

    ghost from_gives = { λ _ fault. fault ≡ OutOfMemory };

    fn from(_error: AllocError) -> ReceiveFault {
        ReceiveFault::OutOfMemory
    }
}

/// A reader of which it can be said that it does not fail.
pub trait Receive: Read {
    /// No call fails from here on. False claims nothing.
    ghost sound: { Self → Bool };

    /// One call of `read`: so many bytes were put into the front of the buffer, and 0 for a buffer that is not empty says
    /// that the reader is at its end. An error takes nothing from the reader, and a sound reader answers none.
    fn receive(&mut self, buf: &mut [u8]) -> io::Result<usize>
        ensures bound { ReadsAtMost result buf.new }
        ensures bytes { ReadConsumes (Self.remaining self.old) (Self.remaining self.new) result buf.new }
        ensures sound { StaysSound (sound self.old) result (sound self.new) };
}

/// A writer of which it can be said that it does not fail.
pub trait Transmit: Write {
    /// No call fails from here on, and each takes something of what is not empty. False claims nothing.
    ghost sound: { Self → Bool };

    /// One call of `write`: so many bytes of the buffer's front were taken. An error takes nothing, and a sound writer
    /// answers none.
    fn transmit(&mut self, buf: &[u8]) -> io::Result<usize>
        ensures bound { WritesAtMost result buf.now }
        ensures bytes { WriteAppends (Self.contents self.old) (Self.contents self.new) result buf.now }
        ensures sound { TakesSome (sound self.old) buf.now result (sound self.new) };

    /// One call of `write` for a text that stands in two pieces: so many bytes of the front of the two were taken, as by
    /// `transmit`. A writer that has no call for two pieces takes of the first that is not empty.
    fn transmit_both(&mut self, front: &[u8], back: &[u8]) -> io::Result<usize>
        ensures bound { WritesAtMost result (front.now ++ back.now) }
        ensures bytes { WriteAppends (Self.contents self.old) (Self.contents self.new) result (front.now ++ back.now) }
        ensures sound { TakesSome (sound self.old) (front.now ++ back.now) result (sound self.new) }
    {
        if front.is_empty() {
            self.transmit(back)
        } else {
            self.transmit(front)
        }
    }
}

impl Receive for &[u8] {
    ghost sound = { λ _. true };

    fn receive(&mut self, buf: &mut [u8]) -> io::Result<usize> {
        self.read(buf)
    }
}

impl Receive for TcpStream {
    ghost sound = { λ _. false };

    fn receive(&mut self, buf: &mut [u8]) -> io::Result<usize> {
        self.read(buf)
    }
}

impl Receive for &TcpStream {
    ghost sound = { λ _. false };

    fn receive(&mut self, buf: &mut [u8]) -> io::Result<usize> {
        self.read(buf)
    }
}

/// It takes the whole text; an error says that memory was refused.
impl Transmit for Vec<u8> {
    ghost sound = { λ _. false };

    fn transmit(&mut self, buf: &[u8]) -> io::Result<usize>
        ensures bound { WritesAtMost result buf.now }
        ensures bytes { WriteAppends (Some self.old.items) (Some self.new.items) result buf.now }
        ensures sound { TakesSome false buf.now result false }
        ensures whole { IfOk result (λ n. n ≡ length buf.now) }
        ensures memory { IfErr result (λ e. error_kind e ≡ kinds.OutOfMemory) }
    {
        self.write(buf)
    }
}

/// A writer that takes everything, keeps nothing of it and never fails. It takes no memory.
#[derive(Clone, Copy, Debug)]
pub struct Sink;

impl Write for Sink {
    fn write(&mut self, buf: &[u8]) -> io::Result<usize> {
        Ok(buf.len())
    }

    fn flush(&mut self) -> io::Result<()> {
        Ok(())
    }
}

impl Transmit for Sink {
    ghost sound = { λ _. true };

    fn transmit(&mut self, buf: &[u8]) -> io::Result<usize> {
        Ok(buf.len())
    }
}

impl Transmit for TcpStream {
    ghost sound = { λ _. false };

    fn transmit(&mut self, buf: &[u8]) -> io::Result<usize> {
        self.write(buf)
    }

    fn transmit_both(&mut self, front: &[u8], back: &[u8]) -> io::Result<usize> {
        self.write_vectored(&[IoSlice::new(front), IoSlice::new(back)])
    }
}

impl Transmit for &TcpStream {
    ghost sound = { λ _. false };

    fn transmit(&mut self, buf: &[u8]) -> io::Result<usize> {
        self.write(buf)
    }

    fn transmit_both(&mut self, front: &[u8], back: &[u8]) -> io::Result<usize> {
        self.write_vectored(&[IoSlice::new(front), IoSlice::new(back)])
    }
}

/// Writes all of the bytes, in as many calls as the writer wants. On an error the writer took a beginning of them.
pub fn send_all<W: Transmit>(writer: &mut W, bytes: &[u8]) -> Result<(), Cut>
    ensures ok { OnOk result (Appends (W.contents writer.old) (W.contents writer.new) bytes.now) }
    ensures err { OnErr result (TookSome (W.contents writer.old) (W.contents writer.new) bytes.now) }
    ensures sound { StaysSound (W.sound writer.old) result (W.sound writer.new) }
{
    let mut rest = bytes;
    while !rest.is_empty() {
        match writer.transmit(rest) {
            Ok(0) | Err(_) => return Err(Cut),
            Ok(n) => rest = &rest[n..],
        }
    }
    Ok(())
}

/// Writes one text and then another, with one call where the writer takes both. On an error it took a beginning of the two.
pub fn send_both<W: Transmit>(writer: &mut W, front: &[u8], back: &[u8]) -> Result<(), Cut>
    ensures ok { OnOk result (Appends (W.contents writer.old) (W.contents writer.new) (front.now ++ back.now)) }
    ensures err { OnErr result (TookSome (W.contents writer.old) (W.contents writer.new) (front.now ++ back.now)) }
    ensures sound { StaysSound (W.sound writer.old) result (W.sound writer.new) }
{
    let mut first = front;
    let mut second = back;
    while !first.is_empty() {
        match writer.transmit_both(first, second) {
            Ok(0) | Err(_) => return Err(Cut),
            Ok(n) => (first, second) = behind(first, second, n),
        }
    }
    send_all(writer, second)?;
    Ok(())
}

// What is left of two texts after so many bytes.
fn behind<'a>(front: &'a [u8], back: &'a [u8], n: usize) -> (&'a [u8], &'a [u8])
    requires { n ≤ length (front.now ++ back.now) }
    ensures { result.0.now ++ result.1.now ≡ drop n (front.now ++ back.now) }
{
    if n <= front.len() {
        (&front[n..], back)
    } else {
        (&[], &back[n - front.len()..])
    }
}

// The body of a request, read after its head.

ghost use Rattle.std.specs.Prelude.{◌≡◌, ◌≤◌, ◌<◌, ◌+◌, ◌++◌, ℕ, List, length, take, true, false, IfOk, option_map};
ghost use Rattle.std.specs.Io.KnownBytes.{Consumes, IsAtEnd, Keeps};
ghost use Rattle.http_messages.specs.Head.{left};
ghost use Rattle.http_messages.specs.Body.{IsBody};
ghost use Rattle.http_messages.specs.Sound.{StaysSound, ReadsSoundly, OnNoMemory};

use crate::head::read_at;
use crate::line::{Receive, ReceiveFault};
use std::alloc::Global;
use std::io;

// Reads until the buffer is full, from a place on. False where the input ends before.
fn fill<R: Receive>(reader: &mut R, buf: &mut [u8], start: usize) -> io::Result<bool>
    requires { start ≤ length buf.old }
    ensures full { result ≡ Ok true → (gave : List ℕ) × Consumes (R.remaining reader.old) (R.remaining reader.new) gave × (buf.new ≡ take start buf.old ++ gave) }
    ensures short { result ≡ Ok false → (gave : List ℕ) × Consumes (R.remaining reader.old) (R.remaining reader.new) gave × IsAtEnd (R.remaining reader.new) × (start + length gave < length buf.old) }
    ensures sound { StaysSound (R.sound reader.old) result (R.sound reader.new) }
{
    let mut filled = start;
    while filled < buf.len() {
        match read_at(reader, buf, filled)? {
            0 => return Ok(false),
            count => filled += count,
        }
    }
    Ok(true)
}

/// Reads a body of so many bytes, of which `front` came with the head: the first `len` bytes of what follows the head, and
/// `None` where the input ends before. The room is taken before the first read, so that nothing was read where memory was
/// refused, and a body without a byte takes none. No byte past the body is read.
pub fn read_body<R: Receive>(
    alloc: Global,
    reader: &mut R,
    front: &[u8],
    len: usize,
) -> Result<Option<Vec<u8>>, ReceiveFault>
    ensures body { IfOk result (λ body. (gave : List ℕ) × Consumes (R.remaining reader.old) (R.remaining reader.new) gave
        × IsBody (front.now ++ gave ++ left (R.remaining reader.new)) len (option_map (λ v. v.items) body)) }
    ensures sound { ReadsSoundly (R.sound reader.old) result (R.sound reader.new) }
    ensures memory { OnNoMemory result ((0 < len) × Keeps (R.remaining reader.old) (R.remaining reader.new)) }
{
    let have = front.len().min(len);
    let mut body = Vec::new(alloc);
    body.try_reserve_exact(len)?;
    body.extend_from_slice(&front[..have])?;
    body.resize(len, 0)?;
    if fill(reader, &mut body, have)? {
        Ok(Some(body))
    } else {
        Ok(None)
    }
}

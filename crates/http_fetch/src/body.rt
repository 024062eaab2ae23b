//! The body of a reply: all bytes after the head, up to the end of the connection.
ghost use Rattle.std.specs.Prelude.{◌≡◌, ◌≤◌, ◌<◌, ◌+◌, ◌++◌, ℕ, List, Ok, Err, IfOk, OnErr, length, max, take, suc};
ghost use Rattle.std.specs.Io.KnownBytes.{Consumes, IsAtEnd, Keeps};
ghost use Rattle.http_messages.specs.Sound.{StaysSound};
ghost use Rattle.http_fetch.specs.steps.Found.{ReadsRest};

use fetch::FetchFault;
use http_messages::Receive;
use std::alloc::Global;
use std::io;

// The most bytes that are read at once.
const PIECE: usize = 8192;

// One read of at most so many bytes, and of at most a piece.
fn read_some<R: Receive>(reader: &mut R, piece: &mut [u8; PIECE], most: usize) -> io::Result<usize>
    requires { 0 < most }
    ensures fits { IfOk result (λ n. (n ≤ most) × (n ≤ length piece.new)) }
    ensures ok { IfOk result (λ n. Consumes (R.remaining reader.old) (R.remaining reader.new) (take n piece.new)) }
    ensures err { OnErr result (Keeps (R.remaining reader.old) (R.remaining reader.new)) }
    ensures end { IfOk result (λ n. n ≡ 0 → IsAtEnd (R.remaining reader.new)) }
    ensures sound { StaysSound (R.sound reader.old) result (R.sound reader.new) }
{
    let room = most.min(PIECE);
    reader.receive(&mut piece[..room])
}

// The body of which `front` came with the head, if it has at most `limit` bytes. Not more than one byte past the limit is read.
pub fn read_rest<R: Receive>(
    alloc: Global,
    reader: &mut R,
    front: &[u8],
    limit: usize,
) -> Result<Vec<u8>, FetchFault>
    ensures { ReadsRest (R.remaining reader.old) (R.remaining reader.new) (R.sound reader.old) front.now limit result }
{
    let mut body = Vec::from_slice(alloc, front)?;
    let mut piece = [0; PIECE];
    while body.len() <= limit {
        let most = (limit - body.len()).saturating_add(1);
        match read_some(reader, &mut piece, most) {
            Ok(0) => return Ok(body),
            Ok(count) => match body.extend_from_slice(&piece[..count]) {
                Ok(()) => {}
                Err(_) => return Err(FetchFault::OutOfMemory),
            },
            Err(_) => return Err(FetchFault::Broken),
        }
    }
    Err(FetchFault::TooLong)
}

//! The end of a connection.
use crate::deadlines::{ALL_SECONDS, LAST_SECONDS, Timer};
use crate::incoming::{Incoming, read_within};
use std::io::Read;
use std::net::{Shutdown, TcpStream};

// So many bytes are read away at once.
const AWAY: usize = 8192;

// So many pieces that have come already are taken away without waiting.
const PIECES: u32 = 128;

/// Ends a connection after its reply, so that its stream may be closed: nothing is sent any more. Where the request came whole, as one
/// of a command that was made or denied did, nothing is waited for. Otherwise what the peer still sends is read away until it ends or its time is over, so that the
/// reply reaches a peer that is still sending.
pub fn end(
    rt: &HostRuntime,
    stream: &TcpStream,
    incoming: &Incoming<'_, '_>,
    is_of_command: bool,
    timer: &Timer<'_>,
) {
    if stream.shutdown(Shutdown::Write).is_err() {
        return;
    }
    if is_of_command || incoming.is_whole() {
        take_what_came(stream);
        return;
    }
    if let Ok(last) = Timer::start(rt) {
        read_away(stream, timer, &last);
    }
}

// Takes away what has come after the request, so that the system has no reason to take the reply back.
fn take_what_came(stream: &TcpStream) {
    if stream.set_nonblocking(true).is_err() {
        return;
    }
    let mut stream = stream;
    let mut piece = [0; AWAY];
    for _ in 0..PIECES {
        match stream.read(&mut piece) {
            Ok(0) | Err(_) => return,
            Ok(_) => {}
        }
    }
}

// Reads away what still comes, until it ends or no time is left.
fn read_away(stream: &TcpStream, timer: &Timer<'_>, last: &Timer<'_>) {
    let mut piece = [0; AWAY];
    for _ in 0..u64::MAX {
        if timer.left(ALL_SECONDS).is_err() {
            return;
        }
        match read_within(stream, &mut piece, last, LAST_SECONDS) {
            Ok(0) | Err(_) => return,
            Ok(_) => {}
        }
    }
}

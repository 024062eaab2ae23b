//! How long a connection may take. No contract speaks of time.
use std::io::{self, ErrorKind};
use std::time::{Duration, Instant};

/// A head has so many seconds to come, since the connection was accepted.
pub const HEAD_SECONDS: u64 = 10;

/// A connection has so many seconds in all.
pub const ALL_SECONDS: u64 = 60;

/// What a peer still sends after its reply is read away for so many seconds.
pub const LAST_SECONDS: u64 = 5;

/// A client waits for the next bytes of a reply so many seconds.
pub const QUIET_SECONDS: u64 = 30;

/// A client gives a file so many seconds in all, since its connection was begun.
pub const FILE_SECONDS: u64 = 300;

/// A clock that runs since the beginning of what is timed.
#[derive(Clone, Copy)]
pub struct Timer<'a> {
    rt: &'a HostRuntime,
    began: Instant,
}

impl<'a> Timer<'a> {
    pub fn start(rt: &'a HostRuntime) -> io::Result<Timer<'a>> {
        let began = Instant::now(rt)?;
        Ok(Timer { rt, began })
    }

    /// What is left of so many seconds since the beginning, more than none. Where nothing is left the error is `TimedOut`.
    pub fn left(&self, seconds: u64) -> io::Result<Duration> {
        let gone = self.began.elapsed(self.rt)?;
        let left = Duration::from_secs(seconds).saturating_sub(gone);
        if left.is_zero() {
            return Err(io::Error::from(ErrorKind::TimedOut));
        }
        Ok(left)
    }

    /// The milliseconds since the beginning, as far as the clock tells.
    pub fn milliseconds(&self) -> u128 {
        match self.began.elapsed(self.rt) {
            Ok(gone) => gone.as_millis(),
            Err(_) => 0,
        }
    }
}

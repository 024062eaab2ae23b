ghost use Rattle.std.specs.Prelude.{◌≡◌, ◌*◌, ◌/◌, max};
ghost use Rattle.std.specs.Duration.{as_nanos};

use crate::failure::Failure;
use std::rt::Clock;
use std::time::{Duration, Instant};

/// Bytes, calls or hashes per second, where so many were gone through so often in this time. A time of nothing is taken
/// as one nanosecond.
pub fn rate(amount: u64, rounds: u32, time: Duration) -> u128
    ensures { result ≡ amount * rounds * 1_000_000_000 / max (as_nanos time) 1 }
{
    let all = u128::from(amount) * u128::from(rounds);
    all * 1_000_000_000 / time.as_nanos().max(1)
}

/// One rate in hundredths of another. A rate of nothing is taken as 1, and a hundred times a rate as no more than
/// the greatest number.
pub fn percent(part: u128, whole: u128) -> u128 {
    part.saturating_mul(100) / whole.max(1)
}

/// The moment.
pub fn now(rt: &impl Clock) -> Result<Instant, Failure> {
    match Instant::now(rt) {
        Ok(moment) => Ok(moment),
        Err(_) => Err(Failure::Clock),
    }
}

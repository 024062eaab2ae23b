//! The moment of a command, with a warning where it is before 2020, and the moment at which a document expires.
ghost use Rattle.std.specs.Prelude.{◌≡◌, IfErr, IfOk, IfSome};

use crate::fault::Fault;
use crate::notes::Notes;
use metadata::{Body, Moment};
use std::fmt;
use std::io::Write;
use std::rt::Clock;
use std::time::{SystemTime, UNIX_EPOCH};

/// The moment that was handed in, or the clock's.
pub fn moment(clock: &impl Clock, at: Option<u64>) -> Result<Moment, Fault>
    ensures given { IfOk result (λ moment. IfSome at (λ seconds. moment ≡ seconds)) }
    ensures fault { IfErr result (λ fault. fault ≡ Fault.Clock) }
{
    let seconds = match at {
        Some(at) => at,
        None => seconds(clock)?,
    };
    match Moment::new(seconds) {
        Some(moment) => Ok(moment),
        None => Err(Fault::Clock),
    }
}

// 2020-01-01T00:00:00Z, before which nothing was signed that a client asks for.
const YEAR_2020: u64 = 1_577_836_800;

/// Warns where the moment of a client is before 2020: a device whose clock began anew takes what has expired for live.
pub fn warn_of_clock<E: Write>(now: Moment, notes: &mut Notes<'_, E>) {
    if now.seconds() < YEAR_2020 {
        let year = year_of(now.seconds());
        notes.warn(
            &ClockSays { year },
            &"set it first: before that what has expired is taken for live",
        );
    }
}

// The year of a moment from 1970 to 2019: each fourth one is a leap year.
fn year_of(seconds: u64) -> u64 {
    let mut days = seconds / 86_400;
    for year in 1970..2020u64 {
        let length = if year % 4 == 0 { 366 } else { 365 };
        if days < length {
            return year;
        }
        days = days.saturating_sub(length);
    }
    2020
}

// What the clock says, as a warning begins.
#[derive(Clone, Copy)]
struct ClockSays {
    year: u64,
}

impl fmt::Display for ClockSays {
    fn fmt<W: fmt::Write>(&self, f: &mut fmt::Formatter<W>) -> fmt::Result {
        let year = self.year;
        write!(f, "the clock says {year}")
    }
}

/// When a document expires. Links do not.
pub fn expiry_of(body: &Body) -> Option<Moment> {
    match body {
        Body::Root(root) => Some(root.expires),
        Body::Timestamp(timestamp) => Some(timestamp.expires),
        Body::Snapshot(snapshot) => Some(snapshot.expires),
        Body::Targets(targets) => Some(targets.expires),
        Body::Layout(layout) => Some(layout.expires),
        Body::Link(_) => None,
    }
}

// The seconds of the clock since 1970-01-01T00:00:00Z.
fn seconds(clock: &impl Clock) -> Result<u64, Fault>
    ensures { IfErr result (λ fault. fault ≡ Fault.Clock) }
{
    let Ok(now) = SystemTime::now(clock) else {
        return Err(Fault::Clock);
    };
    match now.duration_since(UNIX_EPOCH) {
        Ok(since) => Ok(since.as_secs()),
        Err(_) => Err(Fault::Clock),
    }
}

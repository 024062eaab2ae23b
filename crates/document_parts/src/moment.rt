//! Moments, to the second.
ghost use Rattle.std.specs.Prelude.{◌≡◌, ◌↔◌, ◌<◌, ◌≤◌, IsTrue, IfSome, IfNone};
ghost use Rattle.document_parts.specs.Dates.{IsLive, last_moment};

use limits::LAST_MOMENT;
use std::marker::Model;

/// A moment: the whole seconds since 1970-01-01T00:00:00Z, without leap seconds, from 0 to 253402300799, which is
/// 9999-12-31T23:59:59Z. Moments are ordered by time. A clause sees the seconds.
#[derive(Debug, Clone, Copy, PartialEq, Eq, PartialOrd, Ord)]
pub struct Moment {
    seconds: u64,
}

impl Model for Moment {
    ghost use Rattle.std.specs.Prelude.{ℕ, ◌≤◌};
    ghost use Rattle.document_parts.specs.Dates.{last_moment};

    ghost Value = { ℕ };

    ghost view = { λ m. m.seconds };

    ghost invariant = { λ m. m.seconds ≤ last_moment };

    ghost inverse = { λ n. record { seconds = n } };
}

impl Moment {
    /// The moment so many seconds after 1970-01-01T00:00:00Z, and `None` after the end of the year 9999. It takes no
    /// memory.
    pub fn new(seconds: u64) -> Option<Moment>
        ensures some { IfSome result (λ m. (m ≡ seconds) × (seconds ≤ last_moment)) }
        ensures none { IfNone result (last_moment < seconds) }
    {
        if seconds <= LAST_MOMENT {
            Some(Moment { seconds })
        } else {
            None
        }
    }

    /// The seconds since 1970-01-01T00:00:00Z. It takes no memory.
    pub fn seconds(self) -> u64
        ensures value { result ≡ self }
        ensures limit { result ≤ last_moment }
    {
        self.seconds
    }
}

/// Whether a document that expires at the one moment is live at the other: it is before that moment, and not at it (TUF 1.0,
/// section 4.3, `expires`). It takes no memory.
pub fn live(expires: Moment, now: Moment) -> bool
    ensures { IsTrue result ↔ IsLive expires now }
{
    now < expires
}

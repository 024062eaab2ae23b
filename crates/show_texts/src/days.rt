//! How long something has left.
use growing_texts::Text;

/// The whole days that something has left; or for how many days it has expired, of which the last may have begun alone, so that it is 1 or more;
/// or neither, where it says no moment.
#[derive(Clone, Copy)]
pub enum Days {
    Left(u64),
    Past(u64),
    Unknown,
}

impl Days {
    /// The days from one moment to another one, at which something expires, in seconds since 1970-01-01T00:00:00Z.
    pub fn between(now: u64, expires: Option<u64>) -> Days {
        match expires {
            Some(expires) if now < expires => Days::Left(expires.saturating_sub(now) / 86_400),
            Some(expires) => {
                let last = now.saturating_sub(expires).saturating_sub(1) / 86_400;
                Days::Past(last.saturating_add(1))
            }
            None => Days::Unknown,
        }
    }

    /// The days that are left as a number, 0 where none are.
    pub(crate) fn number(&self) -> u64 {
        match self {
            Days::Left(days) => *days,
            Days::Past(_) | Days::Unknown => 0,
        }
    }
}

/// Says the days as JSON has them, below zero where they are past, and before them what leads to them.
pub(crate) fn json_days(text: &mut Text, lead: &str, days: Days) {
    text.say(lead);
    match days {
        Days::Left(days) => text.number("", days),
        Days::Past(days) => text.number("-", days),
        Days::Unknown => text.say("null"),
    }
}

/// Says the days as a column has them: a number of this width and a unit, or in words.
pub(crate) fn say_days(text: &mut Text, width: usize, unit: &str, days: Days) {
    match days {
        Days::Left(days) => text.formed(format!(in text.alloc; "{days:>width$}{unit}")),
        Days::Past(days) => text.formed(format!(in text.alloc; "expired {days} days ago")),
        Days::Unknown => {
            let none = "-";
            text.formed(format!(in text.alloc; "{none:>width$}{unit}"))
        }
    }
}

/// Says in words when something expires.
pub(crate) fn say_expiry(text: &mut Text, days: Days) {
    match days {
        Days::Left(days) => text.formed(format!(in text.alloc; "expires in {days} days")),
        Days::Past(days) => text.formed(format!(in text.alloc; "expired {days} days ago")),
        Days::Unknown => text.say("says no expiry"),
    }
}

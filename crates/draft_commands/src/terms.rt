//! When a draft expires.
use crate::drafting_faults::usage;
use cli_faults::Fault;
use draft_folder::read_said;
use drafting::{Terms, number_in};
use metadata::{Moment, read_date_time, read_signed};
use std::alloc::Global;

const DAY: u64 = 86_400;

const HOUR: u64 = 3_600;

// The longest term that an option can say, 999,999 days.
const MOST_TERM: u64 = 86_399_913_600;

// What a term is, as `clap` says of a value that is none.
const NO_TERM: &str = concat!(
    "error: invalid value for '--expires <TERM>': neither days as 90d, nor hours as 12h, nor a moment as 2030-01-01T00:00:00Z\n\n",
    "For more information, try '--help'.\n",
);

/// When the next document expires: as the term says that is given, else so long after now as the last one's term, else as long as the first
/// of its kind.
pub fn terms_of(
    alloc: Global,
    given: Option<&str>,
    last: Option<&[u8]>,
    first: u64,
    now: Moment,
) -> Result<Terms, Fault> {
    let Some(text) = given else {
        return behind(
            alloc,
            now,
            last_term(alloc, last)?.unwrap_or(first.saturating_mul(DAY)),
        );
    };
    if let Some(seconds) = seconds_of(text) {
        return behind(alloc, now, seconds);
    }
    match read_date_time(text) {
        Some(expires) => Ok(Terms {
            expires,
            seconds: expires.seconds().saturating_sub(now.seconds()),
        }),
        None => Err(usage(alloc, NO_TERM)),
    }
}

/// The terms that a role's draft has; one that says no term gets that of so many days, as the first of its kind.
pub fn kept_terms(alloc: Global, role: &str, draft: &[u8], first: u64) -> Result<Terms, Fault> {
    let seconds = last_term(alloc, Some(draft))?.unwrap_or(first.saturating_mul(DAY));
    let said = read_said(alloc, role, draft)?;
    match said.expires {
        Some(expires) => Ok(Terms { expires, seconds }),
        None => Err(usage(alloc, NO_TERM)),
    }
}

// So many seconds after now.
fn behind(alloc: Global, now: Moment, seconds: u64) -> Result<Terms, Fault> {
    match Moment::new(now.seconds().saturating_add(seconds)) {
        Some(expires) => Ok(Terms { expires, seconds }),
        None => Err(usage(alloc, NO_TERM)),
    }
}

// The seconds of days or hours.
fn seconds_of(text: &str) -> Option<u64> {
    if let Some(days) = text.strip_suffix('d') {
        return Some(count(days)?.saturating_mul(DAY));
    }
    Some(count(text.strip_suffix('h')?)?.saturating_mul(HOUR))
}

fn count(digits: &str) -> Option<u64> {
    if digits.is_empty() || digits.len() > 6 || digits.starts_with('+') {
        return None;
    }
    digits.parse::<u64>().ok()
}

// The term of a document, if it says one that an option could.
fn last_term(alloc: Global, last: Option<&[u8]>) -> Result<Option<u64>, Fault> {
    let Some(bytes) = last else {
        return Ok(None);
    };
    let file = read_signed(alloc, bytes)?;
    match number_in(file.signed, "term") {
        Some(seconds) if 0 < seconds && seconds <= MOST_TERM => Ok(Some(seconds)),
        _ => Ok(None),
    }
}

//! Texts of moments.
ghost use Rattle.std.specs.Prelude.{◌≡◌, ◌⊎◌, ◌+◌, ◌/◌, ◌%◌, List, ℕ, [], ◌∷◌, ◌++◌, string_bytes, IfOk, IfErr, IfNone, IfSome, OnOk};
ghost use Rattle.document_parts.specs.Dates.{IsDateTime, IsShown, two_digits, four_digits};

use crate::faults::DraftFault;
use document_parts::dates;
use jiff::Timestamp;
use jiff::tz::Offset;
use metadata::Moment;
use std::alloc::{AllocError, Global};

const FIRST_YEAR: i16 = dates::FIRST_YEAR as i16;

const LAST_YEAR: i16 = dates::LAST_YEAR as i16;

// What a calendar and a clock show in UTC.
#[derive(Clone, Copy)]
struct Shown {
    year: u16,
    month: u8,
    day: u8,
    hour: u8,
    minute: u8,
    second: u8,
}

/// The text of the moment, `YYYY-MM-DDTHH:MM:SSZ` (RFC 3339, section 5.6).
pub(crate) fn date_text(alloc: Global, moment: Moment) -> Result<String, DraftFault>
    ensures ok { IfOk result (λ t. IsDateTime (string_bytes t) moment) }
    ensures err { IfErr result (λ e. (e ≡ DraftFault.OutOfMemory) ⊎ ((e ≡ DraftFault.TooLate) × ((t : List ℕ) → IsDateTime t moment → ⊥))) }
{
    let Some(shown) = shown_at(moment) else {
        return Err(DraftFault::TooLate);
    };
    match text_of(alloc, shown) {
        Ok(text) => Ok(text),
        Err(_) => Err(DraftFault::OutOfMemory),
    }
}

// What is shown at the moment, in the years that a text may have.
fn shown_at(moment: Moment) -> Option<Shown>
    ensures some { IfSome result (λ s. IsShown s.year s.month s.day s.hour s.minute s.second moment) }
    ensures none { IfNone result ((t : List ℕ) → IsDateTime t moment → ⊥) }
{
    let Ok(instant) = Timestamp::from_second(moment.seconds() as i64) else {
        return None;
    };
    let shown = Offset::UTC.to_datetime(instant);
    let year = shown.year();
    if year < FIRST_YEAR || year > LAST_YEAR {
        return None;
    }
    Some(Shown {
        year: year.unsigned_abs(),
        month: shown.month().unsigned_abs(),
        day: shown.day().unsigned_abs(),
        hour: shown.hour().unsigned_abs(),
        minute: shown.minute().unsigned_abs(),
        second: shown.second().unsigned_abs(),
    })
}

// The text of what is shown.
fn text_of(alloc: Global, s: Shown) -> Result<String, AllocError>
    ensures { IfOk result (λ t. string_bytes t ≡ four_digits s.year ++ 45 ∷ two_digits s.month ++ 45 ∷ two_digits s.day
        ++ 84 ∷ two_digits s.hour ++ 58 ∷ two_digits s.minute ++ 58 ∷ two_digits s.second ++ 90 ∷ []) }
{
    let mut text = String::new(alloc);
    put_two(&mut text, s.year / 100)?;
    put_three(
        &mut text,
        s.year % 100,
        "-",
        u16::from(s.month),
        u16::from(s.day),
    )?;
    text.push_str("T")?;
    put_three(
        &mut text,
        u16::from(s.hour),
        ":",
        u16::from(s.minute),
        u16::from(s.second),
    )?;
    text.push_str("Z")?;
    Ok(text)
}

// Appends three numbers in two digits each, with the mark between each two.
fn put_three(text: &mut String, a: u16, mark: &str, b: u16, c: u16) -> Result<(), AllocError>
    ensures { OnOk result (string_bytes text.new ≡ string_bytes text.old ++ (two_digits a ++ (mark.now ++ (two_digits b ++ (mark.now ++ two_digits c))))) }
{
    put_two(text, a)?;
    text.push_str(mark)?;
    put_two(text, b)?;
    text.push_str(mark)?;
    put_two(text, c)
}

// Appends the last two digits of a number.
fn put_two(text: &mut String, n: u16) -> Result<(), AllocError>
    ensures { OnOk result (string_bytes text.new ≡ string_bytes text.old ++ two_digits n) }
{
    text.push_str(last_digit(n / 10))?;
    text.push_str(last_digit(n))
}

// The last digit of a number.
fn last_digit(n: u16) -> &'static str
    ensures { result.now ≡ (48 + n % 10) ∷ [] }
{
    match n % 10 {
        0 => "0",
        1 => "1",
        2 => "2",
        3 => "3",
        4 => "4",
        5 => "5",
        6 => "6",
        7 => "7",
        8 => "8",
        _ => "9",
    }
}

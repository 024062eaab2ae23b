// Texts of a date and time.
ghost use Rattle.std.specs.Prelude.{◌≡◌, ◌+◌, ◌/◌, ◌%◌, ◌<◌, ℕ, List, [], ◌++◌, ◌∷◌, IfSome, Some};
ghost use Rattle.document_parts.specs.Dates.{two_digits, IsDateTime, IsShown};

use crate::Moment;
use jiff::civil::DateTime;
use jiff::tz::Offset;

// The bytes of a text.
const LENGTH: usize = 20;

/// The first year in which a document can expire.
pub const FIRST_YEAR: u16 = 1970;

/// The last year in which a document can expire.
pub const LAST_YEAR: u16 = 9998;

// The number that two digits spell.
fn read_two(tens: u8, ones: u8) -> Option<u8>
    ensures some { IfSome result (λ n. (tens ∷ ones ∷ [] ≡ two_digits n) × (n < 100)) }
    ensures only { (n : ℕ) → n < 100 → tens ∷ ones ∷ [] ≡ two_digits n → result ≡ Some n }
{
    if !tens.is_ascii_digit() || !ones.is_ascii_digit() {
        return None;
    }
    Some((tens - b'0') * 10 + (ones - b'0'))
}

// Three numbers of two digits, with the mark between each two, as `07:30:00`.
fn read_three(text: &[u8], mark: u8) -> Option<(u8, u8, u8)>
    ensures some { IfSome result (λ p. (text.now ≡ two_digits p.0 ++ mark ∷ two_digits p.1 ++ mark ∷ two_digits p.2) × (p.0 < 100) × (p.1 < 100) × (p.2 < 100)) }
    ensures only { (a b c : ℕ) → a < 100 → b < 100 → c < 100 → text.now ≡ two_digits a ++ mark ∷ two_digits b ++ mark ∷ two_digits c → result ≡ Some (a, b, c) }
{
    let [a, b, first, c, d, second, e, f] = text else {
        return None;
    };
    if *first != mark || *second != mark {
        return None;
    }
    Some((read_two(*a, *b)?, read_two(*c, *d)?, read_two(*e, *f)?))
}

// The moment that a calendar and a clock show so in UTC.
fn moment_at(year: u16, month: u8, day: u8, hour: u8, minute: u8, second: u8) -> Option<Moment>
    requires year { year < 10000 }
    requires month { month < 100 }
    requires day { day < 100 }
    requires hour { hour < 100 }
    requires minute { minute < 100 }
    requires second { second < 100 }
    ensures some { IfSome result (λ m. IsShown year month day hour minute second m) }
    ensures only { (seconds : ℕ) → IsShown year month day hour minute second seconds → result ≡ Some seconds }
{
    if year < FIRST_YEAR || year > LAST_YEAR {
        return None;
    }
    let Ok(shown) = DateTime::new(
        year as i16,
        month as i8,
        day as i8,
        hour as i8,
        minute as i8,
        second as i8,
        0,
    ) else {
        return None;
    };
    let Ok(instant) = Offset::UTC.to_timestamp(shown) else {
        return None;
    };
    let Ok(seconds) = u64::try_from(instant.as_second()) else {
        return None;
    };
    Moment::new(seconds)
}

/// The moment that the text is, `YYYY-MM-DDTHH:MM:SSZ` (RFC 3339, section 5.6) of the years 1970 to 9998, with no leap
/// second, and `None` for every other text (TUF 1.0, section 4.3, `expires`). It takes no memory.
pub fn read_date_time(text: &str) -> Option<Moment>
    ensures some { IfSome result (λ m. IsDateTime text.now m) }
    ensures only { (seconds : ℕ) → IsDateTime text.now seconds → result ≡ Some seconds }
{
    let text = text.as_bytes();
    if text.len() != LENGTH || text[10] != b'T' || text[19] != b'Z' {
        return None;
    }
    let century = read_two(text[0], text[1])?;
    let (year, month, day) = read_three(&text[2..10], b'-')?;
    let (hour, minute, second) = read_three(&text[11..19], b':')?;
    moment_at(
        century as u16 * 100 + year as u16,
        month,
        day,
        hour,
        minute,
        second,
    )
}

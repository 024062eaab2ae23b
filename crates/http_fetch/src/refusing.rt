//! What a reply says that gives no file: its status, and where it points to.
ghost use Rattle.std.specs.Prelude.{◌≡◌, ◌≢◌, ◌≤◌, ◌⊎◌, ℕ, IfNone, IfSome, IsTrue, length};
ghost use Rattle.std.specs.Char.{is_ascii_graphic};
ghost use Rattle.std.specs.List.{list_all};
ghost use Rattle.http_fetch.specs.Refusing.{HasStatus, IsNumber};

use crate::cutting::after;

// The most bytes of a location that are shown.
const SHOWN: usize = 200;

/// A reply of another status than 200, 403 and 404 (RFC 9110, section 15), and the beginning of its `Location` (section 10.2.2): at most
/// 200 bytes, each a graphic one, and none where the field is not there or has others.
#[derive(Clone, Copy, Debug)]
pub struct Refusal<'a> {
    pub status: u16,
    pub location: &'a str,
}

/// What the beginning of a reply says, where it is one of such a status: `None` exactly where it has no status, or one of 200, 403 and 404.
/// It takes no memory.
pub fn read_refusal(beginning: &[u8]) -> Option<Refusal<'_>>
    ensures status { IfSome result (λ r. HasStatus beginning.now r.status × (r.status ≢ 200) × (r.status ≢ 403) × (r.status ≢ 404)) }
    ensures none { IfNone result ((status : ℕ) → HasStatus beginning.now status → (status ≡ 200) ⊎ ((status ≡ 403) ⊎ (status ≡ 404))) }
    ensures shown { IfSome result (λ r. IsTrue (list_all is_ascii_graphic r.location.now) × (length r.location.now ≤ 200)) }
{
    let Some(status) = status_in(beginning) else {
        return None;
    };
    if status == 200 || status == 403 || status == 404 {
        return None;
    }
    Some(Refusal {
        status,
        location: location_in(beginning),
    })
}

// The status in the first line (RFC 9112, section 4).
fn status_in(beginning: &[u8]) -> Option<u16>
    ensures some { IfSome result (λ status. HasStatus beginning.now status) }
    ensures once { IfSome result (λ status. (other : ℕ) → HasStatus beginning.now other → other ≡ status) }
    ensures none { IfNone result ((status : ℕ) → HasStatus beginning.now status → ⊥) }
{
    let Some(rest) = after(beginning, b"HTTP/1.") else {
        return None;
    };
    if rest.len() < 5 {
        return None;
    }
    let space = rest[1];
    if space != b' ' {
        return None;
    }
    number_of(rest[2], rest[3], rest[4])
}

// The number of three digits.
fn number_of(a: u8, b: u8, c: u8) -> Option<u16>
    ensures some { IfSome result (λ n. IsNumber a b c n) }
    ensures once { IfSome result (λ n. (other : ℕ) → IsNumber a b c other → other ≡ n) }
    ensures none { IfNone result ((n : ℕ) → IsNumber a b c n → ⊥) }
{
    if a.is_ascii_digit() && b.is_ascii_digit() && c.is_ascii_digit() {
        Some(100 * u16::from(a - b'0') + 10 * u16::from(b - b'0') + u16::from(c - b'0'))
    } else {
        None
    }
}

// The location in the lines of a head, if one has it.
fn location_in(beginning: &[u8]) -> &str
    ensures { IsTrue (list_all is_ascii_graphic result.now) × (length result.now ≤ 200) }
{
    for line in beginning.split(|b| *b == b'\n') {
        if let Some(location) = location_of(line) {
            return location;
        }
    }
    ""
}

// The location that a line says, as it is shown.
fn location_of(line: &[u8]) -> Option<&str>
    ensures { IfSome result (λ l. IsTrue (list_all is_ascii_graphic l.now) × (length l.now ≤ 200)) }
{
    let line = str::from_utf8(line).ok()?;
    let (name, value) = line.split_once(':')?;
    if !name.eq_ignore_ascii_case("location") {
        return None;
    }
    shown(value.trim_ascii().as_bytes())
}

fn shown(text: &[u8]) -> Option<&str>
    ensures { IfSome result (λ l. IsTrue (list_all is_ascii_graphic l.now) × (length l.now ≤ 200)) }
{
    let text = &text[..text.len().min(SHOWN)];
    if !is_graphic(text) {
        return None;
    }
    str::from_utf8(text).ok()
}

// Whether a text has graphic ASCII bytes alone.
fn is_graphic(text: &[u8]) -> bool
    ensures { result ≡ list_all is_ascii_graphic text.now }
{
    text.iter().all(|b| b.is_ascii_graphic())
}

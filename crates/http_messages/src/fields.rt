// The length of a body, as the fields of a head declare it.
ghost use Rattle.std.specs.Prelude.{◌≡◌, ◌≤◌, map, length, codes, All, true, option_map};
ghost use Rattle.std.specs.List.{list_all};
ghost use Rattle.std.specs.Char.{is_ascii_digit};
ghost use Rattle.std.specs.Str.Parse.{digits_value};
ghost use Rattle.std.specs.Str.{str_eq_ignore_ascii_case};
ghost use Rattle.httparse.specs.Spans.{IsHeaderWithin, header_bytes};
ghost use Rattle.http_messages.specs.Length.{count_named as count_named_lem, first_named, number, declared};

use httparse::spans::HeaderSpan;

/// What the fields of a head say of the body's length (RFC 9112, section 6).
#[derive(Clone, Copy, Debug, PartialEq, Eq)]
pub enum Declared {
    /// There is a `Transfer-Encoding`, more than one `Content-Length`, or one whose value is not 1 to 10 decimal digits.
    Ill,
    /// There is no `Content-Length`.
    Absent,
    /// The length in bytes.
    Given(u64),
}

/// The number that at most ten decimal digits write.
pub fn value_of(digits: &[u8]) -> u64
    requires few { length digits.now ≤ 10 }
    requires digits { list_all is_ascii_digit digits.now ≡ true }
    ensures { result ≡ digits_value 10 digits.now }
{
    let mut n = 0u64;
    for b in digits {
        n = n * 10 + u64::from(*b - b'0');
    }
    n
}

pub fn are_digits(value: &[u8]) -> bool
    ensures { result ≡ list_all is_ascii_digit value.now }
{
    value.iter().all(|b| b.is_ascii_digit())
}

/// The number that 1 to 10 decimal digits write.
pub fn number_of(value: &[u8]) -> Option<u64>
    ensures { result ≡ number value.now }
{
    if value.is_empty() || value.len() > 10 || !are_digits(value) {
        return None;
    }
    Some(value_of(value))
}

/// Whether a name is this word, without regard to ASCII case.
fn is_name(name: &[u8], word: &[u8]) -> bool
    ensures { result ≡ str_eq_ignore_ascii_case name.now word.now }
{
    name.eq_ignore_ascii_case(word)
}

/// How many fields have this name.
fn count_named(got: &[u8], headers: &[HeaderSpan], word: &[u8]) -> usize
    requires { All (IsHeaderWithin (length got.now)) headers.now }
    ensures { result ≡ count_named_lem word.now (map (header_bytes got.now) headers.now) }
{
    let mut count = 0;
    for header in headers {
        if is_name(header.name.of(got), word) {
            count += 1;
        }
    }
    count
}

/// The value of the first field of this name.
fn value_named<'a>(got: &'a [u8], headers: &[HeaderSpan], word: &[u8]) -> Option<&'a [u8]>
    requires { All (IsHeaderWithin (length got.now)) headers.now }
    ensures { option_map (λ v. v.now) result ≡ first_named word.now (map (header_bytes got.now) headers.now) }
{
    for header in headers {
        if is_name(header.name.of(got), word) {
            return Some(header.value.of(got));
        }
    }
    None
}

/// What the fields of a head say of the body's length, of which `headers` has the spans in `got`. Names are compared without
/// regard to ASCII case.
#[tactic(auto, unfolding(crate::specs::Length::declared))]
pub fn declared_length(got: &[u8], headers: &[HeaderSpan]) -> Declared
    requires { All (IsHeaderWithin (length got.now)) headers.now }
    ensures { result ≡ declared (map (header_bytes got.now) headers.now) }
{
    let transfers = count_named(got, headers, b"transfer-encoding");
    let lengths = count_named(got, headers, b"content-length");
    if transfers > 0 || lengths > 1 {
        return Declared::Ill;
    }
    match value_named(got, headers, b"content-length") {
        None => Declared::Absent,
        Some(value) => match number_of(value) {
            None => Declared::Ill,
            Some(n) => Declared::Given(n),
        },
    }
}

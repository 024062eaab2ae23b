// Texts that are cut.
ghost use Rattle.std.specs.Prelude.{◌≡◌, ◌≢◌, ◌<◌, ◌^◌, ◌++◌, ◌∷◌, ℕ, List, IfNone, IfSome, IsTrue, MatchOption, false};
ghost use Rattle.std.specs.Char.{is_ascii_digit};
ghost use Rattle.std.specs.Fmt.{decimal};

use http_messages::cut;

// Whether the bytes are the same.
pub fn is_same(a: &[u8], b: &[u8]) -> bool
    ensures same { IsTrue result → a.now ≡ b.now }
    ensures other { a.now ≡ b.now → IsTrue result }
{
    a == b
}

// What stands after this front, if the text begins with it.
pub fn after<'a>(text: &'a [u8], front: &[u8]) -> Option<&'a [u8]>
    ensures { MatchOption result ((rest : List ℕ) → text.now ≢ front.now ++ rest) (λ rest. text.now ≡ front.now ++ rest.now) }
{
    text.strip_prefix(front)
}

// What stands before this end, if the text ends in it.
pub fn before<'a>(text: &'a [u8], end: &[u8]) -> Option<&'a [u8]>
    ensures { MatchOption result ((front : List ℕ) → text.now ≢ front ++ end.now) (λ front. text.now ≡ front.now ++ end.now) }
{
    text.strip_suffix(end)
}

// The number in decimal that stands before a byte, and what stands after the byte.
pub fn number_before(text: &[u8], byte: u8) -> Option<(usize, &[u8])>
    requires { is_ascii_digit byte ≡ false }
    ensures some { IfSome result (λ r. (n : ℕ) (rest : List ℕ) → n < 2 ^ 64 → text.now ≡ decimal n ++ byte ∷ rest → (n ≡ r.0) × (rest ≡ r.1.now)) }
    ensures none { IfNone result ((n : ℕ) (rest : List ℕ) → n < 2 ^ 64 → text.now ≢ decimal n ++ byte ∷ rest) }
{
    let (digits, rest) = cut(text, byte)?;
    let number = number_of(digits)?;
    Some((number, rest))
}

// The number that digits write.
fn number_of(digits: &[u8]) -> Option<usize>
    ensures some { IfSome result (λ r. (n : ℕ) → n < 2 ^ 64 → digits.now ≡ decimal n → n ≡ r) }
    ensures none { IfNone result ((n : ℕ) → n < 2 ^ 64 → digits.now ≢ decimal n) }
{
    let Ok(digits) = str::from_utf8(digits) else {
        return None;
    };
    match digits.parse::<usize>() {
        Ok(number) => Some(number),
        Err(_) => None,
    }
}

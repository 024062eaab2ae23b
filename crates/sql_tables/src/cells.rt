// The cells of a row by their types.
ghost use Rattle.std.specs.Prelude.{◌≡◌, ◌≢◌, ◌<◌, ◌^◌, ℕ, List, pos, IsTrue, IfSome, MatchOption};
ghost use Rattle.std.specs.List.{AllByRecursion};
ghost use Rattle.hex.specs.Hex.{encode_lower};
ghost use Rattle.sqlite.specs.Order.{column};
ghost use Rattle.sqlite.specs.declared.types.Value.TheVariants.{Int, Text, Blob};
ghost use Rattle.sql_tables.specs.Cells.{IsDigest};

use sqlite::Row;
use sqlite_value::value::ValueRef;

/// The text of a cell, counted from 0, and `None` exactly where it is none.
pub fn text_at(row: &Row, at: usize) -> Option<&[u8]>
    ensures { MatchOption result ((t : _) → column row.now at ≢ Text t) (λ t. column row.now at ≡ Text t.now) }
{
    match row.get_ref(at) {
        Ok(ValueRef::Text(text)) => Some(text),
        _ => None,
    }
}

/// The bytes of a cell, counted from 0, and `None` exactly where it is no blob.
pub fn blob_at(row: &Row, at: usize) -> Option<&[u8]>
    ensures { MatchOption result ((b : _) → column row.now at ≢ Blob b) (λ b. column row.now at ≡ Blob b.now) }
{
    match row.get_ref(at) {
        Ok(ValueRef::Blob(bytes)) => Some(bytes),
        _ => None,
    }
}

/// The number of a cell, counted from 0, and `None` exactly where it is no integer from 0 to 4,294,967,295.
pub fn number_at(row: &Row, at: usize) -> Option<u32>
    ensures value { MatchOption result ((n : ℕ) → n < 2 ^ 32 → column row.now at ≢ Int (pos n)) (λ n. column row.now at ≡ Int (pos n)) }
    ensures fits { IfSome result (λ n. n < 2 ^ 32) }
{
    match row.get_ref(at) {
        Ok(ValueRef::Int(number)) if 0 <= number && number <= 4_294_967_295 => Some(number as u32),
        _ => None,
    }
}

/// Whether the bytes are the same.
pub fn is_same(a: &[u8], b: &[u8]) -> bool
    ensures same { IsTrue result → a.now ≡ b.now }
    ensures other { a.now ≡ b.now → IsTrue result }
{
    a == b
}

/// The digest that 64 hex digits of lower case spell, and `None` exactly where the text is of another kind.
pub fn digest_of(text: &[u8]) -> Option<[u8; 32]>
    ensures value { MatchOption result ((d : List ℕ) → IsDigest d → text.now ≢ encode_lower d) (λ d. text.now ≡ encode_lower d) }
    ensures fits { IfSome result (λ d. IsDigest d) }
{
    let mut digest = [0; 32];
    if hex::decode_to_slice(text, &mut digest).is_err() {
        return None;
    }
    let mut digits = [0; 64];
    let _ = hex::encode_to_slice(&digest, &mut digits);
    if !is_same(text, &digits) {
        return None;
    }
    are_bytes(&digest);
    Some(digest)
}

// A law, which does nothing: every byte is below 256.
fn are_bytes(bytes: &[u8])
    ensures { AllByRecursion (λ b. b < 256) bytes.now }
{
    let _count = bytes.len();
}

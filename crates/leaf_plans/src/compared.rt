//! Bytes that are compared.
ghost use Rattle.std.specs.Prelude.{◌≡◌, ◌≢◌, MatchBool};

/// Whether the bytes are the same.
pub fn is_same(a: &[u8], b: &[u8]) -> bool
    ensures { MatchBool result (a.now ≡ b.now) (a.now ≢ b.now) }
{
    a == b
}

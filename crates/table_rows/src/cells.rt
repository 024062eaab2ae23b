// The order of texts, and the digest of bytes.
ghost use Rattle.std.specs.Prelude.{◌≡◌, ◌≢◌, IsTrue, false};
ghost use Rattle.std.specs.Ordering.{nat_cmp};
ghost use Rattle.std.specs.Cmp.Lexicographic.{slice_cmp};
ghost use Rattle.sha2.specs.Sha256.{sha256};

use sha2::{Digest, Sha256};
use sql_tables::is_same;
use std::cmp::Ordering;

// How two lists of bytes stand to each other, byte by byte.
pub(crate) fn text_order(a: &[u8], b: &[u8]) -> Ordering
    ensures { result ≡ slice_cmp nat_cmp a.now b.now }
{
    a.cmp(b)
}

// Whether the bytes have this SHA-256.
pub(crate) fn has_digest(bytes: &[u8], digest: &[u8; 32]) -> bool
    ensures yes { IsTrue result → sha256 bytes.now ≡ digest.now }
    ensures no { result ≡ false → sha256 bytes.now ≢ digest.now }
{
    let own = Sha256::digest(bytes);
    is_same(&own, digest)
}

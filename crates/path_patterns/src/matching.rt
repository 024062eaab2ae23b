// What patterns and prefixes cover.
ghost use Rattle.std.specs.Prelude.{◌≡◌, ◌↔◌, ℕ, List, IsTrue, map, nat_eq, string_bytes};
ghost use Rattle.std.specs.List.{list_any, starts_with};
ghost use Rattle.hex.specs.Hex.{encode_lower};
ghost use Rattle.sha2.specs.Sha256.{sha256};
ghost use Rattle.path_patterns.specs.Matching.{MatchesSegmented, MatchesFlat, PrefixCovers};
ghost use Rattle.path_patterns.specs.Tests as tests;

use crate::wildcards::Wildcards;
use crate::{Digest, Pattern, TargetPath};
use sha2::{Digest as _, Sha256};

/// Whether the pattern covers the path where its wildcards stand for no slash, as in a delegation: `*` stands for any run
/// of bytes within a segment, the empty run too, `?` for one byte of a segment, and every other byte for itself (TUF 1.0,
/// section 4.5, PATHPATTERN). It takes no memory, and at most as many steps as the product of the two lengths, each one
/// more.
pub fn matches_segmented(pattern: &Pattern, path: &TargetPath) -> bool
    ensures { IsTrue result ↔ (MatchesSegmented pattern.now path.now) }
{
    Wildcards::Segmented.matches(pattern.as_str().as_bytes(), path.as_str().as_bytes())
}

/// Whether the pattern covers the path where its wildcards stand for slashes too, as in an artifact rule (in-toto 1.0,
/// section 4.3.3). It takes no memory, and as many steps as `matches_segmented`.
pub fn matches_flat(pattern: &Pattern, path: &TargetPath) -> bool
    ensures { IsTrue result ↔ (MatchesFlat pattern.now path.now) }
{
    matches_flat_text(pattern, path.as_str())
}

/// The same of any text, such as what follows a folder in a path.
pub fn matches_flat_text(pattern: &Pattern, text: &str) -> bool
    ensures { IsTrue result ↔ (MatchesFlat pattern.now text.now) }
{
    Wildcards::Flat.matches(pattern.as_str().as_bytes(), text.as_bytes())
}

/// Whether the SHA-256 of the path, in hex digits of lower case, begins with the prefix (TUF 1.0, section 4.5,
/// path_hash_prefixes). Any text may be asked: the empty prefix covers every path, and one of more than 64 bytes none. It
/// takes no memory.
pub fn prefix_covers(prefix: &str, path: &TargetPath) -> bool
    ensures { IsTrue result ↔ (PrefixCovers prefix.now path.now) }
{
    digits_of(path).starts_with(prefix.as_bytes())
}

/// Whether one of the prefixes covers the path, as `prefix_covers` says of each. The path is hashed once. It takes no memory.
pub fn some_prefix_covers(prefixes: &[String], path: &TargetPath) -> bool
    ensures { result ≡ list_any (λ p. tests.prefix_covers p path.now) (map string_bytes prefixes.now) }
{
    let digits = digits_of(path);
    let mut rest = prefixes;
    'prefixes: while let Some((prefix, later)) = rest.split_first() {
        if begin_with(&digits, prefix.as_str()) {
            return true;
        }
        rest = later;
    }
    false
}

// Whether the digits begin with the prefix.
fn begin_with(digits: &[u8; 64], prefix: &str) -> bool
    ensures { result ≡ starts_with nat_eq digits.now prefix.now }
{
    digits.starts_with(prefix.as_bytes())
}

// The hex digits of the path's digest.
fn digits_of(path: &TargetPath) -> [u8; 64]
    ensures { result ≡ encode_lower (sha256 path.now) }
{
    Digest(Sha256::digest(path.as_str().as_bytes())).digits()
}

/// A law, which does nothing: the tests of the definitions hold exactly where the relations do (TUF 1.0, section 4.5,
/// PATHPATTERN and path_hash_prefixes; in-toto 1.0, section 4.3.3, for patterns whose wildcards stand for slashes too).
pub fn tests_tell()
    ensures segmented { (p t : List ℕ) → IsTrue (tests.matches_segmented p t) ↔ MatchesSegmented p t }
    ensures flat { (p t : List ℕ) → IsTrue (tests.matches_flat p t) ↔ MatchesFlat p t }
    ensures prefix { (p t : List ℕ) → IsTrue (tests.prefix_covers p t) ↔ PrefixCovers p t }
{}

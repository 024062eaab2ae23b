// Which texts are target paths, names, patterns and prefixes of digests.
ghost use Rattle.std.specs.Prelude.{◌≡◌, ◌↔◌, IsTrue};
ghost use Rattle.std.specs.List.{list_all};
ghost use Rattle.path_patterns.specs.Bytes as bytes;
ghost use Rattle.path_patterns.specs.Grammar.{IsTargetPath, IsName, IsPattern, IsHashPrefix};
ghost use Rattle.path_patterns.specs.steps.Segments as tests;

use crate::digests::are_hex_digits;

// The bytes of the longest target path, of the longest pattern, of the longest prefix of a digest, and of the longest name.
const LONGEST_PATH: usize = 200;

const LONGEST_PATTERN: usize = 200;

const LONGEST_PREFIX: usize = 64;

const LONGEST_NAME: usize = 32;

/// Whether the text is a target path, as `TargetPath::read` reads it. It takes no memory.
pub fn is_target_path(text: &str) -> bool
    ensures { IsTrue result ↔ (IsTargetPath text.now) }
{
    text.len() <= LONGEST_PATH && are_segments(text)
}

// Whether the text is segments with a slash between each two.
fn are_segments(text: &str) -> bool
    ensures { result ≡ tests.are_segments text.now }
{
    text.split('/').all(|segment| is_segment(segment))
}

fn is_segment(text: &str) -> bool
    ensures { result ≡ tests.is_segment text.now }
{
    !text.is_empty() && text != "." && text != ".." && are_segment_bytes(text.as_bytes())
}

fn are_segment_bytes(text: &[u8]) -> bool
    ensures { result ≡ list_all bytes.is_segment_byte text.now }
{
    text.iter().all(|b| is_segment_byte(*b))
}

fn is_segment_byte(b: u8) -> bool
    ensures { result ≡ bytes.is_segment_byte b }
{
    b.is_ascii_uppercase() || is_name_start(b) || b == b'.' || b == b'_' || b == b'-'
}

/// Whether the text is the name of a role or of a step, as `RoleName::read` reads it. It takes no memory.
pub fn is_role_name(text: &str) -> bool
    ensures { IsTrue result ↔ (IsName text.now) }
{
    match text.as_bytes().split_first() {
        None => false,
        Some((first, rest)) => {
            is_name_start(*first) && rest.len() < LONGEST_NAME && are_name_bytes(rest)
        }
    }
}

fn is_name_start(b: u8) -> bool
    ensures { result ≡ bytes.is_name_start b }
{
    b.is_ascii_lowercase() || b.is_ascii_digit()
}

fn are_name_bytes(text: &[u8]) -> bool
    ensures { result ≡ list_all bytes.is_name_byte text.now }
{
    text.iter().all(|b| is_name_byte(*b))
}

fn is_name_byte(b: u8) -> bool
    ensures { result ≡ bytes.is_name_byte b }
{
    is_name_start(b) || b == b'_' || b == b'-'
}

/// Whether the text is a pattern, as `Pattern::read` reads it. It takes no memory.
pub fn is_pattern(text: &str) -> bool
    ensures { IsTrue result ↔ (IsPattern text.now) }
{
    !text.is_empty() && text.len() <= LONGEST_PATTERN && are_pattern_bytes(text.as_bytes())
}

fn are_pattern_bytes(text: &[u8]) -> bool
    ensures { result ≡ list_all bytes.is_pattern_byte text.now }
{
    text.iter().all(|b| is_pattern_byte(*b))
}

fn is_pattern_byte(b: u8) -> bool
    ensures { result ≡ bytes.is_pattern_byte b }
{
    is_segment_byte(b) || b == b'/' || b == b'*' || b == b'?'
}

/// Whether the text is a prefix of digests, by which a delegation may say what it covers: 1 to 64 hex digits of lower case
/// (TUF 1.0, section 4.5, path_hash_prefixes). It takes no memory.
pub fn is_hash_prefix(text: &str) -> bool
    ensures { IsTrue result ↔ (IsHashPrefix text.now) }
{
    !text.is_empty() && text.len() <= LONGEST_PREFIX && are_hex_digits(text.as_bytes())
}

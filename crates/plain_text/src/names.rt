// Names that can stand as a word of a shell's line.
ghost use Rattle.std.specs.Prelude.{◌≡◌, ◌↔◌, IsTrue};
ghost use Rattle.std.specs.List.{list_all};
ghost use Rattle.plain_text.specs.Names as names;
ghost use Rattle.plain_text.specs.Names.{IsPlainName};

// The bytes of the longest name.
const LONGEST_NAME: usize = 64;

/// Whether the text is 1 to 64 bytes of `A-Z a-z 0-9 . _ -`, the first of them no `-`: so it can stand as a word of a
/// shell's line as it is. It takes no memory.
pub fn is_plain_name(text: &str) -> bool
    ensures { IsTrue result ↔ (IsPlainName text.now) }
{
    match text.as_bytes().first() {
        None => false,
        Some(first) => *first != b'-'
            && text.len() <= LONGEST_NAME
            && are_name_bytes(text.as_bytes()),
    }
}

fn are_name_bytes(text: &[u8]) -> bool
    ensures { result ≡ list_all names.is_name_byte text.now }
{
    text.iter().all(|b| is_name_byte(*b))
}

fn is_name_byte(b: u8) -> bool
    ensures { result ≡ names.is_name_byte b }
{
    b.is_ascii_uppercase()
        || b.is_ascii_lowercase()
        || b.is_ascii_digit()
        || b == b'.'
        || b == b'_'
        || b == b'-'
}

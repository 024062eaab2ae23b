// A text from outside on a line that an operator reads.
ghost use Rattle.std.specs.Prelude.{◌≡◌, ◌++◌, ℕ, List, IfOk, OnOk, IsTrue, IsUtf8, chars, encode_utf8_all, flat_map, string_bytes};
ghost use Rattle.std.specs.List.{list_all};
ghost use Rattle.plain_text.specs.Spelling as classes;
ghost use Rattle.plain_text.specs.Spelling.{is_kept, is_plain, spelling_of};

use std::alloc::{AllocError, Global};

/// The text with each character that is not plain in its spelled form, the backslash as two, and every other character as
/// it stands. A control is spelled as `\x1b`; what says a direction, what ends a line or a paragraph and what has no width
/// as `\u{202e}`. So the answer draws no line but its own and gives a terminal no orders, and it is that of one text alone
/// (`one_text`).
pub fn plain(alloc: Global, text: &str) -> Result<String, AllocError>
    ensures spelled { IfOk result (λ s. chars (string_bytes s) ≡ flat_map spelling_of (chars text.now)) }
    ensures plain { IfOk result (λ s. IsTrue (list_all is_plain (chars (string_bytes s)))) }
    ensures kept { IfOk result (λ s. IsTrue (list_all is_kept (chars text.now)) → string_bytes s ≡ text.now) }
{
    let mut spelled = String::new(alloc);
    for c in text.chars() {
        push_spelled(&mut spelled, c)?;
    }
    Ok(spelled)
}

fn push_spelled(spelled: &mut String, c: char) -> Result<(), AllocError>
    ensures { OnOk result (string_bytes spelled.new ≡ string_bytes spelled.old ++ encode_utf8_all (spelling_of c)) }
{
    if is_control(c) {
        return write!(spelled, "\\x{:02x}", c as u32);
    }
    if is_hidden(c) {
        return write!(spelled, "\\u{{{:x}}}", c as u32);
    }
    if c == '\\' {
        return spelled.push_str("\\\\");
    }
    spelled.push(c)
}

fn is_control(c: char) -> bool
    ensures { result ≡ classes.is_control c }
{
    matches!(c, '\0'..='\u{1f}' | '\u{7f}'..='\u{9f}')
}

fn is_hidden(c: char) -> bool
    ensures { result ≡ classes.is_hidden c }
{
    is_bidirectional(c) || matches!(c, '\u{2028}' | '\u{2029}') || has_no_width(c)
}

fn is_bidirectional(c: char) -> bool
    ensures { result ≡ classes.is_bidirectional c }
{
    matches!(c, '\u{61c}' | '\u{200e}'..='\u{200f}' | '\u{202a}'..='\u{202e}' | '\u{2066}'..='\u{2069}')
}

fn has_no_width(c: char) -> bool
    ensures { result ≡ classes.has_no_width c }
{
    matches!(
        c,
        '\u{ad}' | '\u{200b}'..='\u{200d}' | '\u{2060}' | '\u{feff}'
    )
}

/// A law, which does nothing: what is spelled alike is one text.
pub fn one_text()
    ensures characters { (cs ds : List ℕ) → flat_map spelling_of cs ≡ flat_map spelling_of ds → cs ≡ ds }
    ensures texts { (s t : List ℕ) → IsUtf8 s → IsUtf8 t → flat_map spelling_of (chars s) ≡ flat_map spelling_of (chars t) → s ≡ t }
{}

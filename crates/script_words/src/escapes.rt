//! Bytes as text of one line, and texts with the bytes of files in them.
use crate::fault::LineFault;
use crate::files::{File, find};
use metadata::digest_of;
use std::alloc::{AllocError, Global};
use std::fmt::Write;

/// Appends bytes as text: printable ASCII as itself, line ends as `\r` and `\n`, `\` as `\\`, all else as `\x` and two hex digits.
pub fn push_escaped(text: &mut String, bytes: &[u8]) -> Result<(), AllocError> {
    for byte in bytes {
        match byte {
            b'\r' => text.push_str("\\r")?,
            b'\n' => text.push_str("\\n")?,
            b'\\' => text.push_str("\\\\")?,
            0x20..=0x7e => text.push(char::from(*byte))?,
            _ => write!(text, "\\x{byte:02x}")?,
        }
    }
    Ok(())
}

// The value of a hex digit of lower case.
fn half_of(byte: u8) -> Option<u8> {
    match byte {
        b'0'..=b'9' => Some(byte.wrapping_sub(b'0')),
        b'a'..=b'f' => Some(byte.wrapping_sub(b'a').wrapping_add(10)),
        _ => None,
    }
}

fn byte_of(high: u8, low: u8) -> Result<u8, LineFault> {
    match (half_of(high), half_of(low)) {
        (Some(high), Some(low)) => Ok(high.wrapping_mul(16).wrapping_add(low)),
        _ => Err(LineFault::NotUnderstood),
    }
}

/// The bytes of hex digits of lower case.
pub fn bytes_of_hex(alloc: Global, text: &str) -> Result<Vec<u8>, LineFault> {
    let mut bytes = Vec::new(alloc);
    let mut high = None;
    for digit in text.bytes() {
        match high {
            None => high = Some(digit),
            Some(first) => {
                bytes.push(byte_of(first, digit)?)?;
                high = None;
            }
        }
    }
    match high {
        None => Ok(bytes),
        Some(_) => Err(LineFault::NotUnderstood),
    }
}

/// The bytes of a text with the escapes of `push_escaped`.
pub fn unescaped(alloc: Global, text: &str) -> Result<Vec<u8>, LineFault> {
    let mut bytes = Vec::new(alloc);
    let mut rest = text.as_bytes();
    for _ in 0..text.len() {
        let (byte, others) = match rest {
            [] => break,
            [b'\\', b'r', others @ ..] => (b'\r', others),
            [b'\\', b'n', others @ ..] => (b'\n', others),
            [b'\\', b'\\', others @ ..] => (b'\\', others),
            [b'\\', b'x', high, low, others @ ..] => (byte_of(*high, *low)?, others),
            [b'\\', ..] => return Err(LineFault::NotUnderstood),
            [byte, others @ ..] => (*byte, others),
        };
        bytes.push(byte)?;
        rest = others;
    }
    Ok(bytes)
}

/// The bytes of a text with escapes, in which `{NAME}` stands for the bytes of a file, `{#NAME}` for their number and `{@NAME}` for the
/// hex digits of their digest.
pub fn expanded(alloc: Global, files: &[File], text: &str) -> Result<Vec<u8>, LineFault> {
    let mut bytes = Vec::new(alloc);
    for (index, part) in text.split('{').enumerate() {
        if index == 0 {
            bytes.extend_from_slice(&unescaped(alloc, part)?)?;
            continue;
        }
        let Some((name, rest)) = part.split_once('}') else {
            return Err(LineFault::NotUnderstood);
        };
        push_named(alloc, &mut bytes, files, name)?;
        bytes.extend_from_slice(&unescaped(alloc, rest)?)?;
    }
    Ok(bytes)
}

fn push_named(
    alloc: Global,
    bytes: &mut Vec<u8>,
    files: &[File],
    name: &str,
) -> Result<(), LineFault> {
    if let Some(name) = name.strip_prefix("#") {
        let length = find(files, name)?.bytes.len();
        let text = format!(in alloc; "{length}")?;
        return push(bytes, text.as_bytes());
    }
    if let Some(name) = name.strip_prefix("@") {
        let digits = digest_of(&find(files, name)?.bytes).digits();
        return push(bytes, &digits);
    }
    push(bytes, &find(files, name)?.bytes)
}

fn push(bytes: &mut Vec<u8>, more: &[u8]) -> Result<(), LineFault> {
    bytes.extend_from_slice(more)?;
    Ok(())
}

/// A text of SQL, in which `{NAME}` stands for the bytes of a file as a literal.
pub fn with_literals(alloc: Global, files: &[File], text: &str) -> Result<String, LineFault> {
    let mut made = String::new(alloc);
    for (index, part) in text.split('{').enumerate() {
        if index == 0 {
            made.push_str(part)?;
            continue;
        }
        let Some((name, rest)) = part.split_once('}') else {
            return Err(LineFault::NotUnderstood);
        };
        let digits = hex::encode(alloc, &find(files, name)?.bytes)?;
        let digits = digits.as_str();
        write!(made, "x'{digits}'{rest}")?;
    }
    Ok(made)
}

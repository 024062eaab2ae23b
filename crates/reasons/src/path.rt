//! The way to a part of a document, in words.
use canonical_json::Value;
use metadata::{Part, items_of, members_of};
use std::alloc::{AllocError, Global};

// The longest name that is shown.
const LONGEST: usize = 256;

/// What is told of a document, if anything is.
pub(crate) type Found = Result<Option<String>, AllocError>;

/// The way, as `signed.roles.root.threshold` or `signatures[0].sig`, and the document itself as `the envelope`.
pub(crate) fn told(alloc: Global, value: &Value, parts: &[Part]) -> Result<String, AllocError> {
    if parts.is_empty() {
        return String::from_str(alloc, "the envelope");
    }
    let mut text = String::new(alloc);
    let mut at = Some(value);
    for part in parts {
        push(alloc, &mut text, at, *part)?;
        at = step(at, *part);
    }
    Ok(text)
}

// The part of the value.
fn step(value: Option<&Value>, part: Part) -> Option<&Value> {
    match part {
        Part::Member(name) => find(value?, name),
        Part::Entry(place) => Some(&members_of(value?)?.get(place)?.1),
        Part::Item(place) => items_of(value?)?.get(place),
    }
}

fn push(
    alloc: Global,
    text: &mut String,
    value: Option<&Value>,
    part: Part,
) -> Result<(), AllocError> {
    match part {
        Part::Member(name) => push_name(text, name),
        Part::Entry(place) => push_name(text, name_at(value, place).unwrap_or("?")),
        Part::Item(place) => text.push_str(format!(in alloc; "[{place}]")?.as_str()),
    }
}

fn push_name(text: &mut String, name: &str) -> Result<(), AllocError> {
    if !text.is_empty() {
        text.push_str(".")?;
    }
    text.push_str(shown(name))
}

fn name_at(value: Option<&Value>, place: usize) -> Option<&str> {
    Some(members_of(value?)?.get(place)?.0.as_str())
}

/// The member of this name.
pub(crate) fn find<'a>(value: &'a Value, name: &str) -> Option<&'a Value> {
    for member in members_of(value)? {
        if member.0.as_str() == name {
            return Some(&member.1);
        }
    }
    None
}

// A name as it is shown. One that is too long, or that has what a terminal does not show, is not shown.
fn shown(name: &str) -> &str {
    if name.len() > LONGEST {
        return "?";
    }
    for b in name.as_bytes() {
        if !b.is_ascii_graphic() {
            return "?";
        }
    }
    name
}

//! Places in documents, and what they stand for.
use crate::spelling::member_words;
use canonical_json::Value;
use std::alloc::{AllocError, Global};
use value_changes::Step;

/// What stands at a place of a value, if anything does.
pub(crate) fn at<'v>(value: &'v Value, place: &[Step<'_>]) -> Option<&'v Value> {
    let mut found = value;
    for step in place {
        found = step_into(found, step)?;
    }
    Some(found)
}

fn step_into<'v>(value: &'v Value, step: &Step<'_>) -> Option<&'v Value> {
    match (value, step) {
        (Value::Object(_), Step::Member(name)) => member_of(value, name),
        (Value::List(items), Step::Item(index)) => items.get(*index),
        _ => None,
    }
}

/// The member of this name of an object whose names rise.
pub(crate) fn member_of<'v>(value: &'v Value, name: &str) -> Option<&'v Value> {
    let Value::Object(members) = value else {
        return None;
    };
    match members.binary_search_by(|member| member.0.as_str().cmp(name)) {
        Ok(index) => members.get(index).map(|member| &member.1),
        Err(_) => None,
    }
}

/// The text that a member is.
pub(crate) fn text_of<'v>(value: Option<&'v Value>, name: &str) -> Option<&'v str> {
    match member_of(value?, name)? {
        Value::Text(text) => Some(text.as_str()),
        _ => None,
    }
}

/// The number that a member is.
pub(crate) fn number_of(value: &Value, name: &str) -> Option<i64> {
    match member_of(value, name)? {
        Value::Int(number) => Some(*number),
        _ => None,
    }
}

/// The items of a member that is a list, and none of another.
pub(crate) fn items_of<'v>(value: Option<&'v Value>, name: &str) -> &'v [Value] {
    match value.and_then(|value| member_of(value, name)) {
        Some(Value::List(items)) => items,
        _ => &[],
    }
}

/// The place after these words, as a person reads it: `HEAD NAME.NAME[INDEX]`.
pub(crate) fn label(
    alloc: Global,
    head: &str,
    place: &[Step<'_>],
    whole: bool,
) -> Result<String, AllocError> {
    let mut text = String::from_str(alloc, head)?;
    let mut between = if head.is_empty() { "" } else { " " };
    for step in place {
        add_step(&mut text, between, step, alloc, whole)?;
        between = ".";
    }
    Ok(text)
}

fn add_step(
    text: &mut String,
    between: &str,
    step: &Step<'_>,
    alloc: Global,
    whole: bool,
) -> Result<(), AllocError> {
    match step {
        Step::Member(name) => {
            text.push_str(between)?;
            text.push_str(member_words(alloc, name, whole)?.as_str())
        }
        Step::Item(index) => {
            let index = *index;
            let words = format!(in alloc; "[{index}]")?;
            text.push_str(words.as_str())
        }
    }
}

/// What a place of a document stands for.
#[derive(Clone, Copy)]
pub(crate) enum Group<'a> {
    /// A target that is listed.
    Listing(&'a str),
    /// A document that a snapshot or a timestamp names.
    Named(&'a str),
    /// The rule of a role in a root.
    Rule(&'a str),
    /// A key, by the digits of its id.
    Key(&'a str),
    /// All delegations, which stand in an order.
    Delegations,
    /// What is none of these.
    Other,
}

/// What a place stands for: that place, and none in it or around it.
pub(crate) fn group_at<'a>(place: &[Step<'a>]) -> Group<'a> {
    match place {
        [Step::Member(first), Step::Member(second)] => group_of_two(first, second),
        [
            Step::Member(first),
            Step::Member(second),
            Step::Member(third),
        ] => {
            if *first == "delegations" && *second == "keys" {
                Group::Key(third)
            } else {
                Group::Other
            }
        }
        _ => Group::Other,
    }
}

fn group_of_two<'a>(first: &'a str, second: &'a str) -> Group<'a> {
    match first {
        "targets" => Group::Listing(second),
        "meta" => Group::Named(second),
        "roles" => Group::Rule(second),
        "keys" => Group::Key(second),
        "delegations" if second == "roles" => Group::Delegations,
        _ => Group::Other,
    }
}

//! Rules of roles, and delegations.
use crate::keys::key_words;
use crate::lines::{Lines, changes_in};
use crate::places::{items_of, number_of, text_of};
use canonical_json::Value;
use plain_text::plain;
use std::alloc::AllocError;
use value_changes::{Change, Step};

/// The lines of a rule that is another: how many of how many keys, the keys that come and go, and whatever else differs.
pub(crate) fn put_rule(
    lines: &mut Lines<'_>,
    role: &str,
    before: &Value,
    after: &Value,
) -> Result<(), AllocError> {
    let found = changes_in(lines.alloc, before, after)?;
    if found.iter().any(|change| is_of_rule(change)) {
        let one = rule_words(lines, before)?;
        let other = rule_words(lines, after)?;
        lines.put(format!(in lines.alloc; "~ {role}: {one}, now {other}"))?;
        put_keys(lines, role, before, after)?;
    }
    for change in &found {
        if !is_of_rule(change) {
            lines.put_change(role, change)?;
        }
    }
    Ok(())
}

// Whether a change within a rule is one of its threshold or of its keys.
fn is_of_rule(change: &Change<'_>) -> bool {
    match change.place.first() {
        Some(Step::Member(name)) => *name == "threshold" || *name == "keyids",
        _ => false,
    }
}

fn rule_words(lines: &Lines<'_>, rule: &Value) -> Result<String, AllocError> {
    let threshold = number_of(rule, "threshold").unwrap_or(0);
    let count = items_of(Some(rule), "keyids").len();
    format!(in lines.alloc; "{threshold} of {count} keys")
}

// The keys that a rule has no more, and those that it has now; where these are the same, whether they stand in another order.
fn put_keys(
    lines: &mut Lines<'_>,
    role: &str,
    before: &Value,
    after: &Value,
) -> Result<(), AllocError> {
    let one = items_of(Some(before), "keyids");
    let other = items_of(Some(after), "keyids");
    let gone = put_missing(lines, '-', role, one, other)?;
    let come = put_missing(lines, '+', role, other, one)?;
    if gone == 0 && come == 0 && are_moved(one, other) {
        lines.put(format!(in lines.alloc; "~ {role}: its keys stand in another order"))?;
    }
    Ok(())
}

// The keys of the one list that the other has not: how many.
fn put_missing(
    lines: &mut Lines<'_>,
    mark: char,
    role: &str,
    of: &[Value],
    not_in: &[Value],
) -> Result<usize, AllocError> {
    let mut count = 0usize;
    for item in of {
        if let Value::Text(digits) = item {
            if !has_text(not_in, digits.as_str()) {
                put_key_of(lines, mark, role, digits.as_str())?;
                count = count.saturating_add(1);
            }
        }
    }
    Ok(count)
}

fn put_key_of(
    lines: &mut Lines<'_>,
    mark: char,
    role: &str,
    digits: &str,
) -> Result<(), AllocError> {
    let words = key_words(lines.alloc, lines.names, digits, lines.whole)?;
    lines.put(format!(in lines.alloc; "{mark} {role} key {words}"))
}

fn has_text(items: &[Value], text: &str) -> bool {
    items.iter().any(|item| is_text(item, text))
}

fn is_text(item: &Value, text: &str) -> bool {
    match item {
        Value::Text(other) => other.as_str() == text,
        _ => false,
    }
}

// Whether lists of the same keys stand in two orders, or one of them has a key twice.
fn are_moved(one: &[Value], other: &[Value]) -> bool {
    if one.len() != other.len() {
        return true;
    }
    for (item, beside) in one.iter().zip(other.iter()) {
        if let Value::Text(text) = item {
            if !is_text(beside, text.as_str()) {
                return true;
            }
        }
    }
    false
}

/// The lines of a rule that is new or gone.
pub(crate) fn put_rule_side(
    lines: &mut Lines<'_>,
    mark: char,
    role: &str,
    rule: &Value,
) -> Result<(), AllocError> {
    let words = rule_words(lines, rule)?;
    lines.put(format!(in lines.alloc; "{mark} {role}: {words}"))?;
    put_missing(lines, mark, role, items_of(Some(rule), "keyids"), &[])?;
    lines.put_others(mark, role, rule, &["keyids", "threshold"])
}

/// The lines of delegations that are others: each by the name of its role, and their order.
pub(crate) fn put_delegations(
    lines: &mut Lines<'_>,
    before: &[Value],
    after: &[Value],
) -> Result<(), AllocError> {
    if !have_own_names(before) || !have_own_names(after) {
        return Ok(());
    }
    for item in after {
        match named(before, name_of(item)) {
            Some(held) => put_delegation(lines, held, item)?,
            None => put_delegation_side(lines, '+', item)?,
        }
    }
    put_gone(lines, before, after)?;
    if is_another_order(before, after) {
        let order = order_of(lines, after)?;
        lines.put(format!(in lines.alloc; "~ delegations are asked in another order:{order}"))?;
    }
    Ok(())
}

fn put_gone(lines: &mut Lines<'_>, before: &[Value], after: &[Value]) -> Result<(), AllocError> {
    for item in before {
        if named(after, name_of(item)).is_none() {
            put_delegation_side(lines, '-', item)?;
        }
    }
    Ok(())
}

fn put_delegation(lines: &mut Lines<'_>, before: &Value, after: &Value) -> Result<(), AllocError> {
    let head = head_of(lines, after)?;
    put_rule(lines, head.as_str(), before, after)
}

/// The lines of a delegation that is new or gone.
pub(crate) fn put_delegation_side(
    lines: &mut Lines<'_>,
    mark: char,
    item: &Value,
) -> Result<(), AllocError> {
    let head = head_of(lines, item)?;
    let words = rule_words(lines, item)?;
    let head = head.as_str();
    lines.put(format!(in lines.alloc; "{mark} {head}: {words}"))?;
    put_missing(lines, mark, head, items_of(Some(item), "keyids"), &[])?;
    lines.put_others(mark, head, item, &["keyids", "name", "threshold"])
}

fn head_of(lines: &Lines<'_>, item: &Value) -> Result<String, AllocError> {
    let name = plain(lines.alloc, name_of(item))?;
    format!(in lines.alloc; "delegation to {name}")
}

// The name of a delegation's role, empty where it has none.
fn name_of(item: &Value) -> &str {
    text_of(Some(item), "name").unwrap_or("")
}

// The delegation to a role, if there is one.
fn named<'v>(items: &'v [Value], name: &str) -> Option<&'v Value> {
    for item in items {
        if name_of(item) == name {
            return Some(item);
        }
    }
    None
}

// Whether each delegation has a name, and none has that of another.
fn have_own_names(items: &[Value]) -> bool {
    for (index, item) in items.iter().enumerate() {
        let name = name_of(item);
        if name.is_empty() || named(&items[..index], name).is_some() {
            return false;
        }
    }
    true
}

// Whether two that both lists have stand in another order in them.
fn is_another_order(before: &[Value], after: &[Value]) -> bool {
    let mut least = 0usize;
    for item in after {
        if let Some(place) = place_of(before, name_of(item)) {
            if place < least {
                return true;
            }
            least = place;
        }
    }
    false
}

fn place_of(items: &[Value], name: &str) -> Option<usize> {
    items.iter().position(|item| name_of(item) == name)
}

fn order_of(lines: &Lines<'_>, items: &[Value]) -> Result<String, AllocError> {
    let mut order = String::new(lines.alloc);
    for item in items {
        order.push(' ')?;
        order.push_str(plain(lines.alloc, name_of(item))?.as_str())?;
    }
    Ok(order)
}

//! Bars and colour, as a terminal gets them.
use crate::chain::draw_steps;
use crate::colours::{GREEN, PLAIN, RED, in_order};
use crate::columns::say_path;
use crate::days::say_days;
use crate::limits::draw_limits;
use crate::rows::{KeyRow, Leaves, Overview, Row, say_rest};
use growing_texts::Text;
use std::alloc::{AllocError, Global};

/// So many parts has a bar.
pub(crate) const PARTS: u64 = 8;

/// The rows as a tree with bars: the days left, red where they are due, and the leaves of each key, red where a quarter or fewer are left;
/// then the same rows by expiry, the nearest first, how much of its limits is used, and what becomes of the target that is asked for.
pub fn as_bars(alloc: Global, shown: &Overview) -> Result<Vec<u8>, AllocError> {
    let mut text = Text::new(alloc);
    for row in &shown.rows {
        say_row(&mut text, shown, row);
    }
    text.say("\nby expiry\n");
    for index in &in_order(alloc, &expiries(alloc, shown)?)? {
        if let Some(row) = shown.rows.get(*index) {
            say_expiry(&mut text, shown, row);
        }
    }
    draw_limits(&mut text, shown);
    if let Some(path) = &shown.path {
        text.say(if path.is_granted { GREEN } else { RED });
        say_path(&mut text, path);
        text.say(PLAIN);
        if !path.steps.is_empty() {
            draw_steps(&mut text, &path.steps, path.path.as_str());
        }
    }
    text.done()
}

/// The moments at which the rows expire, 0 of what is not held.
pub(crate) fn expiries(alloc: Global, shown: &Overview) -> Result<Vec<u64>, AllocError> {
    let mut moments = Vec::new(alloc);
    for row in &shown.rows {
        moments.push(row.expires.unwrap_or(0))?;
    }
    Ok(moments)
}

fn say_row(text: &mut Text, shown: &Overview, row: &Row) {
    text.repeat("  ", row.depth);
    let width = 20usize.saturating_sub(row.depth.saturating_mul(2));
    let role = row.role.as_str();
    let version = row.version;
    text.formed(format!(in text.alloc; "{role:<width$} {version:>5} "));
    say_days_left(text, shown, row);
    let (threshold, count) = (row.threshold, row.keys.len());
    text.formed(format!(in text.alloc; "  {threshold} of {count}"));
    let together = row.together();
    for key in &row.keys {
        say_leaves(text, key, together.is_none());
    }
    if let Some(leaves) = together {
        text.say("  together ");
        say_bar(text, parts_of_leaves(leaves), leaves.are_few());
        text.number(" ", leaves.left);
    }
    say_rest(text, row);
    text.say("\n");
}

// The days that are left, and their bar.
fn say_days_left(text: &mut Text, shown: &Overview, row: &Row) {
    let days = shown.days(row);
    say_days(text, 5, " d", days);
    text.say("  ");
    say_bar(text, parts_of_days(days.number()), shown.is_due(row));
}

fn say_expiry(text: &mut Text, shown: &Overview, row: &Row) {
    say_days_left(text, shown, row);
    text.say("  ");
    text.say(row.role.as_str());
    if shown.is_due(row) {
        text.say("  DUE");
    }
    text.say("\n");
}

// Few leaves of a key are red where they are not counted together with those of others.
fn say_leaves(text: &mut Text, key: &KeyRow, is_alone: bool) {
    text.say("  ");
    text.say(key.key.words.as_str());
    if let Some(left) = key.left {
        text.say(" ");
        say_bar(
            text,
            parts_of_leaves(key.leaves(left)),
            is_alone && key.is_low(),
        );
        text.number(" ", u64::from(left));
    }
}

/// A bar of so many parts.
pub(crate) fn say_bar(text: &mut Text, parts: u64, is_red: bool) {
    text.say(if is_red { RED } else { GREEN });
    for part in 0..PARTS {
        text.say(if part < parts { "#" } else { "." });
    }
    text.say(PLAIN);
}

/// How much of a bar so many days are: a part for a day, all of it for a year.
pub(crate) fn parts_of_days(days: u64) -> u64 {
    match days {
        0 => 0,
        1..=2 => 1,
        3..=6 => 2,
        7..=13 => 3,
        14..=29 => 4,
        30..=89 => 5,
        90..=179 => 6,
        180..=364 => 7,
        _ => 8,
    }
}

/// How much of a bar the leaves are that are left.
pub(crate) fn parts_of_leaves(leaves: Leaves) -> u64 {
    if leaves.most == 0 {
        return 0;
    }
    leaves.left.saturating_mul(PARTS) / leaves.most
}

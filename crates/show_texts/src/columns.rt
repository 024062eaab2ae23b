//! Plain columns, as a pipe gets them.
use crate::chain::say_steps;
use crate::days::say_days;
use crate::limits::say_limits;
use crate::rows::{KeyRow, Leaves, Overview, PathRow, Row, say_rest};
use growing_texts::Text;
use std::alloc::{AllocError, Global};

/// The rows as columns: role, version, days left, rule, keys with their leaves, and those of several together where any one of them meets the
/// rule, what is delegated to it and what else is said of it; after them how much of its limits is used, a line each, and what becomes of the
/// target that is asked for.
pub fn as_columns(alloc: Global, shown: &Overview) -> Result<Vec<u8>, AllocError> {
    let mut text = Text::new(alloc);
    for row in &shown.rows {
        say_row(&mut text, shown, row);
    }
    say_limits(&mut text, shown);
    if let Some(path) = &shown.path {
        say_path(&mut text, path);
    }
    text.done()
}

fn say_row(text: &mut Text, shown: &Overview, row: &Row) {
    text.repeat("  ", row.depth);
    let width = 24usize.saturating_sub(row.depth.saturating_mul(2));
    let role = row.role.as_str();
    let version = row.version;
    text.formed(format!(in text.alloc; "{role:<width$} {version:>6} "));
    say_days(text, 6, " days", shown.days(row));
    let (threshold, count) = (row.threshold, row.keys.len());
    text.formed(format!(in text.alloc; "  {threshold} of {count}"));
    let together = row.together();
    for key in &row.keys {
        say_key(text, key, together.is_none());
    }
    if let Some(leaves) = together {
        say_together(text, leaves);
    }
    say_rest(text, row);
    text.say("\n");
}

// The name of a key with its leaves, and a mark where few are left that are not counted together with those of others.
fn say_key(text: &mut Text, key: &KeyRow, is_alone: bool) {
    text.say("  ");
    text.say(key.key.words.as_str());
    if let Some(left) = key.left {
        text.number(" ", u64::from(left));
        if is_alone && key.is_low() {
            text.say(" !");
        }
    }
}

// The leaves of several keys together, and a mark where few are left.
fn say_together(text: &mut Text, leaves: Leaves) {
    text.number("  together ", leaves.left);
    text.number(" of ", leaves.most);
    if leaves.are_few() {
        text.say(" !");
    }
}

/// What becomes of a target.
pub(crate) fn say_path(text: &mut Text, path: &PathRow) {
    text.line("target ", path.path.as_str());
    for visit in &path.visits {
        text.line("  visit ", visit.as_str());
    }
    for found in &path.found {
        text.line("  ", found.as_str());
    }
    say_steps(text, &path.steps);
    text.line("  ", path.end.as_str());
}

//! A page that stands alone: no script, nothing that is fetched.
use crate::bars::{expiries, parts_of_days, parts_of_leaves};
use crate::chain::page_steps;
use crate::colours::in_order;
use crate::days::say_days;
use crate::limits::page_limits;
use crate::rows::{Covers, KeyRow, Leaves, Overview, PathRow, Row};
use growing_texts::Text;
use std::alloc::{AllocError, Global};

pub(crate) const HEAD: &str = concat!(
    "<!DOCTYPE html>\n<html lang=\"en\"><head><meta charset=\"utf-8\"><title>Repository</title>\n<style>\n",
    "body{font-family:sans-serif;margin:2em;color:#222;background:#fff}\n",
    "table{border-collapse:collapse;margin-bottom:2em}\n",
    "td,th{padding:.3em .8em;text-align:left;border-bottom:1px solid #ddd;vertical-align:top}\n",
    ".bar{display:inline-block;width:96px;height:10px;background:#eee;margin-right:.4em}\n",
    ".bar i{display:block;height:10px;background:#2a7d2a}\n",
    ".due i{background:#c0281f}\n.due{outline:1px solid #c0281f}\n",
    ".chain .step{display:inline-block;border:1px solid #2a7d2a;padding:.3em .6em;margin:.2em}\n",
    ".denied{color:#c0281f;font-weight:bold}\n.granted{color:#2a7d2a;font-weight:bold}\n",
    "</style></head><body>\n<h1>Repository</h1>\n",
);

const TREE: &str =
    "<h2>Documents</h2>\n<table id=\"tree\"><tr><th>role</th><th>version</th><th>days left</th><th>rule</th><th>keys and leaves left</th><th>delegated</th></tr>\n";

const EXPIRY: &str = "<h2>By expiry</h2>\n<table id=\"expiry\">\n";

const LIMITS: &str = "<h2>Limits</h2>\n<table id=\"limits\">\n";

/// The page: the tree of the documents with bars of the days and of the leaves that are left, the same by expiry, how much of its limits is used,
/// and what becomes of the target that is asked for.
pub fn as_page(alloc: Global, shown: &Overview) -> Result<Vec<u8>, AllocError> {
    let mut text = Text::new(alloc);
    text.say(HEAD);
    text.say(TREE);
    for row in &shown.rows {
        say_row(&mut text, shown, row);
    }
    text.say("</table>\n");
    text.say(EXPIRY);
    for index in &in_order(alloc, &expiries(alloc, shown)?)? {
        if let Some(row) = shown.rows.get(*index) {
            say_expiry(&mut text, shown, row);
        }
    }
    text.say("</table>\n");
    text.say(LIMITS);
    page_limits(&mut text, shown);
    text.say("</table>\n");
    if let Some(path) = &shown.path {
        say_path(&mut text, path);
    }
    text.say("</body></html>\n");
    text.done()
}

fn say_row(text: &mut Text, shown: &Overview, row: &Row) {
    let indent = (row.depth as u64).saturating_mul(24).saturating_add(8);
    text.number("<tr><td style=\"padding-left:", indent);
    text.escaped("px\">", row.role.as_str());
    text.number("</td><td>", u64::from(row.version));
    text.say("</td><td>");
    say_days_left(text, shown, row);
    text.number("</td><td>", u64::from(row.threshold));
    text.number(" of ", row.keys.len() as u64);
    text.say("</td><td>");
    let together = row.together();
    for key in &row.keys {
        say_key(text, key, together.is_none());
    }
    if let Some(leaves) = together {
        say_together(text, leaves);
    }
    text.say("</td><td>");
    say_covers(text, &row.covers);
    text.say("</td></tr>\n");
}

fn say_covers(text: &mut Text, covers: &Covers) {
    let mut lead = "";
    for word in &covers.words {
        text.escaped(lead, word.as_str());
        lead = " ";
    }
    if covers.is_terminating {
        text.say(" (terminating)");
    }
}

fn say_days_left(text: &mut Text, shown: &Overview, row: &Row) {
    let days = shown.days(row);
    say_bar(text, parts_of_days(days.number()), shown.is_due(row));
    say_days(text, 0, "", days);
}

fn say_bar(text: &mut Text, parts: u64, is_due: bool) {
    text.say(if is_due {
        "<span class=\"bar due\"><i style=\"width:"
    } else {
        "<span class=\"bar\"><i style=\"width:"
    });
    text.number("", parts.saturating_mul(12));
    text.say("px\"></i></span>");
}

// Few leaves of a key are red where they are not counted together with those of others.
fn say_key(text: &mut Text, key: &KeyRow, is_alone: bool) {
    text.say("<div>");
    if let Some(left) = key.left {
        say_bar(
            text,
            parts_of_leaves(key.leaves(left)),
            is_alone && key.is_low(),
        );
        text.number("", u64::from(left));
        text.say(" ");
    }
    text.escaped("", key.key.words.as_str());
    text.say("</div>");
}

fn say_together(text: &mut Text, leaves: Leaves) {
    text.say("<div>");
    say_bar(text, parts_of_leaves(leaves), leaves.are_few());
    text.number("", leaves.left);
    text.say(" together</div>");
}

fn say_expiry(text: &mut Text, shown: &Overview, row: &Row) {
    text.say("<tr><td>");
    say_days_left(text, shown, row);
    text.escaped("</td><td>", row.role.as_str());
    text.say("</td></tr>\n");
}

fn say_path(text: &mut Text, path: &PathRow) {
    text.escaped("<h2 id=\"target\">", path.path.as_str());
    text.say("</h2>\n<ol>\n");
    text.items(&path.visits);
    text.say("</ol>\n<ul>\n");
    text.items(&path.found);
    text.say("</ul>\n");
    if !path.steps.is_empty() {
        page_steps(text, &path.steps, path.path.as_str());
    }
    text.say(if path.is_granted {
        "<p class=\"granted\">"
    } else {
        "<p class=\"denied\">"
    });
    text.escaped("", path.end.as_str());
    text.say("</p>\n");
}

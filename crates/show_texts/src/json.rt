//! The same facts as JSON.
use crate::chain::json_steps;
use crate::days::json_days;
use crate::limits::json_limits;
use crate::names::json_denial;
use crate::rows::{KeyRow, Overview, PathRow, ReferenceRow, Row};
use crate::targets::json_listed;
use growing_texts::Text;
use std::alloc::{AllocError, Global};

/// One object with the members `limits`, `now`, `rows` and, where a target is asked for, `target`, and a line end.
pub fn as_json(alloc: Global, shown: &Overview) -> Result<Vec<u8>, AllocError> {
    let mut text = Text::new(alloc);
    json_limits(&mut text, "{\"limits\":", shown);
    text.number(",\"now\":", shown.now);
    text.say(",\"rows\":[");
    for (index, row) in shown.rows.iter().enumerate() {
        text.comma(index);
        say_row(&mut text, shown, row);
    }
    text.say("]");
    if let Some(path) = &shown.path {
        say_path(&mut text, path);
    }
    text.say("}\n");
    text.done()
}

fn say_row(text: &mut Text, shown: &Overview, row: &Row) {
    text.list("{\"covers\":", &row.covers.words);
    json_days(text, ",\"days\":", shown.days(row));
    text.number(",\"depth\":", row.depth as u64);
    text.flag(",\"due\":", shown.is_due(row));
    text.number_or_null(",\"expires\":", row.expires);
    text.flag(",\"held\":", row.is_held);
    say_keys(text, &row.keys);
    text.number(",\"layouts\":", row.layouts as u64);
    text.flag(",\"low\":", row.is_low());
    text.flag(",\"prefixes\":", row.covers.are_prefixes);
    text.quoted(",\"role\":", row.role.as_str());
    text.number(",\"targets\":", row.targets as u64);
    text.flag(",\"terminating\":", row.covers.is_terminating);
    text.number(",\"threshold\":", u64::from(row.threshold));
    if let Some(leaves) = row.together() {
        text.number(",\"together\":{\"left\":", leaves.left);
        text.number(",\"most\":", leaves.most);
        text.say("}");
    }
    text.number(",\"version\":", u64::from(row.version));
    text.say("}")
}

fn say_keys(text: &mut Text, keys: &[KeyRow]) {
    text.say(",\"keys\":[");
    for (index, key) in keys.iter().enumerate() {
        text.comma(index);
        say_key(text, key);
    }
    text.say("]");
}

fn say_key(text: &mut Text, key: &KeyRow) {
    text.quoted("{\"id\":", key.key.id.as_str());
    if let Some(left) = key.left {
        text.number(",\"left\":", u64::from(left));
        text.number(",\"most\":", u64::from(key.most));
    }
    text.quoted_or_null(",\"name\":", key.key.name.as_deref());
    text.say("}")
}

fn say_path(text: &mut Text, path: &PathRow) {
    json_denial(text, ",\"target\":{\"denied\":", path.denied);
    text.flag(",\"granted\":", path.is_granted);
    say_layout(text, &path.layout);
    json_listed(text, ",\"listed\":", &path.listed);
    text.quoted(",\"path\":", path.path.as_str());
    text.say(",\"steps\":");
    json_steps(text, &path.steps);
    text.list(",\"visits\":", &path.visits);
    text.say("}")
}

fn say_layout(text: &mut Text, layout: &Option<ReferenceRow>) {
    text.say(",\"layout\":");
    match layout {
        Some(layout) => {
            text.list("{\"links\":", &layout.links);
            text.quoted(",\"path\":", layout.path.as_str());
            text.quoted(",\"step\":", layout.step.as_str());
            text.say("}");
        }
        None => text.say("null"),
    }
}

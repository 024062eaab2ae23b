//! The targets of a repository, as lines and as JSON.
use crate::names::{DenialRow, json_denial, say_denial};
use growing_texts::Text;
use std::alloc::{AllocError, Global};

/// What the metadata that a search finds say of a target: how long it is, the digits of its digest, and the role that lists it.
#[derive(Drop)]
pub struct ListedRow {
    pub length: u64,
    pub digest: String,
    pub role: String,
}

/// A target: its path, what is listed of it, where a search finds it, and what denies a request for it, if anything does.
#[derive(Drop)]
pub struct TargetRow {
    pub path: String,
    pub listed: Option<ListedRow>,
    pub denied: Option<DenialRow>,
}

/// A line for each target: its path, length, digest and role, with a space between, a dash for each of the last three where no search finds it;
/// and after these what denies it, if anything does.
pub fn targets_as_lines(alloc: Global, targets: &[TargetRow]) -> Result<Vec<u8>, AllocError> {
    let mut text = Text::new(alloc);
    for target in targets {
        say_target(&mut text, target);
    }
    text.done()
}

fn say_target(text: &mut Text, target: &TargetRow) {
    text.say(target.path.as_str());
    match &target.listed {
        Some(listed) => say_listed(text, listed),
        None => text.say(" - - -"),
    }
    if let Some(denial) = target.denied {
        say_denial(text, " ", denial);
    }
    text.say("\n");
}

fn say_listed(text: &mut Text, listed: &ListedRow) {
    text.number(" ", listed.length);
    text.say(" ");
    text.say(listed.digest.as_str());
    text.say(" ");
    text.say(listed.role.as_str());
}

/// A list with an object for each target, with the members `denied`, `length`, `path`, `role` and `sha256`, and a line end.
pub fn targets_as_json(alloc: Global, targets: &[TargetRow]) -> Result<Vec<u8>, AllocError> {
    let mut text = Text::new(alloc);
    text.say("[");
    for (index, target) in targets.iter().enumerate() {
        text.comma(index);
        json_target(&mut text, target);
    }
    text.say("]\n");
    text.done()
}

fn json_target(text: &mut Text, target: &TargetRow) {
    json_denial(text, "{\"denied\":", target.denied);
    match &target.listed {
        Some(listed) => {
            text.number(",\"length\":", listed.length);
            text.quoted(",\"path\":", target.path.as_str());
            text.quoted(",\"role\":", listed.role.as_str());
            text.quoted(",\"sha256\":", listed.digest.as_str());
        }
        None => {
            text.quoted(",\"length\":null,\"path\":", target.path.as_str());
            text.say(",\"role\":null,\"sha256\":null");
        }
    }
    text.say("}");
}

/// Says what is listed as JSON has it, and before it what leads to it.
pub(crate) fn json_listed(text: &mut Text, lead: &str, listed: &Option<ListedRow>) {
    text.say(lead);
    match listed {
        Some(listed) => {
            text.number("{\"length\":", listed.length);
            text.quoted(",\"role\":", listed.role.as_str());
            text.quoted(",\"sha256\":", listed.digest.as_str());
            text.say("}");
        }
        None => text.say("null"),
    }
}

//! The chain of a layout: its steps, each with its keys and links.
use crate::colours::{GREEN, PLAIN, RED};
use crate::names::{KeyWords, json_keys, say_keys};
use growing_texts::Text;

/// A step of a layout: its name, how many links of which keys it has to have, and how many are there.
#[derive(Drop)]
pub struct StepRow {
    pub name: String,
    pub threshold: u8,
    pub keys: Vec<KeyWords>,
    pub links: usize,
}

impl StepRow {
    /// Whether links are wanting.
    pub fn is_short(&self) -> bool {
        self.links < usize::from(self.threshold)
    }
}

/// The steps as plain lines.
pub(crate) fn say_steps(text: &mut Text, steps: &[StepRow]) {
    for step in steps {
        let (name, links, threshold) = (step.name.as_str(), step.links, step.threshold);
        text.formed(format!(in text.alloc; "  step {name}: {links} of {threshold} links\n"));
    }
}

/// The steps as a chain that ends at the target, as a terminal gets it: red where links are wanting.
pub(crate) fn draw_steps(text: &mut Text, steps: &[StepRow], target: &str) {
    for step in steps {
        draw_step(text, step);
        text.say("    |\n");
    }
    text.say("    +-> ");
    text.say(target);
    text.say("\n");
}

fn draw_step(text: &mut Text, step: &StepRow) {
    text.say(if step.is_short() { RED } else { GREEN });
    let (name, links, threshold) = (step.name.as_str(), step.links, step.threshold);
    text.formed(format!(in text.alloc; "  [{name}]  {links} of {threshold} links "));
    say_keys(text, " ", &step.keys);
    text.say(PLAIN);
    text.say("\n");
}

/// The steps as a chain that ends at the target, as a page has it.
pub(crate) fn page_steps(text: &mut Text, steps: &[StepRow], target: &str) {
    text.say("<p class=\"chain\">");
    for step in steps {
        page_step(text, step);
        text.say(" &rarr; ");
    }
    text.escaped("<b>", target);
    text.say("</b></p>\n");
}

fn page_step(text: &mut Text, step: &StepRow) {
    text.say(if step.is_short() {
        "<span class=\"step due\"><b>"
    } else {
        "<span class=\"step\"><b>"
    });
    text.escaped("", step.name.as_str());
    text.number("</b> ", step.links as u64);
    text.number(" of ", u64::from(step.threshold));
    text.say(" links");
    for key in &step.keys {
        text.escaped(" ", key.words.as_str());
    }
    text.say("</span>");
}

/// The steps as a list of JSON.
pub(crate) fn json_steps(text: &mut Text, steps: &[StepRow]) {
    text.say("[");
    for (index, step) in steps.iter().enumerate() {
        text.comma(index);
        json_step(text, step);
    }
    text.say("]");
}

fn json_step(text: &mut Text, step: &StepRow) {
    json_keys(text, "{\"keys\":", &step.keys);
    text.number(",\"links\":", step.links as u64);
    text.quoted(",\"name\":", step.name.as_str());
    text.number(",\"threshold\":", u64::from(step.threshold));
    text.say("}")
}

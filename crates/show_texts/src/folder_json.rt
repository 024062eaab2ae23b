//! A folder of drafts as JSON.
use crate::chain::json_steps;
use crate::days::json_days;
use crate::folder::{Answer, DraftRow, Drafts, LayoutRow, Next, RuleRow};
use crate::limits::json_used;
use crate::names::{json_denial, json_keys};
use growing_texts::Text;
use std::alloc::{AllocError, Global};

/// One object with the members `answer`, where a database was looked at, `draft_folder`, `layouts`, `links`, `next` and `now`, and a line end.
pub fn drafts_as_json(alloc: Global, shown: &Drafts) -> Result<Vec<u8>, AllocError> {
    let mut text = Text::new(alloc);
    text.say("{");
    if let Some(answer) = shown.answer {
        say_answer(&mut text, answer);
    }
    text.say("\"drafts\":[");
    for (index, draft) in shown.drafts.iter().enumerate() {
        text.comma(index);
        say_draft(&mut text, shown, draft);
    }
    text.say("],\"layouts\":");
    say_layouts(&mut text, &shown.layouts);
    text.list(",\"links\":", &shown.links);
    text.say(",\"next\":");
    say_all_next(&mut text, &shown.next);
    text.number(",\"now\":", shown.now);
    text.say("}\n");
    text.done()
}

fn say_answer(text: &mut Text, answer: Answer) {
    match answer {
        Answer::Ready => {
            text.say("\"answer\":{\"at\":null,\"denied\":null,\"ready\":true},");
        }
        Answer::Denied(denial, index) => {
            text.number("\"answer\":{\"at\":", index as u64);
            json_denial(text, ",\"denied\":", Some(denial));
            text.say(",\"ready\":false},");
        }
    }
}

fn say_draft(text: &mut Text, shown: &Drafts, draft: &DraftRow) {
    json_used(text, "{\"bytes\":", draft.bytes);
    text.list(",\"changes\":", &draft.changes);
    json_days(text, ",\"days\":", shown.days(draft));
    text.number_or_null(",\"expires\":", draft.expires);
    text.number(",\"held\":", u64::from(draft.held));
    text.quoted(",\"role\":", draft.role.as_str());
    text.say(",\"rules\":");
    say_rules(text, &draft.rules);
    text.number(",\"version\":", u64::from(draft.version));
    text.say("}")
}

fn say_layouts(text: &mut Text, layouts: &[LayoutRow]) {
    text.say("[");
    for (index, layout) in layouts.iter().enumerate() {
        text.comma(index);
        say_layout(text, layout);
    }
    text.say("]");
}

fn say_layout(text: &mut Text, layout: &LayoutRow) {
    text.say("{\"rules\":");
    say_rules(text, &layout.rules);
    text.say(",\"steps\":");
    json_steps(text, &layout.steps);
    text.quoted(",\"target\":", layout.target.as_str());
    text.say("}")
}

fn say_rules(text: &mut Text, rules: &[RuleRow]) {
    text.say("[");
    for (index, rule) in rules.iter().enumerate() {
        text.comma(index);
        say_rule(text, rule);
    }
    text.say("]");
}

fn say_rule(text: &mut Text, rule: &RuleRow) {
    text.say("{");
    if let Some(by) = &rule.by {
        text.quoted("\"by\":{\"role\":", by.role.as_str());
        text.number(",\"version\":", u64::from(by.version));
        text.say("},");
    }
    text.flag("\"met\":", rule.is_met());
    json_keys(text, ",\"signed\":", &rule.signed);
    text.number(",\"threshold\":", u64::from(rule.threshold));
    json_keys(text, ",\"unsigned\":", &rule.unsigned);
    text.say("}")
}

// The commands that are next, each as a list of its words.
fn say_all_next(text: &mut Text, all: &[Next]) {
    text.say("[");
    for (index, next) in all.iter().enumerate() {
        text.comma(index);
        text.list("", &next.words);
    }
    text.say("]");
}

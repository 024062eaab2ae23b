//! A folder of drafts as lines.
use crate::chain::{draw_steps, say_steps};
use crate::colours::{GREEN, PLAIN, RED, YELLOW};
use crate::days::say_expiry;
use crate::folder::{Answer, DraftRow, Drafts, LayoutRow, RuleRow, say_next};
use crate::limits::say_limit;
use crate::names::say_keys;
use growing_texts::Text;
use std::alloc::{AllocError, Global};

/// The drafts with what they change, how many have signed, and how long they are where that is near what they may be, the layouts with their steps, the links, what is to be done next, and `ready` where
/// `publish` would be taken. On a terminal what is new is green, what is gone red and what is another yellow, who has signed stands after a mark and who has not after a gap, and a layout is drawn as its chain.
pub fn drafts_as_lines(
    alloc: Global,
    shown: &Drafts,
    on_terminal: bool,
) -> Result<Vec<u8>, AllocError> {
    let mut text = Text::new(alloc);
    for draft in &shown.drafts {
        say_draft(&mut text, shown, draft, on_terminal);
    }
    for layout in &shown.layouts {
        say_layout(&mut text, layout, on_terminal);
    }
    for link in &shown.links {
        text.line("link ", link.as_str());
    }
    say_end(&mut text, shown);
    text.done()
}

// What is to be done next, and whether the folder is ready.
fn say_end(text: &mut Text, shown: &Drafts) {
    if shown.is_idle {
        text.line("", "no draft");
    }
    for next in &shown.next {
        say_next(text, next);
        text.say("\n");
    }
    match shown.answer {
        Some(Answer::Ready) => text.line("", "ready"),
        Some(Answer::Denied(_, _)) | None => {}
    }
}

fn say_draft(text: &mut Text, shown: &Drafts, draft: &DraftRow, on_terminal: bool) {
    let role = draft.role.as_str();
    let (version, held) = (draft.version, draft.held);
    text.formed(format!(in text.alloc; "{role} {version} (held: {held}), "));
    say_expiry(text, shown.days(draft));
    text.say("\n");
    for change in &draft.changes {
        say_change(text, change.as_str(), on_terminal);
    }
    say_rules(text, &draft.rules, on_terminal);
    say_bytes(text, draft, on_terminal);
}

// How long a draft will be, where that is near what it may be. On a terminal it is red.
fn say_bytes(text: &mut Text, draft: &DraftRow, on_terminal: bool) {
    if !draft.bytes.is_near() {
        return;
    }
    if on_terminal {
        text.say(RED);
    }
    text.say("  ");
    say_limit(text, draft.role.as_str(), draft.bytes, " bytes");
    if on_terminal {
        text.say(PLAIN);
    }
}

fn say_change(text: &mut Text, change: &str, on_terminal: bool) {
    if !on_terminal {
        return text.line("  ", change);
    }
    text.say(colour_of(change));
    text.say("  ");
    text.say(change);
    text.say(PLAIN);
    text.say("\n");
}

fn colour_of(change: &str) -> &'static str {
    if change.starts_with('+') {
        GREEN
    } else if change.starts_with('-') {
        RED
    } else {
        YELLOW
    }
}

fn say_layout(text: &mut Text, layout: &LayoutRow, on_terminal: bool) {
    text.line("layout of ", layout.target.as_str());
    if on_terminal {
        draw_steps(text, &layout.steps, layout.target.as_str());
    } else {
        say_steps(text, &layout.steps);
    }
    say_rules(text, &layout.rules, on_terminal);
}

fn say_rules(text: &mut Text, rules: &[RuleRow], on_terminal: bool) {
    if rules.is_empty() {
        text.line("  ", "no rule names its keys: nothing delegates to it");
    }
    for rule in rules {
        say_rule(text, rule, on_terminal);
    }
}

fn say_rule(text: &mut Text, rule: &RuleRow, on_terminal: bool) {
    let (count, threshold) = (rule.signed.len(), rule.threshold);
    text.formed(format!(in text.alloc; "  {count} of {threshold} have signed"));
    if let Some(by) = &rule.by {
        text.say(" by the rule of ");
        text.say(by.role.as_str());
        text.number(" ", u64::from(by.version));
    }
    if on_terminal {
        text.say(if rule.is_met() { GREEN } else { RED });
        say_keys(text, "  [x] ", &rule.signed);
        say_keys(text, "  [ ] ", &rule.unsigned);
        text.say(PLAIN);
    }
    text.say("\n");
}

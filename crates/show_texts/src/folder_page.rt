//! A folder of drafts as a page that stands alone.
use crate::chain::page_steps;
use crate::days::say_days;
use crate::folder::{Answer, DraftRow, Drafts, LayoutRow, Next, RuleRow, say_answer};
use crate::names::KeyWords;
use crate::page::HEAD;
use growing_texts::Text;
use std::alloc::{AllocError, Global};

const DRAFTS: &str =
    "<h2>Drafts</h2>\n<table id=\"drafts\"><tr><th>role</th><th>version</th><th>held</th><th>days left</th><th>changes</th><th>signatures</th></tr>\n";

/// The page: the drafts with what they change, who has signed and who has not, the layouts as chains, the links, what is to be done next,
/// and what `publish` would be answered.
pub fn drafts_as_page(alloc: Global, shown: &Drafts) -> Result<Vec<u8>, AllocError> {
    let mut text = Text::new(alloc);
    text.say(HEAD);
    text.say(DRAFTS);
    for draft in &shown.drafts {
        say_draft(&mut text, shown, draft);
    }
    text.say("</table>\n");
    for layout in &shown.layouts {
        say_layout(&mut text, layout);
    }
    say_links(&mut text, &shown.links);
    say_all_next(&mut text, &shown.next);
    if shown.is_idle {
        text.say("<p>no draft</p>\n");
    }
    if let Some(answer) = shown.answer {
        page_answer(&mut text, answer);
    }
    text.say("</body></html>\n");
    text.done()
}

fn say_draft(text: &mut Text, shown: &Drafts, draft: &DraftRow) {
    text.escaped("<tr><td>", draft.role.as_str());
    text.number("</td><td>", u64::from(draft.version));
    text.number("</td><td>", u64::from(draft.held));
    text.say("</td><td>");
    say_days(text, 0, "", shown.days(draft));
    text.say("</td><td>");
    for change in &draft.changes {
        say_change(text, change.as_str());
    }
    text.say("</td><td>");
    say_rules(text, &draft.rules);
    say_bytes(text, draft);
    text.say("</td></tr>\n");
}

// How long a draft will be, where that is near what it may be.
fn say_bytes(text: &mut Text, draft: &DraftRow) {
    if draft.bytes.is_near() {
        text.number("<div class=\"denied\">", draft.bytes.count);
        text.number(" of ", draft.bytes.most);
        text.say(" bytes</div>");
    }
}

fn say_change(text: &mut Text, change: &str) {
    text.say(if change.starts_with('+') {
        "<div class=\"granted\">"
    } else if change.starts_with('-') {
        "<div class=\"denied\">"
    } else {
        "<div>"
    });
    text.escaped("", change);
    text.say("</div>");
}

fn say_rules(text: &mut Text, rules: &[RuleRow]) {
    for rule in rules {
        say_rule(text, rule);
    }
}

fn say_rule(text: &mut Text, rule: &RuleRow) {
    text.say(if rule.is_met() {
        "<div class=\"granted\">"
    } else {
        "<div class=\"denied\">"
    });
    text.number("", rule.signed.len() as u64);
    text.number(" of ", u64::from(rule.threshold));
    if let Some(by) = &rule.by {
        text.escaped(" by ", by.role.as_str());
        text.number(" ", u64::from(by.version));
    }
    text.say("</div>");
    say_names(text, "&#9745; ", &rule.signed);
    say_names(text, "&#9744; ", &rule.unsigned);
}

fn say_names(text: &mut Text, mark: &str, keys: &[KeyWords]) {
    for key in keys {
        text.say("<div>");
        text.escaped(mark, key.words.as_str());
        text.say("</div>");
    }
}

fn say_layout(text: &mut Text, layout: &LayoutRow) {
    text.escaped("<h2>Layout of ", layout.target.as_str());
    text.say("</h2>\n");
    page_steps(text, &layout.steps, layout.target.as_str());
    say_rules(text, &layout.rules);
}

// The names of links, where there are any.
fn say_links(text: &mut Text, links: &[String]) {
    if links.is_empty() {
        return;
    }
    text.say("<ul id=\"links\">\n");
    text.items(links);
    text.say("</ul>\n");
}

// The commands that are next, where there are any.
fn say_all_next(text: &mut Text, all: &[Next]) {
    if all.is_empty() {
        return;
    }
    text.say("<ul id=\"next\">\n");
    for next in all {
        text.say("<li>next:");
        for word in &next.words {
            text.escaped(" ", word.as_str());
        }
        text.say("</li>\n");
    }
    text.say("</ul>\n");
}

fn page_answer(text: &mut Text, answer: Answer) {
    match answer {
        Answer::Ready => text.say("<p id=\"answer\" class=\"granted\">"),
        Answer::Denied(_, _) => text.say("<p id=\"answer\" class=\"denied\">"),
    }
    say_answer(text, answer);
    text.say("</p>\n");
}

//! How much of its limits a repository and its documents use.
use crate::bars::{PARTS, say_bar};
use crate::rows::{Overview, Row};
use growing_texts::Text;
use std::fmt;

/// How much of a limit is used: so many of so many.
#[derive(Clone, Copy, Default)]
pub struct Used {
    pub count: u64,
    pub most: u64,
}

impl Used {
    /// Whether three quarters or more are used.
    pub fn is_near(&self) -> bool {
        self.most > 0 && self.count.saturating_mul(4) >= self.most.saturating_mul(3)
    }

    /// Whether more are used than there may be.
    pub fn is_over(&self) -> bool {
        self.count > self.most
    }

    // How much of a bar is used.
    fn parts(&self) -> u64 {
        if self.most == 0 {
            return 0;
        }
        self.count.saturating_mul(PARTS) / self.most
    }
}

impl fmt::Display for Used {
    fn fmt<W: fmt::Write>(&self, f: &mut fmt::Formatter<W>) -> fmt::Result {
        let Used { count, most } = self;
        write!(f, "{count} of {most}")
    }
}

/// How much a repository uses of the rows of targets metadata, of the target files, and of the roles that a snapshot may name.
#[derive(Clone, Copy, Default)]
pub struct Limits {
    pub rows: Used,
    pub target_files: Used,
    pub roles: Used,
}

impl Limits {
    /// Each by its name.
    pub fn named(&self) -> [(&'static str, Used); 3] {
        [
            ("rows", self.rows),
            ("target files", self.target_files),
            ("roles", self.roles),
        ]
    }
}

/// Each limit as a plain line, marked where three quarters or more are used; and the bytes of each document of which that is so.
pub(crate) fn say_limits(text: &mut Text, shown: &Overview) {
    for (name, used) in shown.limits.named() {
        say_limit(text, name, used, "");
    }
    for row in &shown.rows {
        if row.bytes.is_near() {
            say_limit(text, row.role.as_str(), row.bytes, " bytes");
        }
    }
}

/// A limit as it stands on a line, and its end.
pub(crate) fn say_limit(text: &mut Text, name: &str, used: Used, unit: &str) {
    text.say(name);
    text.number(" ", used.count);
    text.number(" of ", used.most);
    text.say(unit);
    text.say(if used.is_near() { " !\n" } else { "\n" });
}

/// The same with a bar before each, of what is used: red where it is three quarters or more.
pub(crate) fn draw_limits(text: &mut Text, shown: &Overview) {
    text.say("\nlimits\n");
    for (name, used) in shown.limits.named() {
        draw_limit(text, name, used, "");
    }
    for row in &shown.rows {
        if row.bytes.is_near() {
            draw_limit(text, row.role.as_str(), row.bytes, " bytes");
        }
    }
}

fn draw_limit(text: &mut Text, name: &str, used: Used, unit: &str) {
    say_bar(text, used.parts(), used.is_near());
    text.say("  ");
    say_limit(text, name, used, unit);
}

/// The same as rows of a page's table.
pub(crate) fn page_limits(text: &mut Text, shown: &Overview) {
    for (name, used) in shown.limits.named() {
        page_limit(text, name, used, "");
    }
    for row in &shown.rows {
        if row.bytes.is_near() {
            page_limit(text, row.role.as_str(), row.bytes, " bytes");
        }
    }
}

fn page_limit(text: &mut Text, name: &str, used: Used, unit: &str) {
    text.escaped("<tr><td>", name);
    text.say(if used.is_near() {
        "</td><td class=\"denied\">"
    } else {
        "</td><td>"
    });
    text.number("", used.count);
    text.number(" of ", used.most);
    text.say(unit);
    text.say("</td></tr>\n");
}

/// The same as an object of JSON, and before it what leads to it.
pub(crate) fn json_limits(text: &mut Text, lead: &str, shown: &Overview) {
    text.say(lead);
    text.say("{\"documents\":[");
    let mut before = 0usize;
    for row in &shown.rows {
        if row.bytes.is_near() {
            text.comma(before);
            before = 1;
            json_document(text, row);
        }
    }
    json_used(text, "],\"roles\":", shown.limits.roles);
    json_used(text, ",\"rows\":", shown.limits.rows);
    json_used(text, ",\"target_files\":", shown.limits.target_files);
    text.say("}");
}

fn json_document(text: &mut Text, row: &Row) {
    json_used(text, "{\"bytes\":", row.bytes);
    text.quoted(",\"role\":", row.role.as_str());
    text.say("}");
}

/// How much of a limit is used as JSON has it, and before it what leads to it.
pub(crate) fn json_used(text: &mut Text, lead: &str, used: Used) {
    text.say(lead);
    text.number("{\"most\":", used.most);
    text.flag(",\"near\":", used.is_near());
    text.number(",\"used\":", used.count);
    text.say("}");
}

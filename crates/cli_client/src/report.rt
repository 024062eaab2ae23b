//! What `update` prints with `--json`, and what `get` does as well.
use crate::server::Peer;
use crate::turns::{End, Turn};
use cli_faults::Fault;
use cli_repository::{FirstExpiry, Versions};
use metadata::Moment;
use show_texts::Text;
use std::alloc::{AllocError, Global};
use std::fmt::Display;

/// What an update found: the versions before it and after it, what expires first, and its turns.
#[derive(Drop)]
pub struct Found<'a> {
    pub before: Versions,
    pub after: Versions,
    pub first: Option<FirstExpiry>,
    pub turns: Vec<Turn<'a>>,
}

impl Found<'_> {
    /// Whether a turn that ended well gave a timestamp, and the one that is held is live at the moment.
    pub fn is_fresh(&self, now: Moment) -> bool {
        for turn in &self.turns {
            if turn.end.is_none() && turn.has_timestamp {
                return !self.after.has_expired(now);
            }
        }
        false
    }
}

/// One object of what an update found and how it ended, and a line end.
pub fn update_as_json(
    alloc: Global,
    found: &Found<'_>,
    done: &Result<(), Fault>,
    now: Moment,
) -> Result<Vec<u8>, AllocError> {
    let mut text = Text::new(alloc);
    text.say("{\"after\":");
    say_versions(&mut text, &found.after);
    text.say(",\"answer\":");
    say_answer(&mut text, "updated", done);
    text.say(",\"before\":");
    say_versions(&mut text, &found.before);
    text.say(",\"changed\":");
    text.say(if found.after.are(&found.before) {
        "false"
    } else {
        "true"
    });
    text.say(",\"first\":");
    say_first(&mut text, &found.first);
    say_mirrors(&mut text, &found.turns);
    text.number(",\"now\":", now.seconds());
    say_source(&mut text, &found.turns);
    text.say("}\n");
    text.done()
}

/// Whether a command came to an end that its sources made: it was done, was denied, or had no answer.
pub fn is_answer(done: &Result<(), Fault>) -> bool {
    match done {
        Ok(()) => true,
        Err(Fault::Denied(_, _) | Fault::NotFresh | Fault::Network) => true,
        Err(_) => false,
    }
}

/// What each source did.
pub fn say_mirrors(text: &mut Text, turns: &[Turn<'_>]) {
    text.say(",\"mirrors\":[");
    let mut between = "";
    for turn in turns {
        if let Some(peer) = turn.peer {
            text.say(between);
            say_turn(text, turn);
            text.say(",\"source\":");
            say_shown(text, &peer);
            text.say("}");
            between = ",";
        }
    }
    text.say("]");
}

// How a turn ended: in a denial, in a fault, or well with so many files.
fn say_turn(text: &mut Text, turn: &Turn<'_>) {
    match turn.end {
        Some(End::Denied(denial)) => {
            text.quoted("{\"denied\":{\"name\":", denial.name);
            text.number(",\"number\":", u64::from(denial.number));
            text.say("}");
        }
        Some(End::Fault(fault)) => {
            text.say("{\"fault\":");
            say_shown(text, &fault);
        }
        None => {
            text.number("{\"files\":", turn.files);
        }
    }
}

/// Who gave the last file of the first turn that ended well.
pub fn say_source(text: &mut Text, turns: &[Turn<'_>]) {
    text.say(",\"source\":");
    match source_of(turns) {
        Some(giver) => say_shown(text, &giver),
        None => text.say("null"),
    }
}

fn source_of<'a>(turns: &[Turn<'a>]) -> Option<Peer<'a>> {
    for turn in turns {
        if let (None, Some(giver)) = (turn.end, turn.giver) {
            return Some(giver);
        }
    }
    None
}

/// The word of a command that was done, or why it was not.
pub fn say_answer(text: &mut Text, word: &str, done: &Result<(), Fault>) {
    match done {
        Ok(()) => text.quoted("", word),
        Err(fault) => match format!(in text.alloc; "{fault}") {
            Ok(line) => text.quoted("", line.as_str().strip_suffix('\n').unwrap_or("-")),
            Err(error) => text.formed(Err(error)),
        },
    }
}

fn say_versions(text: &mut Text, versions: &Versions) {
    text.say("{\"root\":");
    say_version(text, versions.root);
    text.say(",\"snapshot\":");
    say_version(text, versions.snapshot);
    text.say(",\"targets\":");
    say_version(text, versions.targets);
    text.say(",\"timestamp\":");
    say_version(text, versions.timestamp);
    text.say("}");
}

fn say_version(text: &mut Text, version: Option<u32>) {
    match version {
        Some(version) => text.number("", u64::from(version)),
        None => text.say("null"),
    }
}

fn say_first(text: &mut Text, first: &Option<FirstExpiry>) {
    match first {
        Some(first) => {
            text.number("{\"expires\":", first.seconds());
            text.quoted(",\"role\":", first.role.as_str());
            text.say("}");
        }
        None => text.say("null"),
    }
}

fn say_shown<T: Display>(text: &mut Text, shown: &T) {
    match format!(in text.alloc; "{shown}") {
        Ok(line) => text.quoted("", line.as_str()),
        Err(error) => text.formed(Err(error)),
    }
}

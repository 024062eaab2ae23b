//! What a folder of drafts has.
use crate::chain::StepRow;
use crate::days::Days;
use crate::limits::Used;
use crate::names::{DenialRow, KeyWords, say_denial};
use growing_texts::Text;

/// The document that has a rule: its role and its version.
#[derive(Drop)]
pub struct RuleOf {
    pub role: String,
    pub version: u32,
}

/// A rule that a document has to meet: the document that has the rule, where there is more than one rule and else none; how many of its
/// keys have to sign: those that have, and those that have not.
#[derive(Drop)]
pub struct RuleRow {
    pub by: Option<RuleOf>,
    pub threshold: u8,
    pub signed: Vec<KeyWords>,
    pub unsigned: Vec<KeyWords>,
}

impl RuleRow {
    /// Whether enough keys have signed.
    pub fn is_met(&self) -> bool {
        self.signed.len() >= usize::from(self.threshold)
    }
}

/// A draft: its role, its version and the held one, 0 where none is held, when it expires in seconds since 1970-01-01T00:00:00Z, what it
/// changes, a line each, the rules over it, and how many bytes it has with the signatures that these still want.
#[derive(Drop)]
pub struct DraftRow {
    pub role: String,
    pub version: u32,
    pub held: u32,
    pub expires: Option<u64>,
    pub changes: Vec<String>,
    pub rules: Vec<RuleRow>,
    pub bytes: Used,
}

/// A layout on its way: its target, its steps, and the rules over it.
#[derive(Drop)]
pub struct LayoutRow {
    pub target: String,
    pub steps: Vec<StepRow>,
    pub rules: Vec<RuleRow>,
}

/// What is to be done next: the words of a command, the program's own name first.
#[derive(Drop)]
pub struct Next {
    pub words: Vec<String>,
}

/// What `publish` would be answered: that the folder is taken, or what denies it, with the place of the document in the batch, counted from 0.
#[derive(Clone, Copy)]
pub enum Answer {
    Ready,
    Denied(DenialRow, usize),
}

/// A folder of drafts: the moment, the drafts in the order in which they are signed, layouts, names of links, whether nothing is drafted and
/// nothing waits for a signature, what is to be done next, and what `publish` would be answered, if a database was looked at.
#[derive(Drop)]
pub struct Drafts {
    pub now: u64,
    pub drafts: Vec<DraftRow>,
    pub layouts: Vec<LayoutRow>,
    pub links: Vec<String>,
    pub is_idle: bool,
    pub next: Vec<Next>,
    pub answer: Option<Answer>,
}

impl Drafts {
    /// The whole days that a draft has left, or for how many it has expired.
    pub fn days(&self, draft: &DraftRow) -> Days {
        Days::between(self.now, draft.expires)
    }
}

/// Says the words of a command with a space between.
pub(crate) fn say_next(text: &mut Text, next: &Next) {
    text.say("next:");
    for word in &next.words {
        text.say(" ");
        text.say(word.as_str());
    }
}

/// Says what `publish` would be answered.
pub(crate) fn say_answer(text: &mut Text, answer: Answer) {
    match answer {
        Answer::Ready => text.say("ready"),
        Answer::Denied(denial, index) => {
            say_denial(text, "", denial);
            text.number(" at ", index as u64);
        }
    }
}

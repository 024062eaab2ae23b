//! What is shown of a repository.
use crate::chain::StepRow;
use crate::days::Days;
use crate::limits::{Limits, Used};
use crate::names::{DenialRow, KeyWords};
use crate::targets::ListedRow;
use growing_texts::Text;

/// A key of a rule: how many of its leaves are left, of how many, where its book was looked at.
#[derive(Drop)]
pub struct KeyRow {
    pub key: KeyWords,
    pub left: Option<u32>,
    pub most: u32,
}

/// What is delegated to a role: patterns of paths, or prefixes of their digests, and whether a search ends there.
#[derive(Drop)]
pub struct Covers {
    pub words: Vec<String>,
    pub are_prefixes: bool,
    pub is_terminating: bool,
}

/// A document: its role, how deep it stands below `targets`, its version, when it expires in seconds since 1970-01-01T00:00:00Z, how many of
/// which keys have to sign, what is delegated to it, whether it is held, how many bytes it has, and how many targets it lists, and with a layout.
#[derive(Drop)]
pub struct Row {
    pub role: String,
    pub depth: usize,
    pub version: u32,
    pub expires: Option<u64>,
    pub threshold: u8,
    pub keys: Vec<KeyRow>,
    pub covers: Covers,
    pub is_held: bool,
    pub bytes: Used,
    pub targets: usize,
    pub layouts: usize,
}

/// What the listing of a target says of its layout: its path, the step of which the target is a product, and the paths of the links.
#[derive(Drop)]
pub struct ReferenceRow {
    pub path: String,
    pub step: String,
    pub links: Vec<String>,
}

/// What becomes of a target: the roles that a search visits, in order, what is found on the way, as lines and as it is listed, with its layout
/// and the steps of that, if it has one, and how it ends.
#[derive(Drop)]
pub struct PathRow {
    pub path: String,
    pub visits: Vec<String>,
    pub found: Vec<String>,
    pub listed: Option<ListedRow>,
    pub layout: Option<ReferenceRow>,
    pub steps: Vec<StepRow>,
    pub end: String,
    pub is_granted: bool,
    pub denied: Option<DenialRow>,
}

/// What is shown: the moment, the rows in the order of the search, how much of its limits is used, and the target that is asked for, if one is.
/// What expires within so many days is due.
#[derive(Drop)]
pub struct Overview {
    pub now: u64,
    pub due: u64,
    pub rows: Vec<Row>,
    pub limits: Limits,
    pub path: Option<PathRow>,
}

impl Overview {
    /// The whole days that a row has left, or for how many it has expired.
    pub fn days(&self, row: &Row) -> Days {
        Days::between(self.now, row.expires)
    }

    /// Whether a row expires within the days, or is not held.
    pub fn is_due(&self, row: &Row) -> bool {
        match row.expires {
            Some(expires) => { expires <= self.now.saturating_add(self.due.saturating_mul(86_400)) }
            None => true,
        }
    }
}

/// The leaves of a key, or of several: how many are left, and of how many.
#[derive(Clone, Copy)]
pub(crate) struct Leaves {
    pub left: u64,
    pub most: u64,
}

impl Leaves {
    /// Whether a quarter of them or fewer are left.
    pub(crate) fn are_few(&self) -> bool {
        self.left.saturating_mul(4) <= self.most
    }
}

impl KeyRow {
    /// Its leaves, of which so many are left.
    pub(crate) fn leaves(&self, left: u32) -> Leaves {
        Leaves {
            left: u64::from(left),
            most: u64::from(self.most),
        }
    }

    /// Whether a quarter of its leaves or fewer are left.
    pub fn is_low(&self) -> bool {
        match self.left {
            Some(left) => self.leaves(left).are_few(),
            None => false,
        }
    }
}

impl Row {
    /// Where any one key meets the rule, the leaves of all whose books were looked at: so many documents can be signed. `None` where that was
    /// less than two.
    pub(crate) fn together(&self) -> Option<Leaves> {
        let mut count = 0u32;
        let mut leaves = Leaves { left: 0, most: 0 };
        for key in &self.keys {
            if let Some(left) = key.left {
                count = count.saturating_add(1);
                leaves.left = leaves.left.saturating_add(u64::from(left));
                leaves.most = leaves.most.saturating_add(u64::from(key.most));
            }
        }
        if self.threshold == 1 && count > 1 {
            Some(leaves)
        } else {
            None
        }
    }

    /// Whether leaves are few: of all its keys, where any one of them meets the rule, else of one of them.
    pub fn is_low(&self) -> bool {
        match self.together() {
            Some(leaves) => leaves.are_few(),
            None => self.keys.iter().any(|key| key.is_low()),
        }
    }
}

/// Says at the end of a line what is delegated to a role, and what else is to be said of its document.
pub(crate) fn say_rest(text: &mut Text, row: &Row) {
    let mut lead = "  ";
    for word in &row.covers.words {
        text.say(lead);
        text.say(word.as_str());
        lead = " ";
    }
    if row.covers.is_terminating {
        text.say(" (terminating)");
    }
    let (targets, layouts) = (row.targets, row.layouts);
    if !row.is_held {
        text.say("  not held");
    } else if layouts > 0 {
        text.formed(format!(in text.alloc; "  {targets} targets, {layouts} with a layout"));
    } else if targets > 0 {
        text.formed(format!(in text.alloc; "  {targets} targets"));
    }
}

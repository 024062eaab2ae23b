//! Why a document of a batch was denied.
use crate::counts::counted;
use crate::held::HeldFiles;
use crate::incoherent::incoherent;
use crate::path::Found;
use crate::place::place_of;
use crate::thresholds::{by_delegation, by_root, worded};
use metadata::Kind;
use std::alloc::{AllocError, Global};

// What a denial is about, by its number.
#[derive(Clone, Copy)]
enum Question {
    Length,
    Shape,
    OldRoot,
    NewRoot,
    Timestamp,
    Snapshot,
    Role,
    Whole,
    Other,
}

fn question_of(number: u8) -> Question {
    match number {
        1 => Question::Length,
        2..=5 => Question::Shape,
        9 => Question::OldRoot,
        10 => Question::NewRoot,
        12 => Question::Timestamp,
        19 => Question::Snapshot,
        30 => Question::Role,
        51 => Question::Whole,
        _ => Question::Other,
    }
}

/// Why the document at the index was denied, or for `Incoherent` the whole batch: the member at fault, as `at signed.expires`; how many
/// keys have signed of as many as the rule asks for, as `1 of 2 keys have signed`; what is not there, as `missing: tools 3, dev 1` or
/// `the timestamp names snapshot 4`. `None` where nothing is certain.
///
/// `documents` are those of the batch, each a role's name, `root`, `timestamp` or `snapshot`, with its bytes; `held` is what the
/// repository held before it. The number of the denial and the index are those that the batch was refused with.
pub fn reason<H: HeldFiles>(
    alloc: Global,
    held: &mut H,
    documents: &[(&str, &[u8])],
    number: u8,
    index: usize,
) -> Result<Option<String>, AllocError> {
    let question = question_of(number);
    if let Question::Whole = question {
        return incoherent(alloc, held, documents);
    }
    if index >= documents.len() {
        return Ok(None);
    }
    let (role, bytes) = documents[index];
    reason_of(alloc, held, &documents[..index], question, role, bytes)
}

// The same of one document, after those that were offered before it.
fn reason_of<H: HeldFiles>(
    alloc: Global,
    held: &mut H,
    before: &[(&str, &[u8])],
    question: Question,
    role: &str,
    bytes: &[u8],
) -> Found {
    let found = match question {
        Question::Length => return place_of(alloc, Kind::of_role(role), bytes),
        Question::Shape => {
            return match place_of(alloc, Kind::of_role(role), bytes)? {
                Some(place) => Ok(Some(format!(in alloc; "at {place}")?)),
                None => Ok(None),
            };
        }
        Question::OldRoot => by_root(alloc, held, before, "root", bytes)?,
        Question::NewRoot => counted(alloc, Kind::Root, bytes, "root", bytes)?,
        Question::Timestamp => by_root(alloc, held, before, "timestamp", bytes)?,
        Question::Snapshot => by_root(alloc, held, before, "snapshot", bytes)?,
        Question::Role if role == "targets" => by_root(alloc, held, before, role, bytes)?,
        Question::Role => by_delegation(alloc, held, before, role, bytes)?,
        Question::Whole | Question::Other => None,
    };
    worded(alloc, found)
}

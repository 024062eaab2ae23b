//! `sign --key` and `sign --any`: signs drafts by keys that are kept in three files each.
use crate::files::{KeyFiles, book_place};
use crate::finding::{names_in_list, names_of_keys};
use crate::ready::ReadyKey;
use crate::turn::{Signed, Turn};
use cli_faults::{Fault, Notes, Slip, moment};
use cli_tasks::{FolderSigning, Keys};
use draft_folder::{Folder, is_held_from};
use metadata::Moment;
use sign_books::has_bytes;
use std::io::{IsTerminal, Write};

/// The root by which what a folder holds is judged.
#[derive(Drop)]
pub enum Anchor {
    /// None was asked for.
    Unasked,
    /// This one is trusted.
    Root(Vec<u8>),
    /// The repository that was asked has no root of the version that the folder holds.
    Unknown,
}

/// Where that root comes from. It is asked for once the words are judged.
pub trait Anchoring {
    fn anchor<E: Write>(
        &mut self,
        rt: &HostRuntime,
        folder: Folder<'_>,
        notes: &mut Notes<'_, E>,
    ) -> Result<Anchor, Fault>;
}

/// Signs the drafts that are named, or all whose rules have the key and that lack its signature, in the order root, targets metadata, snapshot,
/// timestamp, and prints a line for each: by each key, one after the other, or each draft by one key of a list. Before a leaf is spent each is
/// judged, and before the first one the files of all keys are looked for. Where a root is given, what is held is judged by it. No book is made.
pub fn sign_in<A: Anchoring, O: Write, E: Write>(
    rt: &HostRuntime,
    asked: &FolderSigning,
    anchoring: &mut A,
    at: Option<u64>,
    out: &mut O,
    notes: &mut Notes<'_, E>,
) -> Result<(), Fault> {
    let now = moment(rt, at)?;
    if !asked.yes && !rt.stdin().is_terminal() {
        return Err(unasked(rt));
    }
    see_held(rt, asked, anchoring, notes)?;
    let signed = match &asked.keys {
        Keys::Each(words) => signed_by_each(rt, asked, words, now, out, notes)?,
        Keys::Any(list) => signed_by_any(rt, asked, list.as_str(), now, out, notes)?,
    };
    signed.end(asked.folder.as_str(), notes)
}

// What is held is compared with what is signed: it has its signatures from the root that is given, or is warned of, or refused.
fn see_held<A: Anchoring, E: Write>(
    rt: &HostRuntime,
    asked: &FolderSigning,
    anchoring: &mut A,
    notes: &mut Notes<'_, E>,
) -> Result<(), Fault> {
    let folder = Folder::new(rt, asked.folder.as_str());
    folder.see(notes)?;
    let is_held = match anchoring.anchor(rt, folder, notes)? {
        Anchor::Unasked => true,
        Anchor::Root(root) => is_held_from(rt.alloc(), folder, &root, notes)?,
        Anchor::Unknown => {
            let place = folder.place("held/root.json")?;
            notes.warn(&place, &"the repository has no root of its version");
            false
        }
    };
    if asked.strict && !is_held {
        return Err(Fault::Slip(Slip::Held));
    }
    Ok(())
}

// Signs by each of the keys that the words name, one after the other.
fn signed_by_each<O: Write, E: Write>(
    rt: &HostRuntime,
    asked: &FolderSigning,
    words: &[String],
    now: Moment,
    out: &mut O,
    notes: &mut Notes<'_, E>,
) -> Result<Signed, Fault> {
    let names = names_of_keys(rt, words, notes)?;
    see_keys(rt, &names, notes)?;
    let mut signed = Signed::default();
    for name in &names {
        let mut keys = Vec::new(rt.alloc());
        keys.push(ReadyKey::read(rt, name.as_str(), notes)?)?;
        let more = signed_by(rt, asked, &keys, now, out, notes)?;
        signed.add(more);
    }
    Ok(signed)
}

// Signs each document by one of the keys of a list.
fn signed_by_any<O: Write, E: Write>(
    rt: &HostRuntime,
    asked: &FolderSigning,
    list: &str,
    now: Moment,
    out: &mut O,
    notes: &mut Notes<'_, E>,
) -> Result<Signed, Fault> {
    let names = names_in_list(rt, list, notes)?;
    see_keys(rt, &names, notes)?;
    let mut keys = Vec::new(rt.alloc());
    for name in &names {
        keys.push(ReadyKey::read(rt, name.as_str(), notes)?)?;
    }
    signed_by(rt, asked, &keys, now, out, notes)
}

// The three files of each key are there.
fn see_keys<E: Write>(
    rt: &HostRuntime,
    names: &[String],
    notes: &mut Notes<'_, E>,
) -> Result<(), Fault> {
    for name in names {
        see_key(rt, name.as_str(), notes)?;
    }
    Ok(())
}

// The key's three files are there.
fn see_key<E: Write>(rt: &HostRuntime, key: &str, notes: &mut Notes<'_, E>) -> Result<(), Fault> {
    let _files = KeyFiles::read(rt, key, notes)?;
    let book = book_place(rt, key)?;
    if !has_bytes(rt, book.as_str()) {
        notes.warn(&book, &"no such book");
        return Err(Fault::Slip(Slip::Book));
    }
    Ok(())
}

// Signs each document by one of these keys.
fn signed_by<'a, O: Write, E: Write>(
    rt: &'a HostRuntime,
    asked: &'a FolderSigning,
    keys: &'a [ReadyKey],
    now: Moment,
    out: &mut O,
    notes: &mut Notes<'_, E>,
) -> Result<Signed, Fault> {
    let mut turn = Turn::new(rt, asked, keys, now)?;
    turn.sign_all(out, notes)?;
    Ok(turn.signed)
}

// Without a terminal nobody can be asked.
fn unasked(rt: &HostRuntime) -> Fault {
    let text =
        "error: without a terminal '--yes' has to be given\n\nFor more information, try '--help'.\n";
    match String::from_str(rt.alloc(), text) {
        Ok(text) => Fault::Usage(text),
        Err(_) => Fault::Memory,
    }
}

//! How long a draft will be once it is signed, and what is said before that is too long.
use crate::entries::{wanted_by, wanted_len};
use cli_faults::{Fault, Notes, Slip};
use draft_folder::{Folder, Vouching, rules_for};
use drafting::{Look, look_at};
use limits::FILE_LIMIT;
use metadata::{Body, Document, Kind, Signature, read_signed};
use show_texts::Used;
use std::alloc::{AllocError, Global};
use std::io::Write;

/// How much a document of so many bytes uses of what it may have.
pub fn document_bytes(count: usize) -> Used {
    Used {
        count: count as u64,
        most: FILE_LIMIT as u64,
    }
}

/// The bytes that a file has with the signatures that these rules still want of it.
pub fn bytes_wanted(alloc: Global, rules: &[Vouching], bytes: &[u8]) -> Result<Used, Fault> {
    match read_signed(alloc, bytes) {
        Ok(file) => Ok(with_wanted(alloc, rules, bytes, &file.signatures)?),
        Err(fault) => Err(Fault::from(fault)),
    }
}

fn with_wanted(
    alloc: Global,
    rules: &[Vouching],
    bytes: &[u8],
    signatures: &[Signature],
) -> Result<Used, AllocError> {
    let wanted = wanted_len(alloc, rules, signatures)?;
    Ok(document_bytes(bytes.len().saturating_add(wanted)))
}

/// Writes the draft of a role's document. One that would be too long with the signatures that its rules want is refused, and the folder stays as
/// it was; one that would be near that is warned of. Of one that has less than half of what it may no rule is looked at.
pub fn put_draft<E: Write>(
    alloc: Global,
    folder: Folder<'_>,
    role: &str,
    bytes: &[u8],
    notes: &mut Notes<'_, E>,
) -> Result<(), Fault> {
    let used = room_of(alloc, folder, role, bytes, notes)?;
    folder.put_draft(role, bytes, notes)?;
    match used {
        Some(used) if used.is_near() => warn_of(alloc, role, used, notes),
        _ => {}
    }
    Ok(())
}

/// Refuses a draft that would be too long so, before one of several is written.
pub fn see_room<E: Write>(
    alloc: Global,
    folder: Folder<'_>,
    role: &str,
    bytes: &[u8],
    notes: &mut Notes<'_, E>,
) -> Result<(), Fault> {
    let _used = room_of(alloc, folder, role, bytes, notes)?;
    Ok(())
}

// The bytes that a draft will have, if it has half of what it may or more.
fn room_of<E: Write>(
    alloc: Global,
    folder: Folder<'_>,
    role: &str,
    bytes: &[u8],
    notes: &mut Notes<'_, E>,
) -> Result<Option<Used>, Fault> {
    if bytes.len() < FILE_LIMIT / 2 {
        return Ok(None);
    }
    let used = bytes_of_new(alloc, folder, role, bytes, notes)?;
    if used.is_over() {
        warn_of(alloc, role, used, notes);
        return Err(Fault::Slip(Slip::Long));
    }
    Ok(Some(used))
}

// The bytes that a draft which is not in the folder yet will have.
fn bytes_of_new<E: Write>(
    alloc: Global,
    folder: Folder<'_>,
    role: &str,
    bytes: &[u8],
    notes: &mut Notes<'_, E>,
) -> Result<Used, Fault> {
    let rules = rules_before(alloc, folder, role, notes)?;
    let mut wanting = Wanting { rules: &rules };
    match look_at(alloc, Kind::of_role(role), bytes, &mut wanting) {
        Ok(wanted) => Ok(document_bytes(bytes.len().saturating_add(wanted))),
        Err(fault) => Err(Fault::from(fault)),
    }
}

// The rules of a role before a draft of it is written: of a root that of the one that is held, and none where what has them is denied.
fn rules_before<E: Write>(
    alloc: Global,
    folder: Folder<'_>,
    role: &str,
    notes: &mut Notes<'_, E>,
) -> Result<Vec<Vouching>, Fault> {
    if role == "root" && folder.held("root", notes)?.is_none() {
        return Ok(Vec::new(alloc));
    }
    match rules_for(alloc, folder, role, notes) {
        Ok(mut rules) => {
            if role == "root" {
                rules.truncate(1);
            }
            Ok(rules)
        }
        Err(Fault::Denied(_, _)) => Ok(Vec::new(alloc)),
        Err(fault) => Err(fault),
    }
}

// Looks for how many bytes the signatures add that a document wants; of a root also by its own rule.
#[derive(Clone, Copy)]
struct Wanting<'a> {
    rules: &'a [Vouching],
}

impl Look for Wanting<'_> {
    type Seen = usize;

    fn look(&mut self, alloc: Global, document: &Document<'_>) -> Result<usize, AllocError> {
        let wanted = wanted_len(alloc, self.rules, &document.signatures)?;
        let Body::Root(root) = &document.body else {
            return Ok(wanted);
        };
        let own = wanted_by(alloc, &root.root, &root.keys, &document.signatures)?;
        Ok(wanted.max(own))
    }
}

// What can be done about a document that is long: targets metadata can be shared out.
fn advice_of(role: &str) -> &'static str {
    match Kind::of_role(role) {
        Kind::Targets => ": delegate a part of it: --delegate or --bins",
        _ => "",
    }
}

fn warn_of<E: Write>(alloc: Global, role: &str, used: Used, notes: &mut Notes<'_, E>) {
    let advice = advice_of(role);
    if let Ok(told) = format!(in alloc; "{used} bytes with the signatures that it wants{advice}") {
        notes.warn(&role, &told);
    }
}

/// Warns of a draft that has too many bytes before it is signed.
pub fn warn_too_long<E: Write>(alloc: Global, role: &str, notes: &mut Notes<'_, E>) {
    let advice = advice_of(role);
    if let Ok(told) = format!(in alloc; "over {FILE_LIMIT} bytes{advice}") {
        notes.warn(&role, &told);
    }
}

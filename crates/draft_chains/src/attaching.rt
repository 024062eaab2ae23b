//! `draft attach`: a signature that another tool made.
use cli_faults::{Fault, Notes, Slip};
use cli_files::{FILE_LIMIT, read_at_most};
use cli_tasks::AttachDraft;
use draft_commands::{draft_there, key_in_file};
use draft_folder::{Folder, TargetsRead};
use keys_roles::{Key, key_id};
use signer::{AttachFault, attach};
use std::io::Write;

// What a book would see to.
const UNSEEN: &str = concat!(
    "no book keeps what this key has signed: see to it that it signs no second document of this version, ",
    "and that the tool which signs uses no leaf twice",
);

/// Puts a signature that another tool made to the draft of a role, where a rule of the role has the key and the signature is one of the
/// draft's signed part. The draft is replaced whole, or it is as it was.
pub fn attach_signature<E: Write>(
    rt: &HostRuntime,
    folder: Folder<'_>,
    told: &AttachDraft,
    notes: &mut Notes<'_, E>,
) -> Result<(), Fault> {
    let role = told.role.as_str();
    let key = key_in_file(rt, told.key.as_str(), notes)?;
    let draft = draft_there(rt, folder, role, notes)?;
    see_rule(rt, folder, role, &key, notes)?;
    let signature = read_at_most(rt, told.signature.as_str(), FILE_LIMIT, notes)?;
    let attached = attached(rt, told, &draft, &key, &signature, notes)?;
    folder.put_draft(role, &attached, notes)?;
    notes.warn(&role, &UNSEEN);
    Ok(())
}

// A rule of the role has the key.
fn see_rule<E: Write>(
    rt: &HostRuntime,
    folder: Folder<'_>,
    role: &str,
    key: &Key,
    notes: &mut Notes<'_, E>,
) -> Result<(), Fault> {
    let id = key_id(rt.alloc(), key)?;
    let mut targets = TargetsRead::new(rt.alloc(), folder);
    if targets.have_key(role, &id, notes)? {
        return Ok(());
    }
    notes.warn(&role, &"no rule has this key for it");
    Err(Fault::Slip(Slip::Stranger))
}

fn attached<E: Write>(
    rt: &HostRuntime,
    told: &AttachDraft,
    draft: &[u8],
    key: &Key,
    signature: &[u8],
    notes: &mut Notes<'_, E>,
) -> Result<Vec<u8>, Fault> {
    match attach(rt.alloc(), draft, key, signature) {
        Ok(attached) => Ok(attached),
        Err(AttachFault::Invalid) => {
            notes.warn(
                &told.signature,
                &"no signature of the draft by this key: 'draft message' prints what is signed, and the file has the signature's raw bytes",
            );
            Err(Fault::Slip(Slip::Different))
        }
        Err(AttachFault::Denied(denial)) => {
            notes.denied(&told.role, denial.number());
            Err(Fault::Denied(denial, None))
        }
        Err(AttachFault::OutOfMemory) => Err(Fault::Memory),
    }
}

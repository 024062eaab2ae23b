//! `draft message`: what is signed of a draft.
use cli_faults::{Fault, Notes, Slip};
use cli_files::print;
use draft_folder::{Folder, version_in};
use metadata::{RoleName, read_signed};
use std::io::Write;

/// Prints the bytes that are signed of a role's draft, as they stand in its file, and no line end. A draft that is no document of its kind
/// is denied: a signature of it would be spent for nothing.
pub fn print_message<O: Write, E: Write>(
    rt: &HostRuntime,
    folder: Folder<'_>,
    role: &str,
    out: &mut O,
    notes: &mut Notes<'_, E>,
) -> Result<(), Fault> {
    folder.see(notes)?;
    let draft = draft_there(rt, folder, role, notes)?;
    let file = read_signed(rt.alloc(), &draft)?;
    print(out, file.signed, notes)
}

/// The draft of a role's document, which is there and of its kind.
pub fn draft_there<E: Write>(
    rt: &HostRuntime,
    folder: Folder<'_>,
    role: &str,
    notes: &mut Notes<'_, E>,
) -> Result<Vec<u8>, Fault> {
    if RoleName::read(rt.alloc(), role)?.is_none() {
        notes.warn(&role, &"no name of a role");
        return Err(Fault::Slip(Slip::Nothing));
    }
    let Some(draft) = folder.draft(role, notes)? else {
        notes.warn(&role, &"no draft of it");
        return Err(Fault::Slip(Slip::Nothing));
    };
    match version_in(rt.alloc(), role, &draft) {
        Ok(_) => Ok(draft),
        Err(fault) => {
            let name = format!(in rt.alloc(); "{role}.json")?;
            Err(folder.fault_of(name.as_str(), fault, notes))
        }
    }
}

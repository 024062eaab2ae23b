//! What a draft goes on from, and where it is put.
use cli_faults::{Fault, Notes, Slip};
use draft_folder::Folder;
use metadata::read_signed;
use std::alloc::Global;
use std::io::Write;

/// What is held of a role, and the draft that is gone on from.
#[derive(Drop)]
pub struct Before {
    pub held: Option<Vec<u8>>,
    pub begun: Option<Vec<u8>>,
}

impl Before {
    /// What is held and what is begun. A draft that has signatures is changed only where they are to be taken off.
    pub fn of<E: Write>(
        rt: &HostRuntime,
        folder: Folder<'_>,
        role: &str,
        anew: bool,
        notes: &mut Notes<'_, E>,
    ) -> Result<Before, Fault> {
        let before = Before::read(folder, role, notes)?;
        see_unsigned(rt.alloc(), folder, role, before.begun(), anew, notes)?;
        Ok(before)
    }

    /// The same, whether or not the draft has signatures.
    pub fn read<E: Write>(
        folder: Folder<'_>,
        role: &str,
        notes: &mut Notes<'_, E>,
    ) -> Result<Before, Fault> {
        let held = folder.held(role, notes)?;
        let begun = folder.draft(role, notes)?;
        Ok(Before { held, begun })
    }

    /// What is held.
    pub fn held(&self) -> Option<&[u8]> {
        self.held.as_deref()
    }

    /// What is begun.
    pub fn begun(&self) -> Option<&[u8]> {
        self.begun.as_deref()
    }

    /// What is begun, or else what is held.
    pub fn latest(&self) -> Option<&[u8]> {
        self.begun().or(self.held())
    }
}

/// What is begun under this name has no signatures, or they are to be taken off: then it is kept as spent, by which the guard of the book
/// finds them.
pub fn see_unsigned<E: Write>(
    alloc: Global,
    folder: Folder<'_>,
    name: &str,
    begun: Option<&[u8]>,
    anew: bool,
    notes: &mut Notes<'_, E>,
) -> Result<(), Fault> {
    let Some(bytes) = begun else {
        return Ok(());
    };
    let file = read_signed(alloc, bytes)?;
    if file.signatures.is_empty() {
        return Ok(());
    }
    if anew {
        return folder.put_spent(bytes, notes);
    }
    notes.warn(&name, &"its draft has signatures; --anew takes them off");
    Err(Fault::Slip(Slip::Signed))
}

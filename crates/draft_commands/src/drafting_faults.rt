//! What there being no draft comes to.
use cli_faults::{Fault, Notes, Slip};
use drafting::{Denial, DraftFault};
use show_limits::warn_too_long;
use std::alloc::Global;
use std::io::Write;

/// The draft, or what there being none comes to. It is told with the role.
pub fn draft_or_fault<T: Drop, E: Write>(
    alloc: Global,
    done: Result<T, DraftFault>,
    role: &str,
    notes: &mut Notes<'_, E>,
) -> Result<T, Fault> {
    match done {
        Ok(done) => Ok(done),
        Err(fault) => {
            notes.warn(&role, &fault);
            Err(fault_of(alloc, fault))
        }
    }
}

/// The same of a role's document: one that is too long before it is signed is refused as one that would be too long with its signatures.
pub fn document_or_fault<E: Write>(
    alloc: Global,
    done: Result<Vec<u8>, DraftFault>,
    role: &str,
    notes: &mut Notes<'_, E>,
) -> Result<Vec<u8>, Fault> {
    if let Err(DraftFault::Unfit(Denial::TooLong)) = &done {
        warn_too_long(alloc, role, notes);
        return Err(Fault::Slip(Slip::Long));
    }
    draft_or_fault(alloc, done, role, notes)
}

fn fault_of(alloc: Global, fault: DraftFault) -> Fault {
    match fault {
        DraftFault::Held(denial) | DraftFault::Begun(denial) | DraftFault::Unfit(denial) => {
            Fault::Denied(denial, None)
        }
        DraftFault::Unlisted(_) => Fault::Slip(Slip::Path),
        DraftFault::Spent => Fault::Slip(Slip::Nothing),
        DraftFault::TooLate | DraftFault::Missing(_) => usage(
            alloc,
            "error: the draft is not told enough\n",
        ),
        DraftFault::OutOfMemory => Fault::Memory,
    }
}

/// A fault of the command line that `clap` does not see.
pub fn usage(alloc: Global, text: &str) -> Fault {
    match String::from_str(alloc, text) {
        Ok(text) => Fault::Usage(text),
        Err(_) => Fault::Memory,
    }
}

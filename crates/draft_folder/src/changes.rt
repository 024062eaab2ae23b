//! What a draft changes, a line each.
use canonical_json::member;
use change_lines::{Compared, LinesFault, lines_of};
use cli_faults::{Denial, Fault};
use std::alloc::Global;

/// What a draft says that what is held does not, a line or more for each change: `+` what is new, `-` what is gone, `~` what is another. Both
/// are files; where nothing is held all is new. All digits of digests and ids stand where they are wanted, and else the first eight.
pub fn changes_of(
    alloc: Global,
    held: Option<&[u8]>,
    draft: &[u8],
    whole: bool,
) -> Result<Vec<String>, Fault> {
    let compared = Compared {
        held: held.map(signed_in),
        draft: signed_in(draft),
        whole,
    };
    match lines_of(alloc, compared) {
        Ok(lines) => Ok(lines),
        Err(LinesFault::OutOfMemory) => Err(Fault::Memory),
        Err(LinesFault::NotCanonical) => Err(Fault::Denied(Denial::NotCanonical, None)),
    }
}

/// The signed part of a file. Bytes that are no file have an empty one.
pub fn signed_in(file: &[u8]) -> &[u8] {
    member(file, "signed").unwrap_or(b"{}")
}

//! Seed files.
use cli_faults::{Fault, Notes};
use cli_files::unused;
use signer::{Seed, read_seed};
use std::fs::File;
use std::io::{self, Read, Write};
use std::os::unix::fs::PermissionsExt;

// The bytes of a seed file, and one more, by which a longer one can be told.
const MOST: u64 = 98;

// The bits of a file's mode by which its group and all others may read it.
const READ_BY_OTHERS: u32 = 0o044;

// And by which they may write it.
const WRITTEN_BY_OTHERS: u32 = 0o022;

/// The seed that the file holds. A file of another form is a fault of a file. One that others than its owner may
/// read or write is warned of.
pub fn seed_at<E: Write>(
    rt: &HostRuntime,
    path: &str,
    notes: &mut Notes<'_, E>,
) -> Result<Seed, Fault> {
    let (bytes, mode) = match open_seed(rt, path) {
        Ok(read) => read,
        Err(error) => return Err(unused(path, &error, notes)),
    };
    let Some(seed) = read_seed(&bytes) else {
        notes.fault(
            &path,
            &"no seed: 96 hex digits of lower case and a line feed",
        );
        return Err(Fault::File);
    };
    if mode & READ_BY_OTHERS != 0 {
        notes.warn(&path, &"others than its owner may read this seed");
    }
    if mode & WRITTEN_BY_OTHERS != 0 {
        notes.warn(&path, &"others than its owner may write this seed");
    }
    Ok(seed)
}

// What a seed file begins with, and its mode.
fn open_seed(rt: &HostRuntime, path: &str) -> io::Result<(Vec<u8>, u32)> {
    let file = File::open(rt, path)?;
    let mode = file.metadata()?.permissions().mode();
    let mut bytes = Vec::new(rt.alloc());
    file.take(MOST).read_to_end(&mut bytes)?;
    Ok((bytes, mode))
}

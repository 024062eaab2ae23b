//! `key --public`: the key object of a public key that another tool made.
use cli_faults::{Fault, Notes, Slip, moment};
use cli_files::{print, read_at_most};
use draft_folder::KEY_FILE_LIMIT;
use keys_roles::key_object;
use signer::key_of_bytes;
use std::io::Write;

/// Prints the key object of a public key, whose raw bytes the file has, in canonical JSON, and a line end. Bytes under which no signature
/// verifies are refused.
pub fn print_public_key<O: Write, E: Write>(
    rt: &HostRuntime,
    file: &str,
    at: Option<u64>,
    out: &mut O,
    notes: &mut Notes<'_, E>,
) -> Result<(), Fault> {
    let _now = moment(rt, at)?;
    let bytes = read_at_most(rt, file, KEY_FILE_LIMIT, notes)?;
    match key_of_bytes(&bytes) {
        Ok(key) => {
            let mut object = key_object(rt.alloc(), &key)?;
            object.push(b'\n')?;
            print(out, &object, notes)
        }
        Err(fault) => {
            notes.warn(&file, &fault);
            Err(Fault::Slip(Slip::Key))
        }
    }
}

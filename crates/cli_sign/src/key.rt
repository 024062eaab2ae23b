//! `key`: prints the public half of a key.
use crate::documents::tell_of_tree;
use crate::seeds::seed_at;
use cli_faults::{Fault, Notes, moment};
use cli_files::print;
use keys_roles::{Key, key_object};
use lms::{Params, public_of};
use std::io::Write;

/// Prints the key object of the seed's key pair in canonical JSON, and a line end. The key's id is the SHA-256 of the object. No leaf is
/// spent.
pub fn print_key<O: Write, E: Write>(
    rt: &HostRuntime,
    seed: &str,
    params: Params,
    at: Option<u64>,
    out: &mut O,
    notes: &mut Notes<'_, E>,
) -> Result<(), Fault> {
    let _now = moment(rt, at)?;
    let seed = seed_at(rt, seed, notes)?;
    tell_of_tree(rt, params, notes);
    let mut object = key_object(rt.alloc(), &Key::Lms(public_of(&seed, params)))?;
    object.push(b'\n')?;
    print(out, &object, notes)
}

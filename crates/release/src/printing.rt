//! What a subcommand prints of what was done.
ghost use Rattle.std.specs.Prelude.{◌≡◌, IfErr};
ghost use Rattle.cli_faults.specs.Statuses.{status_of};

use cli_faults::{Fault, Notes};
use cli_files::print;
use std::io::Write;

/// Prints these bytes as a line. A write that fails is a fault of a file.
pub fn print_line<O: Write, E: Write>(
    out: &mut O,
    bytes: &[u8],
    notes: &mut Notes<'_, E>,
) -> Result<(), Fault>
    ensures { IfErr result (λ fault. status_of fault ≡ 3) }
{
    match print(out, bytes, notes) {
        Ok(()) => print(out, b"\n", notes),
        Err(fault) => Err(fault),
    }
}

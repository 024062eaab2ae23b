//! The files of documents.
ghost use Rattle.std.specs.Prelude.{◌≡◌, IfOk, map};

use cli_faults::{Fault, Notes};
use cli_files::{FILE_LIMIT, read_at_most};
use std::io::Write;
use store::Offer;

/// A file that was read: its path, and its bytes.
#[derive(Drop)]
pub struct InputFile<'a> {
    pub path: &'a str,
    pub bytes: Vec<u8>,
}

// The metadata file at a path, as far as one may go and one byte more.
fn read_file<'a, E: Write>(
    rt: &HostRuntime,
    path: &'a str,
    notes: &mut Notes<'_, E>,
) -> Result<InputFile<'a>, Fault>
    ensures { IfOk result (λ file. file.path.now ≡ path.now) }
{
    let bytes = read_at_most(rt, path, FILE_LIMIT, notes)?;
    Ok(InputFile { path, bytes })
}

/// The files of the documents, in order.
pub fn read_all<'a, E: Write>(
    rt: &HostRuntime,
    documents: &[(Offer, &'a str)],
    notes: &mut Notes<'_, E>,
) -> Result<Vec<InputFile<'a>>, Fault>
    ensures { IfOk result (λ files. map (λ f. f.path.now) files.items ≡ map (λ d. d.1.now) documents.now) }
{
    let mut files = Vec::new(rt.alloc());
    for (_, path) in documents {
        let file = read_file(rt, path, notes)?;
        files.push(file)?;
    }
    Ok(files)
}

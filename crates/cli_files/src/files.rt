//! Input files and folders, and standard output.
ghost use Rattle.std.specs.Prelude.{◌≡◌, IfErr};
ghost use Rattle.cli_faults.specs.Statuses.{status_of};

use cli_faults::{Fault, Notes, file_fault};
use std::fs::{self, File, Metadata};
use std::io::{self, ErrorKind, Read, Write};
use std::os::unix::fs::MetadataExt;

/// The bytes of a file.
pub fn read<E: Write>(
    rt: &HostRuntime,
    path: &str,
    notes: &mut Notes<'_, E>,
) -> Result<Vec<u8>, Fault>
    ensures { IfErr result (λ fault. status_of fault ≡ 3) }
{
    match fs::read(rt, path) {
        Ok(bytes) => Ok(bytes),
        Err(error) => Err(unused(path, &error, notes)),
    }
}

/// The bytes of a file that may have so many: of a longer one these and one more, by which it can be told.
pub fn read_at_most<E: Write>(
    rt: &HostRuntime,
    path: &str,
    limit: usize,
    notes: &mut Notes<'_, E>,
) -> Result<Vec<u8>, Fault>
    ensures { IfErr result (λ fault. status_of fault ≡ 3) }
{
    match beginning(rt, path, limit) {
        Ok(bytes) => Ok(bytes),
        Err(error) => Err(unused(path, &error, notes)),
    }
}

fn beginning(rt: &HostRuntime, path: &str, limit: usize) -> io::Result<Vec<u8>> {
    let file = File::open(rt, path)?;
    let mut bytes = Vec::new(rt.alloc());
    let most = (limit as u64).saturating_add(1);
    file.take(most).read_to_end(&mut bytes)?;
    Ok(bytes)
}

/// The bytes of a file in a folder that may come from somebody else, and none where nothing stands there: of a file that is longer than it may
/// be these and one more. No link is followed, and what is no regular file is a fault, which is told, and is not waited for.
pub fn read_regular<E: Write>(
    rt: &HostRuntime,
    path: &str,
    limit: usize,
    notes: &mut Notes<'_, E>,
) -> Result<Option<Vec<u8>>, Fault>
    ensures { IfErr result (λ fault. status_of fault ≡ 3) }
{
    match regular(rt, path, limit) {
        Ok(bytes) => Ok(bytes),
        Err(error) => Err(unused(path, &error, notes)),
    }
}

/// The same, where nothing is told.
pub fn regular(rt: &HostRuntime, path: &str, limit: usize) -> io::Result<Option<Vec<u8>>> {
    let Some(stands) = standing(rt, path)? else {
        return Ok(None);
    };
    if !stands.is_file() {
        return Err(no_regular_file());
    }
    let file = File::open(rt, path)?;
    let opened = file.metadata()?;
    if opened.dev() != stands.dev() || opened.ino() != stands.ino() {
        return Err(no_regular_file());
    }
    let mut bytes = Vec::new(rt.alloc());
    let most = (limit as u64).saturating_add(1);
    file.take(most).read_to_end(&mut bytes)?;
    Ok(Some(bytes))
}

/// What stands at a path, if anything does. A link is not followed.
pub(crate) fn standing(rt: &HostRuntime, path: &str) -> io::Result<Option<Metadata>> {
    match fs::symlink_metadata(rt, path) {
        Ok(found) => Ok(Some(found)),
        Err(error) if error.kind() == ErrorKind::NotFound => Ok(None),
        Err(error) => Err(error),
    }
}

fn no_regular_file() -> io::Error {
    io::Error::new(
        ErrorKind::InvalidInput,
        "no regular file, and no link is followed",
    )
}

/// Tells why a file cannot be used, and answers what that comes to.
pub fn unused<E: Write>(path: &str, error: &io::Error, notes: &mut Notes<'_, E>) -> Fault
    ensures { status_of result ≡ 3 }
{
    notes.fault(&path, error);
    file_fault(error)
}

/// The names of what stands in a folder, in their order. A name that is no UTF-8 is warned of and passed over.
pub fn names_of<E: Write>(
    rt: &HostRuntime,
    folder: &str,
    notes: &mut Notes<'_, E>,
) -> io::Result<Vec<String>> {
    let mut names = Vec::new(rt.alloc());
    for entry in fs::read_dir(rt, folder)? {
        match entry {
            Ok(entry) => names.push(String::from_str(rt.alloc(), entry.file_name())?)?,
            Err(error) if error.kind() == ErrorKind::InvalidFilename => {
                notes.warn_once(folder, &"a name in it is no UTF-8, and is passed over");
            }
            Err(error) => return Err(error),
        }
    }
    names.sort_unstable();
    Ok(names)
}

/// Prints these bytes. A write that fails is a fault of a file.
pub fn print<O: Write, E: Write>(
    out: &mut O,
    bytes: &[u8],
    notes: &mut Notes<'_, E>,
) -> Result<(), Fault>
    ensures { IfErr result (λ fault. status_of fault ≡ 3) }
{
    match write_flushed(out, bytes) {
        Ok(()) => Ok(()),
        Err(error) => {
            notes.fault(&"standard output", &error);
            Err(Fault::File)
        }
    }
}

fn write_flushed<O: Write>(out: &mut O, bytes: &[u8]) -> io::Result<()> {
    out.write_all(bytes)?;
    out.flush()
}

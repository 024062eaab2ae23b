//! A folder as a source: what `export` wrote into it is read from it.
ghost use Rattle.std.specs.Prelude.{◌≤◌, IfOk, IfSome, length};

use cli_files::regular;
use fetch::FetchFault;
use std::fs;
use std::io::{self, ErrorKind};

/// What stands in a folder under the name of a metadata file or of a target, `metadata/..` or `targets/..`: of a file that is longer than it may
/// be these bytes and one more, and none where nothing stands there. The folder may be a link; below it no link is followed, and what is
/// no regular file in folders is an error, and is not waited for.
pub fn read_in_folder(
    rt: &HostRuntime,
    folder: &str,
    name: &str,
    limit: usize,
) -> io::Result<Option<Vec<u8>>> {
    let (folders, file) = name.rsplit_once('/').unwrap_or(("", name));
    let mut place = String::from_str(rt.alloc(), folder)?;
    for part in folders.split('/') {
        push_part(&mut place, part)?;
        if !is_folder(rt, place.as_str())? {
            return Ok(None);
        }
    }
    push_part(&mut place, file)?;
    regular(rt, place.as_str(), limit)
}

fn push_part(place: &mut String, part: &str) -> io::Result<()> {
    place.push_str("/")?;
    place.push_str(part)?;
    Ok(())
}

// Whether a folder stands at a place, or nothing. All else, a link to a folder too, is an error.
fn is_folder(rt: &HostRuntime, place: &str) -> io::Result<bool> {
    match fs::symlink_metadata(rt, place) {
        Ok(found) if found.is_dir() => Ok(true),
        Ok(_) => Err(io::Error::new(
            ErrorKind::InvalidInput,
            "no folder, and no link is followed",
        )),
        Err(error) if error.kind() == ErrorKind::NotFound => Ok(false),
        Err(error) => Err(error),
    }
}

/// What a folder answers with what was found in it: a file of at most so many bytes, or none.
pub fn source_answer(
    found: io::Result<Option<Vec<u8>>>,
    limit: usize,
) -> Result<Option<Vec<u8>>, FetchFault>
    ensures { IfOk result (λ file. IfSome file (λ bytes. length bytes.items ≤ limit)) }
{
    match found {
        Ok(Some(bytes)) if bytes.len() <= limit => Ok(Some(bytes)),
        Ok(Some(_)) => Err(FetchFault::TooLong),
        Ok(None) => Ok(None),
        Err(error) if error.kind() == ErrorKind::OutOfMemory => Err(FetchFault::OutOfMemory),
        Err(_) => Err(FetchFault::Broken),
    }
}

//! Files that come into their places below a folder.
use cli_files::{OWNER_ALONE, are_one_file, put_in_place};
use std::alloc::AllocError;
use std::fs;
use std::io::{self, ErrorKind};

/// Whether a path leads to the file of a database, or to its log. Both are there once the database was opened.
pub fn is_of_database(rt: &HostRuntime, db: &str, path: &str) -> Result<bool, AllocError> {
    let log = format!(in rt.alloc(); "{db}-wal")?;
    Ok(are_one_file(rt, path, db) || are_one_file(rt, path, log.as_str()))
}

/// Whether no folder stands at a place, and none can be made there. A link to a folder is one; at no text at all there is none.
pub fn is_no_folder(rt: &HostRuntime, folder: &str) -> bool {
    match fs::metadata(rt, folder) {
        Ok(found) => !found.is_dir(),
        Err(error) => folder.is_empty() || error.kind() != ErrorKind::NotFound,
    }
}

/// Puts a file of these bytes into its place below a folder, under a path of the grammar of targets. The folder is made where there is none,
/// and so are those of the path in it. The folder may be a link; below it no link is followed: where a part of the path leads to
/// something else than a folder, or the path to something else than a file, what stands there stays.
pub fn put_below(rt: &HostRuntime, folder: &str, path: &str, bytes: &[u8]) -> io::Result<()> {
    fs::create_dir_all(rt, folder)?;
    let place = format!(in rt.alloc(); "{folder}/{path}")?;
    if let Some((folders, _)) = path.rsplit_once('/') {
        make_folders(rt, folder, folders)?;
    }
    put_in_place(rt, place.as_str(), bytes, OWNER_ALONE)
}

// Makes each of these folders below another one, where it is not there.
fn make_folders(rt: &HostRuntime, folder: &str, folders: &str) -> io::Result<()> {
    let mut place = String::from_str(rt.alloc(), folder)?;
    for part in folders.split('/') {
        place.push_str("/")?;
        place.push_str(part)?;
        make_folder(rt, place.as_str())?;
    }
    Ok(())
}

// Makes a folder where nothing stands. All else than a folder, a link to a folder too, is an error.
fn make_folder(rt: &HostRuntime, place: &str) -> io::Result<()> {
    match fs::symlink_metadata(rt, place) {
        Ok(found) if found.is_dir() => Ok(()),
        Ok(_) => Err(io::Error::new(
            ErrorKind::NotADirectory,
            "no folder on the way to it, and no link is followed",
        )),
        Err(error) if error.kind() == ErrorKind::NotFound => fs::create_dir(rt, place),
        Err(error) => Err(error),
    }
}

/// Whether a file did not come into its place for what stands there or on the way to it: another path is not kept from its own place by that.
pub fn is_in_the_way(error: &io::Error) -> bool {
    match error.kind() {
        ErrorKind::InvalidFilename
        | ErrorKind::NotADirectory
        | ErrorKind::IsADirectory
        | ErrorKind::AlreadyExists
        | ErrorKind::InvalidInput => true,
        _ => false,
    }
}

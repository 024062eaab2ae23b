//! Files that a script has named.
use crate::fault::LineFault;
use std::alloc::Global;

/// A file with its name, and the words that describe it, where it was described.
#[derive(Drop)]
pub struct File {
    pub name: String,
    pub words: String,
    pub bytes: Vec<u8>,
}

/// The file of this name.
pub fn find<'a>(files: &'a [File], name: &str) -> Result<&'a File, LineFault> {
    for file in files {
        if file.name.as_str() == name {
            return Ok(file);
        }
    }
    Err(LineFault::NotUnderstood)
}

/// The name of the file that has these bytes.
pub fn name_of<'a>(files: &'a [File], bytes: &[u8]) -> Option<&'a str> {
    for file in files {
        if file.bytes.as_slice() == bytes {
            return Some(file.name.as_str());
        }
    }
    None
}

/// Puts a file among the others, in place of one of this name.
pub fn put(
    alloc: Global,
    files: &mut Vec<File>,
    name: &str,
    words: String,
    bytes: Vec<u8>,
) -> Result<(), LineFault> {
    for file in files.iter_mut() {
        if file.name.as_str() == name {
            file.words = words;
            file.bytes = bytes;
            return Ok(());
        }
    }
    let name = String::from_str(alloc, name)?;
    files.push(File { name, words, bytes })?;
    Ok(())
}

//! The files that a repository holds.
use std::alloc::Global;

/// What a repository holds before a batch.
pub trait HeldFiles {
    /// The bytes of the metadata file of this name, as `3.root.json`, `timestamp.json`, `5.snapshot.json` or `2.tools.json`, if it is
    /// held. Nothing where that is not answered.
    fn ask(&self, alloc: Global, name: &str) -> Option<Option<Vec<u8>>>;

    /// The version of the trusted root, if one is trusted.
    fn root_version(&self) -> Option<u32>;
}

/// The same, where that it is not held and that it is not answered come to the same.
pub(crate) fn file_of<H: HeldFiles>(alloc: Global, held: &H, name: &str) -> Option<Vec<u8>> {
    match held.ask(alloc, name) {
        Some(found) => found,
        None => None,
    }
}

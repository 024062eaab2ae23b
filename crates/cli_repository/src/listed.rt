//! Which paths are listed by what a repository, or a client's own state, holds.
use cli_faults::Denial;
use metadata::{Body, Kind, Listing, Moment};
use path_patterns::TargetPath;
use served_files::{FileVisitor, visit_files};
use std::alloc::{AllocError, Global};
use store::{Held, Refusal, search_of};

/// The paths that targets metadata list which the snapshot names that the timestamp names, in order, each once. Where no root is trusted there
/// are none. The error is want of memory.
pub fn listed_paths(alloc: Global, held: &Held) -> Result<Vec<String>, AllocError> {
    let Some(version) = held.root_version() else {
        return Ok(Vec::new(alloc));
    };
    let mut found = Found {
        alloc,
        held,
        paths: Vec::new(alloc),
    };
    visit_files(alloc, version, version, &mut found)?;
    let Found { mut paths, .. } = found;
    paths.sort_unstable();
    paths.dedup();
    Ok(paths)
}

/// What denies a request for a target at the moment before any is searched for, if anything does: no root, or one of root, timestamp and
/// snapshot that is not held, not live or not named. The error is want of memory.
pub fn denied_to_all(
    alloc: Global,
    held: &Held,
    now: Moment,
) -> Result<Option<Denial>, AllocError> {
    let Some(path) = TargetPath::read(alloc, "all")? else {
        return Ok(None);
    };
    match search_of(held, &path, now) {
        Ok(_) => Ok(None),
        Err(Refusal::Denied(denial)) => Ok(Some(denial)),
        Err(Refusal::OutOfMemory) => Err(AllocError),
    }
}

// The paths so far.
#[derive(Drop)]
struct Found<'a> {
    alloc: Global,
    held: &'a Held,
    paths: Vec<String>,
}

impl FileVisitor for Found<'_> {
    type Fault = AllocError;

    fn read(&mut self, name: &str) -> Result<Option<Vec<u8>>, AllocError> {
        match self.held.metadata_file(name) {
            Some(bytes) => Ok(Some(Vec::from_slice(self.alloc, bytes)?)),
            None => Ok(None),
        }
    }

    fn visit_root(&mut self, _name: &str, _bytes: &[u8]) -> Result<(), AllocError> {
        Ok(())
    }

    fn visit_metadata(
        &mut self,
        _kind: Kind,
        _name: &str,
        _bytes: &[u8],
        _body: Option<&Body>,
    ) -> Result<(), AllocError> {
        Ok(())
    }

    fn visit_target(&mut self, listing: &Listing) -> Result<(), AllocError> {
        let path = String::from_str(self.alloc, listing.path.as_str())?;
        self.paths.push(path)?;
        Ok(())
    }
}

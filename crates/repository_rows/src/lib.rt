//! The rows of a release repository: what its database holds, and what the trust machine is loaded from.
#![tactic(auto)]

ghost use Rattle.std.specs.Prelude.{◌≡◌, ◌≢◌, ℕ, List, [], IsTrue, false};
ghost use Rattle.repository_rows.specs.Contents.{contents_with, no_rows};

use std::alloc::Global;

/// The rows of a repository's tables but for its target files, each list in the order of its keys.
#[derive(Debug, Drop)]
pub struct MetadataRows {
    /// The table `root2`: version, profile and bytes of each root, by version. The profile is 1 or 2.
    pub roots: Vec<(u32, u32, Vec<u8>)>,
    /// The row `timestamp` of the table `current`: version and bytes.
    pub timestamp: Option<(u32, Vec<u8>)>,
    /// The row `snapshot` of the table `current`: version and bytes.
    pub snapshot: Option<(u32, Vec<u8>)>,
    /// The table `shelf`: role, version and bytes of each targets document, by role and then version.
    pub shelf: Vec<(String, u32, Vec<u8>)>,
}

/// The rows of a repository's tables, each list in the order of its keys.
#[derive(Debug, Drop)]
pub struct Contents {
    pub metadata: MetadataRows,
    /// The table `blob`: SHA-256 digest and bytes of each target file, by digest. In the database a digest is 64 hex digits
    /// of lower case.
    pub blobs: Vec<([u8; 32], Vec<u8>)>,
}

impl MetadataRows {
    /// No row. It takes no memory.
    pub fn empty(alloc: Global) -> MetadataRows
        ensures { contents_with result [] ≡ no_rows }
    {
        MetadataRows {
            roots: Vec::new(alloc),
            timestamp: None,
            snapshot: None,
            shelf: Vec::new(alloc),
        }
    }

    /// Whether there is no row.
    pub fn is_empty(&self) -> bool
        ensures empty { IsTrue result → contents_with self.now [] ≡ no_rows }
        ensures other { result ≡ false → (blobs : List (List ℕ × List ℕ)) → contents_with self.now blobs ≢ no_rows }
    {
        self.roots.is_empty()
            && self.timestamp.is_none()
            && self.snapshot.is_none()
            && self.shelf.is_empty()
    }
}

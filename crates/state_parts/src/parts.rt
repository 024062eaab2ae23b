//! What a state keeps.
use crate::effects::Blob;
use delegations::Row;
use metadata::{File, Profile, Root, Snapshot, Timestamp};
use path_patterns::Digest;

/// The profiles and the bytes of the roots before the last, the last, the current timestamp and snapshot, the shelf in the order of roles and
/// versions.
#[derive(Drop)]
pub struct Trusted {
    pub earlier: Vec<(Profile, Vec<u8>)>,
    pub root: Option<File<Root>>,
    pub timestamp: Option<File<Timestamp>>,
    pub snapshot: Option<File<Snapshot>>,
    pub shelf: Vec<Row>,
}

/// What is trusted, and the blobs in the order of their digests.
#[derive(Drop)]
pub struct Parts {
    pub trusted: Trusted,
    pub blobs: Vec<Blob>,
}

/// A blob whose bytes are elsewhere: their digest, and how many they are.
#[derive(Clone, Copy, Debug)]
pub struct BlobLength {
    pub digest: Digest,
    pub length: usize,
}

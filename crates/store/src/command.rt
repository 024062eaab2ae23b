//! What a store is asked, and what it answers.
use machine::{Denial, Offer};
use path_patterns::Digest;

/// A command of the trust machine (TUF 1.0, section 5).
#[derive(Clone, Copy)]
pub enum Command<'a> {
    /// Begins the trust with a first root.
    Init(&'a [u8]),
    /// Offers documents in order, which are taken together or not at all.
    Batch(&'a [(Offer, &'a [u8])]),
    /// Offers one document. Whether timestamp, snapshot and shelf then belong together is not judged.
    Offer(&'a Offer, &'a [u8]),
    /// Stores a target file under its digest.
    PutBlob(Digest, &'a [u8]),
    /// Takes away the targets documents at versions that the snapshot does not list, and the target files that no other one lists.
    Prune,
    /// Asks for a metadata file by its name.
    Metadata(&'a str),
    /// Asks for a target file by its path, and by a digest of its listing where one is given.
    Target(&'a str, Option<Digest>),
}

/// What a command did.
#[derive(Drop)]
pub enum Reply {
    /// The first root is trusted.
    Begun,
    /// The documents were taken: how many changed something, and how many were there already.
    Batch { accepted: usize, same: usize },
    /// The document was taken, or is there already.
    Offered { same: bool },
    /// The file is stored: newly, or already before.
    Stored(bool),
    /// How many target files and how many targets documents were taken away.
    Pruned { blobs: usize, rows: usize },
    /// The bytes of the file that was asked for.
    Bytes(Vec<u8>),
    /// There is no metadata file of this name.
    Absent,
    /// The first rule that fails, and of a batch the index of its document.
    Denied(Denial, Option<usize>),
}

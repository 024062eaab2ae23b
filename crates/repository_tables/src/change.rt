// The changes of the rows.

/// One change of the rows. It borrows all bytes.
#[derive(Clone, Copy)]
pub enum Change<'a> {
    /// A root of this version and profile more.
    PutRoot(u32, u32, &'a [u8]),
    /// All rows of `current` and `shelf` go.
    Emptied,
    /// The row `timestamp` of `current`, in place of the one that is there.
    PutTimestamp(u32, &'a [u8]),
    /// The row `snapshot` of `current`, in place of the one that is there.
    PutSnapshot(u32, &'a [u8]),
    /// A targets document of this role and version more.
    PutRow(&'a str, u32, &'a [u8]),
    /// A target file of this digest more.
    PutBlob(&'a [u8; 32], &'a [u8]),
    /// The targets document of this role and version goes, if it is there.
    RowGone(&'a str, u32),
    /// The target file of this digest goes, if it is there.
    BlobGone(&'a [u8; 32]),
}

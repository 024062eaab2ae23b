//! The limits of a repository of which more than one crate speaks, each said once.
#![tactic(auto)]

ghost use Rattle.std.specs.Prelude.{◌≡◌};
ghost use Rattle.limits.specs.Limits.{blob_limit, file_limit, most_documents, most_held, most_signatures};

/// The most bytes of a blob, which is the content of a target.
pub const BLOB_LIMIT: usize = 1_048_576;

/// The most bytes of a metadata file, a layout or a link.
pub const FILE_LIMIT: usize = 262_144;

/// The most roots, the most rows of the shelf and the most blobs that a repository holds.
pub const MOST_HELD: usize = 4_096;

/// The most documents of a batch.
pub const MOST_DOCUMENTS: usize = 160;

/// The most signatures of a file.
pub const MOST_SIGNATURES: usize = 16;

/// The last moment, in seconds since 1970-01-01T00:00:00Z: 9999-12-31T23:59:59Z.
pub const LAST_MOMENT: u64 = 253_402_300_799;

/// A law, which does nothing: these constants are the limits that contracts name.
pub fn limits_of_contracts()
    ensures bytes { BLOB_LIMIT ≡ blob_limit }
    ensures files { FILE_LIMIT ≡ file_limit }
    ensures held { MOST_HELD ≡ most_held }
    ensures documents { MOST_DOCUMENTS ≡ most_documents }
    ensures signatures { MOST_SIGNATURES ≡ most_signatures }
{}

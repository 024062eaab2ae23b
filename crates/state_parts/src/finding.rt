//! Blobs and their lengths by digests, and when bytes are those of a digest.
ghost use Rattle.std.specs.Prelude.{◌≡◌, ◌↔◌, ◌<◌, ◌≤◌, ◌∷◌, [], IfOk, IsSome, IsTrue, bytes_eq, length, option_map, true, false};
ghost use Rattle.sha2.specs.Sha256.{sha256};
ghost use Rattle.delegations.specs.Delegation.{before};
ghost use Rattle.std.specs.List.Sorted.{IsPartitionPoint};
ghost use Rattle.delegations.specs.Rows.{Rises};
ghost use Rattle.trust_rules.specs.Held.{length_at};
ghost use Rattle.trust_rules.specs.State.{blob_at};
ghost use Rattle.limits.specs.Limits.{blob_limit};
ghost use Rattle.state_parts.specs.Views.{blob_views, length_views};

use crate::checks::are_same;
use crate::effects::Blob;
use crate::parts::BlobLength;
use crate::taking::is_before;
use limits::BLOB_LIMIT;
use metadata::digest_of;
use path_patterns::Digest;

/// The blob with this digest, among blobs in the order of their digests.
pub fn blob_of<'a>(blobs: &'a [Blob], digest: &Digest) -> Option<&'a Blob>
    requires { Rises before (blob_views blobs.now) }
    ensures { option_map (λ b. b.now.bytes.items) result ≡ blob_at (blob_views blobs.now) digest.now.0 }
{
    let Some(blob) = blobs.get(count_before(blobs, digest)) else {
        return None;
    };
    if !is_same(&blob.digest, digest) {
        return None;
    }
    Some(blob)
}

// How many of the blobs stand before this digest.
fn count_before(blobs: &[Blob], digest: &Digest) -> usize
    requires { Rises before (blob_views blobs.now) }
    ensures { IsPartitionPoint (λ b. before b.digest.0 digest.now.0 ≡ true) (λ b. before b.digest.0 digest.now.0 ≡ false) blobs.now result }
{
    blobs.partition_point(
        |blob: &Blob| -> bool
            ensures { result ≡ before blob.now.digest.0 digest.entry.now.0 }
        { is_before(&blob.digest.0, &digest.0) },
    )
}

/// The length of the blob with this digest, among lengths in the order of their digests.
pub fn length_of(lengths: &[BlobLength], digest: &Digest) -> Option<usize>
    requires { Rises before (length_views lengths.now) }
    ensures { result ≡ length_at (length_views lengths.now) digest.now.0 }
{
    let Some(blob) = lengths.get(lengths_before(lengths, digest)) else {
        return None;
    };
    if !is_same(&blob.digest, digest) {
        return None;
    }
    Some(blob.length)
}

// How many of the lengths stand before this digest.
fn lengths_before(lengths: &[BlobLength], digest: &Digest) -> usize
    requires { Rises before (length_views lengths.now) }
    ensures { IsPartitionPoint (λ b. before b.digest.0 digest.now.0 ≡ true) (λ b. before b.digest.0 digest.now.0 ≡ false) lengths.now result }
{
    lengths.partition_point(
        |blob: &BlobLength| -> bool
            ensures { result ≡ before blob.now.digest.0 digest.entry.now.0 }
        { is_before(&blob.digest.0, &digest.0) },
    )
}

/// Whether the bytes are few enough for a blob.
pub fn is_short(bytes: &[u8]) -> bool
    ensures { IsTrue result ↔ length bytes.now ≤ blob_limit }
{
    bytes.len() <= BLOB_LIMIT
}

/// Whether the bytes have this digest.
pub fn is_digest_of(digest: &Digest, bytes: &[u8]) -> bool
    ensures { IsTrue result ↔ sha256 bytes.now ≡ digest.now.0 }
{
    let own = digest_of(bytes);
    are_same(&own.0, &digest.0)
}

/// Whether the digests are the same.
pub fn is_same(a: &Digest, b: &Digest) -> bool
    ensures { result ≡ bytes_eq a.now.0 b.now.0 }
{
    a.0 == b.0
}

//! Putting changes into what a state keeps. It takes no memory.
ghost use Rattle.std.specs.Prelude.{◌≡◌, ◌≤◌, ◌<◌, ◌-◌, ◌+◌, ◌++◌, [], ◌∷◌, ℕ, List, IfOk, Option, Some, bytes_eq, not, cond, map, length, vec_len, vec_capacity};
ghost use Rattle.std.specs.List.{insert, list_any, position_or_len, position};
ghost use Rattle.metadata.specs.FileViews.{root_file, targets_file};
ghost use Rattle.document_parts.specs.Views.{profile_view};
ghost use Rattle.delegations.specs.Delegation.{before};
ghost use Rattle.delegations.specs.Rows.{same_place, with_row, with_rows, place_before};
ghost use Rattle.delegations.specs.Views.{row_views};
ghost use Rattle.trust_rules.specs.Effects.{brought, last_or, renewed, with_blobs, without};
ghost use Rattle.state_parts.specs.Views.{parts_view, effects_view, blob_views, digest_views, changes_view, last_kept, length_views, trusted_view};
ghost use Rattle.repository_rows.specs.Contents.{lengths_of};
ghost use Rattle.trust_rules.specs.Held.{with_lengths};
ghost use Rattle.trust_rules.specs.State.{kept_root};
ghost use Rattle.trust_rules.specs.steps.Loading.{laid};

use crate::effects::{Blob, Changes, Effects};
use crate::parts::{BlobLength, Parts, Trusted};
use delegations::Row;
use metadata::{File, Profile, Root};
use path_patterns::{Digest, RoleName};
use std::alloc::{AllocError, Global};

// Puts one more at the end, where there is room.
fn push_within<T: Drop>(held: &mut Vec<T>, new: T)
    requires { 1 ≤ vec_capacity held.old - vec_len held.old }
    ensures items { held.new.items ≡ held.old.items ++ new ∷ [] }
    ensures room { vec_capacity held.old - vec_len held.old ≤ (vec_capacity held.new - vec_len held.new) + 1 }
{
    let _ = held.push(new);
}

// Puts one more at a place, where there is room.
fn insert_within<T: Drop>(held: &mut Vec<T>, at: usize, new: T)
    requires place { at ≤ vec_len held.old }
    requires room { 1 ≤ vec_capacity held.old - vec_len held.old }
    ensures items { held.new.items ≡ insert held.old.items at new }
    ensures room { vec_capacity held.old - vec_len held.old ≤ (vec_capacity held.new - vec_len held.new) + 1 }
{
    let _ = held.insert(at, new);
}

// Puts one more root there. Of the last one before, its profile and its bytes stay.
fn push_root(earlier: &mut Vec<(Profile, Vec<u8>)>, last: &mut Option<File<Root>>, root: File<Root>)
    requires { 1 ≤ vec_capacity earlier.old - vec_len earlier.old }
    ensures kept { map (λ b. (profile_view b.0, b.1.items)) earlier.new.items ++ last_kept last.new
        ≡ (map (λ b. (profile_view b.0, b.1.items)) earlier.old.items ++ last_kept last.old) ++ kept_root (root_file root) ∷ [] }
    ensures last { last.new ≡ Some root }
    ensures room { vec_capacity earlier.old - vec_len earlier.old ≤ (vec_capacity earlier.new - vec_len earlier.new) + 1 }
{
    let Some(old) = last.replace(root) else {
        return;
    };
    push_within(earlier, (old.body.profile, old.source.into_bytes()));
}

// Puts roots there, one after the other.
fn take_roots(
    earlier: &mut Vec<(Profile, Vec<u8>)>,
    last: &mut Option<File<Root>>,
    roots: Vec<File<Root>>,
)
    requires { length roots.items ≤ vec_capacity earlier.old - vec_len earlier.old }
    ensures kept { map (λ b. (profile_view b.0, b.1.items)) earlier.new.items ++ last_kept last.new
        ≡ (map (λ b. (profile_view b.0, b.1.items)) earlier.old.items ++ last_kept last.old) ++ map (λ r. kept_root (root_file r)) roots.items }
    ensures last { last.new ≡ last_or last.old roots.items }
{
    for root in roots {
        push_root(earlier, last, root);
    }
}

// What is new, or what was there unless it was emptied.
fn renew<T: Drop>(held: &mut Option<T>, emptied: bool, new: Option<T>)
    ensures { held.new ≡ renewed emptied held.old new }
{
    if emptied || new.is_some() {
        *held = new;
    }
}

// Takes all away, where it is emptied.
fn empty_if<T: Drop>(emptied: bool, held: &mut Vec<T>)
    ensures items { held.new.items ≡ cond emptied [] held.old.items }
    ensures room { vec_capacity held.old - vec_len held.old ≤ vec_capacity held.new - vec_len held.new }
{
    if emptied {
        held.clear();
    }
}

/// Whether the bytes are before others in the order of a dictionary.
pub fn is_before(a: &[u8], b: &[u8]) -> bool
    ensures { result ≡ before a.now b.now }
{
    let mut left = a;
    let mut right = b;
    'bytes: while let Some((y, later)) = right.split_first() {
        let Some((x, rest)) = left.split_first() else {
            return true;
        };
        if x != y {
            return x < y;
        }
        left = rest;
        right = later;
    }
    false
}

// Whether a place is before that of a row.
fn is_place_before(role: &str, version: u32, row: &Row) -> bool
    ensures { result ≡ place_before (role.now, version) (row.now.role, row.now.version) }
{
    let held = row.role.as_str();
    is_before(role.as_bytes(), held.as_bytes()) || (role == held && version < row.version)
}

// The index of the first shelf row that stands after a new one.
fn later_row(shelf: &[Row], role: &str, version: u32) -> Option<usize>
    ensures { result ≡ position (λ r. place_before (role.now, version) (r.role, r.version)) shelf.now }
{
    shelf
        .iter()
        .position(|row| is_place_before(role, version, row))
}

// How many rows stand before a new one.
fn row_place(shelf: &[Row], role: &str, version: u32) -> usize
    ensures within { result ≤ length shelf.now }
    ensures place { result ≡ position_or_len (λ r. place_before (role.now, version) (r.role, r.version)) shelf.now }
{
    match later_row(shelf, role, version) {
        Some(at) => at,
        None => shelf.len(),
    }
}

// The index of the first blob that stands after a new one.
fn later_blob(blobs: &[Blob], digest: &Digest) -> Option<usize>
    ensures { result ≡ position (λ b. before digest.now.0 b.digest.0) blobs.now }
{
    blobs
        .iter()
        .position(|blob| is_before(&digest.0, &blob.digest.0))
}

// How many blobs stand before a new one.
fn blob_place(blobs: &[Blob], digest: &Digest) -> usize
    ensures within { result ≤ length blobs.now }
    ensures place { result ≡ position_or_len (λ b. before digest.now.0 b.digest.0) blobs.now }
{
    match later_blob(blobs, digest) {
        Some(at) => at,
        None => blobs.len(),
    }
}

// Puts one more row on the shelf.
fn put_row(shelf: &mut Vec<Row>, row: Row)
    requires { 1 ≤ vec_capacity shelf.old - vec_len shelf.old }
    ensures rows { row_views shelf.new.items ≡ with_row place_before (row_views shelf.old.items) (row.role, row.version) (targets_file row.file) }
    ensures room { vec_capacity shelf.old - vec_len shelf.old ≤ (vec_capacity shelf.new - vec_len shelf.new) + 1 }
{
    let at = row_place(shelf, row.role.as_str(), row.version);
    insert_within(shelf, at, row);
}

// Puts rows on the shelf, one after the other.
fn take_rows(shelf: &mut Vec<Row>, rows: Vec<Row>)
    requires { length rows.items ≤ vec_capacity shelf.old - vec_len shelf.old }
    ensures { row_views shelf.new.items ≡ with_rows (row_views shelf.old.items) (row_views rows.items) }
{
    for row in rows {
        put_row(shelf, row);
    }
}

// Puts one more blob there.
fn put_blob(blobs: &mut Vec<Blob>, blob: Blob)
    requires { 1 ≤ vec_capacity blobs.old - vec_len blobs.old }
    ensures rows { blob_views blobs.new.items ≡ with_row before (blob_views blobs.old.items) blob.digest.0 blob.bytes.items }
    ensures room { vec_capacity blobs.old - vec_len blobs.old ≤ (vec_capacity blobs.new - vec_len blobs.new) + 1 }
{
    let at = blob_place(blobs, &blob.digest);
    insert_within(blobs, at, blob);
}

/// Puts blobs there, one after the other.
pub fn take_blobs(blobs: &mut Vec<Blob>, more: Vec<Blob>)
    requires { length more.items ≤ vec_capacity blobs.old - vec_len blobs.old }
    ensures { blob_views blobs.new.items ≡ with_blobs (blob_views blobs.old.items) (blob_views more.items) }
{
    for blob in more {
        put_blob(blobs, blob);
    }
}

// The index of the first length that stands after a new one.
fn later_length(lengths: &[BlobLength], digest: &Digest) -> Option<usize>
    ensures { result ≡ position (λ b. before digest.now.0 b.digest.0) lengths.now }
{
    lengths
        .iter()
        .position(|blob| is_before(&digest.0, &blob.digest.0))
}

// How many lengths stand before a new one.
fn length_place(lengths: &[BlobLength], digest: &Digest) -> usize
    ensures within { result ≤ length lengths.now }
    ensures place { result ≡ position_or_len (λ b. before digest.now.0 b.digest.0) lengths.now }
{
    match later_length(lengths, digest) {
        Some(at) => at,
        None => lengths.len(),
    }
}

// Puts digest and length of one more blob there.
fn put_length(lengths: &mut Vec<BlobLength>, blob: &Blob)
    requires { 1 ≤ vec_capacity lengths.old - vec_len lengths.old }
    ensures rows { length_views lengths.new.items ≡ with_row before (length_views lengths.old.items) blob.now.digest.0 (length blob.now.bytes.items) }
    ensures room { vec_capacity lengths.old - vec_len lengths.old ≤ (vec_capacity lengths.new - vec_len lengths.new) + 1 }
{
    let at = length_place(lengths, &blob.digest);
    insert_within(lengths, at, length_of_blob(blob));
}

// Digest and length of a blob.
fn length_of_blob(blob: &Blob) -> BlobLength
    ensures digest { result.digest ≡ blob.now.digest }
    ensures length { result.length ≡ length blob.now.bytes.items }
{
    BlobLength {
        digest: blob.digest,
        length: blob.bytes.len(),
    }
}

/// Puts digest and length of blobs there, one after the other.
pub fn take_lengths(lengths: &mut Vec<BlobLength>, more: &[Blob])
    requires { length more.now ≤ vec_capacity lengths.old - vec_len lengths.old }
    ensures { length_views lengths.new.items ≡ with_lengths (length_views lengths.old.items) (blob_views more.now) }
{
    let mut rest = more;
    'blobs: while let Some((blob, later)) = rest.split_first() {
        put_length(lengths, blob);
        rest = later;
    }
}

/// Digest and length of each blob.
pub fn blob_lengths(alloc: Global, blobs: &[Blob]) -> Result<Vec<BlobLength>, AllocError>
    ensures { IfOk result (λ lengths. length_views lengths.items ≡ lengths_of (blob_views blobs.now)) }
{
    let mut lengths = Vec::with_capacity(alloc, blobs.len())?;
    let mut rest = blobs;
    'blobs: while let Some((blob, later)) = rest.split_first() {
        lengths.push(length_of_blob(blob))?;
        rest = later;
    }
    Ok(lengths)
}

/// What is kept of files that are all those of a state. Of the roots before the last, only profile and bytes move.
pub fn laid_parts(alloc: Global, files: Effects) -> Result<Parts, AllocError>
    ensures { IfOk result (λ p. parts_view p ≡ laid (effects_view files)) }
{
    let Changes {
        roots,
        emptied: _,
        timestamp,
        snapshot,
        rows,
    } = files.changes;
    let mut earlier = Vec::with_capacity(alloc, roots.len())?;
    let mut root = None;
    take_roots(&mut earlier, &mut root, roots);
    Ok(Parts {
        trusted: Trusted {
            earlier,
            root,
            timestamp,
            snapshot,
            shelf: rows,
        },
        blobs: files.blobs,
    })
}

// Whether a row is among those that go.
fn is_row_gone(gone: &[(RoleName, u32)], row: &Row) -> bool
    ensures { result ≡ list_any (λ place. same_place (row.now.role, row.now.version) place) gone.now }
{
    let mut rest = gone;
    'places: while let Some((place, later)) = rest.split_first() {
        if place.0.as_str() == row.role.as_str() && place.1 == row.version {
            return true;
        }
        rest = later;
    }
    false
}

// Whether a digest is among those that go.
fn is_digest_gone(gone: &[Digest], digest: &Digest) -> bool
    ensures { result ≡ list_any (λ d. bytes_eq digest.now.0 d) (digest_views gone.now) }
{
    let mut rest = gone;
    'digests: while let Some((first, later)) = rest.split_first() {
        if digest.0 == first.0 {
            return true;
        }
        rest = later;
    }
    false
}

/// Takes rows off the shelf.
pub fn drop_rows(shelf: &mut Vec<Row>, gone: &[(RoleName, u32)])
    ensures rows { row_views shelf.new.items ≡ without same_place (row_views shelf.old.items) gone.now }
    ensures room { vec_capacity shelf.old - vec_len shelf.old ≤ vec_capacity shelf.new - vec_len shelf.new }
{
    shelf.retain(
        |row: &Row| -> bool
            ensures { result ≡ not (list_any (λ place. same_place (row.now.role, row.now.version) place) gone.entry.now) }
        { !is_row_gone(gone, row) },
    );
}

/// Takes away blobs.
pub fn drop_blobs(blobs: &mut Vec<Blob>, gone: &[Digest])
    ensures rows { blob_views blobs.new.items ≡ without bytes_eq (blob_views blobs.old.items) (digest_views gone.now) }
    ensures room { vec_capacity blobs.old - vec_len blobs.old ≤ vec_capacity blobs.new - vec_len blobs.new }
{
    blobs.retain(
        |blob: &Blob| -> bool
            ensures { result ≡ not (list_any (λ d. bytes_eq blob.now.digest.0 d) (digest_views gone.entry.now)) }
        { !is_digest_gone(gone, &blob.digest) },
    );
}

/// Takes away digest and length of blobs.
pub fn drop_lengths(lengths: &mut Vec<BlobLength>, gone: &[Digest])
    ensures rows { length_views lengths.new.items ≡ without bytes_eq (length_views lengths.old.items) (digest_views gone.now) }
    ensures room { vec_capacity lengths.old - vec_len lengths.old ≤ vec_capacity lengths.new - vec_len lengths.new }
{
    lengths.retain(
        |blob: &BlobLength| -> bool
            ensures { result ≡ not (list_any (λ d. bytes_eq blob.now.digest.0 d) (digest_views gone.entry.now)) }
        { !is_digest_gone(gone, &blob.digest) },
    );
}

/// Puts changes into what is trusted.
pub fn take_changes(trusted: &mut Trusted, changes: Changes)
    requires roots { length changes.roots.items ≤ vec_capacity trusted.old.earlier - vec_len trusted.old.earlier }
    requires rows { length changes.rows.items ≤ vec_capacity trusted.old.shelf - vec_len trusted.old.shelf }
    ensures { trusted_view trusted.new ≡ brought (trusted_view trusted.old) (changes_view changes) }
{
    let Changes {
        roots,
        emptied,
        timestamp,
        snapshot,
        rows,
    } = changes;
    take_roots(&mut trusted.earlier, &mut trusted.root, roots);
    renew(&mut trusted.timestamp, emptied, timestamp);
    renew(&mut trusted.snapshot, emptied, snapshot);
    empty_if(emptied, &mut trusted.shelf);
    take_rows(&mut trusted.shelf, rows);
}

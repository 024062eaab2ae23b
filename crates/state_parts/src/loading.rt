//! What the rows of a database have to be, to be those of a state.
ghost use Rattle.std.specs.Prelude.{◌≡◌, ◌↔◌, ◌≤◌, [], map, None, Some, All, IfSome, IfNone, IsTrue, option_map};
ghost use Rattle.metadata.specs.File.{IsFileOf, root_form, targets_form};
ghost use Rattle.metadata.specs.FileViews.{root_file, timestamp_file, snapshot_file, targets_file};
ghost use Rattle.delegations.specs.Delegation.{before};
ghost use Rattle.delegations.specs.Views.{row_views};
ghost use Rattle.delegations.specs.steps.Rising.{comes_first, rises};
ghost use Rattle.limits.specs.Limits.{blob_limit};
ghost use Rattle.trust_rules.specs.Held.{IsHeld};
ghost use Rattle.trust_rules.specs.State.{FollowsRoot, IsBlob, IsHeldUnder, IsRootChain, IsShelfRow, IsState, IsTrusted, MeetsTop, kept_root};
ghost use Rattle.trust_rules.specs.Effects.{last_or};
ghost use Rattle.trust_rules.specs.steps.Loading.{AreBlobs, AreRead, RowsAreRead, FollowOn, IsBare, IsChain, AreShelfRows, laid};
ghost use Rattle.state_parts.specs.Views.{blob_views, effects_view, length_views, trusted_view};

use crate::checks::{is_signed, keeps_profile};
use crate::effects::{Blob, Effects};
use crate::finding::{is_digest_of, is_short};
use crate::parts::{BlobLength, Trusted};
use crate::taking::is_before;
use delegations::{Row, are_in_order};
use limits::{BLOB_LIMIT, MOST_HELD};
use metadata::{File, Root, Snapshot, Timestamp, is_listable, one_document, one_shape};
use std::alloc::{AllocError, Global};

/// Whether a root meets its own rule.
pub fn meets_itself(root: &File<Root>) -> bool
    ensures { IsTrue result ↔ (MeetsTop (root_file root.now) (root_file root.now).body.root (root_file root.now)) }
{
    is_signed(&root.body.root, &root.body.keys, &root.source)
}

/// Whether a root may follow another.
pub fn follows_root(old: &File<Root>, new: &File<Root>) -> bool
    ensures { IsTrue result ↔ (FollowsRoot (root_file old.now) (root_file new.now)) }
{
    u64::from(new.body.version) == u64::from(old.body.version) + 1
        && keeps_profile(&old.body, &new.body)
        && is_signed(&old.body.root, &old.body.keys, &new.source)
        && meets_itself(new)
}

// Whether a blob has its digest, and is short enough.
fn is_blob(blob: &Blob) -> bool
    ensures { IsTrue result ↔ (IsBlob (blob.now.digest.0, blob.now.bytes.items)) }
{
    is_short(&blob.bytes) && is_digest_of(&blob.digest, &blob.bytes)
}

// Whether each blob is one.
fn each_is_blob(blobs: &[Blob]) -> bool
    ensures { IsTrue result ↔ (All IsBlob (blob_views blobs.now)) }
{
    let mut rest = blobs;
    'blobs: while let Some((blob, later)) = rest.split_first() {
        if !is_blob(blob) {
            return false;
        }
        rest = later;
    }
    true
}

// Whether a blob's digest is before the first of these.
fn is_before_blobs(blob: &Blob, later: &[Blob]) -> bool
    ensures { result ≡ comes_first before blob.now.digest.0 (blob_views later.now) }
{
    match later.first() {
        Some(next) => is_before(&blob.digest.0, &next.digest.0),
        None => true,
    }
}

// Whether the digests rise.
fn blobs_rise(blobs: &[Blob]) -> bool
    ensures { result ≡ rises before (blob_views blobs.now) }
{
    let mut rest = blobs;
    'blobs: while let Some((blob, later)) = rest.split_first() {
        if !is_before_blobs(blob, later) {
            return false;
        }
        rest = later;
    }
    true
}

/// Whether these may be the blobs of a state.
pub fn are_blobs(blobs: &[Blob]) -> bool
    ensures { IsTrue result ↔ (AreBlobs (blob_views blobs.now)) }
{
    if blobs.len() > MOST_HELD {
        return false;
    }
    if !blobs_rise(blobs) {
        return false;
    }
    each_is_blob(blobs)
}

// Whether a document stands at its place of the shelf.
fn is_row(row: &Row) -> bool
    requires { IsFileOf targets_form (targets_file row.now.file) }
    ensures { IsTrue result ↔ (IsShelfRow ((row.now.role, row.now.version), targets_file row.now.file)) }
{
    row.file.body.version == row.version && is_listable(row.role.as_str())
}

// Whether each document stands at its place of the shelf.
fn each_is_row(rows: &[Row]) -> bool
    requires { RowsAreRead (row_views rows.now) }
    ensures { IsTrue result ↔ (All IsShelfRow (row_views rows.now)) }
{
    let mut rest = rows;
    'rows: while let Some((row, later)) = rest.split_first() {
        if !is_row(row) {
            return false;
        }
        rest = later;
    }
    true
}

/// Whether these may be the shelf of a state.
pub fn is_shelf(rows: &[Row]) -> bool
    requires { RowsAreRead (row_views rows.now) }
    ensures { IsTrue result ↔ (AreShelfRows (row_views rows.now)) }
{
    if rows.len() > MOST_HELD {
        return false;
    }
    if !are_in_order(rows) {
        return false;
    }
    each_is_row(rows)
}

// Whether each of these roots follows the one before it, the first of them this one.
fn follow_on(first: &File<Root>, later: &[File<Root>]) -> bool
    ensures { IsTrue result ↔ (FollowOn (root_file first.now) (map root_file later.now)) }
{
    let mut old = first;
    let mut rest = later;
    'roots: while let Some((new, more)) = rest.split_first() {
        if !follows_root(old, new) {
            return false;
        }
        old = new;
        rest = more;
    }
    true
}

// Whether these are a chain of roots, each document after the other.
fn are_chained(roots: &[File<Root>]) -> bool
    ensures { IsTrue result ↔ (IsChain (map root_file roots.now)) }
{
    let Some((first, later)) = roots.split_first() else {
        return true;
    };
    if !meets_itself(first) {
        return false;
    }
    follow_on(first, later)
}

/// Whether these may be the roots of a state.
pub fn is_chain(roots: &[File<Root>]) -> bool
    requires { All (IsFileOf root_form) (map root_file roots.now) }
    ensures { IsTrue result ↔ IfSome (last_or None (map root_file roots.now)) (IsRootChain (map kept_root (map root_file roots.now))) }
{
    one_document();
    one_shape();
    are_chained(roots)
}

// Whether the timestamp, where there is one, meets the root's rule.
fn timestamp_meets(root: &File<Root>, file: &Option<File<Timestamp>>) -> bool
    ensures { IsTrue result ↔ IfSome (option_map timestamp_file file.now) (MeetsTop (root_file root.now) (root_file root.now).body.timestamp) }
{
    match file {
        Some(file) => is_signed(&root.body.timestamp, &root.body.keys, &file.source),
        None => true,
    }
}

// Whether the snapshot, where there is one, meets the root's rule.
fn snapshot_meets(root: &File<Root>, file: &Option<File<Snapshot>>) -> bool
    ensures { IsTrue result ↔ IfSome (option_map snapshot_file file.now) (MeetsTop (root_file root.now) (root_file root.now).body.snapshot) }
{
    match file {
        Some(file) => is_signed(&root.body.snapshot, &root.body.keys, &file.source),
        None => true,
    }
}

// Whether the files meet the rules of the last root.
fn is_held(files: &Effects, root: &File<Root>) -> bool
    requires read { AreRead (effects_view files.now) }
    requires last { last_or None (map root_file files.now.changes.roots.items) ≡ Some (root_file root.now) }
    ensures { IsTrue result ↔ (IsHeldUnder (laid (effects_view files.now)).trusted (root_file root.now)) }
{
    if !is_chain(&files.changes.roots) {
        return false;
    }
    if !timestamp_meets(root, &files.changes.timestamp) {
        return false;
    }
    snapshot_meets(root, &files.changes.snapshot)
}

// Whether there is no file but roots.
fn is_bare(files: &Effects) -> bool
    ensures { IsTrue result ↔ (IsBare (effects_view files.now)) }
{
    if files.changes.timestamp.is_some() || files.changes.snapshot.is_some() {
        return false;
    }
    files.changes.rows.is_empty() && files.blobs.is_empty()
}

// The last root.
fn last_root(files: &Effects) -> Option<&File<Root>>
    ensures { option_map (λ f. root_file f.now) result ≡ last_or None (effects_view files.now).roots }
{
    match files.changes.roots.last() {
        Some(root) => Some(root),
        None => None,
    }
}

// Whether all are held under the last root, or there is none.
fn are_under_root(files: &Effects) -> bool
    requires { AreRead (effects_view files.now) }
    ensures some { IsTrue result → IfSome (last_or None (effects_view files.now).roots) (IsHeldUnder (laid (effects_view files.now)).trusted) }
    ensures none { IsTrue result → IfNone (last_or None (effects_view files.now).roots) (IsBare (effects_view files.now)) }
    ensures otherwise { IfSome (last_or None (effects_view files.now).roots) (IsHeldUnder (laid (effects_view files.now)).trusted)
        → IfNone (last_or None (effects_view files.now).roots) (IsBare (effects_view files.now)) → IsTrue result }
{
    match last_root(files) {
        Some(root) => is_held(files, root),
        None => is_bare(files),
    }
}

/// Whether these are all the files of a state.
pub fn is_state(files: &Effects) -> bool
    requires { AreRead (effects_view files.now) }
    ensures { IsTrue result ↔ (IsState (laid (effects_view files.now))) }
{
    if files.changes.roots.len() > MOST_HELD {
        return false;
    }
    if !is_shelf(&files.changes.rows) {
        return false;
    }
    if !are_blobs(&files.blobs) {
        return false;
    }
    are_under_root(files)
}

// Whether the digests of lengths rise.
fn lengths_rise(lengths: &[BlobLength]) -> bool
    ensures { result ≡ rises before (length_views lengths.now) }
{
    let mut rest = lengths;
    'lengths: while let Some((length, later)) = rest.split_first() {
        if !is_before_lengths(length, later) {
            return false;
        }
        rest = later;
    }
    true
}

// Whether a digest is before the first of these.
fn is_before_lengths(length: &BlobLength, later: &[BlobLength]) -> bool
    ensures { result ≡ comes_first before length.now.digest.0 (length_views later.now) }
{
    match later.first() {
        Some(next) => is_before(&length.digest.0, &next.digest.0),
        None => true,
    }
}

// Whether each is few enough for a blob.
fn each_is_short(lengths: &[BlobLength]) -> bool
    ensures { IsTrue result ↔ (All (λ b. b.1 ≤ blob_limit) (length_views lengths.now)) }
{
    let mut rest = lengths;
    'lengths: while let Some((length, later)) = rest.split_first() {
        if length.length > BLOB_LIMIT {
            return false;
        }
        rest = later;
    }
    true
}

/// Whether these may be the blobs of what is held beside what is trusted.
pub fn may_be_held(trusted: &Trusted, lengths: &[BlobLength]) -> bool
    requires { IsTrusted (trusted_view trusted.now) }
    ensures { IsTrue result ↔ (IsHeld (record { trusted = trusted_view trusted.now; blobs = length_views lengths.now })) }
{
    if lengths.len() > MOST_HELD {
        return false;
    }
    if !lengths_rise(lengths) {
        return false;
    }
    if !has_root_or_none(trusted, lengths) {
        return false;
    }
    each_is_short(lengths)
}

// Whether a root is trusted, or there is no blob.
fn has_root_or_none(trusted: &Trusted, lengths: &[BlobLength]) -> bool
    ensures { IsTrue result ↔ IfNone (trusted_view trusted.now).root (length_views lengths.now ≡ []) }
{
    match trusted.root.as_ref() {
        Some(_) => true,
        None => lengths.is_empty(),
    }
}

//! Snapshots: the order of their checks.
ghost use Rattle.std.specs.Prelude.{◌≡◌, Some};
ghost use Rattle.metadata.specs.FileViews.{root_file, timestamp_file, snapshot_file};
ghost use Rattle.trusted_state.specs.Answers.{Gives};
ghost use Rattle.trusted_state.specs.steps.Judging.{Judges, Ends};
ghost use Rattle.trust_rules.specs.Offers as commands;
ghost use Rattle.trusted_state.specs.Views.{draft_view};
ghost use Rattle.std.specs.Option.{option_map};

use crate::compared::{has_no_drop, has_no_rollback};
use crate::files::new_snapshot;
use delegations::{has_hash, has_length};
use denials::Denial;
use metadata::{File, Moment, Root, Snapshot, Timestamp, live};
use std::alloc::Global;
use trusted_state::draft::Draft;
use trusted_state::liveness::live_timestamp;
use trusted_state::pieces::checks::{has_bytes, is_signed};
use trusted_state::refusal::Refusal;

// Whether a new snapshot may follow the held one.
pub(crate) fn after_snapshot(
    held: Option<&File<Snapshot>>,
    new: &File<Snapshot>,
) -> Result<(), Refusal>
    ensures { Gives (commands.after_snapshot (option_map (λ f. snapshot_file f.now) held.entry) (snapshot_file new.now)) (λ u. u) result }
{
    let Some(old) = held else {
        return Ok(());
    };
    if !has_no_rollback(&old.body, &new.body) {
        return Err(Refusal::Denied(Denial::SnapshotRollback));
    }
    if !has_no_drop(&old.body, &new.body) {
        return Err(Refusal::Denied(Denial::RoleDropped));
    }
    Ok(())
}

// Whether the timestamp names a new snapshot, which is signed.
fn named_snapshot(
    timestamp: &File<Timestamp>,
    root: &File<Root>,
    new: &File<Snapshot>,
) -> Result<(), Refusal>
    ensures { Gives (commands.named_snapshot (timestamp_file timestamp.now) (root_file root.now) (snapshot_file new.now)) (λ u. u) result }
{
    if !has_length(&timestamp.body.snapshot, &new.source) {
        return Err(Refusal::Denied(Denial::SnapshotLength));
    }
    if !has_hash(&timestamp.body.snapshot, &new.source) {
        return Err(Refusal::Denied(Denial::SnapshotHash));
    }
    if !is_signed(&root.body.snapshot, &root.body.keys, &new.source) {
        return Err(Refusal::Denied(Denial::SnapshotThreshold));
    }
    if new.body.version != timestamp.body.snapshot.version {
        return Err(Refusal::Denied(Denial::SnapshotVersion));
    }
    Ok(())
}

// Whether a new snapshot is taken, or is the held one.
fn judge_snapshot(
    draft: &Draft<'_>,
    root: &File<Root>,
    new: &File<Snapshot>,
    now: Moment,
) -> Result<bool, Refusal>
    ensures { Judges (commands.renew_snapshot (draft_view draft.now) (root_file root.now) (snapshot_file new.now) now)
        (record (draft_view draft.now) { snapshot = Some (snapshot_file new.now) }) result }
{
    let timestamp = live_timestamp(draft.timestamp(), root, now)?;
    named_snapshot(timestamp, root, new)?;
    after_snapshot(draft.snapshot(), new)?;
    if !live(new.body.expires, now) {
        return Err(Refusal::Denied(Denial::SnapshotExpired));
    }
    if has_bytes(draft.snapshot(), new.source.bytes()) {
        return Ok(false);
    }
    Ok(true)
}

// Offers a snapshot. The answer is whether it was taken.
pub(crate) fn offer_snapshot(
    alloc: Global,
    draft: &mut Draft<'_>,
    bytes: &[u8],
    now: Moment,
) -> Result<bool, Refusal>
    ensures ends { Ends (commands.offer_snapshot (draft_view draft.old) bytes.now now) (draft_view draft.old) (draft_view draft.new) result }
    ensures base { draft.new.base.now ≡ draft.old.base.now }
{
    let Some(root) = draft.root() else {
        return Err(Refusal::Denied(Denial::NoRoot));
    };
    let new = new_snapshot(alloc, bytes)?;
    if !judge_snapshot(draft, root, &new, now)? {
        return Ok(false);
    }
    draft.put_snapshot(new);
    Ok(true)
}

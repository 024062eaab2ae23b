//! Which of what is held is live at a moment, and named by what is above it.
ghost use Rattle.metadata.specs.FileViews.{root_file, timestamp_file, snapshot_file};
ghost use Rattle.trusted_state.specs.Answers.{Gives};
ghost use Rattle.trust_rules.specs.Offers as commands;
ghost use Rattle.std.specs.Prelude.{◌≡◌, Some, IfOk};
ghost use Rattle.std.specs.Option.{option_map};

use crate::refusal::Refusal;
use denials::Denial;
use metadata::{File, Moment, Root, Snapshot, Timestamp, live};
use state_parts::checks::names_snapshot;

/// The held timestamp, where root and timestamp are live.
pub fn live_timestamp<'a>(
    timestamp: Option<&'a File<Timestamp>>,
    root: &File<Root>,
    now: Moment,
) -> Result<&'a File<Timestamp>, Refusal>
    ensures { Gives (commands.live_timestamp (option_map (λ f. timestamp_file f.now) timestamp.entry) (root_file root.now) now) (λ f. timestamp_file f.now) result }
{
    if !live(root.body.expires, now) {
        return Err(Refusal::Denied(Denial::RootExpired));
    }
    let Some(timestamp) = timestamp else {
        return Err(Refusal::Denied(Denial::NoTimestamp));
    };
    if !live(timestamp.body.expires, now) {
        return Err(Refusal::Denied(Denial::TimestampExpired));
    }
    Ok(timestamp)
}

/// The held snapshot, where the live timestamp names it and it is live.
pub fn live_snapshot<'a>(
    timestamp: Option<&File<Timestamp>>,
    snapshot: Option<&'a File<Snapshot>>,
    root: &File<Root>,
    now: Moment,
) -> Result<&'a File<Snapshot>, Refusal>
    ensures answer { Gives (commands.live_snapshot (option_map (λ f. timestamp_file f.now) timestamp.entry) (option_map (λ f. snapshot_file f.now) snapshot.entry) (root_file root.now) now)
        (λ f. snapshot_file f.now) result }
    ensures held { IfOk result (λ f. snapshot.entry ≡ Some f) }
{
    let timestamp = live_timestamp(timestamp, root, now)?;
    let Some(snapshot) = snapshot else {
        return Err(Refusal::Denied(Denial::NoSnapshot));
    };
    if !names_snapshot(timestamp, snapshot) {
        return Err(Refusal::Denied(Denial::SnapshotStale));
    }
    if !live(snapshot.body.expires, now) {
        return Err(Refusal::Denied(Denial::SnapshotExpired));
    }
    Ok(snapshot)
}

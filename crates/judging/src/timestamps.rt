//! Timestamps: the order of their checks.
ghost use Rattle.std.specs.Prelude.{◌≡◌, Some};
ghost use Rattle.metadata.specs.FileViews.{root_file, timestamp_file};
ghost use Rattle.trusted_state.specs.steps.Judging.{Judges, Ends};
ghost use Rattle.trust_rules.specs.Offers as commands;
ghost use Rattle.trusted_state.specs.Views.{draft_view};
ghost use Rattle.std.specs.Option.{option_map};

use crate::files::new_timestamp;
use denials::Denial;
use metadata::{File, Moment, Root, Timestamp, live};
use std::alloc::Global;
use trusted_state::draft::Draft;
use trusted_state::pieces::checks::is_signed;
use trusted_state::refusal::Refusal;

// Whether a new timestamp may follow the held one, or has its version.
pub(crate) fn after_timestamp(
    held: Option<&File<Timestamp>>,
    new: &File<Timestamp>,
) -> Result<bool, Refusal>
    ensures { Judges (commands.after_timestamp (option_map (λ f. timestamp_file f.now) held.entry) (timestamp_file new.now)) tt result }
{
    let Some(old) = held else {
        return Ok(true);
    };
    if new.body.version < old.body.version {
        return Err(Refusal::Denied(Denial::TimestampRollback));
    }
    if new.body.version == old.body.version {
        return Ok(false);
    }
    if new.body.snapshot.version < old.body.snapshot.version {
        return Err(Refusal::Denied(Denial::NamedSnapshotRollback));
    }
    Ok(true)
}

// Whether a new timestamp is taken, or has the version of the held one.
fn judge_timestamp(
    draft: &Draft<'_>,
    root: &File<Root>,
    new: &File<Timestamp>,
    now: Moment,
) -> Result<bool, Refusal>
    ensures { Judges (commands.renew_timestamp (draft_view draft.now) (root_file root.now) (timestamp_file new.now) now)
        (record (draft_view draft.now) { timestamp = Some (timestamp_file new.now) }) result }
{
    if !live(root.body.expires, now) {
        return Err(Refusal::Denied(Denial::RootExpired));
    }
    if !is_signed(&root.body.timestamp, &root.body.keys, &new.source) {
        return Err(Refusal::Denied(Denial::TimestampThreshold));
    }
    if !after_timestamp(draft.timestamp(), new)? {
        return Ok(false);
    }
    if !live(new.body.expires, now) {
        return Err(Refusal::Denied(Denial::TimestampExpired));
    }
    Ok(true)
}

// Offers a timestamp. The answer is whether it was taken.
pub(crate) fn offer_timestamp(
    alloc: Global,
    draft: &mut Draft<'_>,
    bytes: &[u8],
    now: Moment,
) -> Result<bool, Refusal>
    ensures ends { Ends (commands.offer_timestamp (draft_view draft.old) bytes.now now) (draft_view draft.old) (draft_view draft.new) result }
    ensures base { draft.new.base.now ≡ draft.old.base.now }
{
    let Some(root) = draft.root() else {
        return Err(Refusal::Denied(Denial::NoRoot));
    };
    let new = new_timestamp(alloc, bytes)?;
    if !judge_timestamp(draft, root, &new, now)? {
        return Ok(false);
    }
    draft.put_timestamp(new);
    Ok(true)
}

//! What a document may follow, by what it and the held one say: the part of the orders of checks that needs no signature and no moment.
ghost use Rattle.judging.specs.Following.{follows as follow_order, root_follows, follows_by};
ghost use Rattle.metadata.specs.File.{root_form, timestamp_form, snapshot_form};
ghost use Rattle.metadata.specs.FileViews.{root_file};
ghost use Rattle.trust_rules.specs.Offers.{after_timestamp as timestamp_order, after_snapshot as snapshot_order};
ghost use Rattle.trusted_state.specs.Answers.{Gives};
ghost use Rattle.trusted_state.specs.steps.Judging.{Judges};
ghost use Rattle.std.specs.Prelude.{Some};

use crate::files::{new_root, new_snapshot, new_timestamp};
use crate::snapshots::after_snapshot;
use crate::timestamps::after_timestamp;
use denials::Denial;
use metadata::{File, Kind, Root};
use std::alloc::Global;
use trusted_state::pieces::checks::{is_next, keeps_profile};
use trusted_state::refusal::Refusal;

/// Whether a document of the kind may follow the one that is held, whoever signs it and whenever it is offered: `false` for a timestamp
/// of the held one's version, which would count as the same.
///
/// Denials, in their order: those of the shape of the held one, and of the new one; `RootVersion`, `ProfileLowered`;
/// `TimestampRollback`, `NamedSnapshotRollback`; `SnapshotRollback`, `RoleDropped` (TUF 1.0, sections 5.3 to 5.5).
pub fn follows(alloc: Global, kind: Kind, held: &[u8], bytes: &[u8]) -> Result<bool, Refusal>
    ensures { Judges (follow_order kind held.now bytes.now) tt result }
{
    match kind {
        Kind::Root => root_is_next(alloc, held, bytes),
        Kind::Timestamp => timestamp_is_next(alloc, held, bytes),
        Kind::Snapshot => snapshot_is_next(alloc, held, bytes),
        Kind::Targets | Kind::Layout | Kind::Link => Ok(true),
    }
}

fn root_is_next(alloc: Global, held: &[u8], bytes: &[u8]) -> Result<bool, Refusal>
    ensures { Judges (follows_by root_form root_follows held.now bytes.now) tt result }
{
    let old = new_root(alloc, held)?;
    let new = new_root(alloc, bytes)?;
    after_root(&old, &new)?;
    Ok(true)
}

/// Whether a new root may follow the held one.
pub(crate) fn after_root(old: &File<Root>, new: &File<Root>) -> Result<(), Refusal>
    ensures { Gives (root_follows (root_file old.now) (root_file new.now)) (λ u. u) result }
{
    if !is_next(old.body.version, new.body.version) {
        return Err(Refusal::Denied(Denial::RootVersion));
    }
    if !keeps_profile(&old.body, &new.body) {
        return Err(Refusal::Denied(Denial::ProfileLowered));
    }
    Ok(())
}

fn timestamp_is_next(alloc: Global, held: &[u8], bytes: &[u8]) -> Result<bool, Refusal>
    ensures { Judges (follows_by timestamp_form (λ old new. timestamp_order (Some old) new) held.now bytes.now) tt result }
{
    let old = new_timestamp(alloc, held)?;
    let new = new_timestamp(alloc, bytes)?;
    after_timestamp(Some(&old), &new)
}

fn snapshot_is_next(alloc: Global, held: &[u8], bytes: &[u8]) -> Result<bool, Refusal>
    ensures { Judges (follows_by snapshot_form (λ old new. snapshot_order (Some old) new) held.now bytes.now) tt result }
{
    let old = new_snapshot(alloc, held)?;
    let new = new_snapshot(alloc, bytes)?;
    after_snapshot(Some(&old), &new)?;
    Ok(true)
}

// The files that are offered, as documents of their kinds.
ghost use Rattle.std.specs.Prelude.{◌≡◌, IfOk};
ghost use Rattle.metadata.specs.File.{root_form, timestamp_form, snapshot_form, targets_form};
ghost use Rattle.metadata.specs.FileViews.{root_file, timestamp_file, snapshot_file, targets_file};
ghost use Rattle.metadata.specs.Shaped.{shaped};
ghost use Rattle.trusted_state.specs.Answers.{Gives};

use metadata::{
    File, Root, Snapshot, Targets, Timestamp, read_root_file, read_snapshot_file,
    read_targets_file, read_timestamp_file,
};
use std::alloc::Global;
use trusted_state::refusal::Refusal;

/// The file as root metadata, or the first check of its shape that fails.
pub(crate) fn new_root(alloc: Global, bytes: &[u8]) -> Result<File<Root>, Refusal>
    ensures shape { Gives (shaped root_form bytes.now) root_file result }
    ensures bytes { IfOk result (λ f. (root_file f).bytes ≡ bytes.now) }
{
    Ok(read_root_file(alloc, bytes)?)
}

/// The file as timestamp metadata, or the first check of its shape that fails.
pub(crate) fn new_timestamp(alloc: Global, bytes: &[u8]) -> Result<File<Timestamp>, Refusal>
    ensures shape { Gives (shaped timestamp_form bytes.now) timestamp_file result }
    ensures bytes { IfOk result (λ f. (timestamp_file f).bytes ≡ bytes.now) }
{
    Ok(read_timestamp_file(alloc, bytes)?)
}

/// The file as snapshot metadata, or the first check of its shape that fails.
pub(crate) fn new_snapshot(alloc: Global, bytes: &[u8]) -> Result<File<Snapshot>, Refusal>
    ensures shape { Gives (shaped snapshot_form bytes.now) snapshot_file result }
    ensures bytes { IfOk result (λ f. (snapshot_file f).bytes ≡ bytes.now) }
{
    Ok(read_snapshot_file(alloc, bytes)?)
}

/// The file as targets metadata, or the first check of its shape that fails.
pub(crate) fn new_targets(alloc: Global, bytes: &[u8]) -> Result<File<Targets>, Refusal>
    ensures shape { Gives (shaped targets_form bytes.now) targets_file result }
    ensures bytes { IfOk result (λ f. (targets_file f).bytes ≡ bytes.now) }
{
    Ok(read_targets_file(alloc, bytes)?)
}

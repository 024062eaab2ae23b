//! Pruning: what the listed documents do not ask for goes.
ghost use Rattle.std.specs.Prelude.{◌≡◌, IfOk, bytes_eq, filter, map, not, option_map};
ghost use Rattle.delegations.specs.Delegation.{before};
ghost use Rattle.delegations.specs.Rows.{Rises};
ghost use Rattle.delegations.specs.Views.{row_views};
ghost use Rattle.metadata.specs.FileViews.{snapshot_file};
ghost use Rattle.document_parts.specs.Views.{listing_view};
ghost use Rattle.granting.specs.Answers.{Answers, ChangesNoGrant, CountsGone};
ghost use Rattle.trust_rules.specs.Offers as commands;
ghost use Rattle.trust_rules.specs.Offers.{kept_rows};
ghost use Rattle.trust_rules.specs.Effects.{no_effects, without};
ghost use Rattle.trust_rules.specs.Held.{OfEachState};
ghost use Rattle.granting.specs.Knowing.{CarriesKnown, CarriesVerdicts, IsKnown};
ghost use Rattle.granting.specs.PartViews.{digest_views, effects_view, gone_view, length_views};
ghost use Rattle.trust_rules.specs.steps.Pruning.{digests_of, gone_of, listed_rows, unlisted_places, without_listed};

use crate::laws::prune_keeps_answers;
use delegations::Row;
use denials::Denial;
use granting::trusted::held::Held;
use granting::trusted::knowing::listed_verdicts;
use granting::trusted::outcome::Outcome;
use granting::trusted::pieces::effects::{Changes, Effects, Gone};
use granting::trusted::pieces::finding::{is_same, length_of};
use granting::trusted::pieces::parts::BlobLength;
use granting::trusted::refusal::Refusal;
use granting::trusted::state::State;
use metadata::{File, Listing, Snapshot};
use path_patterns::{Digest, RoleName};
use std::alloc::{AllocError, Global};
use trust_rules::stays_valid;

/// Takes away the shelf rows at versions that the snapshot does not list, and the blobs that none of the rows that stay lists; without a
/// snapshot, all of them. Each request for a target has the same end as before. Denial: no root is trusted.
pub fn prune(alloc: Global, state: &State) -> Result<Outcome, Refusal>
    ensures answers { Answers state.now.state (commands.prune state.now.state) result }
    ensures known { CarriesKnown state.now.state result }
    ensures alike { ChangesNoGrant state.now.state result }
    ensures counts { CountsGone state.now.state result }
{
    state.is_valid();
    prune_on(alloc, state.held())
}

/// The same, where the blobs are elsewhere.
pub fn prune_on(alloc: Global, held: &Held) -> Result<Outcome, Refusal>
    ensures answers { OfEachState held.now.held (λ S. Answers S (commands.prune S) result) }
    ensures known { CarriesVerdicts held.now.held.trusted result }
    ensures alike { OfEachState held.now.held (λ S. ChangesNoGrant S result) }
    ensures counts { OfEachState held.now.held (λ S. CountsGone S result) }
{
    stays_valid();
    prune_keeps_answers();
    if held.trusted().root.is_none() {
        return Err(Refusal::Denied(Denial::NoRoot));
    }
    let effects = pruning(alloc, held)?;
    Ok(Outcome::Changed(effects))
}

// What goes, as the only change.
fn pruning(alloc: Global, held: &Held) -> Result<Effects, AllocError>
    ensures made { IfOk result (λ e. effects_view e ≡ record no_effects { gone = gone_of held.now.held }) }
    ensures known { IfOk result (λ e. IsKnown (record held.now.held.trusted { shelf = kept_rows held.now.held.trusted }) e.verdicts) }
{
    let gone = unlisted(alloc, held)?;
    let verdicts = listed_verdicts(alloc, held)?;
    Ok(Effects {
        changes: Changes::new(alloc),
        blobs: Vec::new(alloc),
        gone,
        verdicts,
    })
}

// The rows at versions that are not listed, and the blobs that no other row lists.
fn unlisted(alloc: Global, held: &Held) -> Result<Gone, AllocError>
    ensures { IfOk result (λ gone. gone_view gone ≡ gone_of held.now.held) }
{
    let trusted = held.trusted();
    let snapshot = &trusted.snapshot;
    let rows = unlisted_rows(alloc, snapshot, &trusted.shelf)?;
    let left = unwanted(alloc, snapshot, &trusted.shelf, held.lengths())?;
    let blobs = digests(alloc, &left)?;
    Ok(Gone { rows, blobs })
}

// Whether the snapshot lists the row's role at its version.
fn is_listed(snapshot: &Option<File<Snapshot>>, row: &Row) -> bool
    ensures { result ≡ commands.is_listed (option_map snapshot_file snapshot.now) (row.now.role, row.now.version) }
{
    let Some(file) = snapshot else {
        return false;
    };
    let Some(entry) = file.body.entry(row.role.as_str()) else {
        return false;
    };
    entry.version == row.version
}

// The places of rows at versions that the snapshot does not list.
fn unlisted_rows(
    alloc: Global,
    snapshot: &Option<File<Snapshot>>,
    shelf: &[Row],
) -> Result<Vec<(RoleName, u32)>, AllocError>
    ensures { IfOk result (λ gone. gone.items ≡ unlisted_places (option_map snapshot_file snapshot.now) (row_views shelf.now)) }
{
    let mut gone = Vec::new(alloc);
    let mut rest = shelf;
    'rows: while let Some((row, later)) = rest.split_first() {
        if !is_listed(snapshot, row) {
            gone.push((row.role.clone()?, row.version))?;
        }
        rest = later;
    }
    Ok(gone)
}

// Digest and length of the blobs that no listed row lists.
fn unwanted(
    alloc: Global,
    snapshot: &Option<File<Snapshot>>,
    shelf: &[Row],
    lengths: &[BlobLength],
) -> Result<Vec<BlobLength>, AllocError>
    requires { Rises before (length_views lengths.now) }
    ensures { IfOk result (λ left. length_views left.items ≡ without_listed (length_views lengths.now)
        (listed_rows (option_map snapshot_file snapshot.now) (row_views shelf.now))) }
{
    let mut left = Vec::from_slice(alloc, lengths)?;
    let mut rest = shelf;
    'rows: while let Some((row, later)) = rest.split_first() {
        if is_listed(snapshot, row) {
            leave_out(&mut left, &row.file.body.targets);
        }
        rest = later;
    }
    Ok(left)
}

// Takes away what these list.
fn leave_out(left: &mut Vec<BlobLength>, listings: &[Listing])
    requires { Rises before (length_views left.old.items) }
    ensures order { Rises before (length_views left.new.items) }
    ensures left { length_views left.new.items ≡ without bytes_eq (length_views left.old.items) (digests_of (map listing_view listings.now)) }
{
    let mut rest = listings;
    'listings: while let Some((listing, later)) = rest.split_first() {
        leave_one_out(left, &listing.digest);
        rest = later;
    }
}

// Takes away one, if it is there.
fn leave_one_out(left: &mut Vec<BlobLength>, digest: &Digest)
    requires { Rises before (length_views left.old.items) }
    ensures order { Rises before (length_views left.new.items) }
    ensures left { length_views left.new.items ≡ filter (λ b. not (bytes_eq b.0 digest.now.0)) (length_views left.old.items) }
{
    let Some(_) = length_of(left, digest) else {
        return;
    };
    left.retain(
        |blob: &BlobLength| -> bool
            ensures { result ≡ not (bytes_eq blob.now.digest.0 digest.entry.now.0) }
        { !is_same(&blob.digest, digest) },
    );
}

// The digests of blobs.
fn digests(alloc: Global, lengths: &[BlobLength]) -> Result<Vec<Digest>, AllocError>
    ensures { IfOk result (λ digests. digest_views digests.items ≡ map (λ b. b.0) (length_views lengths.now)) }
{
    let mut digests = Vec::with_capacity(alloc, lengths.len())?;
    let mut rest = lengths;
    'blobs: while let Some((blob, later)) = rest.split_first() {
        digests.push(blob.digest)?;
        rest = later;
    }
    Ok(digests)
}

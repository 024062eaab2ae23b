//! What follows what: profiles and rules of roots, entries of snapshots, and what belongs together.
ghost use Rattle.std.specs.Prelude.{◌≡◌, ◌↔◌, IsTrue, is_some};
ghost use Rattle.std.specs.Option.{option_map};
ghost use Rattle.metadata.specs.FileViews.{timestamp_file, snapshot_file};
ghost use Rattle.document_parts.specs.Views.{meta_view, root_view, snapshot_view};
ghost use Rattle.delegations.specs.Rows.{named_row};
ghost use Rattle.delegations.specs.Views.{rows_view};
ghost use Rattle.trust_rules.specs.Offers.{KeepsRoles, NoRollback, NoDrop};
ghost use Rattle.trust_rules.specs.State.{AreCoherent, HoldsAll};

use delegations::{Rows, has_hash, has_length};
use keys_roles::same_rule;
use metadata::{File, Meta, Root, Snapshot, Timestamp};
use trusted_state::pieces::checks::names_snapshot;

/// Whether the rules of the timestamp and the snapshot role ask for the same keys: a root that does not keep them makes what is trusted
/// forget timestamp, snapshot and shelf (TUF 1.0, section 5.3.11). It takes no memory.
pub fn keeps_roles(old: &Root, new: &Root) -> bool
    ensures { IsTrue result ↔ (KeepsRoles (root_view old.now) (root_view new.now)) }
{
    same_rule(&old.timestamp, &old.keys, &new.timestamp, &new.keys)
        && same_rule(&old.snapshot, &old.keys, &new.snapshot, &new.keys)
}

/// Whether no role that both list has a lower version in the new one.
pub(crate) fn has_no_rollback(old: &Snapshot, new: &Snapshot) -> bool
    ensures { IsTrue result ↔ (NoRollback (snapshot_view old.now) (snapshot_view new.now)) }
{
    let mut rest = old.meta.as_slice();
    'rows: while let Some((row, later)) = rest.split_first() {
        if let Some(entry) = new.entry(row.0.as_str()) {
            if entry.version < row.1.version {
                return false;
            }
        }
        rest = later;
    }
    true
}

/// Whether the new one lists each role of the old one.
pub(crate) fn has_no_drop(old: &Snapshot, new: &Snapshot) -> bool
    ensures { IsTrue result ↔ (NoDrop (snapshot_view old.now) (snapshot_view new.now)) }
{
    let mut rest = old.meta.as_slice();
    'rows: while let Some((row, later)) = rest.split_first() {
        if new.entry(row.0.as_str()).is_none() {
            return false;
        }
        rest = later;
    }
    true
}

/// Whether timestamp, snapshot and shelf belong together.
pub(crate) fn are_coherent(
    timestamp: Option<&File<Timestamp>>,
    snapshot: Option<&File<Snapshot>>,
    rows: Rows<'_>,
) -> bool
    ensures { IsTrue result ↔ (AreCoherent (option_map (λ f. timestamp_file f.now) timestamp.entry) (option_map (λ f. snapshot_file f.now) snapshot.entry) (rows_view rows.entry)) }
{
    match (timestamp, snapshot) {
        (None, None) => true,
        (Some(timestamp), Some(snapshot)) => {
            names_snapshot(timestamp, snapshot) && holds_all(snapshot, rows)
        }
        _ => false,
    }
}

// Whether each role that the snapshot lists has its document on the shelf.
fn holds_all(snapshot: &File<Snapshot>, rows: Rows<'_>) -> bool
    ensures { IsTrue result ↔ (HoldsAll (rows_view rows.entry) (snapshot_file snapshot.now)) }
{
    let mut rest = snapshot.body.meta.as_slice();
    'rows: while let Some((row, later)) = rest.split_first() {
        if !holds(row.0.as_str(), &row.1, rows) {
            return false;
        }
        rest = later;
    }
    true
}

// Whether the document that the entry names stands on the shelf.
fn holds(role: &str, entry: &Meta, rows: Rows<'_>) -> bool
    ensures { result ≡ is_some (named_row (rows_view rows.entry) role.now (meta_view entry.now)) }
{
    match rows.row_at(role, entry.version) {
        Some(file) => has_length(entry, &file.source) && has_hash(entry, &file.source),
        None => false,
    }
}

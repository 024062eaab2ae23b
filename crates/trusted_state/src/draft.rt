//! What is trusted after the changes that a command has made so far.
ghost use Rattle.std.specs.Prelude.{◌≡◌, ◌↔◌, ◌<◌, ◌+◌, ◌^◌, [], None, Some, MatchOption, IfOk, IsTrue, length, cond};
ghost use Rattle.std.specs.Option.{option_map};
ghost use Rattle.metadata.specs.FileViews.{root_file, timestamp_file, snapshot_file, targets_file};
ghost use Rattle.delegations.specs.Rows.{Rises, place_before};
ghost use Rattle.delegations.specs.RowViews.{row_views};
ghost use Rattle.limits.specs.Limits.{most_held};
ghost use Rattle.trust_rules.specs.Offers.{with_root, emptied};

use delegations::{Row, Rows};
use limits::MOST_HELD;
use metadata::{File, Root, Snapshot, Targets, Timestamp};
use state_parts::effects::Changes;
use state_parts::parts::Trusted;
use std::alloc::{AllocError, Global};

/// What a state trusts, and the changes made to it so far.
#[derive(Drop)]
pub struct Draft<'a> {
    base: &'a Trusted,
    changes: Changes,
    ghost in_order: { Rises place_before (row_views base.now.shelf.items) },
}

impl<'a> Draft<'a> {
    ghost use Rattle.delegations.specs.Rows.{row_at, with_row};
    ghost use Rattle.delegations.specs.Views.{rows_view};
    ghost use Rattle.state_parts.specs.Views.{trusted_view};
    ghost use Rattle.trusted_state.specs.Views.{draft_view};

    /// What is trusted as it is.
    pub fn new(alloc: Global, base: &'a Trusted) -> Draft<'a>
        requires { Rises place_before (trusted_view base.now).shelf }
        ensures view { draft_view result ≡ trusted_view base.now }
        ensures base { result.base.now ≡ base.now }
    {
        Draft {
            base,
            changes: Changes::new(alloc),
        }
    }

    /// What is trusted with these changes.
    pub fn over(base: &'a Trusted, changes: Changes) -> Draft<'a>
        requires { Rises place_before (trusted_view base.now).shelf }
        ensures base { result.base.now ≡ base.now }
        ensures changes { result.changes ≡ changes }
    {
        Draft { base, changes }
    }

    /// The changes.
    pub fn into_changes(self) -> Changes
        ensures { result ≡ self.entry.changes }
    {
        let Draft { base: _, changes } = self;
        changes
    }

    /// The last root.
    pub fn root(&self) -> Option<&File<Root>>
        ensures { MatchOption result ((draft_view self.now).root ≡ None) (λ f. (draft_view self.now).root ≡ Some (root_file f.now)) }
    {
        match self.changes.roots.last() {
            Some(file) => Some(file),
            None => self.base.root.as_ref(),
        }
    }

    /// The current timestamp.
    pub fn timestamp(&self) -> Option<&File<Timestamp>>
        ensures { option_map (λ f. timestamp_file f.now) result ≡ (draft_view self.now).timestamp }
    {
        if self.changes.timestamp.is_some() || self.changes.emptied {
            self.changes.timestamp.as_ref()
        } else {
            self.base.timestamp.as_ref()
        }
    }

    /// The current snapshot.
    pub fn snapshot(&self) -> Option<&File<Snapshot>>
        ensures { option_map (λ f. snapshot_file f.now) result ≡ (draft_view self.now).snapshot }
    {
        if self.changes.snapshot.is_some() || self.changes.emptied {
            self.changes.snapshot.as_ref()
        } else {
            self.base.snapshot.as_ref()
        }
    }

    /// The shelf.
    pub fn rows(&self) -> Rows<'_>
        ensures view { rows_view result ≡ (draft_view self.now).shelf }
        ensures held { row_views result.held.now ≡ cond self.now.changes.emptied [] (trusted_view self.now.base.now).shelf }
    {
        let held = if self.changes.emptied {
            &self.base.shelf[..0]
        } else {
            &self.base.shelf[..]
        };
        Rows {
            held,
            added: &self.changes.rows,
        }
    }

    /// The document of the role with this version.
    pub fn row_at(&self, role: &str, version: u32) -> Option<&File<Targets>>
        ensures { option_map (λ f. targets_file f.now) result ≡ row_at (draft_view self.now).shelf role.now version }
    {
        self.rows().row_at(role, version)
    }

    /// Whether one more row may be held.
    pub fn has_room_for_row(&self) -> bool
        ensures { IsTrue result ↔ length (draft_view self.now).shelf < most_held }
    {
        let rows = self.rows();
        has_room(rows.held.len(), rows.added.len())
    }

    /// Whether one more root may be held.
    pub fn has_room_for_root(&self) -> bool
        ensures { IsTrue result ↔ length (draft_view self.now).roots < most_held }
    {
        let held = self.base.earlier.len() + self.changes.roots.len();
        held + usize::from(self.base.root.is_some()) < MOST_HELD
    }

    /// Puts a root there, and empties timestamp, snapshot and shelf unless the roles are kept.
    pub fn put_root(&mut self, file: File<Root>, keeps: bool) -> Result<(), AllocError>
        ensures view { IfOk result (λ _. draft_view self.new
            ≡ cond keeps (with_root (draft_view self.old) (root_file file)) (emptied (with_root (draft_view self.old) (root_file file)))) }
        ensures base { self.new.base.now ≡ self.old.base.now }
    {
        self.changes.roots.push(file)?;
        if !keeps {
            self.changes.emptied = true;
            self.changes.timestamp = None;
            self.changes.snapshot = None;
            self.changes.rows.clear();
        }
        Ok(())
    }

    /// Puts a timestamp there.
    pub fn put_timestamp(&mut self, file: File<Timestamp>)
        ensures view { draft_view self.new ≡ record (draft_view self.old) { timestamp = Some (timestamp_file file) } }
        ensures base { self.new.base.now ≡ self.old.base.now }
    {
        self.changes.timestamp = Some(file);
    }

    /// Puts a snapshot there.
    pub fn put_snapshot(&mut self, file: File<Snapshot>)
        ensures view { draft_view self.new ≡ record (draft_view self.old) { snapshot = Some (snapshot_file file) } }
        ensures base { self.new.base.now ≡ self.old.base.now }
    {
        self.changes.snapshot = Some(file);
    }

    /// Puts a row on the shelf.
    pub fn put_row(&mut self, row: Row) -> Result<(), AllocError>
        ensures view { IfOk result (λ _. draft_view self.new
            ≡ record (draft_view self.old) { shelf = with_row place_before (draft_view self.old).shelf (row.role, row.version) (targets_file row.file) }) }
        ensures base { self.new.base.now ≡ self.old.base.now }
    {
        self.changes.rows.push(row)?;
        Ok(())
    }
}

// Whether one more may be held beside so many.
fn has_room(held: usize, added: usize) -> bool
    requires { held + added < 2 ^ 64 }
    ensures { IsTrue result ↔ held + added < most_held }
{
    held + added < MOST_HELD
}

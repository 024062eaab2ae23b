//! What a search reads, and what it answers.
ghost use Rattle.std.specs.Prelude.{◌≡◌};
ghost use Rattle.document_parts.specs.Views.{root_view, snapshot_view};
ghost use Rattle.delegations.specs.Search.{top_of};
ghost use Rattle.delegations.specs.Views.{edge_view, held_rows, row_views, rows_view, shelf_view};

use crate::rows::Rows;
use keys_roles::{KeyTable, RoleRule};
use metadata::{Listing, Root, Snapshot};

/// What a search reads: the rule of `targets` in the root, with the root's keys, the snapshot, and the shelf.
#[derive(Clone, Copy)]
pub struct Shelf<'a> {
    rule: &'a RoleRule,
    keys: &'a KeyTable,
    pub(crate) snapshot: &'a Snapshot,
    pub(crate) rows: Rows<'a>,
}

/// An edge into a role: the rule by which its document is judged, over a table of keys.
#[derive(Clone, Copy)]
pub(crate) struct Edge<'a> {
    pub(crate) role: &'a str,
    pub(crate) terminating: bool,
    pub(crate) rule: &'a RoleRule,
    pub(crate) keys: &'a KeyTable,
}

impl<'a> Shelf<'a> {
    /// The shelf under a root and a snapshot. It takes no memory.
    pub fn new(root: &'a Root, snapshot: &'a Snapshot, rows: Rows<'a>) -> Shelf<'a>
        ensures shelf { shelf_view result ≡ record { top = top_of (root_view root.now); listing = (snapshot_view snapshot.now).meta; rows = rows_view rows.entry } }
        ensures held { held_rows result ≡ row_views rows.entry.held.now }
    {
        Shelf {
            rule: &root.targets,
            keys: &root.keys,
            snapshot,
            rows,
        }
    }

    /// The edge into the top role, `targets`, by the root's rule.
    pub(crate) fn top(&self) -> Edge<'a>
        ensures { edge_view result ≡ (shelf_view self.now).top }
    {
        Edge {
            role: "targets",
            terminating: false,
            rule: self.rule,
            keys: self.keys,
        }
    }
}

/// What a search finds: the role whose document lists the path, and the listing.
#[derive(Clone, Copy)]
pub struct Found<'a> {
    pub role: &'a str,
    pub listing: &'a Listing,
}

/// Why a search finds nothing: the first check that fails.
#[derive(Debug, Clone, Copy, PartialEq, Eq)]
pub enum SearchDenial<'a> {
    /// The snapshot does not list the role.
    RoleUnlisted,
    /// No document of the role has the version that the snapshot lists.
    RoleMissing { role: &'a str, version: u32 },
    /// The document has another length than the snapshot lists.
    RoleLength,
    /// The document has another digest than the snapshot lists.
    RoleHash,
    /// The document does not meet the rule of its role.
    RoleThreshold,
    /// The document has expired.
    RoleExpired,
    /// The search asks for more visits than are made.
    TooManyRoles,
    /// No document that was visited lists the path.
    NotFound,
}

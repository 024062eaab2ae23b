//! What a command changes.
ghost use Rattle.std.specs.Prelude.{◌≡◌};
ghost use Rattle.trust_rules.specs.Effects.{no_effects, nothing_gone};
ghost use Rattle.state_parts.specs.Views.{changes_view, effects_view, gone_view};

use delegations::{Row, Verdicts};
use metadata::{File, Root, Snapshot, Timestamp};
use path_patterns::{Digest, RoleName};
use std::alloc::Global;

/// A file of a target with its digest.
#[derive(Drop)]
pub struct Blob {
    pub digest: Digest,
    pub bytes: Vec<u8>,
}

/// What a command changes of what is trusted: new roots in order; whether a rotation empties timestamp, snapshot and shelf; the
/// timestamp, the snapshot and the shelf rows that are put there after that.
#[derive(Drop)]
pub struct Changes {
    pub roots: Vec<File<Root>>,
    pub emptied: bool,
    pub timestamp: Option<File<Timestamp>>,
    pub snapshot: Option<File<Snapshot>>,
    pub rows: Vec<Row>,
}

/// What goes: shelf rows by role and version, blobs by digest.
#[derive(Drop)]
pub struct Gone {
    pub rows: Vec<(RoleName, u32)>,
    pub blobs: Vec<Digest>,
}

/// What a command changes: what goes of what was there; what is trusted; new blobs; and what is known of the signatures on the shelf
/// after all this.
#[derive(Drop)]
pub struct Effects {
    pub changes: Changes,
    pub blobs: Vec<Blob>,
    pub gone: Gone,
    pub verdicts: Verdicts,
}

impl Changes {
    /// No change.
    pub fn new(alloc: Global) -> Changes
        ensures { changes_view result ≡ no_effects }
    {
        Changes {
            roots: Vec::new(alloc),
            emptied: false,
            timestamp: None,
            snapshot: None,
            rows: Vec::new(alloc),
        }
    }
}

impl Gone {
    /// Nothing goes.
    pub fn new(alloc: Global) -> Gone
        ensures { gone_view result ≡ nothing_gone }
    {
        Gone {
            rows: Vec::new(alloc),
            blobs: Vec::new(alloc),
        }
    }
}

impl Effects {
    /// No change.
    pub fn new(alloc: Global) -> Effects
        ensures { effects_view result ≡ no_effects }
    {
        Effects::of(alloc, Changes::new(alloc))
    }

    /// Changes of what is trusted alone, after which nothing is known.
    pub fn of(alloc: Global, changes: Changes) -> Effects
        ensures { effects_view result ≡ changes_view changes }
    {
        Effects {
            changes,
            blobs: Vec::new(alloc),
            gone: Gone::new(alloc),
            verdicts: Verdicts::new(alloc),
        }
    }
}

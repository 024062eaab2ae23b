//! What a client's update goes by (TUF 1.0, sections 5.3 and 5.5).
ghost use Rattle.std.specs.Prelude.{◌≡◌, ◌↔◌, option_map, IsSomeAnd, IsTrue};
ghost use Rattle.metadata.specs.FileViews.{snapshot_file, timestamp_file};
ghost use Rattle.trust_rules.specs.State.{IsSnapshotDue, NamesSnapshot};
ghost use Rattle.state_parts.specs.Views.{trusted_view};

use crate::held::Held;
use crate::state::State;
use metadata::{File, Snapshot, Timestamp};
use state_parts::checks::names_snapshot;
use state_parts::parts::Trusted;

/// The version of the trusted root, and `None` where no root is trusted. It takes no memory.
pub fn root_version(state: &State) -> Option<u32>
    ensures { result ≡ option_map (λ root. root.body.version) state.now.state.trusted.root }
{
    state.held().root_version()
}

/// The version of the snapshot that the held timestamp names, and `None` where no timestamp is held or it names the held
/// snapshot. It takes no memory.
pub fn snapshot_due(state: &State) -> Option<u32>
    ensures { IsSnapshotDue state.now.state.trusted result }
{
    state.held().snapshot_due()
}

impl Held {
    /// `root_version`, where the blobs are elsewhere.
    pub fn root_version(&self) -> Option<u32>
        ensures { result ≡ option_map (λ root. root.body.version) self.now.held.trusted.root }
    {
        let root = self.trusted().root.as_ref()?;
        Some(root.body.version)
    }

    /// `snapshot_due`, where the blobs are elsewhere.
    pub fn snapshot_due(&self) -> Option<u32>
        ensures { IsSnapshotDue self.now.held.trusted result }
    {
        let trusted = self.trusted();
        let Some(timestamp) = trusted.timestamp.as_ref() else {
            return None;
        };
        if names_held(timestamp, trusted) {
            return None;
        }
        Some(timestamp.body.snapshot.version)
    }
}

// Whether the timestamp names the held snapshot.
fn names_held(timestamp: &File<Timestamp>, trusted: &Trusted) -> bool
    ensures { IsTrue result ↔ IsSomeAnd (trusted_view trusted.now).snapshot (NamesSnapshot (timestamp_file timestamp.now)) }
{
    match trusted.snapshot.as_ref() {
        Some(snapshot) => names_snapshot(timestamp, snapshot),
        None => false,
    }
}

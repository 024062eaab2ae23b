//! What is offered, and what comes of it.
ghost use Rattle.std.specs.Prelude.{◌≡◌};
ghost use Rattle.trust_rules.specs.Offers.{offer_of};
ghost use Rattle.trusted_state.specs.Views.{offer_view};

use path_patterns::RoleName;
use state_parts::effects::Effects;

/// What a document is offered as.
#[derive(Debug, Drop)]
pub enum Offer {
    Root,
    Timestamp,
    Snapshot,
    /// The targets document of a role.
    Targets(RoleName),
}

impl Offer {
    /// What a document of this role is offered as: `root`, `timestamp` and `snapshot` have documents of their own, and every other
    /// role has targets metadata. It takes no memory.
    pub fn of(role: RoleName) -> Offer
        ensures { offer_view result ≡ offer_of role }
    {
        match role.as_str() {
            "root" => Offer::Root,
            "timestamp" => Offer::Timestamp,
            "snapshot" => Offer::Snapshot,
            _ => Offer::Targets(role),
        }
    }
}

/// What a command does where no rule denies it.
#[derive(Drop)]
pub enum Outcome {
    /// It makes these changes.
    Changed(Effects),
    /// What it would make is there already.
    Same,
}

/// What a batch does where no rule denies it: its changes, and how many of its documents were taken, or were there already.
#[derive(Drop)]
pub struct Batched {
    pub effects: Effects,
    pub accepted: usize,
    pub same: usize,
}

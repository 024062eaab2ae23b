//! What hands a target on to others: the delegations of targets metadata (TUF 1.0, section 4.5, DELEGATIONS), and the layout, the links and
//! the reference of a target's supply chain (in-toto 1.0, sections 4.3 and 4.4; this project's profile of TUF 1.0, section 4.5, custom);
//! and the key that a word names.
//!
//! It knows no file and no clock: what a draft goes on from, and the document of which a key is asked, is handed in as bytes, and a draft is
//! bytes without signatures.
#![tactic(auto)]

mod artifact_rules;
mod bases;
mod delegating;
mod delegations;
mod finding;
mod judging;
mod keys;
mod layouts;
mod links;
mod lists;
mod references;
mod steps;

pub use delegating::{Delegated, DelegationChanges, draft_delegations};
pub use drafting::{Denial, DraftFault, Moment, NamedKey, Rule, Terms};
pub use finding::{Found, find_key};
pub use layouts::{StepDraft, draft_layout};
pub use links::{Artifact, draft_link};
pub use metadata::Digest;
pub use references::{Reference, reference_value, with_reference};

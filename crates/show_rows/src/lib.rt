//! The rows that `show` looks at: what a database holds, and what a folder of drafts has.
#![tactic(auto)]

mod drafted;
mod following;
mod keys;
mod listing;
mod next;
mod standing;
mod tree;
mod visits;

pub use drafted::{drafts_in, lacks_targets};
pub use following::follow;
pub use keys::denial_row;
pub use listing::show_targets;
pub use standing::show_standing;

//! How near a repository and the documents of a folder are to their limits, and what is said before one is hit.
#![tactic(auto)]

mod drafts;
mod entries;
mod held;
mod long;

pub use drafts::{bytes_wanted, document_bytes, put_draft, see_room, warn_too_long};
pub use held::{limits_of, warn_near};
pub use long::{tell_long, tell_long_argument, tell_long_files};

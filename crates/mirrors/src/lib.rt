//! The URL of a mirror, and what several mirrors answer together.
#![tactic(auto)]

mod address;
mod joining;

pub use address::{Mirror, read_mirror};
pub use fetch::FetchFault;
pub use joining::{is_settled, together};

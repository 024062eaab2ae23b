//! Denials: which rule fails first, by its number and its name, and the words in which orders of checks are written.
#![tactic(auto)]

mod denial;
mod laws;

pub use denial::Denial;
pub use laws::one_number;
pub use path_patterns::{Digest, TargetPath};

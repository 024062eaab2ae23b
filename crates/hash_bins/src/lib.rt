//! Bins: the roles among which all target paths are shared by the first hex digits of their SHA-256 (TUF 1.0, section 4.5,
//! path_hash_prefixes).
#![tactic(auto)]

mod bins;
mod texts;

pub use bins::{Bin, Count, bins_of};

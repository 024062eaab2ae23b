//! What is looked at of a draft before a leaf is spent on it.
#![tactic(auto)]

mod guarding;
mod judged;
mod spent;

pub use guarding::Signer;
pub use judged::Judged;

//! A state of the trust machine, in memory: what it trusts, what it knows of signatures, and how it is read from rows.
#![tactic(auto)]

pub mod draft;
pub mod held;
pub mod knowing;
pub mod liveness;
pub mod names;
pub mod outcome;
pub mod refusal;
pub mod state;
pub mod stored;
pub mod updating;

pub use state_parts as pieces;

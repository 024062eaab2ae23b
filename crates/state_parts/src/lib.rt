//! The parts of a state of the trust machine: when they are one, and what changes make of them.
#![tactic(auto)]

pub mod checks;
pub mod effects;
pub mod finding;
pub mod loading;
pub mod parts;
pub mod taking;

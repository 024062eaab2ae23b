//! Whether a list of artifact rules holds of a link (in-toto 1.0, section 4.3.3).
//!
//! A list is judged on the paths of one side of the link. A rule takes some of the paths that are left, and what it takes is gone for the
//! rules after it; what is left at the end is allowed.
#![tactic(auto)]

mod checking;
mod faults;
mod queue;
mod taking;

pub use checking::check;
pub use faults::RuleFault;
pub use metadata::{Artifacts, Link, Match, Rule, Side, TargetPath, read_rule};

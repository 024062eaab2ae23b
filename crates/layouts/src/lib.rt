//! Whether an in-toto layout and its links allow a target (in-toto 1.0, section 5.2).
//!
//! A layout says which steps lead to a target, whose links count for a step and from how many keys there must be one, and which rules the
//! artifacts of a step must keep to. A link says which artifacts a step found and which it left.
#![tactic(auto)]

mod agreeing;
mod checking;
mod faults;
mod gathering;
mod laws;
mod ruling;
mod signing;
mod step_links;

pub use checking::check_layout;
pub use faults::LayoutFault;
pub use laws::one_verdict;
pub use metadata::{Artifacts, Digest, File, KeyTable, Layout, Link, Moment, RoleRule, Step};

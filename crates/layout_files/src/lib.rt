//! Layouts and links: what their signed parts say (in-toto 1.0, sections 4.3 and 4.4).
#![tactic(auto)]

pub mod layout;
pub mod link;
pub mod rule_lists;
pub mod rules;
pub mod steps;

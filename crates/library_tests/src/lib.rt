//! Tests of what neither a contract of the libraries says nor a line of `verdicts` or `replay` can: what is written of values that no reader
//! gives, a key of two ids, hashes of lengths that no chain has, lists of changes, texts from outside, and printed texts.
//!
//! They stand apart since a crate with tests is proved twice, once with them.
#![tactic(auto)]

#[cfg(test)]
mod canonical_json_tests;
#[cfg(test)]
mod keys_roles_tests;
#[cfg(test)]
mod plain_text_tests;
#[cfg(test)]
mod sha256_lanes_tests;
#[cfg(test)]
mod value_changes_tests;

//! `get`: fetches targets as a client, one into a file, or several into a folder.
#![tactic(auto)]

mod below;
mod getting;
mod many;
mod report;
mod wanted;

pub use getting::get;
pub use many::get_many;

//! The files of a repository, put into a folder in the order in which a walk tells of them.
#![tactic(auto)]

mod export;
mod mirror;
mod putting;

pub use export::export_files;
pub use mirror::Mirror;

//! `export`: the files of a repository in a folder, under the names that clients ask for.
#![tactic(auto)]

mod exporting;
mod files;

pub use exporting::export;

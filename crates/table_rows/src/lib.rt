//! The rows of the six tables of a release repository, over the crate `sqlite`.
#![tactic(auto)]

mod asking;
mod blobs;
mod cells;
mod current;
mod described;
mod faults;
mod fours;
mod laws;
mod loading;
mod reading;
mod second;
mod shape;

pub use asking::{check_open, read_tables};
pub use blobs::load_blob;
pub use described::six_tables;
pub use faults::StoreFault;
pub use laws::{one_contents, rows_are_sets};
pub use loading::Rows;
pub use repository_rows::{Contents, MetadataRows};
pub use shape::{beginning_of, has_first_schema, has_others_behind};

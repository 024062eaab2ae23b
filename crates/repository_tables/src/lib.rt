//! The changes of the six tables of a release repository, and their opening, over the crate `sqlite`.
#![tactic(auto)]

mod change;
mod completing;
mod making;
mod migrating;
mod opening;
mod writing;

pub use change::Change;
pub use making::renew;
pub use migrating::migrate;
pub use opening::prepare;
pub use table_rows::{
    Contents, MetadataRows, StoreFault, check_open, has_first_schema, has_others_behind, load_blob,
    one_contents, rows_are_sets,
};
pub use writing::write_all;

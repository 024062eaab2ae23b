//! The state of a release repository in the tables of a database.
#![tactic(auto)]

mod changes;
mod closing;
mod command;
mod laws;
mod opening;
mod store;
mod stored_rows;

pub use closing::{apply_and_close, close_into_file, open_and_close};
pub use command::{Command, Reply};
pub use laws::{migration_keeps_answers, stands, trees_tell_state};
pub use machine::{
    BatchRefusal, Denial, Digest, Held, Moment, Offer, Refusal, RoleName, Search, SearchDenial,
    State, TargetPath, get, metadata_file, search_of, target, would_take,
};
pub use opening::Unopened;
pub use repository_tables::StoreFault;
pub use store::Store;

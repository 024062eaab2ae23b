//! The repository in its database file: opened for one piece of work, which documents `publish` offers it, why they were denied, and what is
//! printed of what is trusted.
#![tactic(auto)]

mod arguments;
mod batch;
mod faults;
mod files;
mod forgetting;
mod listed;
mod repository;
mod standing;
mod why;

pub use arguments::{batch_of, documents_of, tell_argument};
pub use batch::{Batch, Waiting, role_of};
pub use faults::{fault_of_store, refused};
pub use files::{InputFile, read_all};
pub use forgetting::{forgets, root_of_version};
pub use listed::{denied_to_all, listed_paths};
pub use reasons::HeldFiles;
pub use repository::{Work, applied, worked};
pub use standing::{FirstExpiry, Versions, tell_standing};
pub use store::{
    BatchRefusal, Command, Held, Offer, Reply, Search, SearchDenial, Store, search_of, would_take,
};
pub use why::{Holding, tell_first_root};

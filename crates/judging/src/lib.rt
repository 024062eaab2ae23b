//! What is offered to a repository: the order of checks of each document, of batches and of the files of targets (TUF 1.0, section 5).
#![tactic(auto)]

mod batches;
mod blobs;
mod calls;
mod compared;
mod files;
mod following;
mod roots;
mod snapshots;
mod targets_metadata;
mod timestamps;

pub use batches::{batch, batch_on, would_take};
pub use blobs::{put_blob, put_blob_on};
pub use calls::{init, init_on, offer, offer_on};
pub use compared::keeps_roles;
pub use following::follows;
pub use trusted_state::refusal::Refusal;

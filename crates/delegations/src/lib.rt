//! The search through delegations for a target (TUF 1.0, section 5.6.7), over the shelf of targets documents.
#![tactic(auto)]

mod frames;
mod gathering;
mod laws;
mod rows;
mod searching;
mod shelf;
mod verdicts;
mod visited;
mod visiting;
mod vouching;
mod walking;

pub use keys_roles::Steps;
pub use laws::{
    beginnings_are_visited, good_documents_are_visited, index_lists_rise, missed_documents,
    no_chain_left_out, search_grows, search_is_sound, worked_visits,
};
pub use metadata::{
    File, KeyTable, Listing, Meta, Moment, RoleName, RoleRule, Root, Snapshot, Source, TargetPath,
    Targets,
};
pub use rows::{Row, Rows, are_in_order};
pub use searching::{search, search_counted, search_seen, search_with, search_with_counted};
pub use shelf::{Found, SearchDenial, Shelf};
pub use verdicts::{Verdicts, all_verdicts};
pub use visited::Visited;
pub use visiting::{has_hash, has_length};
pub use vouching::vouched;

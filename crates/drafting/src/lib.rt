//! The next document, of the one that is held and of a description (TUF 1.0, sections 4.3 to 4.6).
//!
//! A draft is a document of its kind without signatures. Its version is one more than that of the document that is held, its
//! `expires` and `term` are those of `Terms`, and what the description does not name is what the document says that the draft
//! goes on from.
#![tactic(auto)]

mod base;
mod dates;
mod faults;
mod finishing;
mod head;
mod looking;
mod members;
mod named;
mod names;
mod roots;
mod rules;
mod snapshots;
mod tables;
mod targets;
mod terms;
mod texts;
mod timestamps;

pub use base::{base_members, next_version, part_members, version_of};
pub use denials::Denial;
pub use faults::{DraftFault, TopRole, begun_fault, held_fault};
pub use finishing::{file_of, finish, written};
pub use head::{put_head, put_terms};
pub use looking::{Look, look_at};
pub use members::{
    is_there, number_value, object_value, put, take_list, take_object, take_out, text_value,
};
pub use metadata::Moment;
pub use named::keep_named;
pub use names::{name_of_key, number_in};
pub use roots::draft_root;
pub use rules::{NamedKey, Rule, ids_value};
pub use snapshots::draft_snapshot;
pub use tables::{add_rule_keys, add_rule_names};
pub use targets::{Addition, TargetsChanges, draft_targets, hashes_value, remove_all};
pub use terms::Terms;
pub use texts::{some_text, text_at};
pub use timestamps::draft_timestamp;

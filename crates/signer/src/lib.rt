//! What a signer does: seeds as files, and messages and files that get a signature by a leaf of a book.
#![tactic(auto)]

mod attaching;
mod entries;
mod faults;
mod files;
mod files_below;
mod hss_signer;
mod joining;
mod laws;
mod leaves;
mod levels;
mod lists;
mod lower;
mod messages;
mod once;
mod once_below;
mod rivals_below;
mod seeds;
mod trees;
mod versions;

pub use attaching::{AttachFault, PublicFault, attach, key_of_bytes};
pub use faults::{JoinFault, SignFileFault, SignOnceFault};
pub use files::{sign_file, sign_file_with};
pub use files_below::sign_file_below;
pub use hss_signer::HssSigner;
pub use joining::{join, without_signatures};
pub use keys_roles::KeyId;
pub use laws::one_time_keys;
pub use leaf_book::{Book, BookFault, close_into_file};
pub use leaves::{keeps, leaf_of};
pub use levels::{leaf_of_tree, sign_below};
pub use lms::{HssKeyPair, KeyPair, Levels, Params, Seed};
pub use lower::{lower_params, params_in};
pub use messages::sign_message;
pub use metadata::ShapeFault;
pub use once::{one_document_a_version, sign_file_once};
pub use once_below::{one_document_in_all_trees, sign_file_below_once};
pub use rivals_below::other_document;
pub use seeds::read_seed;
pub use trees::{hss_id, kept_below, tree_for};

//! What the documents of a folder of drafts say, which rules they have to meet, and who has signed.
#![tactic(auto)]

mod anchoring;
mod chains;
mod changes;
mod counting;
mod covering;
mod entries;
mod key_files;
mod roles;
mod said;
mod targets_read;
mod vouching;

pub use anchoring::is_held_from;
pub use chains::{
    Referred, chain_name, layout_in, layout_name, layout_path, layout_said, link_name, link_path,
    links_in, listed_otherwise, path_of, reference_of, see_link, signed_step, target_of_layout,
};
pub use change_lines::{FIRST_DIGITS, Names, key_text};
pub use changes::{changes_of, signed_in};
pub use cli_files::Folder;
pub use counting::{Count, count_of, has_signed};
pub use covering::{Sought, roles_of};
pub use drafting::name_of_key;
pub use entries::{signatures_in, without_false_entries};
pub use key_files::{KEY_FILE_LIMIT, key_in};
pub use roles::{offer_order, sign_order};
pub use said::{
    ListedFile, Said, SaidRule, held_said, read_said, read_said_of, typed_kind, version_in,
};
pub use targets_read::{TargetsRead, owners_of, rules_for};
pub use vouching::Vouching;

//! What `draft layout`, `draft link`, `draft take` and `draft attach` do over a folder: layouts and links, how targets metadata lists them, and
//! what another machine or another tool sends back.
#![tactic(auto)]

mod attaching;
mod chains;
mod linking;
mod relisting;
mod taking;

pub use attaching::attach_signature;
pub use chains::draft_chain;
pub use linking::draft_step;
pub use relisting::{relist, see_listable};
pub use taking::take_all;

//! A client of a release repository: it brings its own trusted state up to date from a source that nobody has to trust, and fetches
//! targets (TUF 1.0, section 5).
#![tactic(auto)]

mod fault;
mod fetching;
mod from_state;
mod laws;
mod missing;
mod roles;
mod several;
mod taking;
mod updating;
mod wanted;

pub use fault::ClientFault;
pub use fetch::{FetchFault, Source};
pub use fetching::fetch_target;
pub use from_state::fetch_from_state;
pub use laws::anchor_is_behind;
pub use roles::fetch_roles_by_each;
pub use several::{Sources, fetch_by_each, update_by_each};
pub use store::{Denial, Moment, Store, TargetPath};
pub use updating::update;

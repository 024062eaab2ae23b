//! Files that come into their places whole, over the calls of a file system.
#![tactic(auto)]

mod calls;
mod putting;

pub use calls::{Found, Places};
pub use putting::put_in_place;

//! The database of a case, in memory: the store over it, its rows, rows that are written behind the store's back, the state that they stand
//! for, and a search over what it hands out.
#![tactic(auto)]

mod base;
mod cold;
mod filling;
mod roots;
mod server_state;

pub use base::{Base, exchange};
pub use cold::cold_search;
pub use filling::{Filling, put_rows};
pub use server_state::state_of;
pub use store::{Command, Reply, Store, StoreFault};

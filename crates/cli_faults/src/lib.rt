//! Why a command was not done, with its text and its exit status; at which moment it is done; and what is printed besides.
#![tactic(auto)]

mod fault;
mod moments;
mod notes;

pub use denials::Denial;
pub use fault::{Fault, Slip, file_fault};
pub use moments::{expiry_of, moment, warn_of_clock};
pub use notes::{MOST_DENIALS, Notes};

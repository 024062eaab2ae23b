//! How a text that comes from outside stands on a line that an operator reads, and which name can stand as a word of a
//! shell's line.
#![tactic(auto)]

mod names;
mod spelling;

pub use names::is_plain_name;
pub use spelling::{one_text, plain};

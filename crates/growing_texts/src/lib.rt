//! A text and a list that grow part by part: they take nothing more once memory ran out, and say so at their end.
#![tactic(auto)]

mod growing;
mod writing;

pub use growing::Growing;
pub use writing::Text;

//! What a document changes, as a person reads it: a line or more for each change that `value_changes` finds, and none for nothing.
#![tactic(auto)]

mod keys;
mod lines;
mod listings;
mod places;
mod rules;
mod sides;
mod spelling;

pub use keys::{Names, key_text, key_words};
pub use lines::{Compared, LinesFault, lines_of};
pub use spelling::FIRST_DIGITS;

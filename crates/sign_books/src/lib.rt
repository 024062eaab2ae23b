//! The book of a key in its file: it is opened, one thing is done over it, and it is closed before what came of that is handed on.
#![tactic(auto)]

mod books;
mod new_pairs;
mod other_trees;
mod pairs;

pub use books::{BookAt, BookLook, BookWork, book_fault, has_bytes, looked_over, worked_over};
pub use new_pairs::{NewKey, NewPair, Registering};
pub use other_trees::tell_of_other_tree;
pub use pairs::Pair;
pub use signer::{Book, BookFault};

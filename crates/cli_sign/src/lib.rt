//! The subcommands of `release` that need no repository: `sign` signs a document by a leaf of the book, and `key` prints the public half of
//! a key.
#![tactic(auto)]

mod by_key;
mod choosing;
mod documents;
mod files;
mod finding;
mod key;
mod leaves;
mod one;
mod outside;
mod ready;
mod seeds;
mod signing;
mod turn;

pub use by_key::{Anchor, Anchoring, sign_in};
pub use documents::sign;
pub use files::make_keys;
pub use key::print_key;
pub use leaves::leaves_of;
pub use outside::print_public_key;
pub use sign_books::NewKey;

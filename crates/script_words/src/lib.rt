//! What the words of a script write down: numbers, digests, keys and rules, bytes in escapes, files under names, and whole signed documents.
#![tactic(auto)]

mod descriptions;
mod escapes;
mod fault;
mod files;
mod layout_words;
mod words;

pub use descriptions::{described, kind_named, leaves_of, signed_by};
pub use escapes::{bytes_of_hex, expanded, push_escaped, with_literals};
pub use fault::LineFault;
pub use files::{File, find, name_of, put};
pub use test_files::{Keys, OtsType};
pub use words::{digest_word, key_of, number_of};

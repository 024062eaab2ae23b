//! The book that never spends a leaf of an LMS key twice (RFC 8554, section 9), in two tables of a database.
#![tactic(auto)]

mod book;
mod cells;
mod closing;
mod described;
mod faults;
mod laws;
mod leaf;
mod loading;
mod making;
mod opening;
mod reading;
mod writing;

pub use book::Book;
pub use closing::{close_into_file, open_and_close, register_and_close, reserve_and_close};
pub use faults::{BookFault, NoMemory};
pub use keys_roles::KeyId;
pub use laws::{never_twice, one_book, reopens};
pub use leaf::{Leaf, sign, sign_with};
pub use lms::{KeyPair, OtsType, Params, Seed, SigningHeight};
pub use opening::Unopened;

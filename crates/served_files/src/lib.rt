//! Which files a client may ask for, and one walk over them, for all that tell of them (TUF 1.0, sections 5.3 to 5.7 and 6.2).
//!
//! It knows no store: who walks lends the metadata files, and is told of each file that may be asked for.
#![tactic(auto)]

mod visiting;

pub use visiting::{FileVisitor, visit_files};

//! Metadata files that are signed by keys of test seeds, which anybody knows: for examples, measurements and tests.
//!
//! A file is described by plain values (`Root`, `Targets`, `Entry`, `Listing`, `LayoutReference`, `Delegation`, `Step`, `Link`), its signed part is written as
//! canonical JSON, and leaves of seeds sign it (TUF 1.0, section 4; in-toto 1.0, section 4; RFC 8554). Nothing here judges a file: what is described may be no metadata at all.
#![tactic(auto)]

mod documents;
mod fault;
mod keys;
mod layouts;
mod members;
mod signing;

pub use canonical_json::Value;
pub use documents::{
    Delegation, Entry, LayoutReference, Listing, Root, Rule, Scope, Targets, meta_signed,
    root_signed, targets_signed,
};
pub use fault::Fault;
pub use keys::{Keys, SeedKey};
pub use layouts::{Link, Step, layout_signed, link_signed};
pub use lms::OtsType;
pub use members::{Members, text_value, texts, with_member};
pub use path_patterns::Digest;
pub use signing::{Leaf, signed_file};

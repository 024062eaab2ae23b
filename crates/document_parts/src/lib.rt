//! The parts of documents: what their bodies are, and how keys, rules, hashes, dates and other members of the signed part are read (TUF 1.0,
//! sections 4.2 to 4.6; in-toto 1.0, sections 4.3 and 4.4).
//!
//! Each module reads one kind of part; `metadata` reads whole files with them.
#![tactic(auto)]

mod artifacts;
mod covering;
pub mod dates;
pub mod distinct;
pub mod documents;
pub mod head;
pub mod keys;
pub mod links;
mod lookups;
pub mod members;
pub mod moment;
pub mod names;
pub mod parts;
pub mod required;
mod role_rules;
pub mod rules;
pub mod scopes;
pub mod trail;

pub use keys_roles::{Key, KeyId, KeyTable, RoleRule, Signature};
pub use moment::Moment;
pub use path_patterns::{Digest, Pattern, RoleName, TargetPath};

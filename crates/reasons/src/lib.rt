//! Why a document of a batch was denied, in words, and what a repository lists.
//!
//! It decides nothing: it is asked after a denial, and answers `None` where nothing is certain. Everything it is given is read anew.
#![tactic(auto)]

mod bytes;
mod counts;
mod denied;
mod held;
mod incoherent;
mod path;
mod place;
mod standing;
mod targets;
mod thresholds;

pub use denied::reason;
pub use held::HeldFiles;
pub use place::place_of;
pub use targets::listed_targets;

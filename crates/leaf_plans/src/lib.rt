//! What a book of leaves holds, and which leaf of an LMS key a message gets by it (RFC 8554, section 9).
#![tactic(auto)]

mod compared;
mod entries;
mod parameters;
mod planning;

pub use compared::is_same;
pub use entries::{LeafRow, Signer};
pub use keys_roles::KeyId;
pub use lms::{OtsType, Params, SigningHeight};
pub use parameters::{code_of, height_of, leaves_of, number_of, ots_of, same_params};
pub use planning::{Plan, has_params, leaf_for, next_leaf, params_of, plan_for};

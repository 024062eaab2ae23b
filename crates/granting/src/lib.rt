//! What a request for a target is granted: where its path is listed, its file, and what its layout says (TUF 1.0, section 5.7; in-toto 1.0,
//! section 5.2).
#![tactic(auto)]

mod getting;
mod listing;
mod seeing;
mod serving;
mod supporting;

pub use getting::{
    get, get_counted, get_from, get_from_counted, target, target_from, target_from_counted,
};
pub use seeing::{Search, search_of};
pub use serving::{Blobs, GetFault, LoadFault, Served};
pub use trusted_state as trusted;

//! What SQL's tables hold, and what statements do to them, for tables of any names and columns, over the crate `sqlite`.
#![tactic(auto)]

mod cells;
mod closing;
mod connecting;
mod described;
mod items;
mod laws;
mod looking;
mod making;
mod numbering;
mod shape;
mod stepping;

pub use cells::{blob_at, digest_of, is_same, number_at, text_at};
pub use closing::close;
pub use connecting::{check_open, renew};
pub use described::{Described, Key};
pub use items::{Gathered, Item, gather};
pub use laws::trees_tell_tables;
pub use looking::has_rows;
pub use making::make_rest;
pub use numbering::take_rows;
pub use shape::{beginning_of, has_no_rule, is_column};
pub use stepping::{TakeRows, each_row};

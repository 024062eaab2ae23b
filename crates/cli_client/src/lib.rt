//! The subcommands of `release` over a repository that is served: `update`, as a client of a port of 127.0.0.1 or of mirrors, with what it
//! shares with `get`; and `publish`, `put` and `prune`, which the server at a port does.
#![tactic(auto)]

mod asking;
mod fault;
mod folders;
mod publishing;
mod remote;
mod report;
mod sending;
mod server;
mod turns;
mod updating;
mod wire;

pub use asking::root_at;
pub use fault::told;
pub use publishing::{prune_at, publish_at, put_at};
pub use remote::{Call, Remote, tell_wrongs};
pub use report::{is_answer, say_answer, say_mirrors, say_source};
pub use server::see_folders;
pub use turns::{Denied, End, Turn};
pub use updating::update;

//! Connections on 127.0.0.1 with their deadlines, as a server accepts, reads, answers and ends them.
#![tactic(auto)]

mod accepting;
mod deadlines;
mod ending;
mod incoming;
mod lines;
mod outgoing;

pub use accepting::{Port, listen, next_stream};
pub use deadlines::{FILE_SECONDS, QUIET_SECONDS, Timer};
pub use ending::end;
pub use incoming::{Beginning, Incoming};
pub use lines::tell_connection;
pub use outgoing::Outgoing;

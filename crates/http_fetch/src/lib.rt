//! One HTTP request over one connection, and its reply (RFC 9112): for a file of a release repository, or with a body.
#![tactic(auto)]

mod body;
mod cutting;
mod fetching;
mod head;
mod message;
mod refusing;
mod request;
mod sending;
mod telling;

pub use fetch::FetchFault;
pub use fetching::{fetch_over, read_reply};
pub use http_messages::{Method, Receive, Transmit};
pub use message::Message;
pub use refusing::{Refusal, read_refusal};
pub use request::request_of;
pub use sending::{Reply, SendFault, send_over};
pub use telling::{Denied, read_accepted, read_denial, read_pruned};

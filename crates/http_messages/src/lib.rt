//! One HTTP request of a release repository (RFC 9112): reading it whole, and writing its response.
#![tactic(auto)]

mod bodies;
mod body;
mod faults;
mod fields;
mod framing;
mod head;
mod line;
mod reply;
mod request;
mod routes;

pub use bodies::{accepted_body, denial_body, pruned_body, stored_body};
pub use body::read_body;
pub use faults::{Fault, write_fault};
pub use fields::{Declared, declared_length};
pub use framing::{cut, one_batch, read_batch};
pub use head::{FIELD_LIMIT, HEAD_LIMIT, ParseHead, read_head};
pub use limits::{BLOB_LIMIT, MOST_DOCUMENTS};
pub use line::{Cut, Receive, ReceiveFault, Sink, Transmit, send_all, send_both};
pub use path_patterns::{Digest, RoleName};
pub use reply::{Kind, Method, ShortText, Status, head_of, write_response};
pub use request::{Asked, BATCH_LIMIT, Received, one_request, read_request, read_request_of};
pub use routes::{Route, Routes};

//! Serving HTTP requests from a store (RFC 9112): what the trust machine replies goes out as the bytes of a response.
#![tactic(auto)]

mod laws;
mod offers;
mod replies;
mod respond;
mod serve;

pub use http_messages::{Cut, Fault, Receive, Routes, Status, Transmit};
pub use laws::{
    one_response, only_responses, reading_changes_nothing, runs_on, unavailable_is_served,
};
pub use replies::Answer;
pub use serve::{
    ServeFault, serve_list, serve_list_reading, serve_list_told, serve_one, serve_one_reading,
    serve_one_told, serve_unavailable,
};
pub use store::{Moment, Store};

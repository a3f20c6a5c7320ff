//! Requests of Kafka's protocol from JSON.
#![tactic(auto)]

mod fault;
mod list;
mod message;
mod names;
mod object;
mod part;
mod requests;

pub use fault::RequestFault;
pub use message::request_bytes;

//! Messages of calls: what a request message asks, and the bytes of replies.
#![tactic(auto)]

mod api;
mod body;
mod header;
pub mod laws;
mod message;
mod reply;

pub use api::ApiKey;
pub use header::{Start, read_client, read_start};
pub use message::decode;
pub use reply::encode_reply;

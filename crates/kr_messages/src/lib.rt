//! Messages of Kafka's protocol as JSON.
#![tactic(auto)]

mod fault;
mod list;
mod message_type;
mod names;
mod object;
mod reply;
mod responses;
mod shape;

pub use fault::MessageFault;
pub use message_type::ApiMessageType;
pub use reply::reply_json;

/// Marks what is read here: `Reader` is the layout crate's.
#[derive(Drop)]
struct Mine;

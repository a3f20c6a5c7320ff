//! What clients were told.

use kr_calls::Reply;
use kr_defs::Items;

/// A reply that a node gave a client.
#[derive(Drop)]
pub struct ToldReply {
    /// The node's number.
    pub node: u32,
    /// The client's number.
    pub client: u32,
    /// The number that the client gave its request.
    pub correlation: i32,
    /// Of a write that stands the place in the list at which its items stand, else -1.
    pub place: i64,
    /// The items that were added with it, none where the place is -1.
    pub items: Items,
    /// The reply.
    pub reply: Reply,
}

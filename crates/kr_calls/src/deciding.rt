//! What a request gives.

use crate::Reply;
use kr_defs::Records;

/// The records that an entry of a request asks for, and its answer where they can stand.
#[derive(Drop)]
pub struct Draft<A> {
    /// In the order in which they are to stand.
    pub records: Records,
    /// What the reply says of the entry.
    pub answer: A,
}

/// The records of a request, and its reply.
#[derive(Drop)]
pub struct Effect {
    /// In the order in which they are to stand, one batch.
    pub records: Records,
    /// What the client is told.
    pub reply: Reply,
}

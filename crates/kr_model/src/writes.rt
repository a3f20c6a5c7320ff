//! Writes whose replies wait, and what is told of them.

use crate::past_basis::PastBasis;
use kr_calls::{AnswerKind, Output, Reply};

/// Where a write was decided, and on what besides the image.
#[derive(Drop)]
pub struct Decided {
    /// The tip of the log then: the write saw the image below it, and its records begin there.
    pub place: i64,
    /// How many records it gave.
    pub count: u32,
    /// What the decision rested on besides the image; its time is that of the decision. Clauses alone see it.
    pub basis: PastBasis,
}

/// A write that was decided, with both of its replies.
#[derive(Drop)]
pub struct Write {
    /// The number of the client that asked.
    pub client: u32,
    /// The number that the client gave its request.
    pub correlation: i32,
    /// The epoch of the leadership that decided it.
    pub epoch: i32,
    /// The place up to which the log has to be committed: all that the write saw or made is below it.
    pub need: i64,
    /// The reply once that is so.
    pub reply: Reply,
    /// The reply where the leadership is lost before: Kafka's NOT_CONTROLLER.
    pub refusal: Reply,
    /// What it was decided on.
    pub decided: Decided,
}

/// How a write ended that waited.
#[derive(Drop)]
pub struct Ended {
    /// It stands, or was lost.
    pub kind: AnswerKind,
    /// What it was decided on.
    pub decided: Decided,
}

/// What a controller gives out; where it is the reply of a write that waited, also how that write ended.
#[derive(Drop)]
pub struct Told {
    /// What is given out.
    pub output: Output,
    /// How the write ended, where the output is its reply.
    pub ended: Option<Ended>,
}

//! Passes: each stands for one user of a queue, and knows what that user did.

use crate::jobs::Job;
use crossbeam_queue::SegPass;
use kr_defs::Rows;
use std::collections::LinkedList;

/// Whose pass it is.
pub enum Role {
    /// The one that pops.
    Worker,
    /// The one that pushes the quorum's events and the stops.
    Link,
    /// A client, which pushes the writes, pins and unpins of its seat.
    Client { seat: u32 },
}

/// What a pass knows. It stands in clauses alone: no value of it is made.
pub struct View {
    /// Whose pass it is.
    pub role: Role,
    /// The jobs that were pushed under this pass, in order.
    pub pushed: LinkedList<Job>,
    /// Of the worker's pass, the jobs that it popped, in order.
    pub popped: LinkedList<Job>,
    /// Of the worker's pass, how many passes the queue has.
    pub passes: u64,
}

/// The right to use a queue in one role. It takes no bytes.
#[derive(Drop)]
pub struct Pass {
    /// What the queue library asks for.
    pub(crate) seat: SegPass<Job, View>,
}

/// The passes of the clients: that of seat 1, that of seat 2, and so on.
pub type ClientPasses = Rows<Pass>;

/// All passes of a queue.
#[derive(Drop)]
pub struct Passes {
    /// For the one that pops.
    pub worker: Pass,
    /// For the one that pushes the quorum's events and the stops.
    pub link: Pass,
    /// One for each client, in the order of their seats.
    pub clients: ClientPasses,
}

//! What may be done with nodes over one committed list, and why it is refused.

ghost use Rattle.std.specs.Prelude.{◌≡◌};

use kr_base::NoMemory;
use kr_calls::Call;
use thiserror::Error;

/// What may be done with nodes over one committed list. A node is named by its number, from 0; times are in milliseconds.
#[derive(Drop)]
pub enum Move {
    /// A node on standby gets the list's batch at its end.
    Feed {
        /// The node.
        node: u32,
    },
    /// A node on standby that has the whole list begins to lead.
    Elect {
        /// The node.
        node: u32,
        /// The epoch of the leadership.
        epoch: i32,
        /// The time.
        now: i64,
    },
    /// A client asks a node.
    Ask {
        /// The node.
        node: u32,
        /// The client's number, which its reply repeats.
        client: u32,
        /// The time.
        now: i64,
        /// What is asked.
        call: Call,
    },
    /// Time goes on for a node.
    Tick {
        /// The node.
        node: u32,
        /// The time.
        now: i64,
    },
    /// The first batch of the latest leader that isn't in the list yet joins it. The node isn't told.
    Settle {
        /// The node.
        node: u32,
    },
    /// A leader is told that what it has in the list is committed.
    Tell {
        /// The node.
        node: u32,
    },
    /// A leader is told that its leadership is over.
    Depose {
        /// The node.
        node: u32,
    },
    /// A node on standby gets the image of another node's closed end, or of its own. No move opens a transaction, so that this is
    /// the committed end.
    Copy {
        /// The node whose image it is.
        from: u32,
        /// The node that gets it.
        to: u32,
    },
}

/// Why a move is refused, which then changes nothing.
#[derive(Clone, Copy, Debug, Drop, PartialEq, Eq, Error)]
pub enum MoveFault {
    /// No node has this number.
    #[error("there is no node {node}, of {count}")]
    NoNode {
        /// The number.
        node: u32,
        /// The number of nodes.
        count: u32,
    },
    /// The node leads.
    #[error("node {node} leads")]
    NotStandby {
        /// The node.
        node: u32,
    },
    /// The node doesn't lead.
    #[error("node {node} doesn't lead")]
    NotLeading {
        /// The node.
        node: u32,
    },
    /// The epoch isn't above each in which a node was elected.
    #[error("epoch {asked} isn't above {greatest}")]
    OldEpoch {
        /// The epoch.
        asked: i32,
        /// The greatest in which a node was elected, at first -1.
        greatest: i32,
    },
    /// The node hasn't the whole list.
    #[error("the node's end is {end}, and the list has {length} items")]
    Behind {
        /// The node's committed end.
        end: i64,
        /// The number of items of the list.
        length: i64,
    },
    /// Another node was elected since.
    #[error("the node leads in epoch {epoch}, the latest is {latest}")]
    NotLatest {
        /// The epoch in which the node leads.
        epoch: i32,
        /// The greatest in which a node was elected.
        latest: i32,
    },
    /// There is nothing to be fed, to be settled or to be told.
    #[error("there is nothing new at {at}")]
    NothingNew {
        /// The number of the list's items where a batch is to be settled, else the node's committed end.
        at: i64,
    },
    /// The image is of an earlier place than the end of the node that would get it.
    #[error("the image is of {offset}, the node's end is {end}")]
    OlderImage {
        /// The image's offset.
        offset: i64,
        /// The node's committed end.
        end: i64,
    },
    #[error("out of memory")]
    NoMemory,
}

impl From<NoMemory> for MoveFault {
    ghost use Rattle.law_nodes.specs.declared.moves.MoveFault.TheVariants as faults;

    ghost from_gives = { λ _ fault. fault ≡ faults.NoMemory };

    fn from(_refused: NoMemory) -> MoveFault {
        MoveFault::NoMemory
    }
}

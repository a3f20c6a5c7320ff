//! Several controllers over one committed list: the moves that an outside makes with them, what each move makes of all of
//! them, and what is true whatever the moves were. The functions say so in their contracts, and do nothing.
#![tactic(auto)]

mod moves;

ghost use Rattle.law_nodes.specs.Agreement.{NodesAgree};
ghost use Rattle.law_nodes.specs.Histories.{NodesStand};
ghost use Rattle.law_nodes.specs.NodeEvents.{NodesTakeEvents};
ghost use Rattle.law_nodes.specs.ReadingBack.{AppendsReadBack};

pub use moves::{Move, MoveFault};

/// Whatever the moves were, the log of each node is the list's below the node's committed end, from its own start on, and has
/// the list's image there; so two nodes with equal ends have equal images. Each reply that has a place tells of items that
/// stand there in the list.
pub fn nodes_agree()
    ensures { NodesAgree }
{}

/// An event makes of a node what it makes of a controller: of its state, of the writes that wait and of the batches that it
/// appends; and what it tells clients are the replies that the event gives out, in order.
pub fn nodes_take_events()
    ensures { NodesTakeEvents }
{}

/// After any moves of which each batch and image that comes is read back as it is, each node stands for the events of its own
/// accepted moves, and what it told are the replies among a controller's outputs over these events, in order.
pub fn nodes_stand()
    ensures { NodesStand }
{}

/// The batches that an event appends to a node's log are read back by any other, where the items that it adds, the epoch and
/// the time are those of a program.
pub fn appends_read_back()
    ensures { AppendsReadBack }
{}

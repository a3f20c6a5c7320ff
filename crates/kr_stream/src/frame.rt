//! What frames stand for.

use kr_calls::Event;
use kr_defs::Options;

/// A frame of a session.
#[derive(Drop)]
pub enum Frame {
    /// The first: what the controller is started with.
    Open(Options),
    /// What happens to the controller.
    Event(Event),
    /// The last.
    End,
}

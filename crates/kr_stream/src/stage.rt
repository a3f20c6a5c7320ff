//! How far a session was read.

use crate::StreamFault;

/// What was read so far.
#[derive(Clone, Copy, Debug, Drop, PartialEq, Eq)]
pub enum Stage {
    /// Nothing.
    Unopened,
    /// The Open frame, and perhaps events.
    Opened,
    /// The End frame.
    Ended,
    /// No frame was read.
    Failed(StreamFault),
}

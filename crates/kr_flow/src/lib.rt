//! Bounds of the daemon's streams: how much of a link waits for the worker, how much room a frame takes before it has come, and
//! how long a connection may be waited for.
#![tactic(auto)]

mod held;
mod phase;
mod progress;
mod room;

pub use held::HeldSource;
pub use phase::{IDLE_SECONDS, MESSAGE_SECONDS, Phase, REPLY_SECONDS, Watched};
pub use progress::Progress;
pub use room::{EventRoom, MOST_WAITING_BYTES, Origin, Waiting};

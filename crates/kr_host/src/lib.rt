//! The daemon's threads: a worker, the seats of clients that are served over TCP, and the quorum, over a link or of this
//! process alone.
#![tactic(auto)]

mod asked_images;
mod client_stream;
mod clients;
mod commits;
mod door;
mod ended;
mod event_seat;
mod events;
mod inlet;
mod line;
mod link;
mod link_images;
mod link_quorum;
mod linked;
mod local;
mod opening;
mod running;
mod shortage;
mod startup;
mod taken;
mod ticks;
mod watch;

pub use asked_images::AskedImages;
pub use clients::spawn_clients;
pub use door::Door;
pub use ended::{Ended, tell_no_memory, tell_refused};
pub use event_seat::EventSeat;
pub use events::EVENT_BYTES;
pub use link::spawn_link;
pub use link_images::{LinkImages, spawn_images};
pub use link_quorum::LinkQuorum;
pub use linked::turn_linked;
pub use local::{lead_alone, turn_alone};
pub use opening::{Opened, open_seats, options_of};
pub use running::run;
pub use startup::{Startup, startup_of};
pub use ticks::{TICK_MS, spawn_ticks};

//! A node's link between its daemon and the store, without input or output: what comes of daemon, store and clock in, frames for the
//! daemon and calls of the store out.
#![tactic(auto)]

mod actions;
mod batch;
mod campaigns;
mod imaging;
mod leases;
mod link;
mod link_core;
mod link_moves;
mod pings;
mod roles;
mod waiting;

pub use actions::{Action, DaemonFrame, Guard, Outbox};
pub use batch::{LogBatch, LogBatchFault, StoredImage};
pub use campaigns::{Campaign, Campaigns};
pub use imaging::{ImageAnswer, Imaging};
pub use leases::Lease;
pub use link::{Link, LinkSettings, SeenLog, StoreQuestion};
pub use link_core::LinkCore;
pub use link_moves::calls_are_moves;
pub use pings::{BEAT, EACH_BATCH, MOST_UNPINGED, Ping, Pings};
pub use roles::{Held, Leading, LinkRole};
pub use waiting::WaitingBatches;

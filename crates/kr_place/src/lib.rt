//! Placement of replicas over racks.
#![tactic(auto)]

mod grouped;
pub mod laws;
mod placing;
mod racked;
mod racks;

pub use grouped::Grouped;
pub use placing::{PlaceFault, place};
pub use racked::Racked;

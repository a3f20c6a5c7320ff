//! A map with kept epochs.
#![tactic(auto)]

mod chain;
mod chains;
mod intervals;
mod key;
mod restoration;
mod timeline;

pub use key::Key;
pub use kr_base::NoEpoch;
pub use timeline::{RestoreFault, Timeline};

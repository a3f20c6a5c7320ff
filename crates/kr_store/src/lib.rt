//! An image with kept epochs, as those who read and change it see it.
#![tactic(auto)]

mod places;
mod seen;
mod store;

pub use kr_base::NoEpoch;
pub use places::{ApplyFault, At, Counts, ReadFault};
pub use seen::{Seen, before_all};
pub use store::Store;

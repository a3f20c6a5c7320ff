//! Metadata records: decoded and encoded as their layouts say.
#![tactic(auto)]

mod endpoints;
mod fault;
mod held;
mod kinds;
mod parts;
mod pieces;
mod reading;
mod tagged;
mod writing;

pub use fault::RecordFault;
pub use kinds::{append, record_is_held};
pub use reading::{decode, records};
pub use writing::{encode, written_records};

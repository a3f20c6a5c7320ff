//! The abstract controller: what each event makes of all that is kept and what is given out for it, for which past events an
//! engine stands, and the laws over all events.
#![tactic(auto)]

pub mod laws;
mod past_basis;
mod writes;

pub use past_basis::PastBasis;
pub use writes::{Decided, Ended, Told, Write};

//! Each request, handed to what decides or answers it.
#![tactic(auto)]

mod reads;
mod writes;

pub use reads::read;
pub use writes::decide;

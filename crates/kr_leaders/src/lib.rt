//! The balancer on an image: an input that is one is led through a round, and the image behind it is written.
#![tactic(auto)]

mod call;
mod controller;

pub use call::balance;

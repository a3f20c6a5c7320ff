//! One round of the balancer: the election of all that is planned, by one step of an engine.
#![tactic(auto)]

mod election;
mod rounds;

pub use rounds::round;

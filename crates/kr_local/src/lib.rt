//! A quorum of this process alone, that commits by a script.
#![tactic(auto)]

mod plan;
mod quorum;

pub use quorum::LocalQuorum;

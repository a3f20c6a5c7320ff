//! The text of an image, as a person reads it.
#![tactic(auto)]

mod dumping;
mod lines;
mod parts;
mod texts;

pub use dumping::dump;

//! A client's write once more: copies that equal their source, and whether two writes are the same.
#![tactic(auto)]

mod calls;
mod lists;
mod partitions;
mod registration;
mod repeat;
mod settings;
mod topics;

pub use calls::{same_call, write_again};
pub use repeat::Repeat;

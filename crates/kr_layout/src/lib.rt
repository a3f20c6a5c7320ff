//! Structures in bytes, by layouts: reading and writing are tied to one value, the schema of the type.
#![tactic(auto)]

mod fault;
mod get;
mod put;
mod reader;

pub use fault::{BodyFault, ReadFault};
pub use get::{Get, layouts, read_body};
pub use put::{Put, put_end, written_forms};
pub use reader::Reader;

//! Pages of a description of topics, made of the records that a reader gives at one place.
#![tactic(auto)]

mod entries;
mod lookups;
mod names;
mod pages;
mod record_fields;
mod steady;

pub use pages::page;
pub use steady::PageFault;

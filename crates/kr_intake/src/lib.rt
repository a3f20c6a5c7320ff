//! Bytes that are taken from a source: all that are asked for, but no more than one stream may have.
#![tactic(auto)]

mod taking;

pub use taking::{Shortage, take};

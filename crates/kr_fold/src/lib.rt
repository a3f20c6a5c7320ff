//! Batches of a log to the image that they make, and an image to its text: from any source, to any sink.
#![tactic(auto)]

mod batch;
mod calls;
mod fault;
mod image;
mod log;
mod piece;

pub use calls::{InputImage, dump, fold, take_image};
pub use fault::ToolFault;

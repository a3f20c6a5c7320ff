//! Batches of a metadata log, or an image, as lines of JSON, a line for each record: from any source to any sink, or of bytes.
#![tactic(auto)]

mod batch;
mod fault;
mod frames;
mod input;
mod showing;
mod words;

pub use fault::ShowFault;
pub use input::{image_lines, log_lines};
pub use words::{fault_name, refuse, run};

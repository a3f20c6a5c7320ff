//! Images as bytes: written, and read from any pieces.
#![tactic(auto)]

mod batch_writer;
mod fault;
mod laws;
mod order;
mod pieces;
mod reader;
mod records;
mod walking;
mod writer;
mod writing;

pub use fault::{BatchCause, ImageFault, SnapFault};
pub use laws::{images, read_in_pieces, written_images};
pub use pieces::HEAD;
pub use reader::Reader;
pub use writer::Writer;
pub use writing::{write, write_seen};

//! Several controllers in one process, over one committed list of batches: the moves of an outside are made with them.
#![tactic(auto)]

mod acting;
mod cluster;
mod copying;
mod handing;
mod moving;
mod node;
mod shared;
mod told;

pub use cluster::Cluster;
pub use law_nodes::{Move, MoveFault};
pub use told::ToldReply;

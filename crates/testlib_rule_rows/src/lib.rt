//! Rows on the rules of partitions and brokers, on placement and on images: what they ask, and the answers.
#![tactic(auto)]

mod answers;
mod heartbeats;
mod image_text;
mod partitions;
mod places;
mod stores;

pub use heartbeats::heartbeats_row;
pub use partitions::{Question, change_row};
pub use places::place_row;
pub use stores::apply_row;

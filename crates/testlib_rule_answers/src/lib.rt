//! What the rules of partitions, brokers and images answer, in words; the records that rows give.
#![tactic(auto)]

mod changes;
mod heartbeats;
mod history;
mod places;
mod records;

pub use changes::{
    build_answer, completes_answer, elect_answer, eligible_answer, merge_answer, partition_text,
    target_answer,
};
pub use heartbeats::{Operation, heartbeats_answer, is_not_before};
pub use history::History;
pub use places::place_answer;
pub use records::record_of;

//! The store of the metadata image: one timeline for each kind of entry, and the kept epochs of all at once.
#![tactic(auto)]

mod applying;
mod brokers;
mod entries;
mod epochs;
mod features;
mod index_walks;
mod items;
mod keeping;
mod kept_counts;
mod looking;
mod partition_index;
mod partition_timeline;
mod partitions;
mod registrations;
mod settings;
mod states;
mod store;
mod sums;
mod timelines;
mod topics;
mod transactions;

pub use store::ImageStore;

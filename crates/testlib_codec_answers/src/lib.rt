//! Rows on readers and writers of bytes, on sessions, folds, dumps and balances over memory: what they ask, and the answers in words.
#![tactic(auto)]

mod balances;
mod batches;
mod folds;
mod image_reading;
mod image_words;
mod images;
mod messages;
mod primitives;
mod records;
mod rows;
mod sessions;

pub use rows::{
    balance_row, batch_row, dump_row, fold_row, image_row, message_row, primitive_row, record_row,
    session_row,
};

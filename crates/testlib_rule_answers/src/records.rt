//! Records that rows give.

use kr_defs::Record;
use kr_record::RecordFault;
use std::alloc::Global;
use testlib_words::{RowFault, bytes_of};

/// The record whose value the word spells in hex.
pub fn record_of(alloc: Global, word: &str) -> Result<Record, RowFault> {
    let bytes = bytes_of(alloc, word)?;
    match kr_record::decode(alloc, &bytes) {
        Ok(record) => Ok(record),
        Err(RecordFault::NoMemory) => Err(RowFault::NoMemory),
        Err(_) => Err(RowFault::Fields),
    }
}

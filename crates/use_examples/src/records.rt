//! What a record batch has, a line a record.

use crate::names::record_name;
use kr_batch::{Batch, decode};
use kr_defs::Item;
use std::io::{self, Print};

/// Prints the batch that the bytes stand for.
pub(crate) fn print_batch<R: Print + AllocGlobal>(rt: &R, bytes: &[u8]) -> anyhow::Result<()> {
    match decode(rt.alloc(), bytes) {
        Ok(batch) => Ok(print_records(rt, &batch)?),
        Err(fault) => anyhow::bail!("no batch: {fault}"),
    }
}

fn print_records<R: Print>(rt: &R, batch: &Batch) -> io::Result<()> {
    let (base, epoch, time) = (batch.base, batch.epoch, batch.time);
    println!(rt; "batch at {base}, leader epoch {epoch}, time {time}")?;
    let mut place = base;
    for item in batch.items.as_slice() {
        print_item(rt, place, item)?;
        place = place.saturating_add(1);
    }
    Ok(())
}

fn print_item<R: Print>(rt: &R, place: i64, item: &Item) -> io::Result<()> {
    match item {
        Item::Control => println!(rt; "{place}: control"),
        Item::Record(record) => println!(rt; "{place}: {}", record_name(record)),
    }
}

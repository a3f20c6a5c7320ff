//! As many partitions as there may be, in a store and in a plain map.

use crate::entries::{one_topic, state_of};
use crate::image::store_of;
use anyhow::Result;
use kr_defs::Partition;
use kr_defs::limits::MOST_PARTITIONS;
use kr_store::Store;
use std::alloc::Global;
use std::collections::BTreeMap;
use std::io::Print;
use std::marker::Brand;
use std::sync::ledger::Blank;

/// All are of this topic.
const TOPIC: u128 = 1;

/// Puts them into a store and prints a line. What is measured is how much memory that takes.
pub(crate) fn print_store<R: Print + AllocGlobal>(rt: &R) -> Result<()> {
    let records = one_topic(rt.alloc(), MOST_PARTITIONS as i32)?;
    let store = store_of::<Brand>(rt.alloc(), records.as_slice(), Blank::new(1))?;
    println!(rt; "store: {} partitions", store.counts().partitions)?;
    Ok(())
}

/// Puts them into a plain map by topic and index, beside the same records, and prints a line.
pub(crate) fn print_map<R: Print + AllocGlobal>(rt: &R) -> Result<()> {
    let records = one_topic(rt.alloc(), MOST_PARTITIONS as i32)?;
    let map = plain_map(rt.alloc())?;
    println!(rt;
        "map: {} partitions beside {} records",
        map.len(),
        records.len()
    )?;
    Ok(())
}

/// The same records alone.
pub(crate) fn print_records<R: Print + AllocGlobal>(rt: &R) -> Result<()> {
    let records = one_topic(rt.alloc(), MOST_PARTITIONS as i32)?;
    println!(rt; "records: {}", records.len())?;
    Ok(())
}

fn plain_map(alloc: Global) -> Result<BTreeMap<(u128, i32), Partition>> {
    let mut map = BTreeMap::new(alloc);
    for index in 0..MOST_PARTITIONS as i32 {
        map.insert((TOPIC, index), state_of(alloc, index)?)?;
    }
    Ok(map)
}

//! Where the replicas of a new topic would go.

use kr_defs::Text;
use kr_place::{Racked, place};
use std::alloc::{AllocError, Global};
use std::io::Print;
use testlib_words::ids_text;

// Four brokers in two racks.
const RACKS: [(i32, &str); 4] = [(1, "a"), (2, "a"), (3, "b"), (4, "b")];

// Replicas of each partition.
const FACTOR: i16 = 2;

/// Prints the brokers of each of four partitions.
pub(crate) fn print_topic<R: Print + AllocGlobal>(rt: &R) -> anyhow::Result<()> {
    let brokers = brokers_in_racks(rt.alloc())?;
    for index in 0..4_u8 {
        print_replicas(rt, &brokers, index)?;
    }
    Ok(())
}

fn print_replicas<R: Print + AllocGlobal>(
    rt: &R,
    brokers: &Racked,
    index: u8,
) -> anyhow::Result<()> {
    let placed = place(rt.alloc(), brokers, 0, i32::from(index), FACTOR)?;
    let replicas = ids_text(rt.alloc(), placed.as_slice())?;
    println!(rt; "partition {index} of a new topic: replicas {replicas}")?;
    Ok(())
}

fn brokers_in_racks(alloc: Global) -> Result<Racked, AllocError> {
    let mut brokers = Racked::new(alloc);
    for (id, rack) in RACKS {
        if !brokers.contains(&id) {
            let rack = Text::from_str(alloc, rack)?;
            match brokers.push(id, Some(rack)) {
                Ok(()) => {}
                Err(_no_memory) => return Err(AllocError),
            }
        }
    }
    Ok(brokers)
}

//! What a planner asks of the rules alone: who leads a partition once brokers are gone, and which brokers would have the
//! replicas of a new topic.

use crate::loss::with_brokers;
use crate::topic::print_topic;
use kr_base::NoMemory;
use kr_defs::{Ids, Partition};
use std::alloc::{AllocError, Global};
use std::io::Print;
use testlib_words::ids_text;

// How many replicas have to be in sync.
const MINIMUM: i32 = 2;

/// Prints a partition as its brokers go one after the other, and then the partitions of a new topic.
pub(crate) fn print_plan<R: Print + AllocGlobal>(rt: &R) -> anyhow::Result<()> {
    let mut partition = on_three_brokers(rt.alloc())?;
    print_partition(rt, "all brokers", &partition)?;
    for gone in 1..4 {
        let active = from_to(rt.alloc(), gone + 1, 3)?;
        partition = left_with(rt.alloc(), &partition, active)?;
        let name = format!(in rt.alloc(); "without broker {gone}")?;
        print_partition(rt, name.as_str(), &partition)?;
    }
    print_topic(rt)
}

fn left_with(alloc: Global, partition: &Partition, active: Ids) -> Result<Partition, AllocError> {
    match with_brokers(alloc, partition, active, MINIMUM) {
        Ok(after) => Ok(after),
        Err(NoMemory) => Err(AllocError),
    }
}

// Three replicas, all in sync, led by the first.
fn on_three_brokers(alloc: Global) -> Result<Partition, AllocError> {
    Ok(Partition {
        replicas: from_to(alloc, 1, 3)?,
        in_sync: from_to(alloc, 1, 3)?,
        eligible: Ids::new(alloc),
        last_known: Ids::new(alloc),
        adding: Ids::new(alloc),
        removing: Ids::new(alloc),
        leader: 1,
        recovery: 0,
        leader_epoch: 0,
        partition_epoch: 0,
    })
}

fn from_to(alloc: Global, first: i32, last: i32) -> Result<Ids, AllocError> {
    let mut ids = Ids::new(alloc);
    for id in first..=last {
        ids.push(id)?;
    }
    Ok(ids)
}

fn print_partition<R: Print + AllocGlobal>(
    rt: &R,
    name: &str,
    partition: &Partition,
) -> anyhow::Result<()> {
    let in_sync = ids_text(rt.alloc(), partition.in_sync.as_slice())?;
    let eligible = ids_text(rt.alloc(), partition.eligible.as_slice())?;
    let (leader, epoch) = (partition.leader, partition.leader_epoch);
    println!(rt;
        "{name}: leader {leader} in epoch {epoch}, in sync {in_sync}, eligible {eligible}"
    )?;
    Ok(())
}

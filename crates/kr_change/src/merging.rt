//! What a change makes of a partition.

ghost use Rattle.std.specs.Prelude.{◌≡◌, IfOk, unwrap_or, is_some, if◌then◌else◌};
ghost use Rattle.kr_defs.specs.Merge as merges;
ghost use Rattle.kr_defs.specs.Partition as formed;

use crate::lists::without;
use kr_base::NoMemory;
use kr_defs::{Copied, Ids, Partition, PartitionChange};
use std::alloc::Global;

// The new list where there is one, else the old.
fn newer_list(alloc: Global, new: &Option<Ids>, old: &Ids) -> Result<Ids, NoMemory>
    ensures { IfOk result (λ list. list ≡ unwrap_or new.now old.now) }
{
    let list = match new {
        Some(list) => list.copied(alloc)?,
        None => old.copied(alloc)?,
    };
    Ok(list)
}

fn next_epoch(epoch: i32) -> i32
    ensures { result ≡ merges.next_epoch epoch }
{
    if epoch < i32::MAX { epoch + 1 } else { epoch }
}

// A named leader raises the epoch, also where it is the same one.
fn leader_epoch_after(epoch: i32, leader: Option<i32>) -> i32
    ensures { result ≡ (if is_some leader then merges.next_epoch epoch else epoch) }
{
    match leader {
        Some(_) => next_epoch(epoch),
        None => epoch,
    }
}

/// The partition after a change: each present field replaces its value, and the epochs rise.
#[tactic(auto, unfolding(kr_defs::specs::Merge::merged))]
pub fn merge(
    alloc: Global,
    partition: &Partition,
    change: &PartitionChange,
) -> Result<Partition, NoMemory>
    ensures { IfOk result (λ after. after ≡ merges.merged partition.now change.now) }
{
    let replicas = newer_list(alloc, &change.replicas, &partition.replicas)?;
    let in_sync = newer_list(alloc, &change.in_sync, &partition.in_sync)?;
    let eligible = newer_list(alloc, &change.eligible, &partition.eligible)?;
    let last_known = newer_list(alloc, &change.last_known, &partition.last_known)?;
    let adding = newer_list(alloc, &change.adding, &partition.adding)?;
    let removing = newer_list(alloc, &change.removing, &partition.removing)?;
    Ok(Partition {
        replicas,
        in_sync,
        eligible,
        last_known,
        adding,
        removing,
        leader: change.leader.unwrap_or(partition.leader),
        recovery: change.recovery.unwrap_or(partition.recovery),
        leader_epoch: leader_epoch_after(partition.leader_epoch, change.leader),
        partition_epoch: next_epoch(partition.partition_epoch),
    })
}

/// The replicas that the partition's reassignment leads to: all of them where none runs.
pub fn target_of(alloc: Global, partition: &Partition) -> Result<Ids, NoMemory>
    ensures { IfOk result (λ list. list ≡ formed.target partition.now) }
{
    without(alloc, &partition.replicas, &partition.removing)
}

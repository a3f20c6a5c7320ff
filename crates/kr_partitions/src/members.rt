//! Which lists of members a leader can report.

ghost use Rattle.std.specs.Prelude.{◌≡◌, ◌==◌, ◌||◌, not, length, IfOk, map};
ghost use Rattle.kr_defs.specs.Ids.{has};
ghost use Rattle.kr_defs.specs.Partition.{is_part};
ghost use Rattle.kr_calls.specs.AlterPartition as alter_partition;

use kr_base::NoMemory;
use kr_calls::{BrokerState, PartitionReport};
use kr_defs::{Ids, Partition, is_part};
use std::alloc::Global;

fn ids_of(alloc: Global, states: &[BrokerState]) -> Result<Ids, NoMemory>
    ensures { IfOk result (λ ids. ids ≡ map (λ m. m.broker) states.now) }
{
    let mut ids = Ids::new(alloc);
    for state in states {
        ids.push(state.broker)?;
    }
    Ok(ids)
}

/// The members that are reported.
pub(crate) fn members(alloc: Global, report: &PartitionReport) -> Result<Ids, NoMemory>
    ensures { IfOk result (λ ids. ids ≡ alter_partition.members report.now) }
{
    ids_of(alloc, report.in_sync.as_slice())
}

// There are none, or without the leader, or not each a replica that stands once. A list with others than replicas ends at the
// first, and so does a longer one than theirs at what stands twice.
fn are_no_members(partition: &Partition, members: &Ids) -> bool
    ensures { result ≡ (length members.now == 0
        || not (has members.now partition.now.leader)
        || not (is_part members.now partition.now.replicas)) }
{
    members.is_empty()
        || !members.contains(&partition.leader)
        || !is_part(members, &partition.replicas)
}

/// They aren't some of the replicas, each once, with the leader.
pub(crate) fn are_bad_members(partition: &Partition, members: &Ids) -> bool
    ensures { result ≡ alter_partition.are_bad_members partition.now members.now }
{
    are_no_members(partition, members)
}

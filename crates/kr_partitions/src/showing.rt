//! Which answers are shown where all partitions were asked for.

ghost use Rattle.std.specs.Prelude.{◌≡◌, nat_lt, not, pos, length, map, filter, IfOk};
ghost use Rattle.std.specs.Ordering.{int_eq};
ghost use Rattle.kr_calls.specs.declared.errors.TheConstants.{ELECTION_NOT_NEEDED as election_not_needed};
ghost use Rattle.kr_calls.specs.ElectLeaders as elect_leaders;

use kr_base::NoMemory;
use kr_calls::errors::ELECTION_NOT_NEEDED;
use kr_calls::{
    ElectLeadersTopics, PartitionElectionResult, ReplicaElectionResult, ReplicaElectionResults,
};
use kr_defs::Rows;
use std::alloc::{AllocError, Global};

fn is_needed(partition: &PartitionElectionResult) -> bool
    ensures { result ≡ not (int_eq partition.now.error election_not_needed) }
{
    partition.error != ELECTION_NOT_NEEDED
}

fn keep_needed(partitions: &mut Vec<PartitionElectionResult>)
    ensures { partitions.new.items ≡ filter (λ p. not (int_eq p.error election_not_needed)) partitions.old.items }
{
    partitions.retain(|partition| is_needed(partition));
}

// Without the partitions that needed no election.
fn with_needed(topic: ReplicaElectionResult) -> ReplicaElectionResult
    ensures { result ≡ elect_leaders.needed topic }
{
    let ReplicaElectionResult { topic, partitions } = topic;
    let mut partitions = partitions.into_vec();
    keep_needed(&mut partitions);
    ReplicaElectionResult {
        topic,
        partitions: Rows::from_vec(partitions),
    }
}

fn is_shown(topic: &ReplicaElectionResult) -> bool
    ensures { result ≡ nat_lt 0 (length topic.now.partitions) }
{
    topic.partitions.len() > 0
}

fn needed_ones(
    alloc: Global,
    topics: Vec<ReplicaElectionResult>,
) -> Result<Vec<ReplicaElectionResult>, AllocError>
    ensures { IfOk result (λ shown. shown.items ≡ filter (λ topic. nat_lt 0 (length topic.partitions)) (map elect_leaders.needed topics.items)) }
{
    topics
        .into_iter()
        .map(|topic| with_needed(topic))
        .filter(|topic| is_shown(topic))
        .collect(alloc)
}

/// The answers that are shown: where all partitions were asked for, those that needed no election aren't, nor are
/// topics with nothing to show.
pub(crate) fn show(
    alloc: Global,
    asked: &Option<ElectLeadersTopics>,
    results: ReplicaElectionResults,
) -> Result<ReplicaElectionResults, NoMemory>
    ensures { IfOk result (λ shown. shown ≡ elect_leaders.shown asked.now results) }
{
    match asked {
        Some(_) => Ok(results),
        None => Ok(Rows::from_vec(needed_ones(alloc, results.into_vec())?)),
    }
}

//! What is decided of the reassignment of one partition.

ghost use Rattle.std.specs.Prelude.{◌≡◌, IfOk};
ghost use Rattle.kr_defs.specs.DefaultWant.{default_want};
ghost use Rattle.kr_calls.specs.AlterPartitionReassignments as alter_partition_reassignments;
ghost use Rattle.kr_rules.specs.Refusals.{Judges};

use crate::lists::{is_moving, original, reassigned_replicas};
use kr_base::NoMemory;
use kr_calls::errors::{
    INVALID_REPLICA_ASSIGNMENT, NO_REASSIGNMENT_IN_PROGRESS, UNKNOWN_TOPIC_OR_PARTITION,
};
use kr_calls::{
    Draft, ReassignablePartition, ReassignablePartitionResponse, ReassignablePartitionResponses,
    ReassignableTopic, ReassignableTopicResponse,
};
use kr_change::Want;
use kr_defs::{Copied, Ids, Options, Partition, PartitionChange, Text, are_apart};
use kr_listing::{are_registered, are_targets, change_records, without};
use kr_replication::{ActiveOnes, build_with, default_want, is_unclean};
use kr_rules::{Groups, ItemRule, Refusal, Work};
use kr_store::{Seen, Store};
use std::alloc::Global;

/// The rule for reassignments.
#[derive(Drop)]
pub(crate) struct ReassignmentRule<'a> {
    pub options: &'a Options,
}

// The answer for a partition.
fn answer(
    error: &i16,
    _name: &Text,
    partition: &ReassignablePartition,
) -> ReassignablePartitionResponse
    ensures { result ≡ alter_partition_reassignments.answer error.now (_name.now, partition.now) }
{
    ReassignablePartitionResponse {
        index: partition.index,
        error: *error,
    }
}

fn draft_of(
    alloc: Global,
    name: &Text,
    partition: &ReassignablePartition,
    topic: &u128,
    change: Option<PartitionChange>,
) -> Result<Draft<ReassignablePartitionResponse>, NoMemory>
    ensures { IfOk result (λ draft. draft ≡ alter_partition_reassignments.drafted (name.now, partition.now) topic.now change) }
{
    let records = change_records(alloc, topic, &partition.index, change)?;
    let answer = answer(&0, name, partition);
    Ok(Draft { records, answer })
}

// What is asked of a partition where its replicas are to be these.
fn with_replicas(
    alloc: Global,
    partition: &Partition,
    replicas: Ids,
    adding: Ids,
    removing: Ids,
) -> Result<Want, NoMemory>
    ensures { IfOk result (λ want. want ≡ record (default_want partition.now) { replicas = replicas; adding = adding; removing = removing }) }
{
    let want = default_want(alloc, partition)?;
    Ok(Want {
        replicas,
        adding,
        removing,
        ..want
    })
}

// A reassignment to the target is to run.
fn leading_to(alloc: Global, partition: &Partition, target: &Ids) -> Result<Want, NoMemory>
    ensures { IfOk result (λ want. want ≡ alter_partition_reassignments.leading_to partition.now target.now) }
{
    let original = original(alloc, partition)?;
    let replicas = reassigned_replicas(alloc, target, &original)?;
    let adding = without(alloc, target, &original)?;
    let removing = without(alloc, &original, target)?;
    with_replicas(alloc, partition, replicas, adding, removing)
}

// The reassignment that runs is to be given up.
fn leading_back(alloc: Global, partition: &Partition) -> Result<Want, NoMemory>
    ensures { IfOk result (λ want. want ≡ alter_partition_reassignments.leading_back partition.now) }
{
    let original = original(alloc, partition)?;
    with_replicas(alloc, partition, original, Ids::new(alloc), Ids::new(alloc))
}

fn is_target<S: Store>(seen: &Seen<S>, ids: &Ids) -> bool
    ensures { result ≡ alter_partition_reassignments.is_target seen.now ids.now }
{
    are_targets(ids) && are_registered(seen, ids.as_slice())
}

// What is asked of the partition; without replicas the reassignment that runs is cancelled.
fn want_of<S: Store>(
    alloc: Global,
    seen: &Seen<S>,
    partition: &Partition,
    replicas: &Option<Ids>,
) -> Result<Want, Refusal>
    ensures { Judges result (alter_partition_reassignments.wanted seen.now partition.now replicas.now) }
{
    match replicas {
        Some(target) => {
            if !is_target(seen, target) {
                return Err(Refusal::Error(INVALID_REPLICA_ASSIGNMENT));
            }
            Ok(leading_to(alloc, partition, target)?)
        }
        None => {
            if !is_moving(partition) {
                return Err(Refusal::Error(NO_REASSIGNMENT_IN_PROGRESS));
            }
            Ok(leading_back(alloc, partition)?)
        }
    }
}

// All that is in sync would go, and records may not be lost.
fn loses_all<S: Store>(
    alloc: Global,
    seen: &Seen<S>,
    name: &Text,
    partition: &Partition,
    want: &Want,
) -> Result<bool, NoMemory>
    ensures { IfOk result (λ loses. loses ≡ alter_partition_reassignments.loses_all seen.now name.now partition.now want.now) }
{
    if partition.in_sync.is_empty() || !are_apart(partition.in_sync.as_slice(), &want.replicas) {
        return Ok(false);
    }
    let is_unclean = is_unclean(alloc, seen, name)?;
    Ok(!is_unclean)
}

// What is said of a partition of which this is asked.
fn of_want<S: Store>(
    alloc: Global,
    seen: &Seen<S>,
    rule: &ReassignmentRule,
    name: &Text,
    entry: &ReassignablePartition,
    topic: &u128,
    partition: &Partition,
    want: &Want,
) -> Result<Draft<ReassignablePartitionResponse>, Refusal>
    ensures { Judges result (alter_partition_reassignments.of_want rule.now.options.now seen.now (name.now, entry.now) topic.now partition.now want.now) }
{
    if loses_all(alloc, seen, name, partition, want)? {
        return Err(Refusal::Error(INVALID_REPLICA_ASSIGNMENT));
    }
    let minimum = &rule.options.minimum;
    let change = build_with(alloc, seen, &ActiveOnes, minimum, name, partition, want)?;
    Ok(draft_of(alloc, name, entry, topic, change)?)
}

impl<'a> ItemRule<Text, ReassignablePartition, ReassignablePartitionResponse>
    for ReassignmentRule<'a> {
    ghost refusal = { λ _. alter_partition_reassignments.answer };

    ghost rule = { λ r. alter_partition_reassignments.rule r.options.now };

    fn refusal(
        &self,
        _alloc: Global,
        error: &i16,
        key: &Text,
        item: &ReassignablePartition,
    ) -> Result<ReassignablePartitionResponse, NoMemory> {
        Ok(answer(error, key, item))
    }

    fn judge<S: Store>(
        &self,
        alloc: Global,
        seen: &Seen<S>,
        _work: &Work,
        key: &Text,
        item: &ReassignablePartition,
    ) -> Result<Draft<ReassignablePartitionResponse>, Refusal> {
        let Some(topic) = seen.topic_named(key) else {
            return Err(Refusal::Error(UNKNOWN_TOPIC_OR_PARTITION));
        };
        let Some(partition) = seen.partition(&topic.id, &item.index) else {
            return Err(Refusal::Error(UNKNOWN_TOPIC_OR_PARTITION));
        };
        let want = want_of(alloc, seen, partition, &item.replicas)?;
        of_want(alloc, seen, self, key, item, &topic.id, partition, &want)
    }
}

impl<'a> Groups<
    ReassignableTopic,
    Text,
    ReassignablePartition,
    ReassignablePartitionResponse,
    ReassignableTopicResponse,
> for ReassignmentRule<'a> {
    ghost entries_of = { alter_partition_reassignments.entries_of };

    ghost answer_of = { alter_partition_reassignments.answer_of };

    fn members<'g>(&self, group: &'g ReassignableTopic) -> (&'g Text, &'g [ReassignablePartition]) {
        (&group.name, group.partitions.as_slice())
    }

    fn answer(
        &self,
        alloc: Global,
        group: &ReassignableTopic,
        answers: ReassignablePartitionResponses,
    ) -> Result<ReassignableTopicResponse, NoMemory>
        ensures { IfOk result (λ answer. answer ≡ alter_partition_reassignments.answer_of group.now answers) }
    {
        let name = group.name.copied(alloc)?;
        Ok(ReassignableTopicResponse {
            name,
            partitions: answers,
        })
    }
}

//! Topics and their partitions as clients see them.

ghost use Rattle.std.specs.Prelude.{◌≡◌, [], ◌∷◌, IfOk, filter, map};
ghost use Rattle.kr_defs.specs.Walk.{of_topic};
ghost use Rattle.kr_calls.specs.Metadata as metadata;

use kr_base::NoMemory;
use kr_calls::errors::LEADER_NOT_AVAILABLE;
use kr_calls::{
    MetadataPartition, MetadataPartitions, MetadataRequestTopic, MetadataTopic, MetadataTopics,
};
use kr_defs::{Copied, Ids, Partition, Rows, Text};
use kr_listing::{PartitionPart, TopicPart, gather_partitions, gather_topics};
use kr_store::{Seen, Store};
use std::alloc::{AllocError, Global};

// ---- partitions

fn is_offline<S: Store>(seen: &Seen<S>, id: &i32) -> bool
    ensures { result ≡ metadata.is_offline seen.now id.now }
{
    match seen.broker(id) {
        Some(state) => state.fenced,
        None => true,
    }
}

// The replicas whose brokers are fenced or not registered.
fn offline_among<S: Store>(
    alloc: Global,
    seen: &Seen<S>,
    replicas: &[i32],
) -> Result<Vec<i32>, AllocError>
    ensures { IfOk result (λ ids. ids.items ≡ filter (metadata.is_offline seen.now) replicas.now) }
{
    replicas
        .iter()
        .copied()
        .filter(|id| is_offline(seen, id))
        .collect(alloc)
}

// Where nobody leads.
fn leader_error(partition: &Partition) -> i16
    ensures { result ≡ metadata.leader_error partition.now }
{
    if partition.leader == -1 {
        LEADER_NOT_AVAILABLE
    } else {
        0
    }
}

fn partition_row<S: Store>(
    alloc: Global,
    seen: &Seen<S>,
    key: &(u128, i32),
    partition: &Partition,
) -> Result<MetadataPartition, NoMemory>
    ensures { IfOk result (λ row. row ≡ metadata.partition_metadata seen.now (key.now, partition.now)) }
{
    let replicas = partition.replicas.copied(alloc)?;
    let in_sync = partition.in_sync.copied(alloc)?;
    let offline = offline_among(alloc, seen, partition.replicas.as_slice())?;
    Ok(MetadataPartition {
        error: leader_error(partition),
        index: key.1,
        leader: partition.leader,
        leader_epoch: partition.leader_epoch,
        replicas,
        in_sync,
        offline: Ids::from_vec(offline),
    })
}

// A partition, by the brokers of the image.
#[derive(Drop)]
struct ShownPartitions<'a, 's, S: Store> {
    seen: &'a Seen<'s, S>,
}

impl<'a, 's, S: Store> PartitionPart<MetadataPartition> for ShownPartitions<'a, 's, S> {
    ghost part = { λ s e. metadata.partition_metadata s.seen.now e ∷ [] };

    fn add(
        &self,
        alloc: Global,
        key: &(u128, i32),
        partition: &Partition,
        rows: &mut MetadataPartitions,
    ) -> Result<(), NoMemory> {
        rows.push(partition_row(alloc, self.seen, key, partition)?)?;
        Ok(())
    }
}

#[tactic(auto, using(crate::proofs::MetadataRows::partitions))]
fn partition_rows<S: Store>(
    alloc: Global,
    seen: &Seen<S>,
    id: &u128,
) -> Result<MetadataPartitions, NoMemory>
    ensures { IfOk result (λ rows. rows ≡ map (metadata.partition_metadata seen.now) (of_topic id.now seen.now.partitions)) }
{
    gather_partitions(alloc, seen, &ShownPartitions { seen }, id)
}

// ---- topics

/// A topic that stands, with its partitions.
pub(crate) fn topic_row<S: Store>(
    alloc: Global,
    seen: &Seen<S>,
    name: &Text,
    id: &u128,
) -> Result<MetadataTopic, NoMemory>
    ensures { IfOk result (λ row. row ≡ metadata.topic_metadata seen.now (name.now, id.now)) }
{
    let partitions = partition_rows(alloc, seen, id)?;
    let name = name.copied(alloc)?;
    Ok(MetadataTopic {
        error: 0,
        name: Some(name),
        topic: *id,
        internal: false,
        partitions,
        operations: i32::MIN,
    })
}

/// An entry that is refused, as it was given.
pub(crate) fn refusal_row(
    alloc: Global,
    error: i16,
    entry: &MetadataRequestTopic,
) -> Result<MetadataTopic, NoMemory>
    ensures { IfOk result (λ row. row ≡ metadata.refused error entry.now) }
{
    let name = Copied::copied(&entry.name, alloc)?;
    Ok(MetadataTopic {
        error,
        name,
        topic: entry.topic,
        internal: false,
        partitions: Rows::new(alloc),
        operations: i32::MIN,
    })
}

// Any topic.
struct ShownTopics;

impl TopicPart<MetadataTopic> for ShownTopics {
    ghost part = { λ _ image topic. metadata.topic_metadata image topic ∷ [] };

    fn add<S: Store>(
        &self,
        alloc: Global,
        seen: &Seen<S>,
        name: &Text,
        id: &u128,
        rows: &mut MetadataTopics,
    ) -> Result<(), NoMemory> {
        rows.push(topic_row(alloc, seen, name, id)?)?;
        Ok(())
    }
}

/// All topics by name.
#[tactic(auto, using(crate::proofs::MetadataRows::topics))]
pub(crate) fn all_topic_rows<S: Store>(
    alloc: Global,
    seen: &Seen<S>,
) -> Result<MetadataTopics, NoMemory>
    ensures { IfOk result (λ rows. rows ≡ map (metadata.topic_metadata seen.now) seen.now.topics) }
{
    gather_topics(alloc, seen, &ShownTopics)
}

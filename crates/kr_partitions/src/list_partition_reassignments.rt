//! The reassignments that go on.

ghost use Rattle.std.specs.Prelude.{◌≡◌, ◌&&◌, [], ◌∷◌, IfOk, filter_map, option_to_list, if◌then◌else◌};
ghost use Rattle.kr_defs.specs.Partition.{is_moving};
ghost use Rattle.kr_calls.specs.ListPartitionReassignments as list_partition_reassignments;
ghost use Rattle.kr_partitions.specs.inner.RequestKeys.{is_among, ongoing_where, shown_where};

use crate::lists::is_moving;
use crate::request_keys::{Keys, is_among, keys_of_request};
use kr_base::NoMemory;
use kr_calls::{
    ListPartitionReassignments, ListPartitionReassignmentsReply, ListedTopics,
    OngoingPartitionReassignment, OngoingPartitionReassignments, OngoingTopicReassignment, Reply,
};
use kr_defs::{Copied, Options, Partition, Rows, Text};
use kr_listing::{PartitionPart, TopicPart, gather_partitions, gather_topics};
use kr_store::{Seen, Store};
use std::alloc::Global;

fn ongoing_row(
    alloc: Global,
    key: &(u128, i32),
    partition: &Partition,
) -> Result<OngoingPartitionReassignment, NoMemory>
    ensures { IfOk result (λ row. row ≡ list_partition_reassignments.ongoing (key.now, partition.now)) }
{
    let replicas = partition.replicas.copied(alloc)?;
    let adding = partition.adding.copied(alloc)?;
    let removing = partition.removing.copied(alloc)?;
    Ok(OngoingPartitionReassignment {
        index: key.1,
        replicas,
        adding,
        removing,
    })
}

// A partition that is asked for and moves, of the topic of this id.
#[derive(Drop)]
struct AskedPartitions<'a> {
    asked: &'a Option<Keys>,
    id: &'a u128,
}

impl<'a> PartitionPart<OngoingPartitionReassignment> for AskedPartitions<'a> {
    ghost part = { λ a e. if is_moving e.1 && is_among a.asked.now (a.id.now, e.0.1) then list_partition_reassignments.ongoing e ∷ [] else [] };

    fn add(
        &self,
        alloc: Global,
        key: &(u128, i32),
        partition: &Partition,
        rows: &mut OngoingPartitionReassignments,
    ) -> Result<(), NoMemory> {
        if is_moving(partition) && is_among(self.asked, self.id, &key.1) {
            rows.push(ongoing_row(alloc, key, partition)?)?;
        }
        Ok(())
    }
}

// The partitions of a topic that are asked for and move.
fn ongoing_of<S: Store>(
    alloc: Global,
    seen: &Seen<S>,
    asked: &Option<Keys>,
    id: &u128,
) -> Result<OngoingPartitionReassignments, NoMemory>
    ensures { IfOk result (λ rows. rows ≡
        ongoing_where seen.now (λ index. is_among asked.now (id.now, index)) id.now) }
{
    gather_partitions(alloc, seen, &AskedPartitions { asked, id }, id)
}

// What is shown of a topic, where there is something to show.
fn topic_row<S: Store>(
    alloc: Global,
    seen: &Seen<S>,
    asked: &Option<Keys>,
    name: &Text,
    id: &u128,
) -> Result<Option<OngoingTopicReassignment>, NoMemory>
    ensures { IfOk result (λ row. row ≡
        shown_where seen.now (λ index. is_among asked.now (id.now, index)) (name.now, id.now)) }
{
    let partitions = ongoing_of(alloc, seen, asked, id)?;
    if partitions.is_empty() {
        return Ok(None);
    }
    let name = name.copied(alloc)?;
    Ok(Some(OngoingTopicReassignment { name, partitions }))
}

// A topic that has something to show.
#[derive(Drop)]
struct AskedTopics<'a> {
    asked: &'a Option<Keys>,
}

impl<'a> TopicPart<OngoingTopicReassignment> for AskedTopics<'a> {
    ghost part = { λ a image topic. option_to_list (shown_where image (λ index. is_among a.asked.now (topic.1, index)) topic) };

    fn add<S: Store>(
        &self,
        alloc: Global,
        seen: &Seen<S>,
        name: &Text,
        id: &u128,
        rows: &mut Rows<OngoingTopicReassignment>,
    ) -> Result<(), NoMemory> {
        if let Some(row) = topic_row(alloc, seen, self.asked, name, id)? {
            rows.push(row)?;
        }
        Ok(())
    }
}

#[tactic(auto, using(crate::proofs::OngoingRows::all_shown))]
fn all_topic_rows<S: Store>(
    alloc: Global,
    seen: &Seen<S>,
    asked: &Option<ListedTopics>,
) -> Result<Rows<OngoingTopicReassignment>, NoMemory>
    ensures { IfOk result (λ rows. rows ≡ filter_map (list_partition_reassignments.shown seen.now asked.now) seen.now.topics) }
{
    seen.is_valid();
    let keys = keys_of_request(alloc, seen, asked)?;
    gather_topics(alloc, seen, &AskedTopics { asked: &keys })
}

/// The partitions that are being reassigned, all or those that are asked for.
#[tactic(auto, unfolding(kr_calls::specs::ListPartitionReassignments::queried))]
pub fn answer<S: Store>(
    alloc: Global,
    seen: &Seen<S>,
    _options: &Options,
    request: &ListPartitionReassignments,
) -> Result<Reply, NoMemory>
    ensures { IfOk result (λ reply. reply ≡ list_partition_reassignments.queried seen.now request.now) }
{
    let topics = all_topic_rows(alloc, seen, &request.topics)?;
    Ok(Reply::ListPartitionReassignments(ListPartitionReassignmentsReply { error: 0, topics }))
}

//! The partitions that are to get leaders, by topic.

ghost use Rattle.std.specs.Prelude.{◌≡◌, ◌++◌, [], ◌∷◌, IfOk, OnOk, map};
ghost use Rattle.kr_calls.specs.ElectLeaders as elect_leaders;

use kr_base::NoMemory;
use kr_calls::{ElectLeadersTopic, ElectLeadersTopics};
use kr_defs::{Copied, Ids, Partition, Rows, Text};
use kr_listing::{PartitionPart, TopicPart, gather_partitions, gather_topics};
use kr_store::{Seen, Store};
use std::alloc::Global;

/// The name of a topic, and indexes of its partitions.
pub(crate) type Group = (Text, Ids);

fn group_of(alloc: Global, topic: &ElectLeadersTopic) -> Result<Group, NoMemory>
    ensures { IfOk result (λ group. group ≡ (topic.now.topic, topic.now.partitions)) }
{
    let name = topic.topic.copied(alloc)?;
    let indexes = topic.partitions.copied(alloc)?;
    Ok((name, indexes))
}

fn given_groups(alloc: Global, topics: &[ElectLeadersTopic]) -> Result<Rows<Group>, NoMemory>
    ensures { IfOk result (λ groups. groups ≡ map (λ t. (t.topic, t.partitions)) topics.now) }
{
    let mut groups = Rows::new(alloc);
    for topic in topics {
        groups.push(group_of(alloc, topic)?)?;
    }
    Ok(groups)
}

// A partition gives its index.
struct Indexes;

impl PartitionPart<i32> for Indexes {
    ghost part = { λ _ e. e.0.1 ∷ [] };

    fn add(
        &self,
        _alloc: Global,
        key: &(u128, i32),
        _partition: &Partition,
        rows: &mut Ids,
    ) -> Result<(), NoMemory> {
        rows.push(key.1)?;
        Ok(())
    }
}

// A topic gives all its partitions.
struct WholeTopics;

#[tactic(auto, using(crate::proofs::WholeTopics::whole))]
fn whole_topic<S: Store>(
    alloc: Global,
    seen: &Seen<S>,
    name: &Text,
    id: &u128,
) -> Result<Group, NoMemory>
    ensures { IfOk result (λ group. group ≡ elect_leaders.whole_topic seen.now (name.now, id.now)) }
{
    let name = name.copied(alloc)?;
    let indexes = gather_partitions(alloc, seen, &Indexes, id)?;
    Ok((name, indexes))
}

impl TopicPart<Group> for WholeTopics {
    ghost part = { λ _ image topic. elect_leaders.whole_topic image topic ∷ [] };

    fn add<S: Store>(
        &self,
        alloc: Global,
        seen: &Seen<S>,
        name: &Text,
        id: &u128,
        rows: &mut Rows<Group>,
    ) -> Result<(), NoMemory> {
        rows.push(whole_topic(alloc, seen, name, id)?)?;
        Ok(())
    }
}

#[tactic(auto, using(crate::proofs::WholeTopics::all_whole))]
fn all_groups<S: Store>(alloc: Global, seen: &Seen<S>) -> Result<Rows<Group>, NoMemory>
    ensures { IfOk result (λ groups. groups ≡ map (elect_leaders.whole_topic seen.now) seen.now.topics) }
{
    gather_topics(alloc, seen, &WholeTopics)
}

/// The partitions that are asked for, all of them at null.
pub(crate) fn groups_of<S: Store>(
    alloc: Global,
    seen: &Seen<S>,
    topics: &Option<ElectLeadersTopics>,
) -> Result<Rows<Group>, NoMemory>
    ensures { IfOk result (λ groups. groups ≡ elect_leaders.groups_of seen.now topics.now) }
{
    match topics {
        Some(topics) => given_groups(alloc, topics.as_slice()),
        None => all_groups(alloc, seen),
    }
}

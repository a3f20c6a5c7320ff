//! The request for the election of partitions that are named.

ghost use Rattle.std.specs.Prelude.{◌≡◌, [], ◌∷◌, ◌++◌, bytes_eq, IfOk, OnOk};
ghost use Rattle.kr_rebalance.specs.inner.Grouping.{grouped_with, open_entry};
ghost use Rattle.law_balance.specs.Election as elections;

use kr_base::NoMemory;
use kr_calls::{ElectLeaders, ElectLeadersTopic, ElectLeadersTopics};
use kr_defs::{Copied, Ids, Rows, Text};
use std::alloc::Global;
use std::mem;

fn is_of_topic(named: &(Text, i32), topic: &Text) -> bool
    ensures { result ≡ bytes_eq named.now.0 topic.now }
{
    named.0.as_str() == topic.as_str()
}

// Entries of a request, and the one that the next partition may join.
#[derive(Drop)]
struct Grouping {
    done: ElectLeadersTopics,
    topic: Text,
    partitions: Ids,
}

impl Grouping {
    fn begin(alloc: Global, first: &(Text, i32)) -> Result<Grouping, NoMemory>
        ensures { IfOk result (λ g. g ≡ record {
          done = [];
          topic = first.now.0;
          partitions = first.now.1 ∷ [];
        }) }
    {
        let topic = first.0.copied(alloc)?;
        let mut partitions = Rows::new(alloc);
        partitions.push(first.1)?;
        Ok(Grouping {
            done: Rows::new(alloc),
            topic,
            partitions,
        })
    }

    // The entry that none joins any more.
    fn end_entry(&mut self, alloc: Global, topic: Text) -> Result<(), NoMemory>
        ensures { OnOk result (self.new ≡ record {
          done = self.old.done ++ open_entry self.old ∷ [];
          topic = topic;
          partitions = [];
        }) }
    {
        let partitions = mem::replace(&mut self.partitions, Rows::new(alloc));
        let topic = mem::replace(&mut self.topic, topic);
        self.done.push(ElectLeadersTopic { topic, partitions })?;
        Ok(())
    }

    fn add(&mut self, alloc: Global, named: &(Text, i32)) -> Result<(), NoMemory>
        ensures { OnOk result (self.new ≡ grouped_with self.old named.now) }
    {
        if is_of_topic(named, &self.topic) {
            self.partitions.push(named.1)?;
            return Ok(());
        }
        self.end_entry(alloc, named.0.copied(alloc)?)?;
        self.partitions.push(named.1)?;
        Ok(())
    }

    fn finish(self) -> Result<ElectLeadersTopics, NoMemory>
        ensures { IfOk result (λ topics. topics ≡ self.done ++ open_entry self ∷ []) }
    {
        let Grouping {
            mut done,
            topic,
            partitions,
        } = self;
        done.push(ElectLeadersTopic { topic, partitions })?;
        Ok(done)
    }
}

// The first partition, and those behind it.
fn topics_from(
    alloc: Global,
    first: &(Text, i32),
    others: &[(Text, i32)],
) -> Result<ElectLeadersTopics, NoMemory>
    ensures { IfOk result (λ topics. topics ≡ elections.entries_by_topic (first.now ∷ others.now)) }
{
    let mut grouping = Grouping::begin(alloc, first)?;
    for named in others {
        grouping.add(alloc, named)?;
    }
    grouping.finish()
}

fn topics_of(alloc: Global, named: &[(Text, i32)]) -> Result<ElectLeadersTopics, NoMemory>
    ensures { IfOk result (λ topics. topics ≡ elections.entries_by_topic named.now) }
{
    match named.split_first() {
        Some((first, others)) => topics_from(alloc, first, others),
        None => Ok(Rows::new(alloc)),
    }
}

/// Their preferred leaders are to lead.
pub(crate) fn election(alloc: Global, named: &[(Text, i32)]) -> Result<ElectLeaders, NoMemory>
    ensures { IfOk result (λ request. request ≡ elections.preferred_election named.now) }
{
    let topics = topics_of(alloc, named)?;
    Ok(ElectLeaders {
        kind: 0,
        topics: Some(topics),
    })
}

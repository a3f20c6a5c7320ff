//! The order in which the records of an image are read.

ghost use Rattle.std.specs.Prelude.{◌≡◌, IfOk, IfSome, OnOk, Some, is_some, true};
ghost use Rattle.std.specs.Option.{option_map, option_map_or};
ghost use Rattle.std.specs.Ordering.{is_lt};
ghost use Rattle.kr_defs.specs.ImageOrder as ranks;
ghost use Rattle.kr_snapshot.specs.ReaderState.{partition_rank, rank_in, section_number, seen_in, setting_rank, topic_in};

use kr_base::NoMemory;
use kr_defs::{Copied, Record, Text, Topic};
use std::alloc::Global;

/// The sections of an image, in their order. The partitions of a topic stand behind it.
#[derive(Clone, Copy, Debug, Drop, PartialEq, Eq, PartialOrd, Ord)]
pub(crate) enum Section {
    Features,
    Brokers,
    Topics,
    Settings,
}

/// Where a record stands among those of an image; what its kind hasn't is 0, empty or none.
#[derive(Debug, Drop, PartialEq, Eq, PartialOrd, Ord)]
pub(crate) struct Rank {
    section: Section,
    kind: i8,
    name: Text,
    key: Text,
    number: Option<i32>,
}

/// What was read so far: the rank of the last record, and the last topic.
#[derive(Drop)]
pub(crate) struct Order {
    rank: Option<Rank>,
    topic: Option<Topic>,
}

impl Order {
    /// The order before the first record.
    pub fn new() -> Order
        ensures { seen_in result ≡ ranks.nothing_seen }
    {
        Order {
            rank: None,
            topic: None,
        }
    }

    /// The rank of the record, where it stands in the order and is later than the record before.
    pub fn later_rank(&self, alloc: Global, value: &Record) -> Result<Option<Rank>, NoMemory>
        ensures later { IfOk result (λ r. is_some r ≡ ranks.is_later (seen_in self.now) value.now) }
        ensures rank { IfOk result (λ r. IfSome r (λ rank. Some (rank_in rank) ≡ ranks.rank_of (topic_in self.now.topic) value.now)) }
    {
        let Some(rank) = rank_of(alloc, &self.topic, value)? else {
            return Ok(None);
        };
        if self.is_before(&rank) {
            Ok(Some(rank))
        } else {
            Ok(None)
        }
    }

    fn is_before(&self, rank: &Rank) -> bool
        ensures { result ≡ option_map_or (λ before. is_lt (ranks.rank_order before (rank_in rank.now))) (option_map rank_in self.now.rank) true }
    {
        match &self.rank {
            Some(before) => before.cmp(rank).is_lt(),
            None => true,
        }
    }

    /// The record of that rank was read.
    pub fn add(&mut self, alloc: Global, rank: Rank, value: &Record) -> Result<(), NoMemory>
        requires { Some (rank_in rank) ≡ ranks.rank_of (topic_in self.old.topic) value.now }
        ensures { OnOk result (seen_in self.new ≡ ranks.seen_with (seen_in self.old) value.now) }
    {
        if let Record::Topic { name, id } = value {
            let name = name.copied(alloc)?;
            self.topic = Some(Topic { name, id: *id });
        }
        self.rank = Some(rank);
        Ok(())
    }
}

// A name or a number in one of the first three sections.
fn rank_of_name(alloc: Global, section: Section, name: Text, number: Option<i32>) -> Rank
    ensures { rank_in result ≡ ranks.named (section_number section) name number }
{
    Rank {
        section,
        kind: 0,
        name,
        key: Text::new(alloc),
        number,
    }
}

fn setting(alloc: Global, kind: &i8, name: &Text, key: &Text) -> Result<Rank, NoMemory>
    ensures { IfOk result (λ r. rank_in r ≡ setting_rank kind.now name.now key.now) }
{
    let name = name.copied(alloc)?;
    let key = key.copied(alloc)?;
    Ok(Rank {
        section: Section::Settings,
        kind: *kind,
        name,
        key,
        number: None,
    })
}

// A partition stands with the last topic that was read, if it is that topic's.
fn partition(
    alloc: Global,
    last: &Option<Topic>,
    topic: &u128,
    index: &i32,
) -> Result<Option<Rank>, NoMemory>
    ensures { IfOk result (λ r. option_map rank_in r ≡ partition_rank (topic_in last.now) topic.now index.now) }
{
    match last {
        Some(last) => {
            if last.id == *topic {
                let name = last.name.copied(alloc)?;
                Ok(Some(rank_of_name(alloc, Section::Topics, name, Some(*index))))
            } else {
                Ok(None)
            }
        }
        None => Ok(None),
    }
}

// The rank of a record behind that last topic; none where no image has such a record, or not here.
fn rank_of(alloc: Global, last: &Option<Topic>, value: &Record) -> Result<Option<Rank>, NoMemory>
    ensures { IfOk result (λ r. option_map rank_in r ≡ ranks.rank_of (topic_in last.now) value.now) }
{
    match value {
        Record::FeatureLevel { name, .. } => {
            let name = name.copied(alloc)?;
            Ok(Some(rank_of_name(alloc, Section::Features, name, None)))
        }
        Record::RegisterBroker { broker, .. } => {
            let none = Text::new(alloc);
            Ok(Some(rank_of_name(alloc, Section::Brokers, none, Some(*broker))))
        }
        Record::Topic { name, .. } => {
            let name = name.copied(alloc)?;
            Ok(Some(rank_of_name(alloc, Section::Topics, name, None)))
        }
        Record::Partition { index, topic, .. } => partition(alloc, last, topic, index),
        Record::Config {
            kind,
            name,
            key,
            ..
        } => {
            let rank = setting(alloc, kind, name, key)?;
            Ok(Some(rank))
        }
        Record::UnregisterBroker { .. }
        | Record::PartitionChange { .. }
        | Record::FenceBroker { .. }
        | Record::UnfenceBroker { .. }
        | Record::RemoveTopic { .. }
        | Record::BrokerRegistrationChange { .. }
        | Record::NoOp
        | Record::BeginTransaction { .. }
        | Record::EndTransaction
        | Record::AbortTransaction { .. } => Ok(None),
    }
}

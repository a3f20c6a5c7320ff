//! What the entries of an image give, in the order of a walk.

ghost use Rattle.std.specs.Prelude.{◌≡◌, ◌++◌, ℕ, ℤ, List, IfOk, OnOk};
ghost use Rattle.std.specs.List.{flat_map};
ghost use Rattle.kr_defs.specs.declared.broker.Broker.{Broker as AnyBroker};
ghost use Rattle.kr_defs.specs.declared.partition.Partition.{Partition as AnyPartition};
ghost use Rattle.kr_defs.specs.declared.record.ConfigKey.{ConfigKey as AnyConfigKey};
ghost use Rattle.kr_defs.specs.Image.{Image};
ghost use Rattle.kr_defs.specs.Walk.{of_topic, rest_of_topic};
ghost use Rattle.kr_listing.specs.ImageParts.{with_parts};

use kr_base::NoMemory;
use kr_defs::{Broker, ConfigKey, Partition, Rows, Text};
use kr_store::{Seen, Store, before_all};
use std::alloc::Global;

/// What one feature gives.
pub trait FeaturePart<Y: Drop> {
    ghost part: { Self → List ℕ × ℤ → List Y };

    /// Adds what the feature gives.
    fn add(
        &self,
        alloc: Global,
        name: &Text,
        level: &i16,
        rows: &mut Rows<Y>,
    ) -> Result<(), NoMemory>
        ensures { OnOk result (rows.new ≡ rows.old ++ part self.now (name.now, level.now)) };
}

/// What one broker gives.
pub trait BrokerPart<Y: Drop> {
    ghost part: { Self → ℤ × AnyBroker → List Y };

    /// Adds what the broker gives.
    fn add(
        &self,
        alloc: Global,
        id: &i32,
        state: &Broker,
        rows: &mut Rows<Y>,
    ) -> Result<(), NoMemory>
        ensures { OnOk result (rows.new ≡ rows.old ++ part self.now (id.now, state.now)) };
}

/// What one partition gives.
pub trait PartitionPart<Y: Drop> {
    ghost part: { Self → (ℕ × ℤ) × AnyPartition → List Y };

    /// Adds what the partition gives.
    fn add(
        &self,
        alloc: Global,
        key: &(u128, i32),
        partition: &Partition,
        rows: &mut Rows<Y>,
    ) -> Result<(), NoMemory>
        ensures { OnOk result (rows.new ≡ rows.old ++ part self.now (key.now, partition.now)) };
}

/// What one topic gives, by the image.
pub trait TopicPart<Y: Drop> {
    ghost part: { Self → Image → List ℕ × ℕ → List Y };

    /// Adds what the topic gives.
    fn add<S: Store>(
        &self,
        alloc: Global,
        seen: &Seen<S>,
        name: &Text,
        id: &u128,
        rows: &mut Rows<Y>,
    ) -> Result<(), NoMemory>
        ensures { OnOk result (rows.new ≡ rows.old ++ part self.now seen.now (name.now, id.now)) };
}

/// What one setting gives.
pub trait ConfigPart<Y: Drop> {
    ghost part: { Self → AnyConfigKey × List ℕ → List Y };

    /// Adds what the setting gives.
    fn add(
        &self,
        alloc: Global,
        key: &ConfigKey,
        value: &Text,
        rows: &mut Rows<Y>,
    ) -> Result<(), NoMemory>
        ensures { OnOk result (rows.new ≡ rows.old ++ part self.now (key.now, value.now)) };
}

// Adds what the partitions of one topic give that stand above a key.
fn add_above<Y: Drop, P: PartitionPart<Y>, S: Store>(
    alloc: Global,
    seen: &Seen<S>,
    part: &P,
    first: (u128, i32),
    rows: &mut Rows<Y>,
) -> Result<(), NoMemory>
    ensures { OnOk result (rows.new ≡ rows.old ++
        flat_map (P.part part.now) (rest_of_topic first seen.now.partitions)) }
{
    let mut after = first;
    while let Some((key, partition)) = seen.next_of_topic(&after) {
        part.add(alloc, key, partition, rows)?;
        after = *key;
    }
    Ok(())
}

/// Adds what the partitions of one topic give, by index. An error is want of memory alone, and says nothing of the rows.
pub fn add_partitions<Y: Drop, P: PartitionPart<Y>, S: Store>(
    alloc: Global,
    seen: &Seen<S>,
    part: &P,
    id: &u128,
    rows: &mut Rows<Y>,
) -> Result<(), NoMemory>
    ensures { OnOk result (rows.new ≡ rows.old ++
        flat_map (P.part part.now) (of_topic id.now seen.now.partitions)) }
{
    seen.is_valid();
    add_above(alloc, seen, part, before_all(id), rows)?;
    Ok(())
}

// Adds what all features, by name, give.
fn add_features<Y: Drop, P: FeaturePart<Y>, S: Store>(
    alloc: Global,
    seen: &Seen<S>,
    part: &P,
    rows: &mut Rows<Y>,
) -> Result<(), NoMemory>
    ensures { OnOk result (rows.new ≡ rows.old ++ flat_map (P.part part.now) seen.now.features) }
{
    seen.is_valid();
    let mut after = None;
    while let Some((name, level)) = seen.next_feature(after) {
        part.add(alloc, name, level, rows)?;
        after = Some(name);
    }
    Ok(())
}

// Adds what all brokers, by id, give.
fn add_brokers<Y: Drop, P: BrokerPart<Y>, S: Store>(
    alloc: Global,
    seen: &Seen<S>,
    part: &P,
    rows: &mut Rows<Y>,
) -> Result<(), NoMemory>
    ensures { OnOk result (rows.new ≡ rows.old ++ flat_map (P.part part.now) seen.now.brokers) }
{
    seen.is_valid();
    let mut after = None;
    while let Some((id, state)) = seen.next_broker(after) {
        part.add(alloc, id, state, rows)?;
        after = Some(id);
    }
    Ok(())
}

// Adds what all topics, by name, give.
fn add_topics<Y: Drop, P: TopicPart<Y>, S: Store>(
    alloc: Global,
    seen: &Seen<S>,
    part: &P,
    rows: &mut Rows<Y>,
) -> Result<(), NoMemory>
    ensures { OnOk result (rows.new ≡ rows.old ++
        flat_map (P.part part.now seen.now) seen.now.topics) }
{
    seen.is_valid();
    let mut after = None;
    while let Some((name, id)) = seen.next_topic(after) {
        part.add(alloc, seen, name, id, rows)?;
        after = Some(name);
    }
    Ok(())
}

// Adds what all settings, by type, resource name and key, give.
fn add_configs<Y: Drop, P: ConfigPart<Y>, S: Store>(
    alloc: Global,
    seen: &Seen<S>,
    part: &P,
    rows: &mut Rows<Y>,
) -> Result<(), NoMemory>
    ensures { OnOk result (rows.new ≡ rows.old ++ flat_map (P.part part.now) seen.now.configs) }
{
    seen.is_valid();
    let mut after = None;
    while let Some((key, value)) = seen.next_config(after) {
        part.add(alloc, key, value, rows)?;
        after = Some(key);
    }
    Ok(())
}

/// Adds what a whole image gives, in the order in which one is written: its features, its brokers, its topics, each with
/// what it gives of its partitions, and its settings. An error is want of memory alone, and says nothing of the rows.
pub fn add_image<
    Y: Drop,
    F: FeaturePart<Y>,
    B: BrokerPart<Y>,
    T: TopicPart<Y>,
    C: ConfigPart<Y>,
    S: Store,
>(
    alloc: Global,
    seen: &Seen<S>,
    feature: &F,
    broker: &B,
    topic: &T,
    config: &C,
    rows: &mut Rows<Y>,
) -> Result<(), NoMemory>
    ensures { OnOk result (rows.new ≡ with_parts rows.old (F.part feature.now) (B.part broker.now)
        (T.part topic.now) (C.part config.now) seen.now) }
{
    add_features(alloc, seen, feature, rows)?;
    add_brokers(alloc, seen, broker, rows)?;
    add_topics(alloc, seen, topic, rows)?;
    add_configs(alloc, seen, config, rows)
}

/// What all brokers give, by id.
pub fn gather_brokers<Y: Drop, P: BrokerPart<Y>, S: Store>(
    alloc: Global,
    seen: &Seen<S>,
    part: &P,
) -> Result<Rows<Y>, NoMemory>
    ensures { IfOk result (λ rows. rows ≡ flat_map (P.part part.now) seen.now.brokers) }
{
    let mut rows = Rows::new(alloc);
    add_brokers(alloc, seen, part, &mut rows)?;
    Ok(rows)
}

/// What the partitions of one topic give, by index.
pub fn gather_partitions<Y: Drop, P: PartitionPart<Y>, S: Store>(
    alloc: Global,
    seen: &Seen<S>,
    part: &P,
    id: &u128,
) -> Result<Rows<Y>, NoMemory>
    ensures { IfOk result (λ rows. rows ≡
        flat_map (P.part part.now) (of_topic id.now seen.now.partitions)) }
{
    let mut rows = Rows::new(alloc);
    add_partitions(alloc, seen, part, id, &mut rows)?;
    Ok(rows)
}

/// What all topics give, by name.
pub fn gather_topics<Y: Drop, P: TopicPart<Y>, S: Store>(
    alloc: Global,
    seen: &Seen<S>,
    part: &P,
) -> Result<Rows<Y>, NoMemory>
    ensures { IfOk result (λ rows. rows ≡ flat_map (P.part part.now seen.now) seen.now.topics) }
{
    let mut rows = Rows::new(alloc);
    add_topics(alloc, seen, part, &mut rows)?;
    Ok(rows)
}

//! What each entry of an image gives to the text.

ghost use Rattle.kr_dump.specs.DumpText as texts;

use crate::lines::{put_broker, put_config, put_feature, put_partition, put_topic};
use kr_base::NoMemory;
use kr_defs::{Broker, Bytes, ConfigKey, Partition, Text};
use kr_listing::{BrokerPart, ConfigPart, FeaturePart, PartitionPart, TopicPart, add_partitions};
use kr_store::{Seen, Store};
use std::alloc::Global;

/// The line of a feature.
#[derive(Drop)]
pub(crate) struct FeatureLine;

impl FeaturePart<u8> for FeatureLine {
    ghost part = { λ _ entry. texts.feature_line entry };

    fn add(
        &self,
        alloc: Global,
        name: &Text,
        level: &i16,
        rows: &mut Bytes,
    ) -> Result<(), NoMemory> {
        put_feature(alloc, rows, name, level)?;
        Ok(())
    }
}

/// The line of a broker.
#[derive(Drop)]
pub(crate) struct BrokerLine;

impl BrokerPart<u8> for BrokerLine {
    ghost part = { λ _ entry. texts.broker_line entry };

    fn add(
        &self,
        alloc: Global,
        id: &i32,
        state: &Broker,
        rows: &mut Bytes,
    ) -> Result<(), NoMemory> {
        put_broker(alloc, rows, *id, state)?;
        Ok(())
    }
}

/// The line of a partition of the topic of this name.
#[derive(Drop)]
struct PartitionLine<'a> {
    name: &'a Text,
}

impl<'a> PartitionPart<u8> for PartitionLine<'a> {
    ghost part = { λ p entry. texts.partition_line p.name.now entry };

    fn add(
        &self,
        alloc: Global,
        key: &(u128, i32),
        partition: &Partition,
        rows: &mut Bytes,
    ) -> Result<(), NoMemory> {
        put_partition(alloc, rows, self.name, key, partition)?;
        Ok(())
    }
}

/// The line of a topic, and those of its partitions.
#[derive(Drop)]
pub(crate) struct TopicLines;

impl TopicPart<u8> for TopicLines {
    ghost part = { λ _ image topic. texts.topic_lines image topic };

    fn add<S: Store>(
        &self,
        alloc: Global,
        seen: &Seen<S>,
        name: &Text,
        id: &u128,
        rows: &mut Bytes,
    ) -> Result<(), NoMemory> {
        put_topic(alloc, rows, name, *id)?;
        add_partitions(alloc, seen, &PartitionLine { name }, id, rows)
    }
}

/// The line of a setting.
#[derive(Drop)]
pub(crate) struct ConfigLine;

impl ConfigPart<u8> for ConfigLine {
    ghost part = { λ _ entry. texts.config_line entry };

    fn add(
        &self,
        alloc: Global,
        key: &ConfigKey,
        value: &Text,
        rows: &mut Bytes,
    ) -> Result<(), NoMemory> {
        put_config(alloc, rows, key, value)?;
        Ok(())
    }
}

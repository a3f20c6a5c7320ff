//! The record of each entry of an image.

ghost use Rattle.kr_defs.specs.Records.{topic_records};
ghost use Rattle.kr_listing.specs.inner.Contents as contents;

use crate::{BrokerPart, ConfigPart, FeaturePart, PartitionPart, TopicPart, add_partitions};
use kr_base::NoMemory;
use kr_defs::{Broker, ConfigKey, Copied, Partition, Record, Records, Text};
use kr_store::{Seen, Store};
use std::alloc::Global;

/// The level of a feature.
#[derive(Drop)]
pub(crate) struct Level;

impl FeaturePart<Record> for Level {
    ghost part = { λ _ entry. contents.of_feature entry };

    fn add(
        &self,
        alloc: Global,
        name: &Text,
        level: &i16,
        rows: &mut Records,
    ) -> Result<(), NoMemory> {
        let name = name.copied(alloc)?;
        rows.push(Record::FeatureLevel {
            name,
            level: *level,
        })?;
        Ok(())
    }
}

/// The registration of a broker.
#[derive(Drop)]
pub(crate) struct Registration;

impl BrokerPart<Record> for Registration {
    ghost part = { λ _ entry. contents.of_broker entry };

    fn add(
        &self,
        alloc: Global,
        id: &i32,
        state: &Broker,
        rows: &mut Records,
    ) -> Result<(), NoMemory> {
        let state = state.copied(alloc)?;
        rows.push(Record::RegisterBroker { broker: *id, state })?;
        Ok(())
    }
}

/// A partition as it stands.
#[derive(Drop)]
struct Standing;

impl PartitionPart<Record> for Standing {
    ghost part = { λ _ entry. contents.of_partition entry };

    fn add(
        &self,
        alloc: Global,
        key: &(u128, i32),
        partition: &Partition,
        rows: &mut Records,
    ) -> Result<(), NoMemory> {
        let (topic, index) = (key.0, key.1);
        let state = partition.copied(alloc)?;
        rows.push(Record::Partition {
            index,
            topic,
            state,
        })?;
        Ok(())
    }
}

/// A topic, and its partitions behind it.
#[derive(Drop)]
pub(crate) struct TopicRecords;

impl TopicPart<Record> for TopicRecords {
    ghost part = { λ _ image topic. topic_records image.partitions topic };

    #[tactic(auto, using(crate::proofs::Sections::topics))]
    fn add<S: Store>(
        &self,
        alloc: Global,
        seen: &Seen<S>,
        name: &Text,
        id: &u128,
        rows: &mut Records,
    ) -> Result<(), NoMemory> {
        let name = name.copied(alloc)?;
        rows.push(Record::Topic { name, id: *id })?;
        add_partitions(alloc, seen, &Standing, id, rows)
    }
}

/// A setting with its value.
#[derive(Drop)]
pub(crate) struct Setting;

impl ConfigPart<Record> for Setting {
    ghost part = { λ _ entry. contents.of_config entry };

    fn add(
        &self,
        alloc: Global,
        key: &ConfigKey,
        value: &Text,
        rows: &mut Records,
    ) -> Result<(), NoMemory> {
        let ConfigKey { kind, name, key } = key.copied(alloc)?;
        let value = value.copied(alloc)?;
        rows.push(Record::Config {
            kind,
            name,
            key,
            value: Some(value),
        })?;
        Ok(())
    }
}

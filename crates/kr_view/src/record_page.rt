//! The records of an image by their keys.

ghost use Rattle.std.specs.Prelude.{◌≡◌, ◌≤◌, ◌∷◌, ◌++◌, [], IfOk, OnOk, None, flat_map, length, map, take};
ghost use Rattle.std.specs.Option.{option_copied};
ghost use Rattle.std.specs.Ordering.{int_cmp};
ghost use Rattle.kr_defs.specs.declared.record.Record.TheVariants as kinds;
ghost use Rattle.kr_defs.specs.Map.{above, config_order, text_order};
ghost use Rattle.kr_defs.specs.Records.{partition_record, topic_records};
ghost use Rattle.kr_view.specs.declared.record_key.RecordKey.TheVariants as keys;
ghost use Rattle.kr_view.specs.RecordPages.{record_of_key, record_page, setting_key};
ghost use Rattle.kr_view.specs.RecordSections as sections;

use crate::listing::{Listing, is_full, key_of, list_behind, list_topics};
use crate::record_key::RecordKey;
use kr_base::NoMemory;
use kr_defs::{Broker, ConfigKey, Copied, Partition, Record, Records, Text};
use kr_store::{Seen, Store};
use std::alloc::Global;

/// A topic's record, and those of its partitions.
#[derive(Drop)]
struct TopicRecords;

impl Listing<Record> for TopicRecords {
    ghost heads = { λ _ topic. sections.record_of_topic topic };

    ghost rows = { λ _ w. partition_record w };

    fn head(&self, alloc: Global, name: &Text, id: &u128) -> Result<Option<Record>, NoMemory> {
        let name = name.copied(alloc)?;
        Ok(Some(Record::Topic { name, id: *id }))
    }

    fn row(
        &self,
        alloc: Global,
        _name: &Text,
        key: &(u128, i32),
        partition: &Partition,
    ) -> Result<Record, NoMemory> {
        partition_record(alloc, key, partition)
    }
}

fn partition_record(
    alloc: Global,
    key: &(u128, i32),
    partition: &Partition,
) -> Result<Record, NoMemory>
    ensures { IfOk result (λ r. r ≡ kinds.Partition key.now.1 key.now.0 partition.now) }
{
    let (topic, index) = (key.0, key.1);
    let state = partition.copied(alloc)?;
    Ok(Record::Partition {
        index,
        topic,
        state,
    })
}

fn feature_record(alloc: Global, name: &Text, level: &i16) -> Result<Record, NoMemory>
    ensures { IfOk result (λ r. r ≡ sections.record_of_feature (name.now, level.now)) }
{
    let name = name.copied(alloc)?;
    Ok(Record::FeatureLevel {
        name,
        level: *level,
    })
}

fn broker_record(alloc: Global, id: &i32, state: &Broker) -> Result<Record, NoMemory>
    ensures { IfOk result (λ r. r ≡ sections.record_of_broker (id.now, state.now)) }
{
    let state = state.copied(alloc)?;
    Ok(Record::RegisterBroker { broker: *id, state })
}

fn setting_record(alloc: Global, key: &ConfigKey, value: &Text) -> Result<Record, NoMemory>
    ensures { IfOk result (λ r. r ≡ sections.record_of_setting (key.now, value.now)) }
{
    let ConfigKey { kind, name, key } = key.copied(alloc)?;
    let value = value.copied(alloc)?;
    Ok(Record::Config {
        kind,
        name,
        key,
        value: Some(value),
    })
}

fn setting_key(alloc: Global, kind: &i8, name: &Text, key: &Text) -> Result<ConfigKey, NoMemory>
    ensures { IfOk result (λ k. k ≡ setting_key kind.now name.now key.now) }
{
    Ok(ConfigKey {
        kind: *kind,
        name: name.copied(alloc)?,
        key: key.copied(alloc)?,
    })
}

// The settings behind a key.
#[tactic(auto, using(crate::proofs::Filling::fillings))]
fn add_settings<S: Store>(
    alloc: Global,
    seen: &Seen<S>,
    after: Option<&ConfigKey>,
    most: u32,
    records: &mut Records,
) -> Result<(), NoMemory>
    requires { length records.old ≤ most }
    ensures { OnOk result (records.new ≡ take most (records.old ++ sections.from_settings
        seen.now (option_copied after.entry))) }
{
    seen.is_valid();
    let mut last = after;
    while let Some((key, value)) = seen.next_config(last) {
        if is_full(records, most) {
            return Ok(());
        }
        records.push(setting_record(alloc, key, value)?)?;
        last = Some(key);
    }
    Ok(())
}

// All topics, and what stands behind them.
fn add_topics<S: Store>(
    alloc: Global,
    seen: &Seen<S>,
    most: u32,
    records: &mut Records,
) -> Result<(), NoMemory>
    requires { length records.old ≤ most }
    ensures { OnOk result (records.new ≡ take most (records.old ++ sections.from_topics seen.now)) }
{
    list_topics(alloc, seen, &TopicRecords, None, most, records)?;
    add_settings(alloc, seen, None, most, records)?;
    Ok(())
}

// What stands behind a topic's partition of the index.
fn add_behind<S: Store>(
    alloc: Global,
    seen: &Seen<S>,
    name: &Text,
    index: &i32,
    most: u32,
    records: &mut Records,
) -> Result<(), NoMemory>
    requires { length records.old ≤ most }
    ensures { OnOk result (records.new ≡ take most (records.old ++ sections.behind_partition
        seen.now name.now index.now)) }
{
    list_behind(alloc, seen, &TopicRecords, name, index, most, records)?;
    add_settings(alloc, seen, None, most, records)?;
    Ok(())
}

// The brokers behind an id, and what stands behind all of them.
#[tactic(auto, using(crate::proofs::Filling::fillings))]
fn add_brokers<S: Store>(
    alloc: Global,
    seen: &Seen<S>,
    after: Option<&i32>,
    most: u32,
    records: &mut Records,
) -> Result<(), NoMemory>
    requires { length records.old ≤ most }
    ensures { OnOk result (records.new ≡ take most (records.old ++ sections.from_brokers seen.now
        (option_copied after.entry))) }
{
    seen.is_valid();
    let mut last = after;
    while let Some((id, state)) = seen.next_broker(last) {
        if is_full(records, most) {
            return Ok(());
        }
        records.push(broker_record(alloc, id, state)?)?;
        last = Some(id);
    }
    add_topics(alloc, seen, most, records)?;
    Ok(())
}

// The features behind a name, and what stands behind all of them.
#[tactic(auto, using(crate::proofs::Filling::fillings))]
fn add_features<S: Store>(
    alloc: Global,
    seen: &Seen<S>,
    after: Option<&Text>,
    most: u32,
    records: &mut Records,
) -> Result<(), NoMemory>
    requires { length records.old ≤ most }
    ensures { OnOk result (records.new ≡ take most (records.old ++ sections.from_features
        seen.now (option_copied after.entry))) }
{
    seen.is_valid();
    let mut last = after;
    while let Some((name, level)) = seen.next_feature(last) {
        if is_full(records, most) {
            return Ok(());
        }
        records.push(feature_record(alloc, name, level)?)?;
        last = Some(name);
    }
    add_brokers(alloc, seen, None, most, records)?;
    Ok(())
}

// What stands behind a key.
fn add_after<S: Store>(
    alloc: Global,
    seen: &Seen<S>,
    after: &RecordKey,
    most: u32,
    records: &mut Records,
) -> Result<(), NoMemory>
    requires { length records.old ≤ most }
    ensures { OnOk result (records.new ≡ take most (records.old ++ sections.behind_key seen.now
        after.now)) }
{
    match after {
        RecordKey::Feature { name } => add_features(alloc, seen, Some(name), most, records),
        RecordKey::Broker { id } => add_brokers(alloc, seen, Some(id), most, records),
        RecordKey::Topic { name } => add_behind(alloc, seen, name, &-1, most, records),
        RecordKey::Partition { topic, index } => {
            add_behind(alloc, seen, topic, index, most, records)
        }
        RecordKey::Setting { kind, name, key } => {
            let last = setting_key(alloc, kind, name, key)?;
            add_settings(alloc, seen, Some(&last), most, records)
        }
    }
}

// The records behind the key, or all of them.
fn add_records<S: Store>(
    alloc: Global,
    seen: &Seen<S>,
    after: Option<&RecordKey>,
    most: u32,
    records: &mut Records,
) -> Result<(), NoMemory>
    requires { length records.old ≤ most }
    ensures { OnOk result (records.new ≡ take most (records.old ++ sections.records_behind
        seen.now (option_copied after.entry))) }
{
    match after {
        None => add_features(alloc, seen, None, most, records),
        Some(key) => add_after(alloc, seen, key, most, records),
    }
}

/// The first records behind the key.
pub(crate) fn record_page<S: Store>(
    alloc: Global,
    seen: &Seen<S>,
    after: Option<&RecordKey>,
    most: u32,
) -> Result<Records, NoMemory>
    ensures { IfOk result (λ records. records ≡ record_page seen.now (option_copied after.entry)
        most) }
{
    seen.is_valid();
    let mut records = Records::new(alloc);
    add_records(alloc, seen, after, most, &mut records)?;
    Ok(records)
}

fn feature_at<S: Store>(
    alloc: Global,
    seen: &Seen<S>,
    name: &Text,
) -> Result<Option<Record>, NoMemory>
    ensures { IfOk result (λ r. r ≡ record_of_key seen.now (keys.Feature name.now)) }
{
    match seen.feature(name) {
        Some(level) => Ok(Some(feature_record(alloc, name, level)?)),
        None => Ok(None),
    }
}

fn broker_at<S: Store>(alloc: Global, seen: &Seen<S>, id: &i32) -> Result<Option<Record>, NoMemory>
    ensures { IfOk result (λ r. r ≡ record_of_key seen.now (keys.Broker id.now)) }
{
    match seen.broker(id) {
        Some(state) => Ok(Some(broker_record(alloc, id, state)?)),
        None => Ok(None),
    }
}

fn topic_at<S: Store>(
    alloc: Global,
    seen: &Seen<S>,
    name: &Text,
) -> Result<Option<Record>, NoMemory>
    ensures { IfOk result (λ r. r ≡ record_of_key seen.now (keys.Topic name.now)) }
{
    match seen.topic_named(name) {
        Some(topic) => {
            let name = name.copied(alloc)?;
            Ok(Some(Record::Topic { name, id: topic.id }))
        }
        None => Ok(None),
    }
}

fn partition_at<S: Store>(
    alloc: Global,
    seen: &Seen<S>,
    topic: &Text,
    index: &i32,
) -> Result<Option<Record>, NoMemory>
    ensures { IfOk result (λ r. r ≡ record_of_key seen.now (keys.Partition topic.now index.now)) }
{
    let Some(topic) = seen.topic_named(topic) else {
        return Ok(None);
    };
    match seen.partition(&topic.id, index) {
        Some(state) => {
            let key = key_of(&topic.id, index);
            Ok(Some(partition_record(alloc, &key, state)?))
        }
        None => Ok(None),
    }
}

fn setting_at<S: Store>(
    alloc: Global,
    seen: &Seen<S>,
    key: &ConfigKey,
) -> Result<Option<Record>, NoMemory>
    ensures { IfOk result (λ r. r ≡ record_of_key seen.now (keys.Setting key.now.kind
        key.now.name key.now.key)) }
{
    match seen.config(key) {
        Some(value) => Ok(Some(setting_record(alloc, key, value)?)),
        None => Ok(None),
    }
}

/// The record of the key, if there is one.
pub(crate) fn record_of_key<S: Store>(
    alloc: Global,
    seen: &Seen<S>,
    key: &RecordKey,
) -> Result<Option<Record>, NoMemory>
    ensures { IfOk result (λ r. r ≡ record_of_key seen.now key.now) }
{
    match key {
        RecordKey::Feature { name } => feature_at(alloc, seen, name),
        RecordKey::Broker { id } => broker_at(alloc, seen, id),
        RecordKey::Topic { name } => topic_at(alloc, seen, name),
        RecordKey::Partition { topic, index } => partition_at(alloc, seen, topic, index),
        RecordKey::Setting { kind, name, key } => {
            let key = setting_key(alloc, kind, name, key)?;
            setting_at(alloc, seen, &key)
        }
    }
}

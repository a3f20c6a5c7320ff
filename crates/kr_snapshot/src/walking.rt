//! The records of an image, in their order, go to a writer.

ghost use Rattle.std.specs.Prelude.{◌≡◌, ℕ, ℤ, ◌∷◌, [], map, flat_map, IfOk, OnOk, Some};
ghost use Rattle.kr_defs.specs.declared.partition.Partition.{Partition as AnyPartition};
ghost use Rattle.kr_defs.specs.declared.record.Record.TheVariants as kinds;
ghost use Rattle.kr_defs.specs.Map.{above, partition_order};
ghost use Rattle.kr_defs.specs.Records.{topic_records};
ghost use Rattle.kr_defs.specs.Walk.{of_topic};
ghost use Rattle.kr_record.specs.Encodable.{IsHeld};
ghost use Rattle.kr_snapshot.specs.inner.EntryRecords.{feature_record, broker_record, partition_record, config_record};
ghost use Rattle.kr_snapshot.specs.inner.Writer.{MayAdd, Adds};

use crate::batch_writer::BatchWriter;
use kr_base::NoMemory;
use kr_defs::{Broker, ConfigKey, Copied, Ids, Partition, Record, Rows, Text};
use kr_record::record_is_held;
use kr_store::{Seen, Store, before_all};
use std::alloc::Global;
use std::mem;

fn feature(alloc: Global, name: &Text, level: &i16) -> Result<Record, NoMemory>
    ensures of { IfOk result (λ r. r ≡ feature_record (name.now, level.now)) }
    ensures held { IfOk result IsHeld }
{
    let name = name.copied(alloc)?;
    let record = Record::FeatureLevel {
        name,
        level: *level,
    };
    record_is_held(&record);
    Ok(record)
}

fn registration(alloc: Global, id: &i32, state: &Broker) -> Result<Record, NoMemory>
    ensures of { IfOk result (λ r. r ≡ broker_record (id.now, state.now)) }
    ensures held { IfOk result IsHeld }
{
    let state = state.copied(alloc)?;
    let record = Record::RegisterBroker { broker: *id, state };
    record_is_held(&record);
    Ok(record)
}

fn topic(alloc: Global, name: &Text, id: &u128) -> Result<Record, NoMemory>
    ensures of { IfOk result (λ r. r ≡ kinds.Topic name.now id.now) }
    ensures held { IfOk result IsHeld }
{
    let name = name.copied(alloc)?;
    let record = Record::Topic { name, id: *id };
    record_is_held(&record);
    Ok(record)
}

fn partition(alloc: Global, key: &(u128, i32), state: &Partition) -> Result<Record, NoMemory>
    ensures { IfOk result (λ r. r ≡ partition_record (key.now, state.now)) }
{
    let state = state.copied(alloc)?;
    Ok(Record::Partition {
        index: key.1,
        topic: key.0,
        state,
    })
}

// Makes it the record of a partition. Where it is one of another, the room of its lists is used again.
#[inline(always)]
fn set_partition(
    alloc: Global,
    record: &mut Record,
    key: &(u128, i32),
    state: &Partition,
) -> Result<(), NoMemory>
    ensures of { OnOk result (record.new ≡ partition_record (key.now, state.now)) }
    ensures held { OnOk result (IsHeld record.new) }
{
    match record {
        Record::Partition { state: own, .. } => set_state(alloc, own, state)?,
        _ => *record = partition(alloc, key, state)?,
    }
    set_place(record, key);
    record_is_held(record);
    Ok(())
}

// Sets the index and the topic of a partition's record.
#[inline(always)]
fn set_place(record: &mut Record, key: &(u128, i32))
    ensures { (i : ℤ) (t : ℕ) (s : AnyPartition) → record.old ≡ kinds.Partition i t s →
        record.new ≡ kinds.Partition key.now.1 key.now.0 s }
{
    match record {
        Record::Partition { index, .. } => *index = key.1,
        _ => {}
    }
    match record {
        Record::Partition { topic, .. } => *topic = key.0,
        _ => {}
    }
}

#[inline(always)]
fn set_state(alloc: Global, own: &mut Partition, state: &Partition) -> Result<(), NoMemory>
    ensures { OnOk result (own.new ≡ state.now) }
{
    set_ids(alloc, &mut own.replicas, &state.replicas)?;
    set_ids(alloc, &mut own.in_sync, &state.in_sync)?;
    set_ids(alloc, &mut own.eligible, &state.eligible)?;
    set_ids(alloc, &mut own.last_known, &state.last_known)?;
    set_ids(alloc, &mut own.adding, &state.adding)?;
    set_ids(alloc, &mut own.removing, &state.removing)?;
    own.leader = state.leader;
    own.recovery = state.recovery;
    own.leader_epoch = state.leader_epoch;
    own.partition_epoch = state.partition_epoch;
    Ok(())
}

#[inline(always)]
fn set_ids(alloc: Global, own: &mut Ids, ids: &Ids) -> Result<(), NoMemory>
    ensures { OnOk result (own.new ≡ ids.now) }
{
    if own.is_empty() && ids.is_empty() {
        return Ok(());
    }
    let mut list = mem::replace(own, Rows::new(alloc)).into_vec();
    list.clear();
    list.extend_from_slice(ids.as_slice())?;
    *own = Rows::from_vec(list);
    Ok(())
}

fn setting(alloc: Global, key: &ConfigKey, value: &Text) -> Result<Record, NoMemory>
    ensures of { IfOk result (λ r. r ≡ config_record (key.now, value.now)) }
    ensures held { IfOk result IsHeld }
{
    let ConfigKey { kind, name, key } = key.copied(alloc)?;
    let value = value.copied(alloc)?;
    let record = Record::Config {
        kind,
        name,
        key,
        value: Some(value),
    };
    record_is_held(&record);
    Ok(record)
}

/// The features, by name.
#[tactic(auto, using(crate::proofs::WriterRecords::adding))]
pub(crate) fn put_features<S: Store>(
    alloc: Global,
    seen: &Seen<S>,
    writer: &mut BatchWriter,
) -> Result<(), NoMemory>
    requires { MayAdd writer.old (map feature_record seen.now.features) }
    ensures { OnOk result (Adds writer.old writer.new (map feature_record seen.now.features)) }
{
    seen.is_valid();
    let mut after = None;
    while let Some((name, level)) = seen.next_feature(after) {
        let record = feature(alloc, name, level)?;
        writer.push(&record)?;
        after = Some(name);
    }
    Ok(())
}

/// The brokers, by id.
#[tactic(auto, using(crate::proofs::WriterRecords::adding))]
pub(crate) fn put_brokers<S: Store>(
    alloc: Global,
    seen: &Seen<S>,
    writer: &mut BatchWriter,
) -> Result<(), NoMemory>
    requires { MayAdd writer.old (map broker_record seen.now.brokers) }
    ensures { OnOk result (Adds writer.old writer.new (map broker_record seen.now.brokers)) }
{
    seen.is_valid();
    let mut after = None;
    while let Some((id, state)) = seen.next_broker(after) {
        let record = registration(alloc, id, state)?;
        writer.push(&record)?;
        after = Some(id);
    }
    Ok(())
}

// The partitions of the topic of this key, above it.
#[tactic(auto, using(crate::proofs::WriterRecords::adding))]
fn put_above<S: Store>(
    alloc: Global,
    seen: &Seen<S>,
    first: (u128, i32),
    writer: &mut BatchWriter,
) -> Result<(), NoMemory>
    requires { MayAdd writer.old (map partition_record
        (of_topic first.0 (above partition_order seen.now.partitions (Some first)))) }
    ensures { OnOk result (Adds writer.old writer.new (map partition_record
        (of_topic first.0 (above partition_order seen.now.partitions (Some first))))) }
{
    let mut after = first;
    let mut record = Record::NoOp;
    while let Some((key, state)) = seen.next_of_topic(&after) {
        set_partition(alloc, &mut record, key, state)?;
        writer.push(&record)?;
        after = *key;
    }
    Ok(())
}

// A topic, and its partitions by index.
fn put_topic<S: Store>(
    alloc: Global,
    seen: &Seen<S>,
    name: &Text,
    id: &u128,
    writer: &mut BatchWriter,
) -> Result<(), NoMemory>
    requires { MayAdd writer.old (topic_records seen.now.partitions (name.now, id.now)) }
    ensures { OnOk result (Adds writer.old writer.new
        (topic_records seen.now.partitions (name.now, id.now))) }
{
    seen.is_valid();
    let record = topic(alloc, name, id)?;
    writer.push(&record)?;
    put_above(alloc, seen, before_all(id), writer)
}

/// The topics by name, each with its partitions behind it.
#[tactic(auto, using(crate::proofs::WriterRecords::adding))]
pub(crate) fn put_topics<S: Store>(
    alloc: Global,
    seen: &Seen<S>,
    writer: &mut BatchWriter,
) -> Result<(), NoMemory>
    requires { MayAdd writer.old (flat_map (topic_records seen.now.partitions) seen.now.topics) }
    ensures { OnOk result (Adds writer.old writer.new
        (flat_map (topic_records seen.now.partitions) seen.now.topics)) }
{
    seen.is_valid();
    let mut after = None;
    while let Some((name, id)) = seen.next_topic(after) {
        put_topic(alloc, seen, name, id, writer)?;
        after = Some(name);
    }
    Ok(())
}

/// The settings, by type, resource name and key.
#[tactic(auto, using(crate::proofs::WriterRecords::adding))]
pub(crate) fn put_configs<S: Store>(
    alloc: Global,
    seen: &Seen<S>,
    writer: &mut BatchWriter,
) -> Result<(), NoMemory>
    requires { MayAdd writer.old (map config_record seen.now.configs) }
    ensures { OnOk result (Adds writer.old writer.new (map config_record seen.now.configs)) }
{
    seen.is_valid();
    let mut after = None;
    while let Some((key, value)) = seen.next_config(after) {
        let record = setting(alloc, key, value)?;
        writer.push(&record)?;
        after = Some(key);
    }
    Ok(())
}

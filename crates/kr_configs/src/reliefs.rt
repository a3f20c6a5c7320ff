//! Where a changed minimum leaves enough replicas in sync, none stands by (KIP-966).

ghost use Rattle.std.specs.Prelude.{◌≡◌, ◌++◌, ◌==◌, ◌&&◌, not, [], bytes_eq, length, true, false, IfOk, OnOk, option_and_then};
ghost use Rattle.std.specs.Option.{option_copied};
ghost use Rattle.std.specs.Ordering.{int_eq};
ghost use Rattle.kr_calls.specs.IncrementalAlterConfigs as incremental_alter_configs;
ghost use Rattle.kr_defs.specs.Apply.{topic_kind};
ghost use Rattle.kr_defs.specs.Build.{unless};
ghost use Rattle.kr_defs.specs.Eligible as eligible;
ghost use Rattle.kr_defs.specs.Map as entries;
ghost use Rattle.kr_defs.specs.Map.{text_order};
ghost use Rattle.kr_defs.specs.NewPartition as partitions;
ghost use Rattle.kr_defs.specs.Settings as settings;
ghost use Rattle.kr_defs.specs.Walk.{changes_of, walk};
ghost use Rattle.kr_configs.specs.inner.NewSettings as later;
ghost use Rattle.kr_configs.specs.inner.NewSettings.{after};

use crate::operations::value_now;
use crate::records::is_same_value;
use crate::values::Values;
use kr_base::NoMemory;
use kr_calls::ConfigResource;
use kr_defs::{Ids, MINIMUM_KEY, Options, Partition, PartitionChange, Records, Text, read_minimum};
use kr_replicas::has_standing_by;
use kr_replication::{
    Change, add_standing_changes, add_standing_changes_of_topic, minimum_at, minimum_of, value_at,
};
use kr_store::{Seen, Store};
use std::alloc::Global;

// Kafka's types of resources.
const TOPIC: i8 = 2;

const BROKER: i8 = 4;

// What the values of one resource's settings make of partitions.
#[derive(Drop)]
struct Relief<'r, 'k> {
    options: &'r Options,
    entry: &'r ConfigResource,
    values: &'r Values<'k>,
}

// No ids, as a field that is named where the list has some.
fn no_ids(alloc: Global, list: &Ids) -> Option<Ids>
    ensures { result ≡ unless (length list.now == 0) [] }
{
    if list.is_empty() {
        return None;
    }
    Some(Ids::new(alloc))
}

// Nobody stands by any more.
fn relief_of(alloc: Global, partition: &Partition) -> PartitionChange
    ensures { result ≡ partitions.emptying partition.now }
{
    PartitionChange {
        in_sync: None,
        replicas: None,
        removing: None,
        adding: None,
        eligible: no_ids(alloc, &partition.eligible),
        last_known: no_ids(alloc, &partition.last_known),
        leader: None,
        recovery: None,
    }
}

fn is_enough(partition: &Partition, minimum: &i32) -> bool
    ensures { result ≡ eligible.is_enough partition.now.replicas partition.now.in_sync minimum.now }
{
    let wanted = i128::from(*minimum).min(partition.replicas.len() as i128);
    wanted <= partition.in_sync.len() as i128
}

fn is_own(entry: &ConfigResource, kind: &i8, name: &Text) -> bool
    ensures { result ≡ (int_eq kind.now entry.now.kind && bytes_eq name.now entry.now.name) }
{
    *kind == entry.kind && *name == entry.name
}

fn minimum_in(value: Option<&Text>) -> Option<i32>
    ensures { result ≡ option_and_then settings.read_minimum (option_copied value.entry) }
{
    match value {
        Some(value) => read_minimum(value.as_bytes()),
        None => None,
    }
}

// The minimum that a resource sets afterwards.
fn minimum_after_at<S: Store>(
    alloc: Global,
    seen: &Seen<S>,
    relief: &Relief,
    kind: &i8,
    name: &Text,
) -> Result<Option<i32>, NoMemory>
    ensures { IfOk result (λ minimum. minimum ≡ later.minimum_set
        (after seen.now relief.now.entry.now relief.now.values.now) kind.now name.now) }
{
    seen.is_valid();
    relief.values.are_once();
    if is_own(relief.entry, kind, name) {
        let value = value_now(alloc, seen, relief.entry, relief.values, MINIMUM_KEY)?;
        Ok(minimum_in(value))
    } else {
        minimum_at(alloc, seen, kind, name)
    }
}

// The minimum of the topic itself, or else that of all brokers, afterwards.
fn minimum_after_set<S: Store>(
    alloc: Global,
    seen: &Seen<S>,
    relief: &Relief,
    topic: &Text,
) -> Result<Option<i32>, NoMemory>
    ensures { IfOk result (λ minimum. minimum ≡
        settings.setting settings.read_minimum settings.minimum_key
        (after seen.now relief.now.entry.now relief.now.values.now) topic.now) }
{
    match minimum_after_at(alloc, seen, relief, &TOPIC, topic)? {
        Some(minimum) => Ok(Some(minimum)),
        None => minimum_after_at(alloc, seen, relief, &BROKER, &Text::new(alloc)),
    }
}

// How many replicas of the topic have to be in sync afterwards.
fn minimum_after<S: Store>(
    alloc: Global,
    seen: &Seen<S>,
    relief: &Relief,
    topic: &Text,
) -> Result<i32, NoMemory>
    ensures { IfOk result (λ minimum. minimum ≡ settings.minimum_of relief.now.options.now.minimum
        (after seen.now relief.now.entry.now relief.now.values.now) topic.now) }
{
    let minimum = minimum_after_set(alloc, seen, relief, topic)?;
    Ok(minimum.unwrap_or(relief.options.minimum))
}

// The topic's minimum is another, and enough are in sync for the new one.
fn has_enough<S: Store>(
    alloc: Global,
    seen: &Seen<S>,
    relief: &Relief,
    topic: &Text,
    partition: &Partition,
) -> Result<bool, NoMemory>
    ensures { IfOk result (λ enough. enough ≡ later.has_enough relief.now.options.now seen.now
        (after seen.now relief.now.entry.now relief.now.values.now) topic.now partition.now) }
{
    let before = minimum_of(alloc, seen, &relief.options.minimum, topic)?;
    let after = minimum_after(alloc, seen, relief, topic)?;
    Ok(before != after && is_enough(partition, &after))
}

impl<'r, 'k> Change for Relief<'r, 'k> {
    ghost change = { λ r image w. incremental_alter_configs.relief r.options.now image (after image r.entry.now r.values.now) w };

    fn change<S: Store>(
        &self,
        alloc: Global,
        seen: &Seen<S>,
        topic: &Text,
        _key: &(u128, i32),
        partition: &Partition,
    ) -> Result<Option<PartitionChange>, NoMemory> {
        if !has_standing_by(partition) {
            return Ok(None);
        }
        if !has_enough(alloc, seen, self, topic, partition)? {
            return Ok(None);
        }
        Ok(Some(relief_of(alloc, partition)))
    }
}

// The resource's own minimum stays as it is.
fn keeps_minimum<S: Store>(
    alloc: Global,
    seen: &Seen<S>,
    entry: &ConfigResource,
    values: &Values,
) -> Result<bool, NoMemory>
    ensures { IfOk result (λ keeps. keeps ≡ later.keeps_minimum seen.now entry.now values.now) }
{
    let before = value_at(alloc, seen, &entry.kind, &entry.name, MINIMUM_KEY)?;
    let after = value_now(alloc, seen, entry, values, MINIMUM_KEY)?;
    Ok(is_same_value(after, before))
}

// The id of the topic of this name.
fn topic_id<S: Store>(seen: &Seen<S>, name: &Text) -> Option<u128>
    ensures { result ≡ entries.get text_order seen.now.topics name.now }
{
    match seen.topic_named(name) {
        Some(topic) => Some(topic.id),
        None => None,
    }
}

// The reliefs by a topic's own setting: those of its partitions.
fn add_topic_reliefs<S: Store>(
    alloc: Global,
    seen: &Seen<S>,
    relief: &Relief,
    records: &mut Records,
) -> Result<(), NoMemory>
    requires { int_eq relief.now.entry.now.kind topic_kind ≡ true }
    ensures { OnOk result (records.new ≡ records.old ++
        changes_of (incremental_alter_configs.relief relief.now.options.now seen.now
        (after seen.now relief.now.entry.now relief.now.values.now)) (walk seen.now)) }
{
    seen.is_valid();
    relief.values.are_once();
    match topic_id(seen, &relief.entry.name) {
        Some(id) => {
            add_standing_changes_of_topic(alloc, seen, relief, &relief.entry.name, id, records)?;
            Ok(())
        }
        None => Ok(()),
    }
}

// The reliefs by another setting: one of a single broker is the minimum of no topic.
fn add_broker_reliefs<S: Store>(
    alloc: Global,
    seen: &Seen<S>,
    relief: &Relief,
    records: &mut Records,
) -> Result<(), NoMemory>
    requires { int_eq relief.now.entry.now.kind topic_kind ≡ false }
    ensures { OnOk result (records.new ≡ records.old ++
        changes_of (incremental_alter_configs.relief relief.now.options.now seen.now
        (after seen.now relief.now.entry.now relief.now.values.now)) (walk seen.now)) }
{
    seen.is_valid();
    relief.values.are_once();
    if relief.entry.name.is_empty() {
        add_standing_changes(alloc, seen, relief, records)
    } else {
        Ok(())
    }
}

// It is a topic's setting.
fn is_of_topic(entry: &ConfigResource) -> bool
    ensures { result ≡ int_eq entry.now.kind topic_kind }
{
    entry.kind == TOPIC
}

/// Adds a change for each partition of a topic whose minimum is another with these values, where enough are in sync for it:
/// nobody stands by any more. A minimum that stays needs no walk, and a topic's own one only that over its partitions. Only partitions are
/// looked at that a replica stands by of.
pub(crate) fn add_reliefs<S: Store>(
    alloc: Global,
    seen: &Seen<S>,
    options: &Options,
    entry: &ConfigResource,
    values: &Values,
    records: &mut Records,
) -> Result<(), NoMemory>
    ensures { OnOk result (records.new ≡ records.old ++
        changes_of (incremental_alter_configs.relief options.now seen.now
        (after seen.now entry.now values.now)) (walk seen.now)) }
{
    seen.is_valid();
    values.are_once();
    if keeps_minimum(alloc, seen, entry, values)? {
        return Ok(());
    }
    let relief = Relief {
        options,
        entry,
        values,
    };
    if is_of_topic(entry) {
        add_topic_reliefs(alloc, seen, &relief, records)
    } else {
        add_broker_reliefs(alloc, seen, &relief, records)
    }
}

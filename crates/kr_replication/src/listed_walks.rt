//! Walks over the partitions whose keys are listed.

ghost use Rattle.std.specs.Prelude.{◌≡◌, ◌++◌, IfOk, OnOk};
ghost use Rattle.kr_defs.specs.Walk.{changes_of, walk, walk_topic};
ghost use Rattle.kr_replicas.specs.BrokerPartitions.{has_replica, has_standing_by};
ghost use Rattle.kr_replication.specs.ListedWalks.{ConcernsOnly, Covers, keys_of_topic, last_key, names_of_keys, records_in_topic, records_of_keys, records_of_names, with_topic_name};

use crate::changes::{Change, add_change};
use kr_base::NoMemory;
use kr_defs::limits::LAST_INDEX;
use kr_defs::{Copied, Records, Text};
use kr_replicas::PartitionKeys;
use kr_store::{Seen, Store, before_all};
use std::alloc::Global;
use std::collections::BTreeMap;
use std::ops::Bound;

// Ids of topics, by name.
type Names = BTreeMap<Text, u128>;

// The topic of a key, where there is one.
fn add_name<S: Store>(
    names: &mut Names,
    alloc: Global,
    seen: &Seen<S>,
    key: &(u128, i32),
) -> Result<(), NoMemory>
    ensures { OnOk result (names.new.entries ≡
        with_topic_name seen.now.topics names.old.entries key.now) }
{
    match seen.topic(&key.0) {
        None => Ok(()),
        Some(topic) => {
            let name = topic.name.copied(alloc)?;
            names.insert(name, key.0)?;
            Ok(())
        }
    }
}

// The topics of the keys.
fn names<S: Store>(alloc: Global, seen: &Seen<S>, keys: &PartitionKeys) -> Result<Names, NoMemory>
    ensures { IfOk result (λ names. names.entries ≡ names_of_keys seen.now.topics keys.now) }
{
    let mut names = BTreeMap::new(alloc);
    for key in keys.as_set() {
        add_name(&mut names, alloc, seen, key)?;
    }
    Ok(names)
}

// The change of the partition of a topic.
fn add_at<C: Change, S: Store>(
    alloc: Global,
    seen: &Seen<S>,
    rule: &C,
    name: &Text,
    key: &(u128, i32),
    records: &mut Records,
) -> Result<(), NoMemory>
    ensures { OnOk result (records.new ≡ records.old ++
        records_in_topic (C.change rule.now seen.now) seen.now name.now key.now) }
{
    match seen.partition(&key.0, &key.1) {
        None => Ok(()),
        Some(partition) => {
            let change = rule.change(alloc, seen, name, key, partition)?;
            add_change(records, key, change)
        }
    }
}

// The last key that a partition of the topic can have.
fn last_key(id: &u128) -> (u128, i32)
    ensures { result ≡ last_key id.now }
{
    (*id, LAST_INDEX)
}

// The changes of the partitions of one topic whose keys are listed.
fn add_listed<C: Change, S: Store>(
    alloc: Global,
    seen: &Seen<S>,
    rule: &C,
    name: &Text,
    id: &u128,
    keys: &PartitionKeys,
    records: &mut Records,
) -> Result<(), NoMemory>
    ensures { OnOk result (records.new ≡ records.old ++
        records_of_keys (C.change rule.now seen.now) seen.now name.now
        (keys_of_topic id.now keys.now)) }
{
    let first = before_all(id);
    let last = last_key(id);
    for key in keys
        .as_set()
        .range((Bound::Excluded(&first), Bound::Included(&last)))
    {
        add_at(alloc, seen, rule, name, key, records)?;
    }
    Ok(())
}

// The changes of the partitions of these topics whose keys are listed.
fn add_of_names<C: Change, S: Store>(
    alloc: Global,
    seen: &Seen<S>,
    rule: &C,
    names: &Names,
    keys: &PartitionKeys,
    records: &mut Records,
) -> Result<(), NoMemory>
    ensures { OnOk result (records.new ≡ records.old ++
        records_of_names (C.change rule.now seen.now) seen.now keys.now names.now.entries) }
{
    for (name, id) in names {
        add_listed(alloc, seen, rule, name, id, keys, records)?;
    }
    Ok(())
}

// Adds the changes of all partitions, by the name of their topic and then by index. Only those of these keys are looked at.
fn add_changes_of_keys<C: Change, S: Store>(
    alloc: Global,
    seen: &Seen<S>,
    rule: &C,
    keys: &PartitionKeys,
    records: &mut Records,
) -> Result<(), NoMemory>
    requires { Covers keys.now (C.change rule.now seen.now) seen.now.partitions }
    ensures { OnOk result (records.new ≡ records.old ++
        changes_of (C.change rule.now seen.now) (walk seen.now)) }
{
    seen.is_valid();
    keys.as_set();
    let names = names(alloc, seen, keys)?;
    add_of_names(alloc, seen, rule, &names, keys, records)
}

/// Adds the changes of all partitions, by the name of their topic and then by index, where the rule changes none that the
/// broker has no replica of. Only the partitions are looked at whose keys are listed for the broker.
pub fn add_changes_of_broker<C: Change, S: Store>(
    alloc: Global,
    seen: &Seen<S>,
    rule: &C,
    broker: &i32,
    records: &mut Records,
) -> Result<(), NoMemory>
    requires { ConcernsOnly (has_replica broker.now) (C.change rule.now seen.now) }
    ensures { OnOk result (records.new ≡ records.old ++
        changes_of (C.change rule.now seen.now) (walk seen.now)) }
{
    seen.is_valid();
    match seen.keys_of(broker) {
        None => Ok(()),
        Some(keys) => add_changes_of_keys(alloc, seen, rule, keys, records),
    }
}

/// Adds the changes of all partitions, by the name of their topic and then by index, where the rule changes none that no replica
/// stands by of. Only the partitions are looked at whose keys are listed since one does.
pub fn add_standing_changes<C: Change, S: Store>(
    alloc: Global,
    seen: &Seen<S>,
    rule: &C,
    records: &mut Records,
) -> Result<(), NoMemory>
    requires { ConcernsOnly has_standing_by (C.change rule.now seen.now) }
    ensures { OnOk result (records.new ≡ records.old ++
        changes_of (C.change rule.now seen.now) (walk seen.now)) }
{
    let keys = seen.standing_keys();
    add_changes_of_keys(alloc, seen, rule, keys, records)
}

/// The same of the partitions of one topic, by index.
pub fn add_standing_changes_of_topic<C: Change, S: Store>(
    alloc: Global,
    seen: &Seen<S>,
    rule: &C,
    name: &Text,
    id: u128,
    records: &mut Records,
) -> Result<(), NoMemory>
    requires { ConcernsOnly has_standing_by (C.change rule.now seen.now) }
    ensures { OnOk result (records.new ≡ records.old ++
        changes_of (C.change rule.now seen.now) (walk_topic seen.now.partitions (name.now, id))) }
{
    seen.is_valid();
    let keys = seen.standing_keys();
    keys.as_set();
    add_listed(alloc, seen, rule, name, &id, keys, records)
}

//! The keys of the partitions that a request names.

ghost use Rattle.std.specs.Prelude.{◌≡◌, ℕ, ℤ, ◌==◌, ◌&&◌, ◌||◌, IfOk, OnOk};
ghost use Rattle.std.specs.BTreeSet.{contains};
ghost use Rattle.std.specs.Ordering.{is_eq};
ghost use Rattle.kr_defs.specs.Ids.{has};
ghost use Rattle.kr_defs.specs.Map.{partition_order};
ghost use Rattle.kr_partitions.specs.inner.RequestKeys.{AreKeys, Asks, is_among, names_key};

use kr_base::NoMemory;
use kr_calls::{ListedTopic, ListedTopics};
use kr_store::{Seen, Store};
use std::alloc::Global;
use std::collections::BTreeSet;

/// Topic ids with indices.
pub(crate) type Keys = BTreeSet<(u128, i32)>;

fn key_of(id: &u128, index: &i32) -> (u128, i32)
    ensures { result ≡ (id.now, index.now) }
{
    (*id, *index)
}

#[tactic(auto, using(crate::proofs::RequestKeys::added))]
fn add_key(keys: &mut Keys, id: &u128, index: &i32) -> Result<(), NoMemory>
    ensures { OnOk result ((k : ℕ × ℤ) → contains partition_order keys.new k ≡
        (contains partition_order keys.old k || is_eq (partition_order (id.now, index.now) k))) }
{
    let _ = keys.insert(key_of(id, index))?;
    Ok(())
}

// Adds the keys of one topic with these indices.
fn add_indices(keys: &mut Keys, id: &u128, indices: &[i32]) -> Result<(), NoMemory>
    ensures { OnOk result ((k : ℕ × ℤ) → contains partition_order keys.new k ≡
        (contains partition_order keys.old k || (id.now == k.0 && has indices.now k.1))) }
{
    for index in indices {
        add_key(keys, id, index)?;
    }
    Ok(())
}

// Adds the keys that the entry names.
fn add_topic<S: Store>(keys: &mut Keys, seen: &Seen<S>, topic: &ListedTopic) -> Result<(), NoMemory>
    ensures { OnOk result ((k : ℕ × ℤ) → contains partition_order keys.new k ≡
        (contains partition_order keys.old k || names_key seen.now.topics topic.now k)) }
{
    match seen.topic_named(&topic.name) {
        Some(found) => add_indices(keys, &found.id, topic.partitions.as_slice()),
        None => Ok(()),
    }
}

fn keys_of<S: Store>(
    alloc: Global,
    seen: &Seen<S>,
    topics: &[ListedTopic],
) -> Result<Keys, NoMemory>
    ensures { IfOk result (λ keys. AreKeys seen.now.topics topics.now keys) }
{
    let mut keys = BTreeSet::new(alloc);
    for topic in topics {
        add_topic(&mut keys, seen, topic)?;
    }
    Ok(keys)
}

/// The partitions that are asked for, or none where all are.
pub(crate) fn keys_of_request<S: Store>(
    alloc: Global,
    seen: &Seen<S>,
    asked: &Option<ListedTopics>,
) -> Result<Option<Keys>, NoMemory>
    ensures { IfOk result (λ keys. Asks seen.now.topics asked.now keys) }
{
    match asked {
        Some(topics) => Ok(Some(keys_of(alloc, seen, topics.as_slice())?)),
        None => Ok(None),
    }
}

/// The partition is asked for, or all are.
pub(crate) fn is_among(keys: &Option<Keys>, id: &u128, index: &i32) -> bool
    ensures { result ≡ is_among keys.now (id.now, index.now) }
{
    match keys {
        Some(keys) => keys.contains(&key_of(id, index)),
        None => true,
    }
}

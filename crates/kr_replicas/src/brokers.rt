//! The partitions that brokers have replicas of.

ghost use Rattle.std.specs.Prelude.{◌≡◌, [], ◌∷◌, IfOk, OnOk, OnErr};
ghost use Rattle.std.specs.Option.{option_copied};
ghost use Rattle.std.specs.Ordering.{int_cmp};
ghost use Rattle.kr_defs.specs.Map as entries;
ghost use Rattle.kr_replicas.specs.BrokerPartitions.{Grows, IsListedFor, Lists, with_key};

use crate::PartitionKeys;
use kr_base::NoMemory;
use kr_defs::Ids;
use std::alloc::Global;
use std::collections::BTreeMap;
use std::marker::Model;

// The keys, by broker.
type KeysByBroker = BTreeMap<i32, PartitionKeys>;

/// Of each broker at least the keys of the partitions that it has a replica of.
#[derive(Drop)]
pub struct BrokerPartitions {
    // The keys, by broker.
    listed: KeysByBroker,
}

impl Model for BrokerPartitions {
    ghost use Rattle.std.specs.Prelude.{ℕ, ℤ, List};

    ghost Value = { List (ℤ × List (ℕ × ℤ)) };

    ghost view = { λ s. s.listed.entries };
}

// The first key of a broker.
fn first_key(alloc: Global, key: &(u128, i32)) -> Result<PartitionKeys, NoMemory>
    ensures { IfOk result (λ keys. keys ≡ key.now ∷ []) }
{
    let mut keys = PartitionKeys::new(alloc);
    keys.insert(*key)?;
    Ok(keys)
}

// The key among the broker's, without memory none.
#[tactic(auto, unfolding(crate::specs::BrokerPartitions::with_key))]
fn put_key(
    listed: &mut KeysByBroker,
    alloc: Global,
    key: &(u128, i32),
    broker: &i32,
) -> Result<(), NoMemory>
    ensures ok { OnOk result (listed.new.entries ≡ with_key key.now listed.old.entries broker.now) }
    ensures err { OnErr result (Grows listed.old.entries listed.new.entries) }
{
    match listed.get_mut(broker) {
        Some(keys) => {
            keys.insert(*key)?;
        }
        None => {
            let keys = first_key(alloc, key)?;
            listed.insert(*broker, keys)?;
        }
    }
    Ok(())
}

// The key is listed for the broker.
#[tactic(auto, using(crate::proofs::Listed::listed_once, crate::proofs::Listed::grows_once))]
fn add_key(
    listed: &mut KeysByBroker,
    alloc: Global,
    key: &(u128, i32),
    broker: &i32,
) -> Result<(), NoMemory>
    ensures added { OnOk result
        (IsListedFor (broker.now ∷ []) key.now listed.old.entries listed.new.entries) }
    ensures grows { Grows listed.old.entries listed.new.entries }
{
    put_key(listed, alloc, key, broker)
}

impl BrokerPartitions {
    /// Nothing is listed.
    pub fn new(alloc: Global) -> BrokerPartitions
        ensures empty { result ≡ [] }
        ensures lists { Lists result [] }
    {
        BrokerPartitions {
            listed: BTreeMap::new(alloc),
        }
    }

    /// Lists the key for each of these replicas. Without memory it may be listed for some of them.
    pub fn add(&mut self, alloc: Global, key: &(u128, i32), replicas: &Ids) -> Result<(), NoMemory>
        ensures added { OnOk result (IsListedFor replicas.now key.now self.old self.new) }
        ensures grows { Grows self.old self.new }
    {
        for broker in replicas.as_slice() {
            add_key(&mut self.listed, alloc, key, broker)?;
        }
        Ok(())
    }

    /// The keys that are listed for a broker.
    pub fn keys_of(&self, broker: &i32) -> Option<&PartitionKeys>
        ensures { option_copied result ≡ entries.get int_cmp self.now broker.now }
    {
        self.listed.get(broker)
    }
}

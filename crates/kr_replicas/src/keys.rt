//! Keys of partitions, each once and in order.

ghost use Rattle.std.specs.Prelude.{◌≡◌, [], IfOk, OnOk, OnErr, not};
ghost use Rattle.std.specs.BTreeSet.{insert_key};
ghost use Rattle.std.specs.List.Sorted.{IsStrictlySortedBy};
ghost use Rattle.kr_defs.specs.Map.{partition_order};
ghost use Rattle.kr_replicas.specs.BrokerPartitions.{holds_key};

use kr_base::NoMemory;
use std::alloc::Global;
use std::collections::BTreeSet;
use std::marker::Model;

/// Keys of partitions: by the topic's id, then by the index.
#[derive(Drop)]
pub struct PartitionKeys {
    // The keys.
    keys: BTreeSet<(u128, i32)>,
}

impl Model for PartitionKeys {
    ghost use Rattle.std.specs.Prelude.{ℕ, ℤ, List};

    ghost Value = { List (ℕ × ℤ) };

    ghost view = { λ s. s.keys.keys };
}

impl PartitionKeys {
    /// No keys.
    pub fn new(alloc: Global) -> PartitionKeys
        ensures { result ≡ [] }
    {
        PartitionKeys {
            keys: BTreeSet::new(alloc),
        }
    }

    /// Adds a key, and says whether it is new. Without memory nothing changes.
    pub fn insert(&mut self, key: (u128, i32)) -> Result<bool, NoMemory>
        ensures new { IfOk result (λ new. new ≡ not (holds_key self.old key)) }
        ensures ok { OnOk result (self.new ≡ insert_key partition_order self.old key) }
        ensures err { OnErr result (self.new ≡ self.old) }
    {
        Ok(self.keys.insert(key)?)
    }

    /// The key is among them.
    pub fn contains(&self, key: &(u128, i32)) -> bool
        ensures { result ≡ holds_key self.now key.now }
    {
        self.keys.contains(key)
    }

    /// The keys, by the topic's id and then by the index.
    pub fn as_set(&self) -> &BTreeSet<(u128, i32)>
        ensures keys { result.now.keys ≡ self.now }
        ensures ordered { IsStrictlySortedBy partition_order self.now }
    {
        let _count = self.keys.len();
        &self.keys
    }
}

//! The keys of partitions that are looked for by a broker, or because a replica stands by.

ghost use Rattle.std.specs.Prelude.{◌≡◌, ℤ, [], true, Some, OnOk};
ghost use Rattle.std.specs.Bool.{OnTrue};
ghost use Rattle.std.specs.Option.{option_map};
ghost use Rattle.kr_defs.specs.Ids.{has};
ghost use Rattle.kr_defs.specs.Map as map;
ghost use Rattle.kr_defs.specs.Map.{partition_order};
ghost use Rattle.kr_replicas.specs.BrokerPartitions.{Grows, KeepsKeys, Lists, has_standing_by, holds_key, lists_key};
ghost use Rattle.kr_image.specs.inner.PartitionKeys.{HasKey, IndexGrows, IsIndexOf};

use kr_base::NoMemory;
use kr_defs::{Ids, Partition};
use kr_replicas::{BrokerPartitions, PartitionKeys, has_standing_by};
use kr_timeline::Timeline;
use std::alloc::Global;

/// Of each broker at least the keys of the partitions that it has a replica of, and at least the keys of those that a replica
/// stands by of.
#[derive(Drop)]
pub(crate) struct PartitionIndex {
    pub listed: BrokerPartitions,
    pub standing: PartitionKeys,
}

/// Nothing is listed.
#[tactic(auto, using(crate::proofs::IndexedMaps::listed_none))]
pub(crate) fn no_index(alloc: Global) -> PartitionIndex
    ensures { IsIndexOf result [] }
{
    PartitionIndex {
        listed: BrokerPartitions::new(alloc),
        standing: PartitionKeys::new(alloc),
    }
}

// The key is among those of the partitions that a replica stands by of, if one does.
#[tactic(auto, using(crate::proofs::IndexedMaps::standing))]
fn add_standing(
    standing: &mut PartitionKeys,
    key: &(u128, i32),
    partition: &Partition,
) -> Result<(), NoMemory>
    ensures own { OnOk result (has_standing_by partition.now ≡ true →
        holds_key standing.new key.now ≡ true) }
    ensures keeps { KeepsKeys standing.old standing.new }
{
    if !has_standing_by(partition) {
        return Ok(());
    }
    standing.insert(*key)?;
    Ok(())
}

// The key is listed for the replicas.
#[tactic(auto, using(crate::proofs::IndexedMaps::listed))]
fn add_replicas(
    listed: &mut BrokerPartitions,
    alloc: Global,
    key: &(u128, i32),
    replicas: &Ids,
) -> Result<(), NoMemory>
    ensures own { OnOk result ((broker : ℤ) → has replicas.now broker ≡ true →
        lists_key listed.new broker key.now ≡ true) }
    ensures grows { Grows listed.old listed.new }
{
    listed.add(alloc, key, replicas)?;
    Ok(())
}

// The entry of the key has these replicas.
fn has_replicas(
    timeline: &Timeline<(u128, i32), Partition>,
    key: &(u128, i32),
    replicas: &Ids,
) -> bool
    ensures { OnTrue result (option_map (λ p. p.replicas)
        (map.get partition_order timeline.now.maps.present key.now) ≡ Some replicas.now) }
{
    match timeline.get(key) {
        Some(old) => old.replicas.same(replicas),
        None => false,
    }
}

// The key is listed for the replicas, and counted; where its entry has the same replicas, it is listed already.
#[tactic(auto, using(crate::proofs::IndexedMaps::listed))]
fn add_new_replicas(
    listed: &mut BrokerPartitions,
    spent: &mut u64,
    alloc: Global,
    timeline: &Timeline<(u128, i32), Partition>,
    key: &(u128, i32),
    replicas: &Ids,
) -> Result<(), NoMemory>
    requires lists { Lists listed.old timeline.now.maps.present }
    ensures own { OnOk result ((broker : ℤ) → has replicas.now broker ≡ true →
        lists_key listed.new broker key.now ≡ true) }
    ensures grows { Grows listed.old listed.new }
{
    if has_replicas(timeline, key, replicas) {
        return Ok(());
    }
    *spent = spent.saturating_add(1);
    add_replicas(listed, alloc, key, replicas)?;
    Ok(())
}

impl PartitionIndex {
    /// Lists the key of a partition. Without memory it may be listed in part.
    #[tactic(auto, using(crate::proofs::IndexedMaps::standing))]
    pub(crate) fn add(
        &mut self,
        alloc: Global,
        key: &(u128, i32),
        partition: &Partition,
    ) -> Result<(), NoMemory>
        ensures own { OnOk result (HasKey self.new key.now partition.now) }
        ensures grows { IndexGrows self.old self.new }
    {
        add_replicas(&mut self.listed, alloc, key, &partition.replicas)?;
        add_standing(&mut self.standing, key, partition)?;
        Ok(())
    }

    /// The same, where all partitions of the present map are listed. What had to be added is counted.
    #[tactic(auto, using(crate::proofs::IndexedMaps::standing))]
    pub(crate) fn add_next(
        &mut self,
        spent: &mut u64,
        alloc: Global,
        timeline: &Timeline<(u128, i32), Partition>,
        key: &(u128, i32),
        partition: &Partition,
    ) -> Result<(), NoMemory>
        requires { IsIndexOf self.old timeline.now.maps.present }
        ensures own { OnOk result (HasKey self.new key.now partition.now) }
        ensures grows { IndexGrows self.old self.new }
    {
        add_new_replicas(
            &mut self.listed,
            spent,
            alloc,
            timeline,
            key,
            &partition.replicas,
        )?;
        add_standing(&mut self.standing, key, partition)?;
        Ok(())
    }
}

//! The timeline of partitions, with an index of them.

ghost use Rattle.std.specs.Prelude.{◌≡◌, ◌≤◌, ◌<◌, ◌+◌, ◌^◌, [], ◌∷◌, ◌++◌, length, filter, not, int_lt, IsSome, IsTrue, OnOk};
ghost use Rattle.std.specs.Option.{option_copied};
ghost use Rattle.kr_defs.specs.KeptMaps.{IsAbove, map_at, no_maps, oldest_unmade};
ghost use Rattle.kr_defs.specs.Map as map;
ghost use Rattle.kr_defs.specs.Map.{partition_order};
ghost use Rattle.kr_replicas.specs.BrokerPartitions.{AreAtLeast, has_replica, has_standing_by, keys_or_none};
ghost use Rattle.kr_image.specs.Timelines.{calls_above, covered_in, map_in, undone_in};
ghost use Rattle.kr_image.specs.inner.PartitionKeys.{HaveSameEpochs, InAll};

use crate::index_walks::index_of_maps;
use crate::kept_counts::KeptCounts;
use crate::partition_index::{PartitionIndex, no_index};
use crate::{entries, keeping};
use kr_base::{NoMemory, Steps};
use kr_defs::Partition;
use kr_replicas::PartitionKeys;
use kr_timeline::Timeline;
use std::alloc::Global;
use std::collections::VecDeque;
use std::marker::Model;
use std::sync::ledger::Ledger;

// Making the index anew takes less than half of what was spent on it.
fn is_due(spent: u64, walks: u64) -> bool {
    walks.saturating_mul(2) < spent
}

/// The timeline of partitions, and an index of those in the present map and in every kept one.
#[derive(Drop)]
pub(crate) struct PartitionTimeline {
    timeline: Timeline<(u128, i32), Partition>,
    index: PartitionIndex,
    // The steps of the walks that made the index, and one for each key that was listed for replicas since.
    spent: u64,
}

impl Model for PartitionTimeline {
    ghost use Rattle.std.specs.Prelude.{ℕ, ℤ};
    ghost use Rattle.kr_defs.specs.declared.partition.Partition.{Partition};
    ghost use Rattle.kr_timeline.specs.History.{History};
    ghost use Rattle.kr_image.specs.inner.PartitionKeys.{InAll, IsIndexOf};

    ghost Value = { History (ℕ × ℤ) Partition };

    ghost view = { λ s. s.timeline };

    ghost invariant = { λ s. InAll (IsIndexOf s.index) s.timeline.maps };
}

impl PartitionTimeline {
    /// No partition, and no kept epoch.
    #[tactic(auto, using(crate::proofs::PartitionLists::listing))]
    pub(crate) fn new(alloc: Global) -> PartitionTimeline
        ensures { result.maps ≡ no_maps }
    {
        PartitionTimeline {
            timeline: Timeline::new(alloc),
            index: no_index(alloc),
            spent: 0,
        }
    }

    /// The partitions alone.
    pub(crate) fn timeline(&self) -> &Timeline<(u128, i32), Partition>
        ensures { result.now ≡ self.now }
    {
        &self.timeline
    }

    /// The keys that are listed for a broker.
    #[tactic(auto, using(crate::proofs::PartitionLists::looked_up))]
    pub(crate) fn keys_of(&self, broker: &i32) -> Option<&PartitionKeys>
        ensures { InAll (AreAtLeast (keys_or_none (option_copied result))
            (has_replica broker.now)) self.now.maps }
    {
        self.index.listed.keys_of(broker)
    }

    /// The keys of the partitions that a replica stands by of.
    #[tactic(auto, using(crate::proofs::PartitionLists::standing_listed))]
    pub(crate) fn standing_keys(&self) -> &PartitionKeys
        ensures { InAll (AreAtLeast result.now has_standing_by) self.now.maps }
    {
        &self.index.standing
    }

    /// Makes room for one more epoch.
    #[tactic(auto, using(crate::proofs::PartitionLists::listing))]
    pub(crate) fn reserve(&mut self) -> Result<(), NoMemory>
        ensures same { self.new.maps ≡ self.old.maps }
        ensures room { OnOk result (IsTrue self.new.has_room) }
    {
        self.timeline.reserve()
    }

    /// Keeps the present map under the epoch. There is room for it.
    #[tactic(auto, using(crate::proofs::PartitionLists::listing))]
    pub(crate) fn mark(&mut self, epoch: &i64)
        requires room { IsTrue self.old.has_room }
        requires above { IsAbove self.old.maps.kept epoch.now }
        ensures kept { self.new.maps.kept ≡ self.old.maps.kept ++
            record { epoch = epoch.now; map = self.old.maps.present; made = self.old.maps.made }
            ∷ [] }
        ensures present { self.new.maps.present ≡ self.old.maps.present }
        ensures made { self.new.maps.made ≡ 0 }
    {
        keeping::mark(&mut self.timeline, epoch);
    }

    /// Makes the map that is kept under the epoch the present one, and drops the later epochs. The epoch is kept.
    #[tactic(auto, using(crate::proofs::PartitionLists::listing))]
    pub(crate) fn revert<L: Ledger>(&mut self, epoch: &i64, steps: &mut Steps<L>)
        requires { IsSome (map_at self.old.maps epoch.now) }
        ensures kept { self.new.maps.kept ≡
            filter (λ k. not (int_lt epoch.now k.epoch)) self.old.maps.kept }
        ensures present { self.new.maps.present ≡ map_in self.old.maps.kept epoch.now }
        ensures made { self.new.maps.made ≡ 0 }
        ensures counted { steps.old ≤ steps.new }
        ensures bound { steps.new ≤ steps.old + undone_in self.old.maps.kept epoch.now +
            self.old.maps.made + 1 }
    {
        keeping::revert(&mut self.timeline, epoch, steps);
    }

    /// Makes the map that is kept under the epoch the present one, and keeps all epochs. The epoch is kept.
    #[tactic(auto, using(crate::proofs::PartitionLists::listing))]
    pub(crate) fn restore(&mut self, epoch: &i64) -> Result<(), NoMemory>
        requires { IsSome (map_at self.old.maps epoch.now) }
        ensures kept { self.new.maps.kept ≡ self.old.maps.kept }
        ensures present { OnOk result
            (self.new.maps.present ≡ map_in self.old.maps.kept epoch.now) }
        ensures made { OnOk result (self.new.maps.made ≤ self.old.maps.made +
            (calls_above self.old.maps.kept epoch.now + self.old.maps.made)) }
    {
        keeping::restore(&mut self.timeline, epoch)?;
        Ok(())
    }

    /// Drops the kept epochs below this one.
    #[tactic(auto, using(crate::proofs::PartitionLists::listing))]
    pub(crate) fn forget_below<L: Ledger>(&mut self, epoch: &i64, steps: &mut Steps<L>)
        ensures kept { self.new.maps.kept ≡
            oldest_unmade (filter (λ k. not (int_lt k.epoch epoch.now)) self.old.maps.kept) }
        ensures present { self.new.maps.present ≡ self.old.maps.present }
        ensures made { self.new.maps.made ≡ self.old.maps.made }
        ensures counted { steps.old ≤ steps.new }
        ensures bound { steps.new ≤ steps.old + covered_in self.old.maps.kept epoch.now + 1 }
    {
        keeping::forget_below(&mut self.timeline, epoch, steps);
    }

    /// Gives the key the value, and counts an entry that is new.
    #[tactic(auto, using(crate::proofs::PartitionLists::listing))]
    pub(crate) fn set_counted(
        &mut self,
        alloc: Global,
        count: &mut u32,
        key: (u128, i32),
        value: Partition,
    ) -> Result<(), NoMemory>
        requires counted { count.old ≡ length self.old.maps.present }
        requires few { length self.old.maps.present + 1 < 2 ^ 32 }
        requires ordered { map.IsMap partition_order self.old.maps.present }
        ensures present { OnOk result (self.new.maps.present ≡
            map.insert partition_order self.old.maps.present key value) }
        ensures kept { self.new.maps.kept ≡ self.old.maps.kept }
        ensures made { OnOk result (self.new.maps.made ≤ self.old.maps.made + 1) }
        ensures counted { OnOk result (count.new ≡ length self.new.maps.present) }
    {
        self.index
            .add_next(&mut self.spent, alloc, &self.timeline, &key, &value)?;
        entries::set_counted(&mut self.timeline, count, key, value)?;
        Ok(())
    }

    /// Takes the key out, and counts an entry that goes.
    #[tactic(auto, using(crate::proofs::PartitionLists::listing))]
    pub(crate) fn unset_counted(
        &mut self,
        alloc: Global,
        count: &mut u32,
        key: &(u128, i32),
    ) -> Result<(), NoMemory>
        requires counted { count.old ≡ length self.old.maps.present }
        ensures present { OnOk result (self.new.maps.present ≡
            map.remove partition_order self.old.maps.present key.now) }
        ensures kept { self.new.maps.kept ≡ self.old.maps.kept }
        ensures made { OnOk result (self.new.maps.made ≤ self.old.maps.made + 1) }
        ensures counted { OnOk result (count.new ≡ length self.new.maps.present) }
    {
        entries::unset_counted(alloc, &mut self.timeline, count, key)?;
        Ok(())
    }

    /// Makes the index anew, where walks over all maps take less than half of what was spent on it: what no map has any more
    /// isn't listed then. Without memory it stays as it is.
    pub(crate) fn renew(&mut self, alloc: Global, walks: u64, kept: &VecDeque<KeptCounts>)
        requires { HaveSameEpochs self.old.maps.kept kept.now.items }
        ensures { self.new ≡ self.old }
    {
        if !is_due(self.spent, walks) {
            return;
        }
        self.spent = walks;
        if let Ok(index) = index_of_maps(alloc, &self.timeline, kept) {
            self.index = index;
        }
    }
}

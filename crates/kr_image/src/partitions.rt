//! Partitions: added, changed, and removed with their topic.

ghost use Rattle.std.specs.Prelude.{◌≡◌, ◌≤◌, ◌+◌, OnOk, IsTrue, All, not, filter, count_by, length, ◌==◌};
ghost use Rattle.kr_defs.specs.Apply as apply;
ghost use Rattle.kr_defs.specs.Image as images;
ghost use Rattle.kr_defs.specs.Image.{IsValid};
ghost use Rattle.kr_defs.specs.Map as map;
ghost use Rattle.kr_defs.specs.Map.{partition_order};
ghost use Rattle.kr_image.specs.inner.RecordAnswers.{Changes};
ghost use Rattle.kr_image.specs.inner.TopicKeys.{partitions_end};
ghost use Rattle.kr_image.specs.Timelines.{Agrees, keeps_of, made_of, present_image};

use crate::entries::{contains, is_full, key_between};
use crate::partition_timeline::PartitionTimeline;
use crate::timelines::{ChangeFault, Timelines};
use kr_base::NoMemory;
use kr_change::merge;
use kr_defs::limits::{LAST_INDEX, MOST_PARTITIONS};
use kr_defs::{Copied, Ill, Partition, PartitionChange, is_well_formed};
use std::alloc::Global;

fn is_index(index: &i32) -> bool
    ensures { result ≡ images.is_index index.now }
{
    *index >= 0 && *index <= LAST_INDEX
}

fn key_of(topic: &u128, index: &i32) -> (u128, i32)
    ensures { result ≡ (topic.now, index.now) }
{
    (*topic, *index)
}

impl Timelines {
    fn set_partition(&mut self, key: (u128, i32), state: Partition) -> Result<(), NoMemory>
        requires valid { IsValid (present_image self.old) }
        requires agrees { Agrees self.old }
        ensures tip { OnOk result (present_image self.new ≡ record (present_image self.old) { partitions = map.insert partition_order (present_image self.old).partitions key state }) }
        ensures agrees { OnOk result (Agrees self.new) }
        ensures kept { keeps_of self.new ≡ keeps_of self.old }
        ensures made { OnOk result (made_of self.new ≤ made_of self.old + 1) }
    {
        self.partitions
            .set_counted(self.alloc, &mut self.counts.partitions, key, state)?;
        Ok(())
    }

    /// Adds a partition to its topic.
    pub fn add_partition(
        &mut self,
        index: &i32,
        topic: &u128,
        state: &Partition,
    ) -> Result<(), ChangeFault>
        requires valid { IsValid (present_image self.old) }
        requires agrees { Agrees self.old }
        ensures changes { Changes self.old self.new result (apply.add_partition (present_image self.old) index.now topic.now state.now) }
        ensures agrees { OnOk result (Agrees self.new) }
        ensures kept { keeps_of self.new ≡ keeps_of self.old }
        ensures made { OnOk result (made_of self.new ≤ made_of self.old + 1) }
    {
        if !self.has_topic(topic) {
            return Err(ChangeFault::IllFormed(Ill::NoTopic));
        }
        if !is_index(index) {
            return Err(ChangeFault::IllFormed(Ill::BadNumber));
        }
        let key = key_of(topic, index);
        if contains(self.partitions.timeline(), &key) {
            return Err(ChangeFault::IllFormed(Ill::PartitionExists));
        }
        if !is_well_formed(state) {
            return Err(ChangeFault::IllFormed(Ill::BadPartition));
        }
        if is_full(self.counts.partitions, MOST_PARTITIONS) {
            return Err(ChangeFault::IllFormed(Ill::Limit));
        }
        self.set_partition(key, state.copied(self.alloc)?)?;
        Ok(())
    }

    /// Merges a change into a partition.
    pub fn change_partition(
        &mut self,
        index: &i32,
        topic: &u128,
        change: &PartitionChange,
    ) -> Result<(), ChangeFault>
        requires valid { IsValid (present_image self.old) }
        requires agrees { Agrees self.old }
        ensures changes { Changes self.old self.new result (apply.change_partition (present_image self.old) index.now topic.now change.now) }
        ensures agrees { OnOk result (Agrees self.new) }
        ensures kept { keeps_of self.new ≡ keeps_of self.old }
        ensures made { OnOk result (made_of self.new ≤ made_of self.old + 1) }
    {
        if !self.has_topic(topic) {
            return Err(ChangeFault::IllFormed(Ill::NoTopic));
        }
        let key = key_of(topic, index);
        let Some(old) = self.partitions.timeline().get(&key) else {
            return Err(ChangeFault::IllFormed(Ill::NoPartition));
        };
        let state = merge(self.alloc, old, change)?;
        if !is_well_formed(&state) {
            return Err(ChangeFault::IllFormed(Ill::BadPartition));
        }
        self.set_partition(key, state)?;
        Ok(())
    }
}

// A key above all partitions of the topic, and below those of the topics above it.
fn end_of(topic: &u128) -> (u128, i32)
    ensures { result ≡ partitions_end topic.now }
{
    key_of(topic, &(LAST_INDEX + 1))
}

/// Takes out the topic's partitions, one by one. Each is looked for behind the one before, and none behind the topic's last.
pub(crate) fn remove_partitions(
    alloc: Global,
    partitions: &mut PartitionTimeline,
    count: &mut u32,
    topic: &u128,
) -> Result<(), NoMemory>
    requires ordered { map.IsMap partition_order partitions.old.maps.present }
    requires indexes { All (λ e. IsTrue (images.is_index e.0.1)) partitions.old.maps.present }
    requires counted { count.old ≡ length partitions.old.maps.present }
    ensures present { OnOk result (partitions.new.maps.present ≡ filter (λ e. not (e.0.0 == topic.now)) partitions.old.maps.present) }
    ensures kept { partitions.new.maps.kept ≡ partitions.old.maps.kept }
    ensures counted { OnOk result (count.new ≡ length partitions.new.maps.present) }
    ensures made { OnOk result (partitions.new.maps.made ≤ partitions.old.maps.made + count_by (λ e. e.0.0 == topic.now) partitions.old.maps.present) }
{
    let mut after = key_of(topic, &-1); // below them all
    let end = end_of(topic);
    while let Some(key) = key_between(alloc, partitions.timeline(), &after, &end)? {
        partitions.unset_counted(alloc, count, &key)?;
        after = key;
    }
    Ok(())
}

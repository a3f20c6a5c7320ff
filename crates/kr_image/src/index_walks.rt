//! An index of all maps of a timeline of partitions is made anew.

ghost use Rattle.std.specs.Prelude.{◌≡◌, [], IfOk, OnOk, unwrap_or};
ghost use Rattle.std.specs.Option.{option_copied};
ghost use Rattle.kr_defs.specs.Lookups.{entry_copied};
ghost use Rattle.kr_defs.specs.Map as entries;
ghost use Rattle.kr_defs.specs.Map.{partition_order};
ghost use Rattle.kr_store.specs.declared.places.At.TheVariants as places;
ghost use Rattle.kr_image.specs.inner.PartitionKeys.{HaveSameEpochs, InAll, InKept, IndexGrows, IsIndexOf};
ghost use Rattle.kr_image.specs.inner.TimelineMaps.{entries_at};
ghost use Rattle.kr_image.specs.Timelines.{map_in};

use crate::kept_counts::KeptCounts;
use crate::looking;
use crate::partition_index::{PartitionIndex, no_index};
use kr_base::{NoEpoch, NoMemory};
use kr_defs::Partition;
use kr_store::At;
use kr_timeline::Timeline;
use std::alloc::Global;
use std::collections::VecDeque;

// The timeline of partitions alone.
type Partitions = Timeline<(u128, i32), Partition>;

// The partition with the least key above the given one, or the first; none where no map is kept there.
fn next_partition<'a>(
    timeline: &'a Partitions,
    at: At,
    after: Option<&(u128, i32)>,
) -> Option<(&'a (u128, i32), &'a Partition)>
    ensures { entry_copied result ≡ entries.next partition_order
        (unwrap_or (entries_at timeline.now.maps at) []) (option_copied after.entry) }
{
    match looking::next(timeline, at, after) {
        Ok(found) => found,
        Err(NoEpoch) => None,
    }
}

// Lists the partitions of one map.
#[tactic(auto, using(crate::proofs::IndexedMaps::grows_on))]
fn add_map(
    index: &mut PartitionIndex,
    alloc: Global,
    timeline: &Partitions,
    at: At,
) -> Result<(), NoMemory>
    ensures lists { OnOk result (IsIndexOf index.new
        (unwrap_or (entries_at timeline.now.maps at) [])) }
    ensures grows { IndexGrows index.old index.new }
{
    timeline.epochs();
    let mut after = None;
    while let Some((key, partition)) = next_partition(timeline, at, after) {
        index.add(alloc, key, partition)?;
        after = Some(key);
    }
    Ok(())
}

fn place_of(kept: &KeptCounts) -> At
    ensures { result ≡ places.Epoch kept.now.epoch }
{
    At::Epoch(kept.epoch)
}

// Lists the partitions of the map of this epoch.
fn add_epoch(
    index: &mut PartitionIndex,
    alloc: Global,
    timeline: &Partitions,
    kept: &KeptCounts,
) -> Result<(), NoMemory>
    ensures lists { OnOk result (IsIndexOf index.new
        (map_in timeline.now.maps.kept kept.now.epoch)) }
    ensures grows { IndexGrows index.old index.new }
{
    add_map(index, alloc, timeline, place_of(kept))
}

// Lists the partitions of the maps of these epochs.
#[tactic(auto, using(crate::proofs::MapWalks::each_epoch))]
fn add_kept(
    index: &mut PartitionIndex,
    alloc: Global,
    timeline: &Partitions,
    kept: &VecDeque<KeptCounts>,
) -> Result<(), NoMemory>
    requires { HaveSameEpochs timeline.now.maps.kept kept.now.items }
    ensures lists { OnOk result (InKept (IsIndexOf index.new) timeline.now.maps.kept) }
    ensures grows { IndexGrows index.old index.new }
{
    timeline.epochs();
    for k in kept {
        add_epoch(index, alloc, timeline, k)?;
    }
    Ok(())
}

/// An index of the present map and of those of these epochs, which are all that are kept.
#[tactic(auto, using(crate::proofs::MapWalks::all_listed))]
pub(crate) fn index_of_maps(
    alloc: Global,
    timeline: &Partitions,
    kept: &VecDeque<KeptCounts>,
) -> Result<PartitionIndex, NoMemory>
    requires { HaveSameEpochs timeline.now.maps.kept kept.now.items }
    ensures { IfOk result (λ index. InAll (IsIndexOf index) timeline.now.maps) }
{
    let mut index = no_index(alloc);
    add_map(&mut index, alloc, timeline, At::Tip)?;
    add_kept(&mut index, alloc, timeline, kept)?;
    Ok(index)
}

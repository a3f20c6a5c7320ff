//! One entry of a timeline is set or goes.

ghost use Rattle.std.specs.Prelude.{◌≡◌, ◌≤◌, ◌<◌, ◌+◌, ◌^◌, OnErr, OnOk, IfOk, length, nat_le, slice_get};
ghost use Rattle.std.specs.BTreeMap.Range.{IsLtBy, entries_between};
ghost use Rattle.std.specs.Option.{option_map};
ghost use Rattle.std.specs.declared.ops.Bound.TheVariants.{Excluded};
ghost use Rattle.kr_defs.specs.Map as map;

use kr_base::NoMemory;
use kr_defs::Copied;
use kr_timeline::{Key, Timeline};
use std::alloc::Global;

/// The key has a value in the present map.
pub(crate) fn contains<K: Ord + Drop, V: Drop>(timeline: &Timeline<K, V>, key: &K) -> bool
    ensures { result ≡ map.contains K.cmp timeline.now.maps.present key.now }
{
    timeline.get(key).is_some()
}

/// The key of the first entry above one key and below another.
pub(crate) fn key_between<K: Key + Drop, V: Drop>(
    alloc: Global,
    timeline: &Timeline<K, V>,
    after: &K,
    end: &K,
) -> Result<Option<K>, NoMemory>
    requires { IsLtBy K.cmp after.now end.now }
    ensures { IfOk result (λ key. key ≡ option_map (λ e. e.0) (slice_get (entries_between K.cmp
        (Excluded after.now) (Excluded end.now) timeline.now.maps.present) 0)) }
{
    match timeline.next_between(after, end) {
        Some((key, _value)) => Ok(Some(Copied::copied(key, alloc)?)),
        None => Ok(None),
    }
}

/// There is no room for one more.
pub(crate) fn is_full(count: u32, most: usize) -> bool
    ensures { result ≡ nat_le most count }
{
    most <= count as usize
}

/// Gives the key the value in the present map.
#[tactic(auto, unfolding(kr_defs::specs::KeptMaps::inserted))]
pub(crate) fn set<K: Key + Drop, V: Drop>(
    timeline: &mut Timeline<K, V>,
    key: K,
    value: V,
) -> Result<(), NoMemory>
    ensures present { OnOk result (timeline.new.maps.present ≡ map.insert K.cmp timeline.old.maps.present key value) }
    ensures kept { timeline.new.maps.kept ≡ timeline.old.maps.kept }
    ensures made { OnOk result (timeline.new.maps.made ≤ timeline.old.maps.made + 1) }
    ensures err { OnErr result (timeline.new.maps.present ≡ timeline.old.maps.present) }
{
    timeline.insert(key, value)
}

/// Takes the key out of the present map.
#[tactic(auto, unfolding(kr_defs::specs::KeptMaps::removed))]
pub(crate) fn unset<K: Key + Drop, V: Drop>(
    alloc: Global,
    timeline: &mut Timeline<K, V>,
    key: &K,
) -> Result<(), NoMemory>
    ensures present { OnOk result (timeline.new.maps.present ≡ map.remove K.cmp timeline.old.maps.present key.now) }
    ensures kept { timeline.new.maps.kept ≡ timeline.old.maps.kept }
    ensures made { OnOk result (timeline.new.maps.made ≤ timeline.old.maps.made + 1) }
    ensures err { OnErr result (timeline.new.maps.present ≡ timeline.old.maps.present) }
{
    let key = Copied::copied(key, alloc)?;
    timeline.remove(key)?;
    Ok(())
}

/// Gives the key the value, and counts an entry that is new.
#[tactic(auto, using(kr_defs::proofs::EntryCounts::counting))]
pub(crate) fn set_counted<K: Key + Drop, V: Drop>(
    timeline: &mut Timeline<K, V>,
    count: &mut u32,
    key: K,
    value: V,
) -> Result<(), NoMemory>
    requires counted { count.old ≡ length timeline.old.maps.present }
    requires few { length timeline.old.maps.present + 1 < 2 ^ 32 }
    requires ordered { map.IsMap K.cmp timeline.old.maps.present }
    ensures present { OnOk result (timeline.new.maps.present ≡ map.insert K.cmp timeline.old.maps.present key value) }
    ensures kept { timeline.new.maps.kept ≡ timeline.old.maps.kept }
    ensures made { OnOk result (timeline.new.maps.made ≤ timeline.old.maps.made + 1) }
    ensures err { OnErr result (timeline.new.maps.present ≡ timeline.old.maps.present) }
    ensures counted { OnOk result (count.new ≡ length timeline.new.maps.present) }
{
    let is_there = contains(timeline, &key);
    set(timeline, key, value)?;
    if !is_there {
        *count += 1;
    }
    Ok(())
}

/// Takes the key out, and counts an entry that goes.
#[tactic(auto, using(kr_defs::proofs::EntryCounts::counting))]
pub(crate) fn unset_counted<K: Key + Drop, V: Drop>(
    alloc: Global,
    timeline: &mut Timeline<K, V>,
    count: &mut u32,
    key: &K,
) -> Result<(), NoMemory>
    requires counted { count.old ≡ length timeline.old.maps.present }
    ensures present { OnOk result (timeline.new.maps.present ≡ map.remove K.cmp timeline.old.maps.present key.now) }
    ensures kept { timeline.new.maps.kept ≡ timeline.old.maps.kept }
    ensures made { OnOk result (timeline.new.maps.made ≤ timeline.old.maps.made + 1) }
    ensures err { OnErr result (timeline.new.maps.present ≡ timeline.old.maps.present) }
    ensures counted { OnOk result (count.new ≡ length timeline.new.maps.present) }
{
    let is_there = contains(timeline, key);
    unset(alloc, timeline, key)?;
    if is_there {
        *count -= 1;
    }
    Ok(())
}

//! A map with kept epochs: the versions of each key, and for each kept epoch the keys that changed since the one before.

ghost use Rattle.std.specs.Prelude.{◌≡◌, ◌↔◌, ◌≤◌, ◌+◌, Some, None, Err, OnOk, OnErr, IfOk, IsOk, IsErr, IsTrue, All, length, slice_get};
ghost use Rattle.std.specs.BTreeMap.Range.{IsLtBy, entries_between};
ghost use Rattle.std.specs.Option.{option_copied};
ghost use Rattle.std.specs.declared.ops.Bound.TheVariants.{Excluded};
ghost use Rattle.kr_defs.specs.Map as entries;
ghost use Rattle.kr_defs.specs.KeptMaps.{AreRising, ForgetsMapWithin, IsAbove, RevertsMapWithin, no_maps, map_at, kept_above, kept_below, marked, inserted, removed, reverted, forgotten, one_call_more};
ghost use Rattle.kr_defs.specs.Lookups.{Finds, FindsEntry, entry_copied};
ghost use Rattle.kr_timeline.specs.Chains.{put};
ghost use Rattle.kr_timeline.specs.Intervals.{WritesListed};
ghost use Rattle.kr_timeline.specs.RestoredMaps.{RestoresMap};

use crate::chain::{Chain, Trim};
use crate::chains;
use crate::intervals::{
    Interval, drop_after, drop_below, find_place, number_at, settle_first, trim_keys,
};
use crate::key::Key;
use crate::restoration::restore_after;
use kr_base::{NoEpoch, NoMemory, Steps};
use kr_defs::Copied;
use std::alloc::Global;
use std::collections::{BTreeMap, VecDeque};
use std::marker::Model;
use std::mem::replace;
use std::sync::ledger::Ledger;

/// Why a map wasn't made the present one again.
#[derive(Clone, Copy, Debug, Drop, PartialEq, Eq)]
pub enum RestoreFault {
    /// The epoch isn't kept.
    NoEpoch,
    /// There was no memory.
    NoMemory,
}

/// A map, and the maps that were kept of it, each under its epoch. Versions carry the number of the interval between two
/// marks in which they were written. The map of an interval has at each key the value of the newest version up to its number.
#[derive(Drop)]
pub struct Timeline<K: Ord, V> {
    // Where memory comes from.
    alloc: Global,
    // The versions of each key.
    chains: BTreeMap<K, Chain<V>>,
    // The intervals that end at a kept epoch.
    kept: VecDeque<Interval<K>>,
    number: u64, // of the present interval
    keys: Vec<K>, // that changed in it
    // How many calls changed the present map since the last mark.
    made: u64,
}

impl<K: Ord, V> Model for Timeline<K, V> {
    ghost use Rattle.std.specs.Prelude.{nat_lt, ◌&&◌, ◌^◌, ◌-◌};
    ghost use Rattle.std.specs.VecDeque.{deque_len, deque_capacity};
    ghost use Rattle.kr_timeline.specs.History.{History, history_code};

    ghost Value = { History K V };

    ghost coded = { history_code K.code V.code };

    ghost use Rattle.kr_timeline.specs.Intervals.{maps_of, IsTimeline};

    ghost view = { λ t. record { maps = maps_of t.chains.entries t.kept.items t.number t.made; has_room = nat_lt (deque_len t.kept) (deque_capacity t.kept) && nat_lt t.number (2 ^ 64 - 1) } };

    ghost invariant = { λ t. IsTimeline K.cmp t.chains.entries t.kept.items t.number t.keys.items t.made };
}

impl<K: Ord + Drop, V: Drop> Timeline<K, V> {
    /// An empty map with no kept epoch.
    pub fn new(alloc: Global) -> Timeline<K, V>
        ensures { result.maps ≡ no_maps }
    {
        Timeline {
            alloc,
            chains: BTreeMap::new(alloc),
            kept: VecDeque::new(alloc),
            number: 0,
            keys: Vec::new(alloc),
            made: 0,
        }
    }

    /// The value of the key in the present map.
    pub fn get(&self, key: &K) -> Option<&V>
        ensures { option_copied result ≡ entries.get K.cmp self.now.maps.present key.now }
    {
        chains::get(&self.chains, self.number, key)
    }

    /// How many epochs are kept. Whatever was done, they rise, and each map has its keys in order.
    pub fn epochs(&self) -> usize
        ensures count { result ≡ length self.now.maps.kept }
        ensures rising { AreRising self.now.maps.kept }
        ensures kept { All (λ k. entries.IsMap K.cmp k.map) self.now.maps.kept }
        ensures present { entries.IsMap K.cmp self.now.maps.present }
    {
        self.chains.len();
        self.kept.len()
    }

    /// Makes room for one more kept epoch, so that the next `mark` answers Ok. Room that was made before stays. There is no
    /// room once 2^64 - 1 intervals were numbered.
    pub fn reserve(&mut self) -> Result<(), NoMemory>
        ensures same { self.new.maps ≡ self.old.maps }
        ensures room { OnOk result (IsTrue self.new.has_room) }
        ensures left { IsTrue self.old.has_room → IsTrue self.new.has_room }
    {
        if self.number == u64::MAX {
            return Err(NoMemory);
        }
        self.kept.reserve(1)?;
        Ok(())
    }

    /// Keeps the present map under the epoch.
    #[tactic(auto, unfolding(kr_defs::specs::KeptMaps::marked))]
    pub fn mark(&mut self, epoch: i64) -> Result<(), NoMemory>
        requires { IsAbove self.old.maps.kept epoch }
        ensures ok { OnOk result (self.new.maps ≡ marked self.old.maps epoch) }
        ensures err { OnErr result (self.new.maps ≡ self.old.maps) }
        ensures reserved { IsTrue self.old.has_room → IsOk result }
    {
        if self.number == u64::MAX {
            return Err(NoMemory);
        }
        let keys = replace(&mut self.keys, Vec::new(self.alloc));
        let interval = Interval {
            epoch,
            number: self.number,
            keys,
            made: self.made,
        };
        match self.kept.push_back(interval) {
            Ok(()) => {
                self.number += 1;
                self.made = 0; // no call since the mark
                Ok(())
            }
            Err(refused) => {
                self.keys = refused.value.keys;
                Err(NoMemory)
            }
        }
    }

    /// The value of the key in the map that is kept under the epoch.
    pub fn get_at(&self, epoch: i64, key: &K) -> Result<Option<&V>, NoEpoch>
        ensures { Finds (map_at self.now.maps epoch) result (λ map. entries.get K.cmp map key.now) }
    {
        match find_place(&self.kept, &epoch) {
            Some(place) => Ok(chains::get(&self.chains, number_at(&self.kept, place), key)),
            None => Err(NoEpoch),
        }
    }

    /// The entry with the least key above the given one, or the first entry, in the present map.
    pub fn next(&self, after: Option<&K>) -> Option<(&K, &V)>
        ensures { entry_copied result ≡
            entries.next K.cmp self.now.maps.present (option_copied after.entry) }
    {
        chains::next(&self.chains, self.number, after)
    }

    /// The entry with the least key above one key and below another, in the present map. What was removed outside of these
    /// keys costs nothing.
    pub fn next_between(&self, after: &K, end: &K) -> Option<(&K, &V)>
        requires { IsLtBy K.cmp after.now end.now }
        ensures { entry_copied result ≡ slice_get (entries_between K.cmp (Excluded after.now)
            (Excluded end.now) self.now.maps.present) 0 }
    {
        chains::next_between(&self.chains, self.number, after, end)
    }

    /// The entry with the least key above the given one, or the first entry, in the map that is kept under the epoch.
    pub fn next_at(&self, epoch: i64, after: Option<&K>) -> Result<Option<(&K, &V)>, NoEpoch>
        ensures { FindsEntry (map_at self.now.maps epoch) result
            (λ map. entries.next K.cmp map (option_copied after.entry)) }
    {
        match find_place(&self.kept, &epoch) {
            Some(place) => Ok(chains::next(&self.chains, number_at(&self.kept, place), after)),
            None => Err(NoEpoch),
        }
    }

    /// Makes the map that is kept under the epoch the present one, and drops the later epochs. The call is a step, and each
    /// epoch that is dropped, and each key that changed in an interval above the epoch.
    #[tactic(auto, unfolding(kr_defs::specs::KeptMaps::reverted))]
    pub fn revert<L: Ledger>(&mut self, epoch: i64, steps: &mut Steps<L>) -> Result<(), NoEpoch>
        ensures ok { OnOk result (reverted self.old.maps epoch ≡ Some self.new.maps) }
        ensures err { OnErr result (self.new.maps ≡ self.old.maps) }
        ensures no_epoch { IsErr result ↔ (map_at self.old.maps epoch ≡ None) }
        ensures room { IsTrue self.old.has_room → IsTrue self.new.has_room }
        ensures counted { steps.old ≤ steps.new }
        ensures least { OnOk result (steps.old + length (kept_above self.old.maps epoch) + 1 ≤
            steps.new) }
        ensures bound { RevertsMapWithin self.old.maps epoch steps.old steps.new }
    {
        match find_place(&self.kept, &epoch) {
            Some(place) => {
                steps.tick(); // for the call
                self.chains.len();
                let number = number_at(&self.kept, place);
                trim_keys(&mut self.chains, &self.keys, Trim::Above, number, steps);
                self.keys.clear();
                drop_after(&mut self.chains, &mut self.kept, place + 1, number, steps);
                self.made = 0;
                Ok(())
            }
            None => Err(NoEpoch),
        }
    }

    /// Drops the kept epochs below this one. The call is a step, and each epoch that is dropped, and each key that changed in
    /// an interval up to the oldest epoch that is left.
    #[tactic(auto, unfolding(kr_defs::specs::KeptMaps::forgotten))]
    pub fn forget_below<L: Ledger>(&mut self, epoch: i64, steps: &mut Steps<L>)
        ensures maps { self.new.maps ≡ forgotten self.old.maps epoch }
        ensures room { IsTrue self.old.has_room → IsTrue self.new.has_room }
        ensures counted { steps.old ≤ steps.new }
        ensures least { steps.old + length (kept_below self.old.maps epoch) + 1 ≤ steps.new }
        ensures bound { ForgetsMapWithin self.old.maps epoch steps.old steps.new }
    {
        steps.tick();
        self.chains.len();
        drop_below(&mut self.chains, &mut self.kept, &epoch, steps);
        settle_first(&mut self.chains, &mut self.kept, self.alloc, steps);
    }
}

impl<K: Key + Drop, V: Drop> Timeline<K, V> {
    // Gives the key the value, or none, in the present map.
    fn put(&mut self, key: K, value: Option<V>) -> Result<(), NoMemory>
        ensures ok { OnOk result (self.new.maps ≡ record self.old.maps { present = put K.cmp self.old.maps.present key value; made = one_call_more self.old.maps.made }) }
        ensures err { OnErr result (self.new.maps ≡ self.old.maps) }
        ensures room { self.new.has_room ≡ self.old.has_room }
    {
        self.chains.len();
        write_listed(
            &mut self.chains,
            &mut self.keys,
            self.alloc,
            self.number,
            key,
            value,
        )?;
        self.made = self.made.saturating_add(1);
        Ok(())
    }

    /// Gives the key the value in the present map.
    #[tactic(auto, unfolding(kr_defs::specs::KeptMaps::inserted))]
    pub fn insert(&mut self, key: K, value: V) -> Result<(), NoMemory>
        ensures ok { OnOk result (self.new.maps ≡ inserted K.cmp self.old.maps key value) }
        ensures err { OnErr result (self.new.maps ≡ self.old.maps) }
        ensures room { IsTrue self.old.has_room → IsTrue self.new.has_room }
    {
        self.put(key, Some(value))
    }

    /// Takes the key out of the present map, and says whether it was there.
    #[tactic(auto, unfolding(kr_defs::specs::KeptMaps::removed))]
    pub fn remove(&mut self, key: K) -> Result<bool, NoMemory>
        ensures found { IfOk result (λ found. found ≡
            entries.contains K.cmp self.old.maps.present key) }
        ensures ok { OnOk result (self.new.maps ≡ removed K.cmp self.old.maps key) }
        ensures err { OnErr result (self.new.maps ≡ self.old.maps) }
        ensures room { IsTrue self.old.has_room → IsTrue self.new.has_room }
    {
        let found = self.get(&key).is_some();
        if found {
            self.put(key, None)?;
        } else {
            self.count_call(&key);
        }
        Ok(found)
    }

    // A call that takes a key out that isn't there.
    fn count_call(&mut self, key: &K)
        requires { entries.get K.cmp self.old.maps.present key.now ≡ None }
        ensures maps { self.new.maps ≡ record self.old.maps { present = entries.remove K.cmp self.old.maps.present key.now; made = one_call_more self.old.maps.made } }
        ensures room { self.new.has_room ≡ self.old.has_room }
    {
        self.made = self.made.saturating_add(1);
    }
}

impl<K: Key + Drop, V: Copied + Drop> Timeline<K, V> {
    /// Makes the map that is kept under the epoch the present one, and keeps all epochs. A refusal leaves all as before: NoEpoch
    /// where the epoch isn't kept, else NoMemory, also once 2^64 - 1 intervals were numbered.
    pub fn restore(&mut self, epoch: i64) -> Result<(), RestoreFault>
        ensures ok { OnOk result (RestoresMap self.old.maps epoch self.new.maps) }
        ensures err { OnErr result (self.new.maps ≡ self.old.maps) }
        ensures no_epoch { (result ≡ Err RestoreFault.NoEpoch) ↔ (map_at self.old.maps epoch ≡ None) }
        ensures room { IsTrue self.old.has_room → IsTrue self.new.has_room }
    {
        match find_place(&self.kept, &epoch) {
            Some(place) => {
                if self.number == u64::MAX {
                    return Err(RestoreFault::NoMemory);
                }
                let from = number_at(&self.kept, place);
                let before = self.keys.len();
                let restored = restore_after(
                    &mut self.chains,
                    &mut self.keys,
                    &self.kept,
                    place + 1,
                    self.alloc,
                    from,
                    self.number,
                );
                match restored {
                    Ok(()) => {
                        let more = self.keys.len() - before;
                        self.made = self.made.saturating_add(more as u64); // a call for each key that joined the list
                        Ok(())
                    }
                    Err(_) => Err(RestoreFault::NoMemory),
                }
            }
            None => Err(RestoreFault::NoEpoch),
        }
    }
}

// Writes the value, and lists the key where that is a version more.
fn write_listed<K: Key + Drop, V: Drop>(
    chains: &mut BTreeMap<K, Chain<V>>,
    keys: &mut Vec<K>,
    alloc: Global,
    number: u64,
    key: K,
    value: Option<V>,
) -> Result<(), NoMemory>
    ensures ok { OnOk result (WritesListed K.cmp number key value chains.old.entries chains.new.entries keys.old.items keys.new.items) }
    ensures err { OnErr result (chains.new.entries ≡ chains.old.entries) }
    ensures keys { OnErr result (keys.new.items ≡ keys.old.items) }
{
    if chains::is_written(chains, number, &key) {
        chains::write(chains, alloc, number, key, value)?;
        return Ok(());
    }
    keys.reserve(1)?;
    let copy = key.copied(alloc)?;
    chains::write(chains, alloc, number, key, value)?;
    keys.push_reserved(copy);
    Ok(())
}

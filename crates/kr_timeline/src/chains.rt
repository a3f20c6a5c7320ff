//! The versions of each key.

ghost use Rattle.std.specs.Prelude.{◌≡◌, ℕ, [], ◌∷◌, List, Option, Some, None, OnOk, OnErr, IsTrue, IsSome, true, false, slice_get};
ghost use Rattle.std.specs.Bool.{OnTrue};
ghost use Rattle.std.specs.Option.{option_copied};
ghost use Rattle.std.specs.Map.{remove_entry};
ghost use Rattle.std.specs.BTreeMap.{is_at, insert_entry};
ghost use Rattle.std.specs.BTreeMap.Range.{IsLtBy, entries_between};
ghost use Rattle.std.specs.declared.ops.Bound.TheVariants.{Excluded};
ghost use Rattle.kr_defs.specs.Lookups.{entry_copied};
ghost use Rattle.kr_defs.specs.Map as entries;
ghost use Rattle.kr_timeline.specs.Chains.{map_of, written, AreFalling, HasVersion, Rewrites, Writes, is_left, left_of, lowered, repeated, trimmed};

use crate::chain::{Chain, Trim};
use crate::key::Key;
use kr_base::NoMemory;
use kr_defs::Copied;
use std::alloc::Global;
use std::collections::BTreeMap;
use std::ops::Bound;

/// The value of the key in the map at the number.
pub(crate) fn get<'a, K: Ord + Drop, V: Drop>(
    chains: &'a BTreeMap<K, Chain<V>>,
    number: u64,
    key: &K,
) -> Option<&'a V>
    requires { AreFalling chains.now.entries }
    ensures value { option_copied result ≡
        entries.get K.cmp (map_of number chains.now.entries) key.now }
{
    chains.len();
    match chains.get(key) {
        Some(chain) => chain.at(number),
        None => None,
    }
}

/// The newest version of the key has the number.
pub(crate) fn is_written<K: Ord + Drop, V: Drop>(
    chains: &BTreeMap<K, Chain<V>>,
    number: u64,
    key: &K,
) -> bool
    ensures { IsTrue result → HasVersion (is_at (K.cmp key.now)) number chains.now.entries }
{
    match chains.get(key) {
        Some(chain) => chain.is_written(number),
        None => false,
    }
}

// Says whether a version of the key is left, or there was none.
fn trim_chain<K: Ord + Drop, V: Drop>(
    chains: &mut BTreeMap<K, Chain<V>>,
    key: &K,
    trim: Trim,
    number: u64,
) -> bool
    requires { AreFalling chains.old.entries }
    ensures absent { entries.get K.cmp chains.old.entries key.now ≡ None → (result ≡ true) ×
        (chains.new.entries ≡ chains.old.entries) }
    ensures answer { (chain : List (ℕ × Option V)) → entries.get K.cmp chains.old.entries key.now ≡
        Some chain → result ≡ is_left (left_of trim number chain) }
    ensures left { OnTrue result
        (Rewrites K.cmp key.now (left_of trim number) chains.old.entries chains.new.entries) }
    ensures others { remove_entry (is_at (K.cmp key.now)) chains.new.entries ≡
        remove_entry (is_at (K.cmp key.now)) chains.old.entries }
{
    let Some(chain) = chains.get_mut(key) else {
        return true;
    };
    chain.trim(trim, number)
}

fn drop_key<K: Ord + Drop, V: Drop>(chains: &mut BTreeMap<K, Chain<V>>, key: &K)
    ensures { chains.new.entries ≡ remove_entry (is_at (K.cmp key.now)) chains.old.entries }
{
    let _gone = chains.remove(key).is_some();
}

/// Drops versions of the key, and the key where none is left.
pub(crate) fn trim<K: Ord + Drop, V: Drop>(
    chains: &mut BTreeMap<K, Chain<V>>,
    key: &K,
    trim: Trim,
    number: u64,
)
    requires { AreFalling chains.old.entries }
    ensures { chains.new.entries ≡
        trimmed (is_at (K.cmp key.now)) (left_of trim number) chains.old.entries }
{
    if !trim_chain(chains, key, trim, number) {
        drop_key(chains, key);
    }
}

/// Writes the key's value at the number `from` under the number `above`, where it has no version of that number.
#[tactic(auto, using(std::proofs::lemmas::Map::Steps::set_value_same))]
pub(crate) fn repeat<K: Ord + Drop, V: Copied + Drop>(
    chains: &mut BTreeMap<K, Chain<V>>,
    alloc: Global,
    key: &K,
    from: u64,
    above: u64,
) -> Result<(), NoMemory>
    requires { AreFalling chains.old.entries }
    ensures absent { entries.get K.cmp chains.old.entries key.now ≡ None →
        chains.new.entries ≡ chains.old.entries }
    ensures ok { OnOk result
        (Rewrites K.cmp key.now (repeated from above) chains.old.entries chains.new.entries) }
    ensures err { OnErr result (chains.new.entries ≡ chains.old.entries) }
{
    let Some(chain) = chains.get_mut(key) else {
        return Ok(());
    };
    chain.repeat(alloc, from, above)?;
    Ok(())
}

/// The key's newest version, where it has the number `above`, gets the number.
pub(crate) fn lower<K: Ord + Drop, V: Drop>(
    chains: &mut BTreeMap<K, Chain<V>>,
    key: &K,
    above: u64,
    number: u64,
)
    ensures absent { entries.get K.cmp chains.old.entries key.now ≡ None →
        chains.new.entries ≡ chains.old.entries }
    ensures lowered { Rewrites K.cmp key.now
        (lowered above number) chains.old.entries chains.new.entries }
    ensures left { (chain : List (ℕ × Option V)) → entries.get K.cmp chains.old.entries key.now ≡
        Some chain → is_left (lowered above number chain) ≡ true }
{
    let Some(chain) = chains.get_mut(key) else {
        return;
    };
    chain.lower(above, number);
}

#[tactic(auto, using(std::proofs::lemmas::Map::Steps::set_value_same))]
fn write_over<K: Ord + Drop, V: Drop>(
    chains: &mut BTreeMap<K, Chain<V>>,
    number: u64,
    key: &K,
    value: Option<V>,
) -> Result<(), NoMemory>
    requires { IsSome (entries.get K.cmp chains.old.entries key.now) }
    ensures ok { OnOk result (Rewrites K.cmp key.now
        (written number value) chains.old.entries chains.new.entries) }
    ensures err { OnErr result (chains.new.entries ≡ chains.old.entries) }
{
    let Some(chain) = chains.get_mut(key) else {
        return Ok(());
    };
    chain.write(number, value)?;
    Ok(())
}

fn write_new<K: Key + Drop, V: Drop>(
    chains: &mut BTreeMap<K, Chain<V>>,
    alloc: Global,
    number: u64,
    key: K,
    value: Option<V>,
) -> Result<(), NoMemory>
    ensures ok { OnOk result (chains.new.entries ≡
        insert_entry K.cmp chains.old.entries key ((number, value) ∷ [])) }
    ensures err { OnErr result (chains.new.entries ≡ chains.old.entries) }
{
    chains.insert(key, Chain::of(alloc, number, value))?;
    Ok(())
}

/// Writes the value for the key under the number, which no version is above.
pub(crate) fn write<K: Key + Drop, V: Drop>(
    chains: &mut BTreeMap<K, Chain<V>>,
    alloc: Global,
    number: u64,
    key: K,
    value: Option<V>,
) -> Result<(), NoMemory>
    ensures ok { OnOk result (Writes K.cmp number key value chains.old.entries chains.new.entries) }
    ensures err { OnErr result (chains.new.entries ≡ chains.old.entries) }
{
    if chains.contains_key(&key) {
        write_over(chains, number, &key, value)?;
        Ok(())
    } else {
        write_new(chains, alloc, number, key, value)?;
        Ok(())
    }
}

// The first entry of the map at the number.
fn first_of<K: Ord + Drop, V: Drop>(chains: &BTreeMap<K, Chain<V>>, number: u64) -> Option<(&K, &V)>
    requires { AreFalling chains.now.entries }
    ensures { entry_copied result ≡ slice_get (map_of number chains.now.entries) 0 }
{
    for (key, chain) in chains {
        if let Some(value) = chain.at(number) {
            return Some((key, value));
        }
    }
    None
}

// The first entry above the key of the map at the number.
fn first_above<'a, K: Ord + Drop, V: Drop>(
    chains: &'a BTreeMap<K, Chain<V>>,
    number: u64,
    after: &K,
) -> Option<(&'a K, &'a V)>
    requires { AreFalling chains.now.entries }
    ensures { entry_copied result ≡
        slice_get (map_of number (entries.above K.cmp chains.now.entries (Some after.now))) 0 }
{
    for (key, chain) in chains.range((Bound::Excluded(after), Bound::Unbounded)) {
        if let Some(value) = chain.at(number) {
            return Some((key, value));
        }
    }
    None
}

/// The entry with the least key above the given one, or the first entry, in the map at the number. It passes over the keys
/// that don't stand there.
#[tactic(auto, using(crate::proofs::Nexts::above_map_of))]
pub(crate) fn next<'a, K: Ord + Drop, V: Drop>(
    chains: &'a BTreeMap<K, Chain<V>>,
    number: u64,
    after: Option<&K>,
) -> Option<(&'a K, &'a V)>
    requires { AreFalling chains.now.entries }
    ensures { entry_copied result ≡
        entries.next K.cmp (map_of number chains.now.entries) (option_copied after.entry) }
{
    match after {
        None => first_of(chains, number),
        Some(key) => first_above(chains, number, key),
    }
}

/// The first entry above one key and below another in the map at the number. It passes over no key outside of these.
#[tactic(auto, using(crate::proofs::Nexts::between_map_of))]
pub(crate) fn next_between<'a, K: Ord + Drop, V: Drop>(
    chains: &'a BTreeMap<K, Chain<V>>,
    number: u64,
    after: &K,
    end: &K,
) -> Option<(&'a K, &'a V)>
    requires falls { AreFalling chains.now.entries }
    requires forward { IsLtBy K.cmp after.now end.now }
    ensures { entry_copied result ≡ slice_get (entries_between K.cmp (Excluded after.now)
        (Excluded end.now) (map_of number chains.now.entries)) 0 }
{
    for (key, chain) in chains.range((Bound::Excluded(after), Bound::Excluded(end))) {
        if let Some(value) = chain.at(number) {
            return Some((key, value));
        }
    }
    None
}

//! The map of a kept epoch is made the present one again, above what stands.

ghost use Rattle.std.specs.Prelude.{◌≡◌, ◌<◌, ◌≤◌, ◌^◌, ◌-◌, ◌++◌, OnOk, OnErr, nat_le, length, take, drop};
ghost use Rattle.std.specs.VecDeque.{deque_len};
ghost use Rattle.kr_timeline.specs.Chains.{AreFalling, AreLeft, Versions, is_listed, all_trimmed, cut, lowered, repeated, restored, mapped};
ghost use Rattle.kr_timeline.specs.Intervals.{keys_in, RepeatsSome};

use crate::chain::{Chain, Trim};
use crate::chains;
use crate::intervals::Interval;
use crate::key::Key;
use kr_base::NoMemory;
use kr_defs::Copied;
use std::alloc::Global;
use std::collections::{BTreeMap, VecDeque};

// Copies of the keys join the list.
fn list_keys<K: Copied + Drop>(
    more: &Vec<K>,
    keys: &mut Vec<K>,
    alloc: Global,
) -> Result<(), NoMemory>
    ensures ok { OnOk result (keys.new.items ≡ keys.old.items ++ more.now.items) }
    ensures err { OnErr result (take (length keys.old.items) keys.new.items ≡ keys.old.items) }
{
    for key in more {
        keys.push(key.copied(alloc)?)?;
    }
    Ok(())
}

// Copies of the keys in the lists behind the first `count` join the list.
fn list_after<K: Copied + Drop>(
    kept: &VecDeque<Interval<K>>,
    count: usize,
    keys: &mut Vec<K>,
    alloc: Global,
) -> Result<(), NoMemory>
    requires { count ≤ deque_len kept.now }
    ensures ok { OnOk result (keys.new.items ≡
        keys.old.items ++ keys_in (drop count kept.now.items)) }
    ensures err { OnErr result (take (length keys.old.items) keys.new.items ≡ keys.old.items) }
{
    let mut place = count;
    while place < kept.len() {
        list_keys(&kept[place].keys, keys, alloc)?;
        place += 1;
    }
    Ok(())
}

// Writes the value of each of the keys at the number `from` under the number `above`.
fn repeat_keys<K: Ord + Drop, V: Copied + Drop>(
    chains: &mut BTreeMap<K, Chain<V>>,
    keys: &Vec<K>,
    alloc: Global,
    from: u64,
    above: u64,
) -> Result<(), NoMemory>
    requires falls { AreFalling chains.old.entries }
    requires up_to { Versions (λ _ n. nat_le n above) chains.old.entries }
    ensures ok { OnOk result (chains.new.entries ≡
        all_trimmed K.cmp (repeated from above) keys.now.items chains.old.entries) }
    ensures err { OnErr result
        (RepeatsSome K.cmp from above keys.now.items chains.old.entries chains.new.entries) }
{
    for key in keys {
        chains::repeat(chains, alloc, key, from, above)?;
    }
    Ok(())
}

// The newest version of each of the keys, where it has the number `above`, gets the number.
fn lower_keys<K: Ord + Drop, V: Drop>(
    chains: &mut BTreeMap<K, Chain<V>>,
    keys: &Vec<K>,
    above: u64,
    number: u64,
)
    ensures { chains.new.entries ≡
        all_trimmed K.cmp (lowered above number) keys.now.items chains.old.entries }
{
    for key in keys {
        chains::lower(chains, key, above, number);
    }
}

// Drops the versions above the number of each of the keys.
fn cut_keys<K: Ord + Drop, V: Drop>(chains: &mut BTreeMap<K, Chain<V>>, keys: &Vec<K>, number: u64)
    requires { AreFalling chains.old.entries }
    ensures { chains.new.entries ≡
        all_trimmed K.cmp (cut number) keys.now.items chains.old.entries }
{
    for key in keys {
        chains::trim(chains, key, Trim::Above, number);
    }
}

// What the keys have at the number `from` they get under the number, the greatest that stands; or nothing is written.
fn rewrite<K: Ord + Drop, V: Copied + Drop>(
    chains: &mut BTreeMap<K, Chain<V>>,
    keys: &Vec<K>,
    alloc: Global,
    from: u64,
    number: u64,
) -> Result<(), NoMemory>
    requires falls { AreFalling chains.old.entries }
    requires below { Versions (λ _ n. nat_le n number) chains.old.entries }
    requires some { AreLeft chains.old.entries }
    requires last { number < 2 ^ 64 - 1 }
    ensures ok { OnOk result (chains.new.entries ≡
        mapped (is_listed K.cmp keys.now.items) (restored from number) chains.old.entries) }
    ensures err { OnErr result (chains.new.entries ≡ chains.old.entries) }
{
    chains.len();
    match repeat_keys(chains, keys, alloc, from, number + 1) {
        Ok(()) => {
            lower_keys(chains, keys, number + 1, number);
            Ok(())
        }
        Err(_) => {
            cut_keys(chains, keys, number);
            Err(NoMemory)
        }
    }
}

/// Under the number, the greatest that stands, each key that changed behind the first `count` entries, or is in the list, gets
/// what it had at the number `from`, and joins the list. What is refused changes nothing.
pub(crate) fn restore_after<K: Key + Drop, V: Copied + Drop>(
    chains: &mut BTreeMap<K, Chain<V>>,
    keys: &mut Vec<K>,
    kept: &VecDeque<Interval<K>>,
    count: usize,
    alloc: Global,
    from: u64,
    number: u64,
) -> Result<(), NoMemory>
    requires within { count ≤ deque_len kept.now }
    requires falls { AreFalling chains.old.entries }
    requires below { Versions (λ _ n. nat_le n number) chains.old.entries }
    requires some { AreLeft chains.old.entries }
    requires last { number < 2 ^ 64 - 1 }
    ensures listed { OnOk result (keys.new.items ≡
        keys.old.items ++ keys_in (drop count kept.now.items)) }
    ensures ok { OnOk result (chains.new.entries ≡
        mapped (is_listed K.cmp keys.new.items) (restored from number) chains.old.entries) }
    ensures err { OnErr result (chains.new.entries ≡ chains.old.entries) }
    ensures keys { OnErr result (keys.new.items ≡ keys.old.items) }
{
    let before = keys.len();
    if list_after(kept, count, keys, alloc).is_err() {
        keys.truncate(before);
        return Err(NoMemory);
    }
    if rewrite(chains, keys, alloc, from, number).is_err() {
        keys.truncate(before);
        return Err(NoMemory);
    }
    Ok(())
}

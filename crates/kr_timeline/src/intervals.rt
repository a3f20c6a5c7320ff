//! The kept epochs, each with the keys that changed since the one before.

ghost use Rattle.std.specs.Prelude.{◌≡◌, ◌≤◌, ◌<◌, ◌+◌, None, IfSome, IsNone, find, length, map, slice_get, false};
ghost use Rattle.std.specs.List.Sorted.{IsStrictlySortedBy};
ghost use Rattle.std.specs.Ordering.{int_cmp, int_eq};
ghost use Rattle.std.specs.VecDeque.{deque_len, deque_capacity};
ghost use Rattle.kr_timeline.specs.Chains.{AreFalling, all_trimmed, left_of};
ghost use Rattle.kr_timeline.specs.Intervals.{DropsLast, Forgets, ForgetsFirst, SettlesFirst, StandsAt, is_first_below, touches};

use crate::chain::{Chain, Trim};
use crate::chains::trim;
use kr_base::Steps;
use std::alloc::Global;
use std::collections::{BTreeMap, VecDeque};
use std::sync::ledger::Ledger;

/// What lies between two marks, kept under the epoch of the second: its number, the keys that changed in it, and how many
/// calls there were.
#[derive(Drop)]
pub(crate) struct Interval<K> {
    pub epoch: i64,
    pub number: u64,
    pub keys: Vec<K>,
    pub made: u64,
}

/// Where the entry of the epoch stands.
pub(crate) fn find_place<K: Drop>(kept: &VecDeque<Interval<K>>, epoch: &i64) -> Option<usize>
    requires { IsStrictlySortedBy int_cmp (map (λ i. i.epoch) kept.now.items) }
    ensures found { IfSome result (λ place. StandsAt kept.now.items (λ i. i.epoch) epoch.now place) }
    ensures none { IsNone result → find (λ i. int_eq i.epoch epoch.now) kept.now.items ≡ None }
    ensures within { IfSome result (λ place. place < deque_len kept.now) }
{
    match kept.binary_search_by_key(epoch, |interval| interval.epoch) {
        Ok(place) => Some(place),
        Err(_) => None,
    }
}

/// The number of the entry at the place.
pub(crate) fn number_at<K: Drop>(kept: &VecDeque<Interval<K>>, place: usize) -> u64
    requires { place < deque_len kept.now }
    ensures { IfSome (slice_get kept.now.items place) (λ i. result ≡ i.number) }
{
    kept[place].number
}

/// Drops versions of each of the keys. A step is one key.
pub(crate) fn trim_keys<K: Ord + Drop, V: Drop, L: Ledger>(
    chains: &mut BTreeMap<K, Chain<V>>,
    keys: &Vec<K>,
    part: Trim,
    number: u64,
    steps: &mut Steps<L>,
)
    requires { AreFalling chains.old.entries }
    ensures trimmed { chains.new.entries ≡ all_trimmed K.cmp (left_of part number) keys.now.items chains.old.entries }
    ensures counted { steps.new ≡ steps.old + length keys.now.items }
{
    for key in keys {
        steps.tick(); // for the key
        trim(chains, key, part, number);
    }
}

/// Drops the entries behind the first `count`, and the versions above the number of the keys in their lists. A step is one
/// entry or one key.
pub(crate) fn drop_after<K: Ord + Drop, V: Drop, L: Ledger>(
    chains: &mut BTreeMap<K, Chain<V>>,
    kept: &mut VecDeque<Interval<K>>,
    count: usize,
    number: u64,
    steps: &mut Steps<L>,
)
    requires falls { AreFalling chains.old.entries }
    requires within { count ≤ deque_len kept.old }
    ensures drops { DropsLast K.cmp number kept.old.items kept.new.items chains.old.entries chains.new.entries }
    ensures left { deque_len kept.new ≡ count }
    ensures capacity { deque_capacity kept.new ≡ deque_capacity kept.old }
    ensures counted { steps.new + touches kept.new.items ≡ steps.old + touches kept.old.items }
{
    while kept.len() > count {
        drop_last(chains, kept, number, steps);
    }
}

fn drop_last<K: Ord + Drop, V: Drop, L: Ledger>(
    chains: &mut BTreeMap<K, Chain<V>>,
    kept: &mut VecDeque<Interval<K>>,
    number: u64,
    steps: &mut Steps<L>,
)
    requires { AreFalling chains.old.entries }
    ensures drops { DropsLast K.cmp number kept.old.items kept.new.items chains.old.entries chains.new.entries }
    ensures capacity { deque_capacity kept.new ≡ deque_capacity kept.old }
    ensures len { 0 < deque_len kept.old → deque_len kept.new + 1 ≡ deque_len kept.old }
    ensures counted { steps.new + touches kept.new.items ≡ steps.old + touches kept.old.items }
{
    if let Some(interval) = kept.pop_back() {
        steps.tick(); // for the entry
        trim_keys(chains, &interval.keys, Trim::Above, number, steps);
    }
}

/// Drops the entries below the epoch, and what only they had. A step is one entry or one key.
pub(crate) fn drop_below<K: Ord + Drop, V: Drop, L: Ledger>(
    chains: &mut BTreeMap<K, Chain<V>>,
    kept: &mut VecDeque<Interval<K>>,
    epoch: &i64,
    steps: &mut Steps<L>,
)
    requires { AreFalling chains.old.entries }
    ensures forgets { Forgets K.cmp epoch.now kept.old.items kept.new.items chains.old.entries chains.new.entries }
    ensures first { is_first_below epoch.now kept.new.items ≡ false }
    ensures falls { AreFalling chains.new.entries }
    ensures capacity { deque_capacity kept.new ≡ deque_capacity kept.old }
    ensures len { deque_len kept.new ≤ deque_len kept.old }
    ensures counted { steps.new + touches kept.new.items ≡ steps.old + touches kept.old.items }
{
    while is_first_below(kept, epoch) {
        drop_first(chains, kept, steps);
    }
}

fn is_first_below<K: Drop>(kept: &VecDeque<Interval<K>>, epoch: &i64) -> bool
    ensures { result ≡ is_first_below epoch.now kept.now.items }
{
    match kept.front() {
        Some(interval) => interval.epoch < *epoch,
        None => false,
    }
}

fn drop_first<K: Ord + Drop, V: Drop, L: Ledger>(
    chains: &mut BTreeMap<K, Chain<V>>,
    kept: &mut VecDeque<Interval<K>>,
    steps: &mut Steps<L>,
)
    requires { AreFalling chains.old.entries }
    ensures first { ForgetsFirst K.cmp kept.old.items kept.new.items chains.old.entries chains.new.entries }
    ensures capacity { deque_capacity kept.new ≡ deque_capacity kept.old }
    ensures len { 0 < deque_len kept.old → deque_len kept.new + 1 ≡ deque_len kept.old }
    ensures fewer { deque_len kept.new ≤ deque_len kept.old }
    ensures counted { steps.new + touches kept.new.items ≡ steps.old + touches kept.old.items }
{
    if let Some(interval) = kept.pop_front() {
        steps.tick();
        trim_keys(chains, &interval.keys, Trim::Below, interval.number, steps);
    }
}

/// The oldest entry's calls no longer count, and its list goes, with what no map from it on has. A step is one key.
pub(crate) fn settle_first<K: Ord + Drop, V: Drop, L: Ledger>(
    chains: &mut BTreeMap<K, Chain<V>>,
    kept: &mut VecDeque<Interval<K>>,
    alloc: Global,
    steps: &mut Steps<L>,
)
    requires { AreFalling chains.old.entries }
    ensures first { SettlesFirst K.cmp kept.old.items kept.new.items chains.old.entries chains.new.entries }
    ensures capacity { deque_capacity kept.new ≡ deque_capacity kept.old }
    ensures len { deque_len kept.new ≡ deque_len kept.old }
    ensures counted { steps.new + touches kept.new.items ≡ steps.old + touches kept.old.items }
{
    if let Some(mut oldest) = kept.pop_front() {
        trim_keys(chains, &oldest.keys, Trim::Below, oldest.number, steps);
        oldest.keys = Vec::new(alloc);
        oldest.made = 0; // no call counts
        kept.push_front_reserved(oldest);
    }
}

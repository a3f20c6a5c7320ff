//! What is kept of each epoch besides the maps: its counts, and where the transaction began that was open then.

ghost use Rattle.std.specs.Prelude.{◌≡◌, ◌+◌, ◌-◌, None, false, filter, find, int_lt, length, map, not, slice_get};
ghost use Rattle.std.specs.List.Sorted.{IsStrictlySortedBy};
ghost use Rattle.std.specs.Option.{option_map, option_map_or};
ghost use Rattle.std.specs.Ordering.{int_cmp, int_eq};
ghost use Rattle.kr_image.specs.declared.kept_counts.KeptCounts.{KeptCounts as AnyCounts};

use kr_base::Steps;
use kr_store::Counts;
use std::collections::VecDeque;
use std::sync::ledger::Ledger;

/// An epoch, and how much the image had that is kept under it.
#[derive(Drop)]
pub(crate) struct KeptCounts {
    pub epoch: i64,
    pub counts: Counts,
    /// The epoch at which the transaction began that was open then.
    pub begun: Option<i64>,
    /// The steps of walks over the partitions of this image and of those before it, as a sum that wraps.
    pub walks: u64,
}

// The steps of a walk over the partitions of one image.
fn walk_of(counts: &Counts) -> u64 {
    u64::from(counts.partitions) + 1
}

/// The steps of walks over the partitions of all images up to one with these counts, as a sum that wraps.
pub(crate) fn walks_up_to(kept: &VecDeque<KeptCounts>, counts: &Counts) -> u64 {
    match kept.back() {
        Some(last) => last.walks.wrapping_add(walk_of(counts)),
        None => walk_of(counts),
    }
}

/// The steps of walks over the partitions of the kept images and of one with these counts.
pub(crate) fn walks_over(kept: &VecDeque<KeptCounts>, counts: &Counts) -> u64 {
    match kept.front() {
        Some(first) => walks_up_to(kept, counts)
            .wrapping_sub(first.walks)
            .wrapping_add(walk_of(&first.counts)),
        None => walk_of(counts),
    }
}

/// The epoch with its counts, the open transaction, and the steps of walks.
pub(crate) fn kept_under(epoch: &i64, counts: Counts, begun: &Option<i64>, walks: u64) -> KeptCounts
    ensures { result ≡ record { epoch = epoch.now; counts = counts; begun = begun.now; walks = walks } }
{
    KeptCounts {
        epoch: *epoch,
        counts,
        begun: *begun,
        walks,
    }
}

/// The counts that are kept under the epoch.
pub(crate) fn counts_at(kept: &VecDeque<KeptCounts>, epoch: &i64) -> Option<Counts>
    requires { IsStrictlySortedBy int_cmp (map (λ (k : AnyCounts). k.epoch) kept.now.items) }
    ensures { result ≡ option_map (λ (k : AnyCounts). k.counts) (find (λ (k : AnyCounts). int_eq k.epoch epoch.now) kept.now.items) }
{
    match kept.binary_search_by_key(epoch, |k| k.epoch) {
        Ok(place) => Some(kept[place].counts),
        Err(_) => None,
    }
}

/// Where the transaction began that was open at the epoch.
pub(crate) fn begun_at(kept: &VecDeque<KeptCounts>, epoch: &i64) -> Option<i64>
    requires { IsStrictlySortedBy int_cmp (map (λ (k : AnyCounts). k.epoch) kept.now.items) }
    ensures { result ≡ option_map_or (λ (k : AnyCounts). k.begun)
        (find (λ (k : AnyCounts). int_eq k.epoch epoch.now) kept.now.items) None }
{
    match kept.binary_search_by_key(epoch, |k| k.epoch) {
        Ok(place) => kept[place].begun,
        Err(_) => None,
    }
}

/// Whether it is the last epoch.
pub(crate) fn is_last(kept: &VecDeque<KeptCounts>, epoch: &i64) -> bool
    ensures { result ≡ option_map_or (λ (k : AnyCounts). int_eq k.epoch epoch.now)
        (slice_get kept.now.items (length kept.now.items - 1)) false }
{
    match kept.back() {
        Some(k) => k.epoch == *epoch,
        None => false,
    }
}

fn is_last_above(kept: &VecDeque<KeptCounts>, epoch: &i64) -> bool
    ensures { result ≡ option_map_or (λ (k : AnyCounts). int_lt epoch.now k.epoch) (slice_get kept.now.items (length kept.now.items - 1)) false }
{
    match kept.back() {
        Some(k) => *epoch < k.epoch,
        None => false,
    }
}

/// Drops the epochs above this one. A step is one epoch.
pub(crate) fn keep_up_to<L: Ledger>(
    kept: &mut VecDeque<KeptCounts>,
    epoch: &i64,
    steps: &mut Steps<L>,
)
    requires { IsStrictlySortedBy int_cmp (map (λ (k : AnyCounts). k.epoch) kept.old.items) }
    ensures left { kept.new.items ≡ filter (λ (k : AnyCounts). not (int_lt epoch.now k.epoch)) kept.old.items }
    ensures counted { steps.new + length kept.new.items ≡ steps.old + length kept.old.items }
{
    while is_last_above(kept, epoch) {
        steps.tick();
        kept.pop_back();
    }
}

fn is_first_below(kept: &VecDeque<KeptCounts>, epoch: &i64) -> bool
    ensures { result ≡ option_map_or (λ (k : AnyCounts). int_lt k.epoch epoch.now) (slice_get kept.now.items 0) false }
{
    match kept.front() {
        Some(k) => k.epoch < *epoch,
        None => false,
    }
}

/// Drops the epochs below this one. A step is one epoch.
pub(crate) fn keep_from<L: Ledger>(
    kept: &mut VecDeque<KeptCounts>,
    epoch: &i64,
    steps: &mut Steps<L>,
)
    requires { IsStrictlySortedBy int_cmp (map (λ (k : AnyCounts). k.epoch) kept.old.items) }
    ensures left { kept.new.items ≡ filter (λ (k : AnyCounts). not (int_lt k.epoch epoch.now)) kept.old.items }
    ensures counted { steps.new + length kept.new.items ≡ steps.old + length kept.old.items }
{
    while is_first_below(kept, epoch) {
        steps.tick();
        kept.pop_front();
    }
}

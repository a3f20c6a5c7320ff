//! How many partitions prefer each broker, and how many of those are imbalanced.

ghost use Rattle.std.specs.Prelude.{◌≡◌, ◌<◌, false, IfOk, OnOk};
ghost use Rattle.std.specs.Option.{option_copied, option_map_or};
ghost use Rattle.kr_defs.specs.Brokers as brokers;
ghost use Rattle.kr_defs.specs.Ids.{has};
ghost use Rattle.kr_balance.specs.Plan as plan;
ghost use Rattle.kr_balance.specs.inner.Tallies.{Counts, tally_of, with_one};

use kr_base::NoMemory;
use kr_defs::{Broker, Partition};
use kr_store::{Seen, Store};
use std::alloc::Global;
use std::collections::BTreeMap;

/// Of one broker: the partitions that prefer it, and those of them that are imbalanced.
#[derive(Clone, Copy, Debug, Drop)]
pub(crate) struct Tally {
    // The partitions whose first replica it is.
    pub(crate) preferring: u32,
    // Those that it could lead, and doesn't.
    pub(crate) imbalanced: u32,
}

/// By the broker's id: of each that some partition prefers.
pub(crate) type Tallies = BTreeMap<i32, Tally>;

/// The first of the partition's replicas.
pub(crate) fn preferred_leader(partition: &Partition) -> i32
    ensures { result ≡ plan.preferred_leader partition.now }
{
    match partition.replicas.as_slice().first() {
        Some(id) => *id,
        None => -1,
    }
}

fn is_ready(state: Option<&Broker>) -> bool
    ensures { result ≡ option_map_or brokers.is_active (option_copied state.entry) false }
{
    match state {
        Some(state) => !state.fenced && !state.stopping,
        None => false,
    }
}

fn is_active<S: Store>(seen: &Seen<S>, id: &i32) -> bool
    ensures { result ≡ has (brokers.active seen.now) id.now }
{
    seen.is_valid();
    is_ready(seen.broker(id))
}

/// Its preferred leader could lead it, and doesn't.
pub(crate) fn is_imbalanced<S: Store>(
    seen: &Seen<S>,
    partition: &Partition,
    preferred: &i32,
) -> bool
    requires { preferred.now ≡ plan.preferred_leader partition.now }
    ensures { result ≡ plan.is_imbalanced seen.now partition.now }
{
    partition.leader != *preferred
        && partition.in_sync.contains(preferred)
        && is_active(seen, preferred)
        && partition.adding.is_empty()
        && partition.removing.is_empty()
}

/// The broker's tally.
pub(crate) fn tally_of(tallies: &Tallies, broker: &i32) -> Tally
    ensures { result ≡ tally_of tallies.now.entries broker.now }
{
    match tallies.get(broker) {
        Some(tally) => *tally,
        None => Tally {
            preferring: 0,
            imbalanced: 0,
        },
    }
}

fn count_one(tallies: &mut Tallies, broker: &i32, is_imbalanced: bool) -> Result<(), NoMemory>
    requires preferring { (tally_of tallies.old.entries broker.now).preferring < 1000000000 }
    requires imbalanced { (tally_of tallies.old.entries broker.now).imbalanced < 1000000000 }
    ensures { OnOk result (tallies.new.entries ≡ with_one tallies.old.entries broker.now is_imbalanced) }
{
    let old = tally_of(tallies, broker);
    let imbalanced = if is_imbalanced {
        old.imbalanced + 1
    } else {
        old.imbalanced
    };
    let new = Tally {
        preferring: old.preferring + 1,
        imbalanced,
    };
    tallies.insert(*broker, new)?;
    Ok(())
}

/// By one walk over the partitions.
pub(crate) fn count_partitions<S: Store>(alloc: Global, seen: &Seen<S>) -> Result<Tallies, NoMemory>
    ensures { IfOk result (λ tallies. Counts seen.now tallies.entries) }
{
    seen.is_valid();
    let mut tallies = BTreeMap::new(alloc);
    let mut after = None;
    while let Some((key, partition)) = seen.next_partition(after) {
        let preferred = preferred_leader(partition);
        let is_imbalanced = is_imbalanced(seen, partition, &preferred);
        count_one(&mut tallies, &preferred, is_imbalanced)?;
        after = Some(key);
    }
    Ok(tallies)
}

//! The replicas of new partitions, and their records.

ghost use Rattle.std.specs.Prelude.{◌≡◌, ◌≤◌, ◌<◌, ◌+◌, ◌^◌, ◌++◌, [], ◌∷◌, pos, ◌&&◌, ◌==◌, length, map, filter, unsigned_abs, IfOk, OnOk, IsTrue};
ghost use Rattle.std.specs.List.{list_any, range_with_len};
ghost use Rattle.kr_defs.specs.declared.limits.TheConstants.{MOST_PARTITIONS as most_partitions};
ghost use Rattle.kr_defs.specs.declared.record.Record.TheVariants as kinds;
ghost use Rattle.kr_defs.specs.Brokers.{active};
ghost use Rattle.kr_defs.specs.Ids.{has, within};
ghost use Rattle.kr_defs.specs.NewPartition.{new_partition};
ghost use Rattle.kr_defs.specs.Partition.{target};
ghost use Rattle.kr_calls.specs.NewPartitions.{is_assignable, new_partitions};
ghost use Rattle.kr_place.specs.Placing.{placed_in};
ghost use Rattle.kr_rules.specs.Progress.{place_of};
ghost use Rattle.kr_topics.specs.inner.EntryRules.{has_room};

use kr_base::NoMemory;
use kr_defs::limits::MOST_PARTITIONS;
use kr_defs::{Copied, Ids, Partition, Record, Records, Rows};
use kr_listing::{are_registered, are_targets};
use kr_place::Grouped;
use kr_replication::is_active;
use kr_rules::Work;
use kr_store::{Seen, Store};
use std::alloc::Global;

/// The replicas of some partitions, in the order of their indexes.
pub(crate) type Lists = Rows<Ids>;

// ---- brokers

fn is_active_id<S: Store>(seen: &Seen<S>, id: &i32) -> bool
    ensures { result ≡ has (active seen.now) id.now }
{
    seen.is_valid();
    match seen.broker(id) {
        Some(state) => is_active(state),
        None => false,
    }
}

fn has_active<S: Store>(seen: &Seen<S>, ids: &[i32]) -> bool
    ensures { result ≡ list_any (has (active seen.now)) ids.now }
{
    ids.iter().any(|id| is_active_id(seen, id))
}

// The replicas may be those of a new partition: 1 to 32 registered brokers, each once, of which one is active.
fn is_assignable<S: Store>(seen: &Seen<S>, replicas: &Ids) -> bool
    ensures { result ≡ is_assignable seen.now replicas.now }
{
    let ids = replicas.as_slice();
    are_targets(replicas) && are_registered(seen, ids) && has_active(seen, ids)
}

/// The replicas may be those of a new partition, and are so many.
pub(crate) fn is_wide<S: Store>(seen: &Seen<S>, size: usize, replicas: &Ids) -> bool
    ensures { result ≡ (is_assignable seen.now replicas.now && length replicas.now == size) }
{
    is_assignable(seen, replicas) && replicas.len() == size
}

// ---- numbers of partitions

/// There is room for so many more partitions.
pub(crate) fn has_room<S: Store>(seen: &Seen<S>, count: usize) -> bool
    ensures value { result ≡ has_room seen.now count }
    ensures few { IsTrue result → count ≤ most_partitions }
{
    let taken = seen.counts().partitions as usize;
    count <= MOST_PARTITIONS.saturating_sub(taken)
}

/// How many replicas the partition leads to.
pub(crate) fn target_len(partition: &Partition) -> usize
    ensures { result ≡ length (target partition.now) }
{
    partition
        .replicas
        .as_slice()
        .iter()
        .filter(|id| !partition.removing.contains(id))
        .count()
}

// ---- placement

/// Where the placement of an entry begins: at the place of its first record.
pub(crate) fn start_of(work: &Work) -> u64
    ensures value { result ≡ unsigned_abs (place_of work.now) }
    ensures low { result ≤ 2 ^ 63 }
{
    work.place().unsigned_abs()
}

fn add_placed(
    alloc: Global,
    lists: &mut Lists,
    those: &Grouped,
    start: u64,
    factor: usize,
) -> Result<(), NoMemory>
    ensures { OnOk result (lists.new ≡ lists.old ++ placed_in those.now start factor ∷ []) }
{
    lists.push(those.place(alloc, start, factor)?)?;
    Ok(())
}

/// The replicas of so many partitions from an index on.
pub(crate) fn placements(
    alloc: Global,
    those: &Grouped,
    start: u64,
    first: u64,
    count: u64,
    factor: usize,
) -> Result<Lists, NoMemory>
    requires start { start ≤ 2 ^ 63 }
    requires indexes { first + count ≤ 2 ^ 32 }
    ensures lists { IfOk result (λ lists. lists ≡ map (λ index. placed_in those.now (start + index) factor) (range_with_len first count)) }
    ensures count { IfOk result (λ lists. length lists ≡ count) }
{
    let mut lists = Rows::new(alloc);
    for index in first..first + count {
        add_placed(alloc, &mut lists, those, start + index, factor)?;
    }
    Ok(lists)
}

// ---- records

fn add_if_active<S: Store>(seen: &Seen<S>, ids: &mut Ids, id: &i32) -> Result<(), NoMemory>
    ensures { OnOk result (ids.new ≡ ids.old ++ within (id.now ∷ []) (active seen.now)) }
{
    if is_active_id(seen, id) {
        ids.push(*id)?;
    }
    Ok(())
}

// The active ones among the replicas.
fn in_sync<S: Store>(alloc: Global, seen: &Seen<S>, replicas: &[i32]) -> Result<Ids, NoMemory>
    ensures { IfOk result (λ ids. ids ≡ within replicas.now (active seen.now)) }
{
    let mut ids = Ids::new(alloc);
    for id in replicas {
        add_if_active(seen, &mut ids, id)?;
    }
    Ok(ids)
}

fn first_leader(in_sync: &Ids) -> i32
    ensures { result ≡ (new_partition [] in_sync.now).leader }
{
    in_sync.as_slice().first().copied().unwrap_or(-1)
}

fn new_partition(alloc: Global, replicas: &Ids, in_sync: Ids) -> Result<Partition, NoMemory>
    ensures { IfOk result (λ partition. partition ≡ new_partition replicas.now in_sync) }
{
    let replicas = replicas.copied(alloc)?;
    let leader = first_leader(&in_sync);
    Ok(Partition {
        replicas,
        in_sync,
        eligible: Ids::new(alloc),
        last_known: Ids::new(alloc),
        adding: Ids::new(alloc),
        removing: Ids::new(alloc),
        leader,
        recovery: 0,
        leader_epoch: 0,
        partition_epoch: 0,
    })
}

fn add_partition<S: Store>(
    alloc: Global,
    seen: &Seen<S>,
    records: &mut Records,
    topic: &u128,
    number: u32,
    replicas: &Ids,
) -> Result<(), NoMemory>
    requires { number < 2 ^ 31 }
    ensures { OnOk result (records.new ≡ records.old ++ kinds.Partition (pos number) topic.now (new_partition replicas.now (within replicas.now (active seen.now))) ∷ []) }
{
    let in_sync = in_sync(alloc, seen, replicas.as_slice())?;
    let state = new_partition(alloc, replicas, in_sync)?;
    records.push(Record::Partition {
        index: number as i32,
        topic: *topic,
        state,
    })?;
    Ok(())
}

/// Adds the records of new partitions over these replicas, from an index on.
pub(crate) fn add_partitions<S: Store>(
    alloc: Global,
    seen: &Seen<S>,
    records: &mut Records,
    topic: &u128,
    first: u32,
    lists: &[Ids],
) -> Result<(), NoMemory>
    requires { first + length lists.now ≤ 2 ^ 31 }
    ensures { OnOk result (records.new ≡ records.old ++ new_partitions seen.now topic.now first lists.now) }
{
    let mut number = first;
    for replicas in lists {
        add_partition(alloc, seen, records, topic, number, replicas)?;
        number += 1;
    }
    Ok(())
}

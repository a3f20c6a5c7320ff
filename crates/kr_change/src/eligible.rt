//! Replicas that may lead though they aren't in sync.

ghost use Rattle.std.specs.Prelude.{◌≡◌, IfOk};
ghost use Rattle.kr_defs.specs.Eligible as rules;

use crate::electing::has_restarted;
use kr_base::NoMemory;
use kr_defs::{Ids, Partition};
use std::alloc::{AllocError, Global};

fn is_enough(replicas: &Ids, in_sync: &Ids, minimum: i32) -> bool
    ensures { result ≡ rules.is_enough replicas.now in_sync.now minimum }
{
    let wanted = i128::from(minimum).min(replicas.len() as i128);
    wanted <= in_sync.len() as i128
}

fn stays_eligible(partition: &Partition, in_sync: &Ids, restarted: Option<i32>, id: &i32) -> bool
    ensures { result ≡ rules.stays_eligible partition.now in_sync.now restarted id.now }
{
    (partition.in_sync.contains(id) || partition.eligible.contains(id))
        && !in_sync.contains(id)
        && !has_restarted(restarted, id)
}

fn is_last_known(partition: &Partition, in_sync: &Ids, eligible: &Ids, id: &i32) -> bool
    ensures { result ≡ rules.is_last_known partition.now in_sync.now eligible.now id.now }
{
    let was_known = partition.in_sync.contains(id)
        || partition.eligible.contains(id)
        || partition.last_known.contains(id);
    was_known && !in_sync.contains(id) && !eligible.contains(id)
}

fn eligible_now(
    alloc: Global,
    partition: &Partition,
    replicas: &[i32],
    in_sync: &Ids,
    restarted: Option<i32>,
) -> Result<Vec<i32>, AllocError>
    ensures { IfOk result (λ list. list.items ≡ rules.eligible_now partition.now replicas.now in_sync.now restarted) }
{
    replicas
        .iter()
        .copied()
        .filter(|id| stays_eligible(partition, in_sync, restarted, id))
        .collect(alloc)
}

fn last_known_now(
    alloc: Global,
    partition: &Partition,
    replicas: &[i32],
    in_sync: &Ids,
    eligible: &Ids,
) -> Result<Vec<i32>, AllocError>
    ensures { IfOk result (λ list. list.items ≡ rules.last_known_now partition.now replicas.now in_sync.now eligible.now) }
{
    replicas
        .iter()
        .copied()
        .filter(|id| is_last_known(partition, in_sync, eligible, id))
        .collect(alloc)
}

/// The eligible and the last known replicas of a partition with these replicas and these of them in sync, in the
/// order of the replicas. Both lists are empty where at least the minimum, or every replica, is in sync.
#[tactic(auto, unfolding(kr_defs::specs::Eligible::eligible_after))]
pub fn eligible_after(
    alloc: Global,
    partition: &Partition,
    replicas: &Ids,
    in_sync: &Ids,
    minimum: i32,
    restarted: Option<i32>,
) -> Result<(Ids, Ids), NoMemory>
    ensures { IfOk result (λ lists. lists ≡ rules.eligible_after partition.now replicas.now in_sync.now minimum restarted) }
{
    if is_enough(replicas, in_sync, minimum) {
        return Ok((Ids::new(alloc), Ids::new(alloc)));
    }
    let eligible = eligible_now(alloc, partition, replicas.as_slice(), in_sync, restarted)?;
    let eligible = Ids::from_vec(eligible);
    let last_known = last_known_now(alloc, partition, replicas.as_slice(), in_sync, &eligible)?;
    Ok((eligible, Ids::from_vec(last_known)))
}

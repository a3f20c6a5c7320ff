//! The election of a leader.

ghost use Rattle.std.specs.Prelude.{◌≡◌, ◌&&◌, ◌||◌, not, take, find, [], ◌∷◌, if◌then◌else◌};
ghost use Rattle.kr_defs.specs.Ids.{has};
ghost use Rattle.kr_defs.specs.Elect.{is_preferred, is_unclean_mode, is_restarted, is_electable, at_last, elected};
ghost use Rattle.kr_change.specs.Soundness.{first_sound};

use crate::conditions::Conditions;
use kr_defs::{Choice, Facts, Ids, Mode, Partition};

fn is_in_sync_and_active<C: Conditions>(id: &i32, in_sync: &Ids, conditions: &C) -> bool
    ensures { result ≡ (has in_sync.now id.now && has (C.facts conditions.now).active id.now) }
{
    in_sync.contains(id) && conditions.is_active(id)
}

// The first of these that is in sync and active.
fn sound_replica<C: Conditions>(replicas: &[i32], in_sync: &Ids, conditions: &C) -> Option<i32>
    ensures { result ≡ find (λ id. has in_sync.now id && has (C.facts conditions.now).active id) replicas.now }
{
    replicas
        .iter()
        .copied()
        .find(|id| is_in_sync_and_active(id, in_sync, conditions))
}

// In mode Preferred the first replica, where it is in sync and active.
fn preferred_candidate<C: Conditions>(
    replicas: &Ids,
    in_sync: &Ids,
    mode: Mode,
    conditions: &C,
) -> Option<i32>
    ensures { result ≡ find (λ id. has in_sync.now id && has (C.facts conditions.now).active id) (if is_preferred mode then take 1 replicas.now else []) }
{
    match mode {
        Mode::Preferred => match replicas.as_slice() {
            [] => None,
            [first, ..] => {
                if is_in_sync_and_active(first, in_sync, conditions) {
                    Some(*first)
                } else {
                    None
                }
            }
        },
        Mode::Plain | Mode::Unclean => None,
    }
}

#[tactic(auto, using(crate::proofs::Heads::heads))]
fn sound_candidate<C: Conditions>(
    partition: &Partition,
    replicas: &Ids,
    in_sync: &Ids,
    mode: Mode,
    restarted: Option<i32>,
    conditions: &C,
) -> Option<i32>
    ensures { result ≡ first_sound partition.now replicas.now in_sync.now mode restarted
        (C.facts conditions.now) }
{
    match preferred_candidate(replicas, in_sync, mode, conditions) {
        Some(id) => return Some(id),
        None => {}
    }
    if is_in_sync_and_active(&partition.leader, in_sync, conditions) {
        return Some(partition.leader);
    }
    sound_replica(replicas.as_slice(), in_sync, conditions)
}

/// The broker is the one that has restarted uncleanly.
pub(crate) fn has_restarted(restarted: Option<i32>, id: &i32) -> bool
    ensures { result ≡ is_restarted restarted id.now }
{
    match restarted {
        None => false,
        Some(broker) => broker == *id,
    }
}

fn eligible_candidate<C: Conditions>(
    partition: &Partition,
    replicas: &Ids,
    in_sync: &Ids,
    mode: Mode,
    restarted: Option<i32>,
    conditions: &C,
) -> Option<i32>
    ensures { result ≡ find (is_electable partition.now replicas.now in_sync.now mode restarted (C.facts conditions.now)) replicas.now }
{
    replicas.as_slice().iter().copied().find(|id| {
        partition.eligible.contains(id) && conditions.is_active(id) && !has_restarted(restarted, id)
    })
}

fn active_replica<C: Conditions>(replicas: &[i32], conditions: &C) -> Option<i32>
    ensures { result ≡ find (has (C.facts conditions.now).active) replicas.now }
{
    replicas.iter().copied().find(|id| conditions.is_active(id))
}

fn is_unclean_mode(mode: Mode) -> bool
    ensures { result ≡ is_unclean_mode mode }
{
    match mode {
        Mode::Unclean => true,
        Mode::Plain | Mode::Preferred => false,
    }
}

fn unclean_candidate<C: Conditions>(
    partition: &Partition,
    replicas: &Ids,
    in_sync: &Ids,
    mode: Mode,
    restarted: Option<i32>,
    conditions: &C,
) -> Option<i32>
    ensures { result ≡ find (has (C.facts conditions.now).active) (at_last partition.now replicas.now in_sync.now mode restarted (C.facts conditions.now)) }
{
    if conditions.is_unclean() || is_unclean_mode(mode) {
        active_replica(replicas.as_slice(), conditions)
    } else {
        None
    }
}

// The same under any conditions.
#[tactic(auto, using(crate::proofs::Heads::heads))]
pub(crate) fn elect_under<C: Conditions>(
    partition: &Partition,
    replicas: &Ids,
    in_sync: &Ids,
    mode: Mode,
    restarted: Option<i32>,
    conditions: &C,
) -> (i32, Choice)
    ensures { result ≡ elected partition.now replicas.now in_sync.now mode restarted (C.facts conditions.now) }
{
    match sound_candidate(partition, replicas, in_sync, mode, restarted, conditions) {
        Some(id) => return (id, Choice::InSync),
        None => {}
    }
    match eligible_candidate(partition, replicas, in_sync, mode, restarted, conditions) {
        Some(id) => return (id, Choice::Eligible),
        None => {}
    }
    match unclean_candidate(partition, replicas, in_sync, mode, restarted, conditions) {
        Some(id) => (id, Choice::Unclean),
        None => (-1, Choice::Nobody),
    }
}

/// The leader of a partition with these replicas and these of them in sync, and among whom it was found: the first
/// active one in sync (in mode Preferred the first replica before the present leader), else the first active
/// eligible one that hasn't restarted, else, with unclean election on or asked for, the first active one.
/// (-1, Nobody) where there is none.
pub fn elect(
    partition: &Partition,
    replicas: &Ids,
    in_sync: &Ids,
    mode: Mode,
    restarted: Option<i32>,
    facts: &Facts,
) -> (i32, Choice)
    ensures { result ≡ elected partition.now replicas.now in_sync.now mode restarted facts.now }
{
    elect_under(partition, replicas, in_sync, mode, restarted, facts)
}

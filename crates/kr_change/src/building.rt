//! The change of a partition that follows from what is asked of it.

ghost use Rattle.std.specs.Prelude.{◌≡◌, IfOk, IsTrue, [], ◌∷◌};
ghost use Rattle.kr_defs.specs.Build as builds;
ghost use Rattle.kr_defs.specs.Partition as formed;
ghost use Rattle.kr_change.specs.Built.{IsWellFormedUnder};

use crate::completing::end_reassignment;
use crate::conditions::Conditions;
use crate::differing::difference;
use crate::electing::elect_under;
use crate::eligible::eligible_after;
use crate::lists::within;
use kr_base::NoMemory;
use kr_defs::{Assignment, Choice, Copied, Facts, Ids, Partition, PartitionChange, Want};
use std::alloc::Global;

fn assignment_asked_for(alloc: Global, want: &Want) -> Result<Assignment, NoMemory>
    ensures { IfOk result (λ lists. lists ≡ builds.asked want.now) }
{
    let in_sync = within(alloc, &want.replicas, &want.in_sync)?;
    let replicas = want.replicas.copied(alloc)?;
    let adding = want.adding.copied(alloc)?;
    let removing = want.removing.copied(alloc)?;
    Ok(Assignment {
        replicas,
        adding,
        removing,
        in_sync,
    })
}

fn alone(alloc: Global, leader: i32) -> Result<Ids, NoMemory>
    ensures { IfOk result (λ ids. ids ≡ leader ∷ []) }
{
    let mut ids = Ids::new(alloc);
    ids.push(leader)?;
    Ok(ids)
}

// A leader that wasn't in sync is then alone in sync.
#[tactic(auto, unfolding(kr_defs::specs::Build::settled))]
fn settle(
    alloc: Global,
    before: Assignment,
    leader: i32,
    choice: Choice,
) -> Result<Assignment, NoMemory>
    ensures { IfOk result (λ after. after ≡ builds.settled before leader choice) }
{
    match choice {
        Choice::Eligible | Choice::Unclean => {
            let in_sync = alone(alloc, leader)?;
            end_reassignment(alloc, Assignment { in_sync, ..before })
        }
        Choice::InSync | Choice::Nobody => Ok(before),
    }
}

#[tactic(auto, unfolding(kr_defs::specs::Build::standing_by))]
fn standing_by(
    alloc: Global,
    partition: &Partition,
    lists: &Assignment,
    choice: Choice,
    minimum: i32,
    restarted: Option<i32>,
) -> Result<(Ids, Ids), NoMemory>
    ensures { IfOk result (λ ids. ids ≡
        builds.standing_by partition.now lists.now choice minimum restarted) }
{
    match choice {
        Choice::Unclean => Ok((Ids::new(alloc), Ids::new(alloc))),
        Choice::InSync | Choice::Eligible | Choice::Nobody => eligible_after(
            alloc,
            partition,
            &lists.replicas,
            &lists.in_sync,
            minimum,
            restarted,
        ),
    }
}

fn recovery_after(choice: Choice, recovery: i8) -> i8
    ensures { result ≡ builds.recovery_after choice recovery }
{
    match choice {
        Choice::Unclean => 1,
        Choice::InSync | Choice::Eligible | Choice::Nobody => recovery,
    }
}

// The partition that follows, its epochs as before.
#[tactic(auto, unfolding(kr_defs::specs::Build::aimed))]
fn aim<C: Conditions>(
    alloc: Global,
    partition: &Partition,
    want: &Want,
    conditions: &C,
) -> Result<Partition, NoMemory>
    ensures { IfOk result (λ after. after ≡ builds.aimed partition.now want.now (C.facts conditions.now)) }
{
    let lists = assignment_asked_for(alloc, want)?;
    let before = end_reassignment(alloc, lists)?;
    let (leader, choice) = elect_under(
        partition,
        &before.replicas,
        &before.in_sync,
        want.mode,
        want.restarted,
        conditions,
    );
    let after = settle(alloc, before, leader, choice)?;
    let (eligible, last_known) = standing_by(
        alloc,
        partition,
        &after,
        choice,
        conditions.minimum(),
        want.restarted,
    )?;
    Ok(Partition {
        replicas: after.replicas,
        in_sync: after.in_sync,
        eligible,
        last_known,
        adding: after.adding,
        removing: after.removing,
        leader,
        recovery: recovery_after(choice, want.recovery),
        leader_epoch: partition.leader_epoch,
        partition_epoch: partition.partition_epoch,
    })
}

/// `build` where what an election follows from needn't be written down first.
#[tactic(auto, unfolding(kr_defs::specs::Build::built))]
pub fn build_under<C: Conditions>(
    alloc: Global,
    partition: &Partition,
    want: &Want,
    conditions: &C,
) -> Result<Option<PartitionChange>, NoMemory>
    ensures { IfOk result (λ change. change ≡ builds.built partition.now want.now (C.facts conditions.now)) }
{
    let after = aim(alloc, partition, want, conditions)?;
    Ok(difference(partition, after))
}

/// The change that brings a partition to what is asked of it, None where no field differs: a reassignment whose
/// target is in sync ends, a leader is elected, and the eligible and last known replicas follow. Where the
/// partition is well formed and what is asked is sensible, it stays well formed under the change.
pub fn build(
    alloc: Global,
    partition: &Partition,
    want: &Want,
    facts: &Facts,
) -> Result<Option<PartitionChange>, NoMemory>
    ensures exact { IfOk result (λ change. change ≡ builds.built partition.now want.now facts.now) }
    ensures well_formed { IsTrue (formed.is_well_formed partition.now) → IsTrue (builds.is_sensible want.now) →
        IfOk result (λ built. IsWellFormedUnder partition.now built) }
{
    build_under(alloc, partition, want, facts)
}

//! When a reassignment ends, and what is left then.

ghost use Rattle.std.specs.Prelude.{◌≡◌, IfOk};
ghost use Rattle.kr_defs.specs.Build as builds;

use crate::lists::{within, without};
use kr_base::NoMemory;
use kr_defs::{Assignment, Ids};
use std::alloc::Global;

fn is_target_in_sync(replicas: &[i32], removing: &Ids, in_sync: &Ids) -> bool
    ensures { result ≡ builds.is_target_in_sync replicas.now removing.now in_sync.now }
{
    replicas
        .iter()
        .filter(|id| !removing.contains(*id))
        .all(|id| in_sync.contains(id))
}

/// A reassignment runs, and every replica that isn't being removed is in sync.
#[tactic(auto, unfolding(kr_defs::specs::Build::completes))]
pub fn completes(replicas: &Ids, adding: &Ids, removing: &Ids, in_sync: &Ids) -> bool
    ensures { result ≡ builds.completes replicas.now adding.now removing.now in_sync.now }
{
    let runs = !adding.is_empty() || !removing.is_empty();
    runs && is_target_in_sync(replicas.as_slice(), removing, in_sync)
}

fn reach_target(alloc: Global, before: &Assignment) -> Result<Assignment, NoMemory>
    ensures { IfOk result (λ after. after ≡ builds.reached before.now) }
{
    let replicas = without(alloc, &before.replicas, &before.removing)?;
    let in_sync = within(alloc, &before.in_sync, &replicas)?;
    Ok(Assignment {
        replicas,
        adding: Ids::new(alloc),
        removing: Ids::new(alloc),
        in_sync,
    })
}

/// The lists after a reassignment that completes has ended; the given ones where none completes.
#[tactic(auto, unfolding(kr_defs::specs::Build::ended))]
pub(crate) fn end_reassignment(alloc: Global, before: Assignment) -> Result<Assignment, NoMemory>
    ensures { IfOk result (λ after. after ≡ builds.ended before) }
{
    if completes(
        &before.replicas,
        &before.adding,
        &before.removing,
        &before.in_sync,
    ) {
        reach_target(alloc, &before)
    } else {
        Ok(before)
    }
}

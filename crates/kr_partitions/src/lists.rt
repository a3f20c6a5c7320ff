//! Lists of replicas.

ghost use Rattle.std.specs.Prelude.{◌≡◌, IfOk};
ghost use Rattle.kr_defs.specs.Partition as formed;
ghost use Rattle.kr_defs.specs.Reassign as reassign;

use kr_base::NoMemory;
use kr_defs::{Copied, Ids, Partition};
use kr_listing::without;
use std::alloc::Global;

/// The replicas before the reassignment that runs.
pub(crate) fn original(alloc: Global, partition: &Partition) -> Result<Ids, NoMemory>
    ensures { IfOk result (λ ids. ids ≡ formed.original partition.now) }
{
    without(alloc, &partition.replicas, &partition.adding)
}

/// The target, then the members of the original that it hasn't.
pub(crate) fn reassigned_replicas(
    alloc: Global,
    target: &Ids,
    original: &Ids,
) -> Result<Ids, NoMemory>
    ensures { IfOk result (λ ids. ids ≡ reassign.reassigned target.now original.now) }
{
    let mut replicas = target.copied(alloc)?.into_vec();
    let mut left = without(alloc, original, target)?.into_vec();
    replicas.append(&mut left)?;
    Ok(Ids::from_vec(replicas))
}

/// A reassignment runs.
pub(crate) fn is_moving(partition: &Partition) -> bool
    ensures { result ≡ formed.is_moving partition.now }
{
    !partition.adding.is_empty() || !partition.removing.is_empty()
}

//! A partition of which only some brokers are left.

ghost use Rattle.std.specs.Prelude.{◌≡◌, IfOk};
ghost use Rattle.kr_defs.specs.Ids as ids;
ghost use Rattle.use_examples.specs.Loss.{with_only};

use kr_base::NoMemory;
use kr_change::{build, merge};
use kr_defs::{Copied, Facts, Ids, Mode, Partition, Want};
use std::alloc::{AllocError, Global};

/// The partition once these brokers alone are active: the others aren't in sync any more and lead nothing. No replica
/// leads that isn't in sync or eligible.
pub(crate) fn with_brokers(
    alloc: Global,
    partition: &Partition,
    active: Ids,
    minimum: i32,
) -> Result<Partition, NoMemory>
    ensures { IfOk result (λ after. after ≡ with_only partition.now active minimum) }
{
    let want = Want {
        replicas: partition.replicas.copied(alloc)?,
        adding: partition.adding.copied(alloc)?,
        removing: partition.removing.copied(alloc)?,
        in_sync: Ids::from_vec(members(alloc, partition.in_sync.as_slice(), &active)?),
        recovery: partition.recovery,
        mode: Mode::Plain,
        restarted: None,
    };
    let facts = Facts {
        active,
        unclean: false,
        minimum,
    };
    match build(alloc, partition, &want, &facts)? {
        Some(change) => merge(alloc, partition, &change),
        None => Ok(partition.copied(alloc)?),
    }
}

fn members(alloc: Global, list: &[i32], those: &Ids) -> Result<Vec<i32>, AllocError>
    ensures { IfOk result (λ left. left.items ≡ ids.within list.now those.now) }
{
    list.iter()
        .copied()
        .filter(|id| is_among(id, those))
        .collect(alloc)
}

fn is_among(id: &i32, those: &Ids) -> bool
    ensures { result ≡ ids.has those.now id.now }
{
    those.contains(id)
}

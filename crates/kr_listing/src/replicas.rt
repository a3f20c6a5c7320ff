//! Lists of replicas.

ghost use Rattle.std.specs.Prelude.{◌≡◌, IfOk};
ghost use Rattle.std.specs.List.{list_all};
ghost use Rattle.std.specs.Ordering.{int_cmp};
ghost use Rattle.kr_defs.specs.Ids as ids;
ghost use Rattle.kr_defs.specs.Map as entries;
ghost use Rattle.kr_defs.specs.Partition.{are_targets};

use kr_base::NoMemory;
use kr_defs::limits::MOST_TARGETS;
use kr_defs::{Ids, is_distinct};
use kr_store::{Seen, Store};
use std::alloc::{AllocError, Global};

/// 1 to 32 replicas, each once.
pub fn are_targets(list: &Ids) -> bool
    ensures { result ≡ are_targets list.now }
{
    !list.is_empty() && list.len() <= MOST_TARGETS && is_distinct(list.as_slice())
}

fn is_registered<S: Store>(seen: &Seen<S>, id: &i32) -> bool
    ensures { result ≡ entries.contains int_cmp seen.now.brokers id.now }
{
    seen.broker(id).is_some()
}

/// Each of these is a broker of the image.
pub fn are_registered<S: Store>(seen: &Seen<S>, ids: &[i32]) -> bool
    ensures { result ≡ list_all (entries.contains int_cmp seen.now.brokers) ids.now }
{
    ids.iter().all(|id| is_registered(seen, id))
}

fn others(alloc: Global, list: &[i32], those: &Ids) -> Result<Vec<i32>, AllocError>
    ensures { IfOk result (λ left. left.items ≡ ids.without list.now those.now) }
{
    list.iter()
        .copied()
        .filter(|id| !those.contains(id))
        .collect(alloc)
}

/// These but for those.
pub fn without(alloc: Global, list: &Ids, those: &Ids) -> Result<Ids, NoMemory>
    ensures { IfOk result (λ left. left ≡ ids.without list.now those.now) }
{
    Ok(Ids::from_vec(others(alloc, list.as_slice(), those)?))
}

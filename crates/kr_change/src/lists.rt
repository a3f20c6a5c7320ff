//! Parts of lists of ids.

ghost use Rattle.std.specs.Prelude.{◌≡◌, IfOk};
ghost use Rattle.kr_defs.specs.Ids as ids;

use kr_base::NoMemory;
use kr_defs::Ids;
use std::alloc::{AllocError, Global};

fn others(alloc: Global, list: &[i32], those: &Ids) -> Result<Vec<i32>, AllocError>
    ensures { IfOk result (λ left. left.items ≡ ids.without list.now those.now) }
{
    list.iter()
        .copied()
        .filter(|id| !those.contains(id))
        .collect(alloc)
}

fn is_among(id: &i32, those: &Ids) -> bool
    ensures { result ≡ ids.has those.now id.now }
{
    those.contains(id)
}

fn members(alloc: Global, list: &[i32], those: &Ids) -> Result<Vec<i32>, AllocError>
    ensures { IfOk result (λ left. left.items ≡ ids.within list.now those.now) }
{
    list.iter()
        .copied()
        .filter(|id| is_among(id, those))
        .collect(alloc)
}

// These but for those.
pub(crate) fn without(alloc: Global, list: &Ids, those: &Ids) -> Result<Ids, NoMemory>
    ensures { IfOk result (λ left. left ≡ ids.without list.now those.now) }
{
    let left = others(alloc, list.as_slice(), those)?;
    Ok(Ids::from_vec(left))
}

// These that are among those.
pub(crate) fn within(alloc: Global, list: &Ids, those: &Ids) -> Result<Ids, NoMemory>
    ensures { IfOk result (λ left. left ≡ ids.within list.now those.now) }
{
    let left = members(alloc, list.as_slice(), those)?;
    Ok(Ids::from_vec(left))
}

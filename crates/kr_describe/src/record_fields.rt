//! What a record tells, where there is one and it is of the kind.

ghost use Rattle.std.specs.Prelude.{◌≡◌, FitsSigned, IfOk, IfSome};
ghost use Rattle.std.specs.Int.{w32};
ghost use Rattle.kr_describe.specs.inner.RecordFields as fields;

use kr_base::NoMemory;
use kr_defs::{Copied, Partition, Record, Text};
use std::alloc::Global;

pub(crate) fn id_in(found: &Option<Record>) -> Option<u128>
    ensures { result ≡ fields.id_in found.now }
{
    match found {
        Some(Record::Topic { id, .. }) => Some(*id),
        _ => None,
    }
}

pub(crate) fn name_in(alloc: Global, found: &Option<Record>) -> Result<Option<Text>, NoMemory>
    ensures { IfOk result (λ name. name ≡ fields.name_in found.now) }
{
    match found {
        Some(Record::Topic { name, .. }) => Ok(Some(name.copied(alloc)?)),
        _ => Ok(None),
    }
}

pub(crate) fn partition_in(
    alloc: Global,
    found: &Option<Record>,
) -> Result<Option<(i32, Partition)>, NoMemory>
    ensures partition { IfOk result (λ partition. partition ≡ fields.partition_in found.now) }
    ensures fits { IfOk result (λ partition. IfSome partition (λ p. FitsSigned w32 p.0)) }
{
    match found {
        Some(Record::Partition { index, state, .. }) => Ok(Some((*index, state.copied(alloc)?))),
        _ => Ok(None),
    }
}

/// The broker is fenced, or there is none.
pub(crate) fn is_offline_in(found: &Option<Record>) -> bool
    ensures { result ≡ fields.is_offline_in found.now }
{
    match found {
        Some(Record::RegisterBroker { state, .. }) => state.fenced,
        _ => true,
    }
}

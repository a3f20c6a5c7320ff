//! A structure or null.

ghost use Rattle.std.specs.Prelude.{◌≡◌, ◌++◌, OnOk, OnErr};
ghost use Rattle.kr_layout.specs.Answers.{Begins, Takes};
ghost use Rattle.kr_wire.specs.Schema.{Fits, value_at, written};
ghost use Rattle.kr_pages.specs.Nullable.{FitsOrNull, structure_or_null, structure_or_null_at};

use kr_base::NoMemory;
use kr_layout::{Get, Put, ReadFault, Reader};
use kr_wire::{WireFault, put_i8};

// The byte before a structure that is there, and the one that stands for none.
const THERE: i8 = 1;

const NULL: i8 = -1;

/// The next value, a structure or null.
#[tactic(auto, unfolding(crate::specs::Nullable::structure_or_null_at))]
pub(crate) fn get_or_null<M, T: Get<M>>(from: &mut Reader<'_, M>) -> Result<Option<T>, ReadFault>
    ensures { Takes result from.new (structure_or_null_at (value_at T.schema) from.old) }
{
    match from.i8()? {
        NULL => Ok(None),
        THERE => Ok(Some(T::get(from)?)),
        _ => Err(ReadFault::Wire(WireFault::BadNull)),
    }
}

/// Appends what is written for a structure or null. Without memory some of it may stand behind what there was.
pub(crate) fn put_or_null<M, T: Put<M>>(
    value: &Option<T>,
    mine: &M,
    out: &mut Vec<u8>,
) -> Result<(), NoMemory>
    ensures ok { OnOk result (out.new.items ≡ out.old.items
        ++ structure_or_null (written T.schema) value.now) }
    ensures fits { OnOk result (FitsOrNull (Fits T.schema) value.now) }
    ensures err { OnErr result (Begins out.old.items out.new.items) }
{
    match value {
        None => Ok(put_i8(out, NULL)?),
        Some(value) => {
            put_i8(out, THERE)?;
            value.put_parts(mine, out)
        }
    }
}

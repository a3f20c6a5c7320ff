//! Lists, from arrays.

ghost use Rattle.std.specs.Prelude.{◌≡◌};
ghost use Rattle.serde_json.specs.View.{items_view};
ghost use Rattle.kr_request_json.specs.Inputs as inputs;
ghost use Rattle.kr_request_json.specs.inner.Steps.{PutsItems};

use crate::fault::PartFault;
use crate::part::Part;
use kr_wire::{put_count, put_null};
use serde_json::Value;
use std::alloc::Global;
use std::marker::PhantomData;

// The items one behind the other.
fn put_items<T: Part>(alloc: Global, items: &[Value], out: &mut Vec<u8>) -> Result<(), PartFault>
    ensures { PutsItems T.input (items_view items.now) result out.old.items out.new.items }
{
    for item in items {
        T::put(alloc, item, out)?;
    }
    Ok(())
}

/// A list.
pub(crate) struct Array<T>(PhantomData<T>);

impl<T: Part> Part for Array<T> {
    ghost input = { inputs.array_input T.input };

    #[tactic(auto, using(crate::proofs::Lists::list_put, crate::proofs::Lists::no_array))]
    fn put(alloc: Global, json: &Value, out: &mut Vec<u8>) -> Result<(), PartFault> {
        let Some(list) = json.as_array() else {
            return Err(PartFault::BadField);
        };
        let items = list.as_slice();
        if items.len() >= 1 << 31 {
            return Err(PartFault::NoMemory);
        }
        put_count(out, items.len() as u32)?;
        put_items::<T>(alloc, items, out)
    }
}

/// A list, or null.
pub(crate) struct NullableArray<T>(PhantomData<T>);

impl<T: Part> Part for NullableArray<T> {
    ghost input = { inputs.nullable_array_input T.input };

    #[tactic(auto, using(crate::proofs::Texts::list_put, crate::proofs::Texts::list_null))]
    fn put(alloc: Global, json: &Value, out: &mut Vec<u8>) -> Result<(), PartFault> {
        if json.is_null() {
            put_null(out)?;
            return Ok(());
        }
        <Array<T> as Part>::put(alloc, json, out)
    }
}

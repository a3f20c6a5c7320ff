//! Structures, from objects.

ghost use Rattle.std.specs.Prelude.{◌≡◌, ℕ, List};
ghost use Rattle.serde_json.specs.Find.{get};
ghost use Rattle.serde_json.specs.View.{view};
ghost use Rattle.kr_request_json.specs.Inputs as inputs;
ghost use Rattle.kr_request_json.specs.Inputs.{◌≔◌, ◌⋄◌};
ghost use Rattle.kr_request_json.specs.inner.Steps.{Found};

use crate::fault::PartFault;
use crate::part::Part;
use kr_wire::{put_i8, put_uvarint};
use serde_json::Value;
use std::alloc::Global;
use std::marker::PhantomData;

/// The name of a field.
pub(crate) trait FieldName {
    ghost name: { List ℕ };

    fn name() -> &'static str
        ensures { result.now ≡ name };
}

// The field of that name.
fn field<N: FieldName>(json: &Value) -> Result<&Value, PartFault>
    ensures { Found (λ v. view v.now) result (get N.name (view json.now)) }
{
    match json.get(N::name()) {
        Some(field) => Ok(field),
        None => Err(PartFault::BadField),
    }
}

/// A field with its name, and the fields behind it.
pub(crate) struct Member<N, T, R>(PhantomData<(N, T, R)>);

impl<N: FieldName, T: Part, R: Part> Part for Member<N, T, R> {
    ghost input = { N.name ≔ T.input ⋄ R.input };

    #[tactic(auto, using(crate::proofs::Fields::field_put, crate::proofs::Fields::field_refused, crate::proofs::Fields::field_missing))]
    fn put(alloc: Global, json: &Value, out: &mut Vec<u8>) -> Result<(), PartFault> {
        let value = field::<N>(json)?;
        T::put(alloc, value, out)?;
        R::put(alloc, json, out)
    }
}

/// No tagged field, at the end of a structure.
pub(crate) struct End;

impl Part for End {
    ghost input = { inputs.no_more };

    #[tactic(auto, unfolding(kr_wire::specs::Spelling::uvarint))]
    fn put(alloc: Global, json: &Value, out: &mut Vec<u8>) -> Result<(), PartFault> {
        put_uvarint(out, 0)?;
        Ok(())
    }
}

/// The end of a message.
pub(crate) struct MessageEnd;

impl Part for MessageEnd {
    ghost input = { inputs.message_end };

    fn put(alloc: Global, json: &Value, out: &mut Vec<u8>) -> Result<(), PartFault> {
        Ok(())
    }
}

/// A structure, or null.
pub(crate) struct Nullable<T>(PhantomData<T>);

impl<T: Part> Part for Nullable<T> {
    ghost input = { inputs.nullable_input T.input };

    #[tactic(auto, using(crate::proofs::Texts::structure_put, crate::proofs::Texts::structure_null))]
    fn put(alloc: Global, json: &Value, out: &mut Vec<u8>) -> Result<(), PartFault> {
        if json.is_null() {
            put_i8(out, -1)?;
            return Ok(());
        }
        put_i8(out, 1)?;
        T::put(alloc, json, out)
    }
}

//! Structures, shown as objects.

ghost use Rattle.std.specs.Prelude.{◌≡◌, ◌++◌, ℕ, List, true, refl, OnOk};
ghost use Rattle.kr_messages.specs.Forms as forms;
ghost use Rattle.kr_messages.specs.Forms.{◌∶◌, ◌▹◌};
ghost use Rattle.kr_messages.specs.Layouts.{is_decodable};
ghost use Rattle.kr_messages.specs.inner.Taken.{ShowsFields, both};

use crate::Mine;
use crate::shape::Shape;
use kr_json::put_str;
use kr_layout::{ReadFault, Reader};
use kr_wire::WireFault;
use std::alloc::{AllocError, Global};
use std::marker::PhantomData;

/// The name of a field.
pub(crate) trait FieldName {
    ghost name: { List ℕ };

    fn name() -> &'static str
        ensures { result.now ≡ name };
}

/// The fields of a structure.
pub(crate) trait Fields {
    ghost fields: { forms.FieldForms };

    /// Takes the fields at the front of what there is to read, and appends their texts, as the first ones of an object or behind
    /// others. Where that is a fault, nothing is said of what is left and appended.
    fn show(
        alloc: Global,
        is_first: bool,
        from: &mut Reader<'_, Mine>,
        out: &mut Vec<u8>,
    ) -> Result<(), ReadFault>
        ensures { ShowsFields fields is_first
            result from.old from.new out.old.items out.new.items };

    ghost is_whole: { is_decodable fields.layout ≡ true };
}

/// Tagged fields of which none is known.
pub(crate) struct End;

impl Fields for End {
    ghost fields = { forms.no_field };

    ghost is_whole = { refl };

    #[tactic(auto, using(crate::proofs::Showing::end_taken))]
    fn show(
        alloc: Global,
        is_first: bool,
        from: &mut Reader<'_, Mine>,
        out: &mut Vec<u8>,
    ) -> Result<(), ReadFault> {
        from.end()
    }
}

/// A field with its name, and the fields behind it.
pub(crate) struct Member<N, T, R>(PhantomData<(N, T, R)>);

fn put_lead(is_first: bool, out: &mut Vec<u8>) -> Result<(), AllocError>
    ensures { OnOk result (out.new.items ≡ out.old.items ++ forms.name_lead is_first) }
{
    put_str(out, if is_first { "\"" } else { ",\"" })
}

// The name, and what stands before and behind it.
fn put_name<N: FieldName>(is_first: bool, out: &mut Vec<u8>) -> Result<(), AllocError>
    ensures { OnOk result (out.new.items ≡ out.old.items ++ forms.name_text is_first N.name) }
{
    put_lead(is_first, out)?;
    put_str(out, N::name())?;
    put_str(out, "\":")
}

impl<N: FieldName, T: Shape, R: Fields> Fields for Member<N, T, R> {
    ghost fields = { N.name ∶ T.form ▹ R.fields };

    ghost is_whole = { both T.is_whole R.is_whole };

    #[tactic(auto, using(crate::proofs::Showing::field_taken, crate::proofs::Showing::field_refused))]
    fn show(
        alloc: Global,
        is_first: bool,
        from: &mut Reader<'_, Mine>,
        out: &mut Vec<u8>,
    ) -> Result<(), ReadFault> {
        put_name::<N>(is_first, out)?;
        T::show(alloc, from, out)?;
        R::show(alloc, false, from, out)
    }
}

/// A structure.
pub(crate) struct Object<F>(PhantomData<F>);

impl<F: Fields> Shape for Object<F> {
    ghost form = { forms.object_form F.fields };

    ghost is_whole = { F.is_whole };

    #[tactic(auto, using(crate::proofs::Showing::object_taken))]
    fn show(
        alloc: Global,
        from: &mut Reader<'_, Mine>,
        out: &mut Vec<u8>,
    ) -> Result<(), ReadFault> {
        put_str(out, "{")?;
        F::show(alloc, true, from, out)?;
        put_str(out, "}")?;
        Ok(())
    }
}

// The byte before a structure that is there, and the one that stands for none.
const THERE: i8 = 1;

const NULL: i8 = -1;

/// A structure, or null.
pub(crate) struct Nullable<T>(PhantomData<T>);

impl<T: Shape> Shape for Nullable<T> {
    ghost form = { forms.nullable_form T.form };

    ghost is_whole = { T.is_whole };

    #[tactic(auto, using(crate::proofs::Showing::badly_marked, crate::proofs::Showing::no_mark))]
    fn show(
        alloc: Global,
        from: &mut Reader<'_, Mine>,
        out: &mut Vec<u8>,
    ) -> Result<(), ReadFault> {
        let mark = from.i8()?;
        if mark == NULL {
            put_str(out, "null")?;
            return Ok(());
        }
        if mark != THERE {
            return Err(ReadFault::Wire(WireFault::BadNull));
        }
        T::show(alloc, from, out)
    }
}

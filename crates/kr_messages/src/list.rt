//! Lists, shown as arrays.

ghost use Rattle.std.specs.Prelude.{◌≡◌, ◌++◌, OnOk};
ghost use Rattle.kr_json.specs.JsonText.{elements};
ghost use Rattle.kr_wire.specs.Reading.{elements_at};
ghost use Rattle.kr_messages.specs.Forms as forms;
ghost use Rattle.kr_messages.specs.Layouts.{decoded_at};
ghost use Rattle.kr_messages.specs.inner.Taken.{Transcribes, comma};

use crate::Mine;
use crate::shape::Shape;
use kr_json::put_str;
use kr_layout::{ReadFault, Reader};
use std::alloc::{AllocError, Global};
use std::marker::PhantomData;

fn put_comma(is_further: bool, out: &mut Vec<u8>) -> Result<(), AllocError>
    ensures { OnOk result (out.new.items ≡ out.old.items ++ comma is_further) }
{
    put_str(out, if is_further { "," } else { "" })
}

// So many elements, one after the other.
fn show_elements<T: Shape>(
    alloc: Global,
    count: u32,
    from: &mut Reader<'_, Mine>,
    out: &mut Vec<u8>,
) -> Result<(), ReadFault>
    ensures { Transcribes (elements_at (decoded_at T.form.layout) count) (elements T.form.json)
        result from.old from.new out.old.items out.new.items }
{
    let mut is_further = false;
    for _ in 0..count {
        put_comma(is_further, out)?;
        T::show(alloc, from, out)?;
        is_further = true;
    }
    Ok(())
}

// So many elements, in brackets.
#[tactic(auto, using(crate::proofs::Showing::array_taken))]
fn show_array<T: Shape>(
    alloc: Global,
    count: u32,
    from: &mut Reader<'_, Mine>,
    out: &mut Vec<u8>,
) -> Result<(), ReadFault>
    ensures { Transcribes (elements_at (decoded_at T.form.layout) count) (forms.array_text T.form.json)
        result from.old from.new out.old.items out.new.items }
{
    put_str(out, "[")?;
    show_elements::<T>(alloc, count, from, out)?;
    put_str(out, "]")?;
    Ok(())
}

/// A list.
pub(crate) struct Array<T>(PhantomData<T>);

impl<T: Shape> Shape for Array<T> {
    ghost form = { forms.array_form T.form };

    ghost is_whole = { T.is_whole };

    #[tactic(auto, using(crate::proofs::Showing::list_taken, crate::proofs::Showing::no_count))]
    fn show(
        alloc: Global,
        from: &mut Reader<'_, Mine>,
        out: &mut Vec<u8>,
    ) -> Result<(), ReadFault> {
        let count = from.count()?;
        show_array::<T>(alloc, count, from, out)
    }
}

/// A list, or null.
pub(crate) struct NullableArray<T>(PhantomData<T>);

impl<T: Shape> Shape for NullableArray<T> {
    ghost form = { forms.nullable_array_form T.form };

    ghost is_whole = { T.is_whole };

    #[tactic(auto, using(crate::proofs::Showing::some_taken, crate::proofs::Showing::null_taken, crate::proofs::Showing::no_count_or_null))]
    fn show(
        alloc: Global,
        from: &mut Reader<'_, Mine>,
        out: &mut Vec<u8>,
    ) -> Result<(), ReadFault> {
        let Some(count) = from.count_or_null()? else {
            put_str(out, "null")?;
            return Ok(());
        };
        show_array::<T>(alloc, count, from, out)
    }
}

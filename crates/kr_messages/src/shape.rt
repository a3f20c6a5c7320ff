//! Parts of messages that are read and shown at once.

ghost use Rattle.std.specs.Prelude.{◌≡◌, true};
ghost use Rattle.kr_messages.specs.Forms as forms;
ghost use Rattle.kr_messages.specs.Forms.{Form};
ghost use Rattle.kr_messages.specs.Layouts.{is_decodable};
ghost use Rattle.kr_messages.specs.inner.Taken.{ShowsForm};

use crate::Mine;
use kr_defs::Text;
use kr_json::Json;
use kr_layout::{Get, ReadFault, Reader};
use std::alloc::Global;
use std::marker::PhantomData;

/// A part of a message, by its form.
pub(crate) trait Shape {
    ghost form: { Form };

    /// Takes the value at the front of what there is to read, and appends its text. Where that is a fault, nothing is said of what
    /// is left and appended.
    fn show(alloc: Global, from: &mut Reader<'_, Mine>, out: &mut Vec<u8>) -> Result<(), ReadFault>
        ensures { ShowsForm form result from.old from.new out.old.items out.new.items };

    ghost is_whole: { is_decodable form.layout ≡ true };
}

/// A value that stands in bytes and in JSON by itself.
pub(crate) struct Plain<T>(PhantomData<T>);

impl<T: Get<Mine> + Json> Shape for Plain<T> {
    ghost form = { forms.plain_form T.schema T.json };

    ghost is_whole = { T.is_whole };

    #[tactic(auto, using(crate::proofs::Showing::taken))]
    fn show(
        alloc: Global,
        from: &mut Reader<'_, Mine>,
        out: &mut Vec<u8>,
    ) -> Result<(), ReadFault> {
        let value: T = from.get()?;
        value.put_json(alloc, out)?;
        Ok(())
    }
}

pub(crate) type Int8 = Plain<i8>;

pub(crate) type Int16 = Plain<i16>;

pub(crate) type Int32 = Plain<i32>;

pub(crate) type Int64 = Plain<i64>;

pub(crate) type Boolean = Plain<bool>;

pub(crate) type Uuid = Plain<u128>;

pub(crate) type Str = Plain<Text>;

pub(crate) type NullableStr = Plain<Option<Text>>;

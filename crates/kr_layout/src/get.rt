//! Values from bytes.

ghost use Rattle.std.specs.Prelude.{◌≡◌, ◌*◌, ◌≤◌, true, refl, length, drop, IfOk};
ghost use Rattle.kr_wire.specs.Grammar.{IsList, IsListOrNull};
ghost use Rattle.kr_wire.specs.Laws.{IsPrimitive, IsShortList, IsShortListOrNull};
ghost use Rattle.kr_wire.specs.Reading.{elements_at, list_at, list_or_null_at};
ghost use Rattle.kr_wire.specs.Spelling.{list, list_or_null};
ghost use Rattle.kr_layout.specs.Answers.{Answers, IsAnswer, Takes, TakesBy, whole};
ghost use Rattle.kr_wire.specs.Schema as schemas;
ghost use Rattle.kr_wire.specs.Schema.{Fits, Is, Schema, is_readable, least_bytes, value_at, written};

use crate::{BodyFault, ReadFault, Reader};
use kr_defs::{Rows, Text};
use std::alloc::Global;

/// A type whose values are read from bytes.
pub trait Get<M>: Drop {
    ghost schema: { Schema Self };

    /// The value at the front of what there is to read, which is taken. Where that is a fault, nothing is said
    /// of what is left.
    fn get(from: &mut Reader<'_, M>) -> Result<Self, ReadFault>
        ensures { Takes result from.new (value_at schema from.old) };

    /// The fewest bytes that stand for a value: as many as the least of each of its fields, and one for the end of a
    /// structure.
    fn least() -> usize
        ensures { result ≡ least_bytes schema };

    ghost is_whole: { is_readable schema ≡ true };
}

impl<'a, M> Reader<'a, M> {
    /// The next value.
    #[inline(always)]
    pub fn get<T: Get<M>>(&mut self) -> Result<T, ReadFault>
        ensures { Takes result self.new (value_at T.schema self.old) }
    {
        T::get(self)
    }
}

impl<M> Get<M> for i8 {
    ghost schema = { schemas.Int8 };

    ghost is_whole = { refl };

    #[inline(always)]
    fn get(from: &mut Reader<'_, M>) -> Result<i8, ReadFault> {
        from.i8()
    }

    fn least() -> usize {
        1
    }
}

impl<M> Get<M> for i16 {
    ghost schema = { schemas.Int16 };

    ghost is_whole = { refl };

    #[inline(always)]
    fn get(from: &mut Reader<'_, M>) -> Result<i16, ReadFault> {
        from.i16()
    }

    fn least() -> usize {
        2
    }
}

impl<M> Get<M> for i32 {
    ghost schema = { schemas.Int32 };

    ghost is_whole = { refl };

    #[inline(always)]
    fn get(from: &mut Reader<'_, M>) -> Result<i32, ReadFault> {
        from.i32()
    }

    fn least() -> usize {
        4
    }
}

impl<M> Get<M> for i64 {
    ghost schema = { schemas.Int64 };

    ghost is_whole = { refl };

    #[inline(always)]
    fn get(from: &mut Reader<'_, M>) -> Result<i64, ReadFault> {
        from.i64()
    }

    fn least() -> usize {
        8
    }
}

impl<M> Get<M> for u16 {
    ghost schema = { schemas.Uint16 };

    ghost is_whole = { refl };

    #[inline(always)]
    fn get(from: &mut Reader<'_, M>) -> Result<u16, ReadFault> {
        from.u16()
    }

    fn least() -> usize {
        2
    }
}

impl<M> Get<M> for u128 {
    ghost schema = { schemas.Uuid };

    ghost is_whole = { refl };

    #[inline(always)]
    fn get(from: &mut Reader<'_, M>) -> Result<u128, ReadFault> {
        from.id()
    }

    fn least() -> usize {
        16
    }
}

impl<M> Get<M> for bool {
    ghost schema = { schemas.Boolean };

    ghost is_whole = { refl };

    #[inline(always)]
    fn get(from: &mut Reader<'_, M>) -> Result<bool, ReadFault> {
        from.bool()
    }

    fn least() -> usize {
        1
    }
}

impl<M> Get<M> for Text {
    ghost schema = { schemas.Text };

    ghost is_whole = { refl };

    #[inline(always)]
    fn get(from: &mut Reader<'_, M>) -> Result<Text, ReadFault> {
        from.text()
    }

    fn least() -> usize {
        1
    }
}

impl<M> Get<M> for Option<Text> {
    ghost schema = { schemas.TextOrNull };

    ghost is_whole = { refl };

    #[inline(always)]
    fn get(from: &mut Reader<'_, M>) -> Result<Option<Text>, ReadFault> {
        from.text_or_null()
    }

    fn least() -> usize {
        1
    }
}

impl<M, T: Get<M>> Get<M> for Rows<T> {
    ghost schema = { schemas.Array T.schema };

    ghost is_whole = { T.is_whole };

    #[inline(always)]
    #[tactic(auto, unfolding(kr_wire::specs::Reading::list_at))]
    fn get(from: &mut Reader<'_, M>) -> Result<Rows<T>, ReadFault> {
        let count = from.count()?;
        let list = elements(from, count)?;
        Ok(Rows::from_vec(list))
    }

    fn least() -> usize {
        1
    }
}

impl<M, T: Get<M>> Get<M> for Option<Rows<T>> {
    ghost schema = { schemas.ArrayOrNull T.schema };

    ghost is_whole = { T.is_whole };

    #[inline(always)]
    #[tactic(auto, unfolding(kr_wire::specs::Reading::list_or_null_at))]
    fn get(from: &mut Reader<'_, M>) -> Result<Option<Rows<T>>, ReadFault> {
        let Some(count) = from.count_or_null()? else {
            return Ok(None);
        };
        let list = elements(from, count)?;
        Ok(Some(Rows::from_vec(list)))
    }

    fn least() -> usize {
        1
    }
}

// How many elements room is taken for: no more than what there is to read can hold.
fn room<M, T: Get<M>>(from: &Reader<'_, M>, count: u32) -> usize
    ensures counted { result ≤ count }
    ensures held { result * least_bytes T.schema ≤ length from.now }
{
    (count as usize).min(from.len() / T::least())
}

// So many values.
#[inline(always)]
#[tactic(auto, unfolding(kr_wire::specs::Reading::elements_at))]
fn elements<M, T: Get<M>>(from: &mut Reader<'_, M>, count: u32) -> Result<Vec<T>, ReadFault>
    ensures { TakesBy (λ v. v.items) result from.new (elements_at (value_at T.schema) count from.old) }
{
    if count == 0 {
        return Ok(Vec::new(from.alloc()));
    }
    some_elements(from, count)
}

// The same, for which room is taken.
#[inline(always)]
fn some_elements<M, T: Get<M>>(from: &mut Reader<'_, M>, count: u32) -> Result<Vec<T>, ReadFault>
    ensures { TakesBy (λ v. v.items) result from.new (elements_at (value_at T.schema) count from.old) }
{
    let mut list = Vec::with_capacity(from.alloc(), room::<M, T>(from, count))?;
    for _ in 0..count {
        list.push(T::get(from)?)?;
    }
    Ok(list)
}

#[tactic(auto, unfolding(crate::specs::Answers::whole))]
fn read_whole<M, T: Get<M>>(alloc: Global, message: &[u8], at: usize) -> Result<T, BodyFault>
    requires { at ≤ length message.now }
    ensures { IsAnswer result (whole T.schema (drop at message.now)) }
{
    let mut from: Reader<'_, M> = Reader::new(alloc, message, at);
    match T::get(&mut from) {
        Ok(value) => {
            if from.is_empty() {
                return Ok(value);
            }
            Err(BodyFault::Trailing)
        }
        Err(ReadFault::Wire(fault)) => Err(BodyFault::Wire(fault)),
        Err(ReadFault::NoMemory) => Err(BodyFault::NoMemory),
    }
}

/// The value that all of the bytes from a place on stand for, or the first fault.
pub fn read_body<M, T: Get<M>>(alloc: Global, message: &[u8], at: usize) -> Result<T, BodyFault>
    requires { at ≤ length message.now }
    ensures { Answers (Is T.schema) T.schema (drop at message.now) result }
{
    read_whole::<M, T>(alloc, message, at)
}

/// The laws of a layout, and of the lists of its values: what is read stands for the value, what stands for a value is
/// read as it, whatever follows, bytes stand for one value at most, and what is written stands. This function does
/// nothing.
pub fn layouts<M, T: Get<M>>()
    ensures one { IsPrimitive (Is T.schema) (value_at T.schema) (written T.schema) (Fits T.schema) }
    ensures list { IsPrimitive (IsList (Is T.schema)) (list_at (value_at T.schema)) (list (written T.schema)) (IsShortList (Fits T.schema)) }
    ensures list_or_null { IsPrimitive (IsListOrNull (Is T.schema)) (list_or_null_at (value_at T.schema)) (list_or_null (written T.schema)) (IsShortListOrNull (Fits T.schema)) }
{}

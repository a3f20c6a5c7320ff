//! Bytes that are read one value after the other.

ghost use Rattle.std.specs.Prelude.{◌≡◌, ◌==◌, ◌≤◌, ◌∷◌, length, drop, IfOk, IsTrue, IsFalse};
ghost use Rattle.std.specs.Option.{option_map};
ghost use Rattle.std.specs.Int.{w8, w16, w32, w64};
ghost use Rattle.kr_wire.specs.Reading.{none_known, bool_at, count_at, count_or_null_at, id_at, number_at, signed_at, tags_at, text_at, text_or_null_at, uvarint_at};
ghost use Rattle.kr_layout.specs.Answers.{Takes, TakesBy, field_at};

use crate::ReadFault;
use kr_defs::Text;
use kr_wire::{
    read_bool, read_count, read_count_or_null, read_i8, read_i16, read_i32, read_i64, read_id,
    read_tag, read_text, read_text_or_null, read_u16, read_uvarint, skip_tags,
};
use std::alloc::{AllocError, Global};
use std::marker::{Model, PhantomData};

/// Bytes, of which those from a place on are still to be read. A clause sees these.
#[derive(Drop)]
pub struct Reader<'a, M> {
    // Where memory comes from.
    alloc: Global,
    // The kind of message that is read.
    mine: PhantomData<M>,
    // All bytes.
    bytes: &'a [u8],
    // How many were read.
    at: usize,
}

impl<'a, M> Model for Reader<'a, M> {
    ghost use Rattle.std.specs.Prelude.{ℕ, List, ◌≤◌, length, drop};

    ghost Value = { List ℕ };

    ghost view = { λ r. drop r.at r.bytes.now };

    ghost invariant = { λ r. r.at ≤ length r.bytes.now };
}

impl<'a, M> Reader<'a, M> {
    /// The bytes from a place on.
    pub fn new(alloc: Global, bytes: &'a [u8], at: usize) -> Reader<'a, M>
        requires { at ≤ length bytes.now }
        ensures { result ≡ drop at bytes.now }
    {
        Reader {
            alloc,
            mine: PhantomData,
            bytes,
            at,
        }
    }

    /// How many bytes are still to be read.
    #[inline(always)]
    pub fn len(&self) -> usize
        ensures { result ≡ length self.now }
    {
        self.bytes.len() - self.at
    }

    /// Nothing is left.
    #[inline(always)]
    pub fn is_empty(&self) -> bool
        ensures { result ≡ (length self.now == 0) }
    {
        self.at == self.bytes.len()
    }

    /// The next value, a signed number of one byte.
    #[inline(always)]
    pub fn i8(&mut self) -> Result<i8, ReadFault>
        ensures { Takes result self.new (signed_at w8 self.old) }
    {
        let (number, next) = read_i8(self.bytes, self.at)?;
        self.at = next;
        Ok(number)
    }

    /// The next value, a signed number of two bytes, the high byte first.
    #[inline(always)]
    pub fn i16(&mut self) -> Result<i16, ReadFault>
        ensures { Takes result self.new (signed_at w16 self.old) }
    {
        let (number, next) = read_i16(self.bytes, self.at)?;
        self.at = next;
        Ok(number)
    }

    /// The next value, a signed number of four bytes, the high byte first.
    #[inline(always)]
    pub fn i32(&mut self) -> Result<i32, ReadFault>
        ensures { Takes result self.new (signed_at w32 self.old) }
    {
        let (number, next) = read_i32(self.bytes, self.at)?;
        self.at = next;
        Ok(number)
    }

    /// The next value, a signed number of eight bytes, the high byte first.
    #[inline(always)]
    pub fn i64(&mut self) -> Result<i64, ReadFault>
        ensures { Takes result self.new (signed_at w64 self.old) }
    {
        let (value, next) = read_i64(self.bytes, self.at)?;
        self.at = next;
        Ok(value)
    }

    /// The next value, an unsigned number of two bytes, the high byte first.
    #[inline(always)]
    pub fn u16(&mut self) -> Result<u16, ReadFault>
        ensures { Takes result self.new (number_at w16 self.old) }
    {
        let (value, next) = read_u16(self.bytes, self.at)?;
        self.at = next;
        Ok(value)
    }

    /// An id.
    #[inline(always)]
    pub fn id(&mut self) -> Result<u128, ReadFault>
        ensures { Takes result self.new (id_at self.old) }
    {
        let (value, next) = read_id(self.bytes, self.at)?;
        self.at = next;
        Ok(value)
    }

    /// The next value, a byte that is 0 for false.
    #[inline(always)]
    pub fn bool(&mut self) -> Result<bool, ReadFault>
        ensures { Takes result self.new (bool_at self.old) }
    {
        let (value, next) = read_bool(self.bytes, self.at)?;
        self.at = next;
        Ok(value)
    }

    /// The next value, a text behind its length.
    #[inline(always)]
    pub fn text(&mut self) -> Result<Text, ReadFault>
        ensures { Takes result self.new (text_at self.old) }
    {
        let (text, next) = read_text(self.bytes, self.at)?;
        let text = Text::from_str(self.alloc, text)?;
        self.at = next;
        Ok(text)
    }

    /// The next value, a text behind its length, or null.
    #[inline(always)]
    pub fn text_or_null(&mut self) -> Result<Option<Text>, ReadFault>
        ensures { Takes result self.new (text_or_null_at self.old) }
    {
        let (text, next) = read_text_or_null(self.bytes, self.at)?;
        let text = text_of(self.alloc, text)?;
        self.at = next;
        Ok(text)
    }

    /// The count of a list.
    #[inline(always)]
    pub fn count(&mut self) -> Result<u32, ReadFault>
        ensures { Takes result self.new (count_at self.old) }
    {
        let (count, next) = read_count(self.bytes, self.at)?;
        self.at = next;
        Ok(count)
    }

    /// The count of a list, or null.
    #[inline(always)]
    pub fn count_or_null(&mut self) -> Result<Option<u32>, ReadFault>
        ensures { Takes result self.new (count_or_null_at self.old) }
    {
        let (value, next) = read_count_or_null(self.bytes, self.at)?;
        self.at = next;
        Ok(value)
    }

    /// Tagged fields of which none is known.
    #[inline(always)]
    #[tactic(auto, using(crate::proofs::Fronts::no_field))]
    pub fn end(&mut self) -> Result<(), ReadFault>
        ensures { Takes result self.new (tags_at none_known tt self.old) }
    {
        if self.passes_zero() {
            return Ok(());
        }
        self.some_fields()
    }

    // The same, however many fields there are.
    #[cold]
    #[inline(never)]
    fn some_fields(&mut self) -> Result<(), ReadFault>
        ensures { Takes result self.new (tags_at none_known tt self.old) }
    {
        let next = skip_tags(self.bytes, self.at)?;
        self.at = next;
        Ok(())
    }

    /// The next value, a number in groups of seven bits.
    #[inline(always)]
    pub fn uvarint(&mut self) -> Result<u32, ReadFault>
        ensures { Takes result self.new (uvarint_at self.old) }
    {
        let (number, next) = read_uvarint(self.bytes, self.at)?;
        self.at = next;
        Ok(number)
    }

    /// The tag of a tagged field and its data, behind a field with the last tag.
    #[inline(always)]
    pub fn field(&mut self, last: Option<u32>) -> Result<(u32, &'a [u8]), ReadFault>
        ensures { TakesBy (λ f. (f.0, f.1.now)) result self.new (field_at last self.old) }
    {
        let (tag, place) = read_tag(self.bytes, self.at, last)?;
        let data = &self.bytes[place..tag.end];
        self.at = tag.end;
        Ok((tag.number, data))
    }

    /// Where what is read takes its memory.
    pub fn alloc(&self) -> Global {
        self.alloc
    }

    // The next byte is taken where it is 0.
    #[inline(always)]
    fn passes_zero(&mut self) -> bool
        ensures passed { IsTrue result → self.old ≡ 0 ∷ self.new }
        ensures left { IsFalse result → self.new ≡ self.old }
    {
        if self.at < self.bytes.len() && self.bytes[self.at] == 0 {
            self.at += 1;
            return true;
        }
        false
    }
}

// A copy of the text, or none.
fn text_of(alloc: Global, text: Option<&str>) -> Result<Option<Text>, AllocError>
    ensures { IfOk result (λ t. t ≡ option_map (λ s. s.now) text.entry) }
{
    match text {
        None => Ok(None),
        Some(text) => Ok(Some(Text::from_str(alloc, text)?)),
    }
}

//! The data of a tagged field.

ghost use Rattle.std.specs.Prelude.{◌≡◌, ◌≤◌, negsuc, length, IfOk};
ghost use Rattle.std.specs.Option.{option_map};
ghost use Rattle.kr_layout.specs.Answers.{Takes};
ghost use Rattle.kr_wire.specs.Schema.{written};
ghost use Rattle.kr_wire.specs.Spelling.{uvarint};
ghost use Rattle.kr_wire.specs.Tables as tables;
ghost use Rattle.kr_wire.specs.Tables.{Int32OrNone, Int32sOrEmpty, Int32sOrNull, Int8NotZero, Int8OrNone, Part, TextOrNone, UuidsDropped, part_at, written_data};

use crate::parts::Mine;
use kr_base::NoMemory;
use kr_defs::{Ids, Rows, Text};
use kr_layout::{Put, ReadFault, Reader};
use std::alloc::Global;

/// The data of a field, as they are written.
pub(crate) trait FieldData: Put<Mine> {
    /// How many bytes they take. As many as 2^29 ids, or as 2^31 bytes of text, want memory that there isn't.
    fn size(&self) -> Result<u32, NoMemory>
        ensures { IfOk result (λ n. n ≡ length (written Self.schema self.now)) };
}

impl FieldData for i8 {
    #[tactic(auto, using(kr_wire::proofs::Lengths::length_signed_8))]
    fn size(&self) -> Result<u32, NoMemory> {
        Ok(1)
    }
}

impl FieldData for i32 {
    #[tactic(auto, using(kr_wire::proofs::Lengths::length_signed_32))]
    fn size(&self) -> Result<u32, NoMemory> {
        Ok(4)
    }
}

impl FieldData for Ids {
    #[tactic(auto, using(crate::proofs::LayoutForms::length_ids))]
    fn size(&self) -> Result<u32, NoMemory> {
        if self.len() >= 1 << 29 {
            return Err(NoMemory);
        }
        let count = self.len() as u32;
        Ok(uvarint_len(count + 1) + 4 * count)
    }
}

impl FieldData for Text {
    #[tactic(auto, using(crate::proofs::LayoutForms::length_text_data))]
    fn size(&self) -> Result<u32, NoMemory> {
        if self.len() >= 1 << 31 {
            return Err(NoMemory);
        }
        let count = self.len() as u32;
        Ok(uvarint_len(count + 1) + count)
    }
}

// How many bytes a uvarint takes.
#[tactic(auto, using(kr_wire::proofs::Lengths::length_uvarint))]
fn uvarint_len(value: u32) -> u32
    ensures length { result ≡ length (uvarint value) }
    ensures small { result ≤ 5 }
{
    match value {
        0..128 => 1,
        128..16384 => 2,
        16384..2097152 => 3,
        2097152..268435456 => 4,
        _ => 5,
    }
}

/// A part of a value that stands in a tagged field.
pub(crate) trait TaggedPart: Drop {
    type Data: FieldData;

    ghost part: { Part Self };

    /// What it is where the field is absent.
    fn absent(alloc: Global) -> Self
        ensures { result ≡ tables.absent part };

    /// What the data give.
    fn read(from: &mut Reader<'_, Mine>) -> Result<Self, ReadFault>
        ensures { Takes result from.new (part_at part from.old) };

    /// The data that are written, if any.
    fn data(&self) -> Option<&Self::Data>
        ensures { option_map (λ d. written Self.Data.schema d.now) result ≡ written_data part self.now };
}

impl TaggedPart for i8 {
    type Data = i8;

    ghost part = { Int8NotZero };

    fn absent(alloc: Global) -> i8 {
        0
    }

    fn read(from: &mut Reader<'_, Mine>) -> Result<i8, ReadFault> {
        from.get()
    }

    fn data(&self) -> Option<&i8> {
        if *self == 0 { None } else { Some(self) }
    }
}

impl TaggedPart for Option<i8> {
    type Data = i8;

    ghost part = { Int8OrNone (negsuc 0) };

    fn absent(alloc: Global) -> Option<i8> {
        None
    }

    fn read(from: &mut Reader<'_, Mine>) -> Result<Option<i8>, ReadFault> {
        let number: i8 = from.get()?;
        Ok(if number == -1 { None } else { Some(number) })
    }

    fn data(&self) -> Option<&i8> {
        self.as_ref()
    }
}

impl TaggedPart for Option<i32> {
    type Data = i32;

    ghost part = { Int32OrNone (negsuc 1) };

    fn absent(alloc: Global) -> Option<i32> {
        None
    }

    fn read(from: &mut Reader<'_, Mine>) -> Result<Option<i32>, ReadFault> {
        let number: i32 = from.get()?;
        Ok(if number == -2 { None } else { Some(number) })
    }

    fn data(&self) -> Option<&i32> {
        self.as_ref()
    }
}

impl TaggedPart for Option<Ids> {
    type Data = Ids;

    ghost part = { Int32sOrNull };

    fn absent(alloc: Global) -> Option<Ids> {
        None
    }

    fn read(from: &mut Reader<'_, Mine>) -> Result<Option<Ids>, ReadFault> {
        from.get()
    }

    fn data(&self) -> Option<&Ids> {
        self.as_ref()
    }
}

impl TaggedPart for Option<Text> {
    type Data = Text;

    ghost part = { TextOrNone };

    fn absent(alloc: Global) -> Option<Text> {
        None
    }

    fn read(from: &mut Reader<'_, Mine>) -> Result<Option<Text>, ReadFault> {
        from.get()
    }

    fn data(&self) -> Option<&Text> {
        self.as_ref()
    }
}

impl TaggedPart for Ids {
    type Data = Ids;

    ghost part = { Int32sOrEmpty };

    fn absent(alloc: Global) -> Ids {
        Rows::new(alloc)
    }

    fn read(from: &mut Reader<'_, Mine>) -> Result<Ids, ReadFault> {
        let ids: Option<Ids> = from.get()?;
        Ok(ids.unwrap_or(Rows::new(from.alloc())))
    }

    fn data(&self) -> Option<&Ids> {
        if self.is_empty() { None } else { Some(self) }
    }
}

impl TaggedPart for () {
    type Data = i8;

    ghost part = { UuidsDropped };

    fn absent(alloc: Global) {}

    fn read(from: &mut Reader<'_, Mine>) -> Result<(), ReadFault> {
        let _directories: Option<Rows<u128>> = from.get()?;
        Ok(())
    }

    fn data(&self) -> Option<&i8> {
        None
    }
}

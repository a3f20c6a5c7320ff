//! Values that are read one after the other, as nested pairs.

ghost use Rattle.std.specs.Prelude.{◌≡◌};
ghost use Rattle.kr_wire.specs.Reading.{tags_at, whole_field};
ghost use Rattle.kr_wire.specs.Schema.{End};
ghost use Rattle.kr_wire.specs.Tables as tables;
ghost use Rattle.kr_wire.specs.Tables.{NoField, Table, absents, known, part_at, set_part};
ghost use Rattle.kr_layout.specs.Answers.{Takes};
ghost use Rattle.kr_record.specs.Answers.{GivesField};
ghost use Rattle.kr_record.specs.Layout as layouts;
ghost use Rattle.kr_record.specs.Layout.{Directories, Of, RecordLayout, Tagged, version_at, ◌▹◌};

use crate::tagged::TaggedPart;
use kr_defs::{Ids, Rows};
use kr_layout::{Get, ReadFault, Reader};
use kr_wire::WireFault;
use std::alloc::Global;
use std::marker::Model;

/// This crate's own, for what it reads and writes by layouts.
pub struct Mine;

/// Parts that are read, up to the end of a structure or of some part of it.
pub(crate) trait Parts: Drop {
    ghost layout: { RecordLayout Self };

    /// The parts at the front of what there is to read.
    fn read(from: &mut Reader<'_, Mine>, version: u32) -> Result<Self, ReadFault>
        ensures { Takes result from.new (version_at layout version from.old) };
}

impl Parts for () {
    ghost layout = { Of End };

    #[inline(always)]
    fn read(from: &mut Reader<'_, Mine>, version: u32) -> Result<(), ReadFault> {
        from.end()
    }
}

impl<T: Get<Mine>> Parts for T {
    ghost layout = { Of T.schema };

    #[inline(always)]
    fn read(from: &mut Reader<'_, Mine>, version: u32) -> Result<T, ReadFault> {
        from.get()
    }
}

impl<A: Parts, B: Parts> Parts for (A, B) {
    ghost layout = { A.layout ▹ B.layout };

    #[inline(always)]
    fn read(from: &mut Reader<'_, Mine>, version: u32) -> Result<(A, B), ReadFault> {
        let first = A::read(from, version)?;
        let others = B::read(from, version)?;
        Ok((first, others))
    }
}

/// A flag that is there since a version, and false before. Or ids with parts behind them, behind which since a version
/// a directory for each id stands.
#[derive(Drop)]
pub(crate) struct Since<const FIRST: u32, P> {
    pub part: P,
}

impl<const FIRST: u32, P> Model for Since<FIRST, P> {
    ghost Value = { P };

    ghost view = { λ s. s.part };
}

impl<const FIRST: u32> Parts for Since<FIRST, bool> {
    ghost layout = { layouts.Flag FIRST };

    #[inline(always)]
    fn read(from: &mut Reader<'_, Mine>, version: u32) -> Result<Since<FIRST, bool>, ReadFault> {
        let part = if version >= FIRST { from.get()? } else { false };
        Ok(Since { part })
    }
}

impl<const FIRST: u32, M: Parts> Parts for Since<FIRST, (Ids, M)> {
    ghost layout = { Directories FIRST M.layout };

    #[inline(always)]
    fn read(
        from: &mut Reader<'_, Mine>,
        version: u32,
    ) -> Result<Since<FIRST, (Ids, M)>, ReadFault> {
        let ids: Ids = from.get()?;
        let others = M::read(from, version)?;
        if version >= FIRST {
            let _dropped: Rows<u128> = from.get()?;
        }
        Ok(Since {
            part: (ids, others),
        })
    }
}

impl<const TAG: u32, const FIRST: u32, P: TaggedPart, F: Fields> Parts
    for (Field<TAG, FIRST, P>, F) {
    ghost layout = { Tagged (tables.Field TAG FIRST P.part F.table) };

    #[inline(always)]
    fn read(
        from: &mut Reader<'_, Mine>,
        version: u32,
    ) -> Result<(Field<TAG, FIRST, P>, F), ReadFault> {
        read_tags(from, version)
    }
}

/// A tagged field with this tag, since a version.
#[derive(Drop)]
pub(crate) struct Field<const TAG: u32, const FIRST: u32, P> {
    pub part: P,
}

impl<const TAG: u32, const FIRST: u32, P> Model for Field<TAG, FIRST, P> {
    ghost Value = { P };

    ghost view = { λ f. f.part };
}

/// Tagged fields that are read.
pub(crate) trait Fields: Drop {
    ghost table: { Table Self };

    /// What they are where none is there.
    fn absent(alloc: Global) -> Self
        ensures { result ≡ absents table };

    /// Sets what the field with this tag and these data says. After a fault nothing is said of the value.
    fn set(&mut self, alloc: Global, version: u32, tag: u32, data: &[u8]) -> Result<(), ReadFault>
        ensures { GivesField (λ nothing. self.new) result (set_part table version tag self.old «data».now) };
}

impl Fields for () {
    ghost table = { NoField };

    fn absent(alloc: Global) {}

    #[inline(always)]
    fn set(&mut self, alloc: Global, version: u32, tag: u32, data: &[u8]) -> Result<(), ReadFault> {
        Ok(())
    }
}

impl<const TAG: u32, const FIRST: u32, P: TaggedPart, F: Fields> Fields
    for (Field<TAG, FIRST, P>, F) {
    ghost table = { tables.Field TAG FIRST P.part F.table };

    fn absent(alloc: Global) -> (Field<TAG, FIRST, P>, F) {
        let part = P::absent(alloc);
        (Field { part }, F::absent(alloc))
    }

    #[inline(always)]
    fn set(&mut self, alloc: Global, version: u32, tag: u32, data: &[u8]) -> Result<(), ReadFault> {
        if version >= FIRST && tag == TAG {
            self.0.part = whole(alloc, data)?;
            return Ok(());
        }
        self.1.set(alloc, version, tag, data)
    }
}

/// What all of the data of a field give. It is left to the compiler where this stands in line: in all places it is too much.
fn whole<P: TaggedPart>(alloc: Global, data: &[u8]) -> Result<P, ReadFault>
    ensures { GivesField (λ x. x) result (whole_field (part_at P.part «data».now)) }
{
    let mut from = Reader::new(alloc, data, 0);
    match P::read(&mut from) {
        Ok(value) if from.is_empty() => Ok(value),
        Ok(_) | Err(ReadFault::Wire(WireFault::Short)) => Err(ReadFault::Wire(WireFault::BadTag)),
        Err(fault) => Err(fault),
    }
}

/// A count, and so many tagged fields.
#[tactic(auto, unfolding(kr_wire::specs::Reading::tags_at), using(crate::proofs::FieldLoop::fields_read))]
#[inline(always)]
fn read_tags<F: Fields>(from: &mut Reader<'_, Mine>, version: u32) -> Result<F, ReadFault>
    ensures { Takes result from.new (tags_at (known F.table version) (absents F.table) from.old) }
{
    let count = from.uvarint()?;
    let mut value = F::absent(from.alloc());
    let mut last = None;
    for _ in 0..count {
        let (tag, data) = from.field(last)?;
        value.set(from.alloc(), version, tag, data)?;
        last = Some(tag);
    }
    Ok(value)
}

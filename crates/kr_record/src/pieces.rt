//! Values that are written one after the other, as nested pairs of what holds them.

ghost use Rattle.std.specs.Prelude.{◌≡◌, ℕ, ◌++◌, List, [], length, OnOk, OnErr, IfOk};
ghost use Rattle.std.specs.List.{flat_map};
ghost use Rattle.kr_layout.specs.Answers.{Begins};
ghost use Rattle.kr_wire.specs.Schema.{Boolean, End, written};
ghost use Rattle.kr_wire.specs.Spelling.{field, id, list, tagged, tags};
ghost use Rattle.kr_wire.specs.Tables as tables;
ghost use Rattle.kr_wire.specs.Tables.{written_data};
ghost use Rattle.kr_record.specs.Spelling.{no_directories};

use crate::parts::{Field, Mine, Since};
use crate::tagged::{FieldData, TaggedPart};
use kr_base::NoMemory;
use kr_defs::Ids;
use kr_layout::{Put, put_end};
use kr_wire::{put_count, put_id, put_tag, put_uvarint};

/// Parts that are written, up to the end of a structure or of some part of it.
pub(crate) trait Pieces {
    ghost bytes: { Self → List ℕ };

    /// Appends what is written for the parts. Without memory some front of it may be appended.
    fn put_pieces(&self, out: &mut Vec<u8>) -> Result<(), NoMemory>
        ensures ok { OnOk result (out.new.items ≡ out.old.items ++ bytes self.now) }
        ensures err { OnErr result (Begins out.old.items out.new.items) };
}

impl Pieces for () {
    ghost bytes = { written End };

    fn put_pieces(&self, out: &mut Vec<u8>) -> Result<(), NoMemory> {
        put_end(out)
    }
}

impl<'a, T: Put<Mine>> Pieces for &'a T {
    ghost bytes = { λ value. written T.schema value.now };

    fn put_pieces(&self, out: &mut Vec<u8>) -> Result<(), NoMemory> {
        (*self).put_parts(&Mine, out)
    }
}

impl<A: Pieces, B: Pieces> Pieces for (A, B) {
    ghost bytes = { λ p. A.bytes p.0 ++ B.bytes p.1 };

    fn put_pieces(&self, out: &mut Vec<u8>) -> Result<(), NoMemory> {
        self.0.put_pieces(out)?;
        self.1.put_pieces(out)
    }
}

impl<'a, const FIRST: u32> Pieces for Since<FIRST, &'a bool> {
    ghost bytes = { λ flag. written Boolean flag.now };

    fn put_pieces(&self, out: &mut Vec<u8>) -> Result<(), NoMemory> {
        self.part.put_pieces(out)
    }
}

impl<'a, const FIRST: u32, M: Pieces, B: Pieces> Pieces for ((Since<FIRST, &'a Ids>, M), B) {
    ghost bytes = { λ p. ((tables.ids p.0.0.now ++ M.bytes p.0.1) ++ list id (no_directories p.0.0.now)) ++ B.bytes p.1 };

    fn put_pieces(&self, out: &mut Vec<u8>) -> Result<(), NoMemory> {
        self.0.0.part.put_pieces(out)?;
        self.0.1.put_pieces(out)?;
        put_directories(out, self.0.0.part)?;
        self.1.put_pieces(out)
    }
}

// One all-zero id per replica.
#[tactic(auto, using(crate::proofs::LayoutForms::one_zero_more))]
fn put_directories(out: &mut Vec<u8>, replicas: &Ids) -> Result<(), NoMemory>
    ensures ok { OnOk result (out.new.items ≡
        out.old.items ++ list id (no_directories replicas.now)) }
    ensures err { OnErr result (Begins out.old.items out.new.items) }
{
    if replicas.len() >= 1 << 31 {
        return Err(NoMemory);
    }
    put_count(out, replicas.len() as u32)?;
    for _replica in replicas.as_slice() {
        put_id(out, 0)?;
    }
    Ok(())
}

impl<'a, const TAG: u32, const FIRST: u32, P: TaggedPart, F: FieldPieces> Pieces
    for (Field<TAG, FIRST, &'a P>, F) {
    ghost bytes = { λ f. tags (tagged TAG (written_data P.part f.0.now) ++ F.fields f.1) };

    fn put_pieces(&self, out: &mut Vec<u8>) -> Result<(), NoMemory> {
        let count = self.count()?;
        put_uvarint(out, count)?;
        self.put_fields(out)
    }
}

/// Tagged fields that are written, in rising order of their tags.
pub(crate) trait FieldPieces {
    ghost fields: { Self → List (ℕ × List ℕ) };

    /// How many there are. As many as 2^32 want memory that there isn't.
    fn count(&self) -> Result<u32, NoMemory>
        ensures { IfOk result (λ n. n ≡ length (fields self.now)) };

    fn put_fields(&self, out: &mut Vec<u8>) -> Result<(), NoMemory>
        ensures ok { OnOk result (out.new.items ≡
            out.old.items ++ flat_map field (fields self.now)) }
        ensures err { OnErr result (Begins out.old.items out.new.items) };
}

impl FieldPieces for () {
    ghost fields = { λ u. [] };

    fn count(&self) -> Result<u32, NoMemory> {
        Ok(0)
    }

    fn put_fields(&self, out: &mut Vec<u8>) -> Result<(), NoMemory> {
        Ok(())
    }
}

impl<'a, const TAG: u32, const FIRST: u32, P: TaggedPart, F: FieldPieces> FieldPieces
    for (Field<TAG, FIRST, &'a P>, F) {
    ghost fields = { λ f. tagged TAG (written_data P.part f.0.now) ++ F.fields f.1 };

    fn count(&self) -> Result<u32, NoMemory> {
        let behind = self.1.count()?;
        match self.0.part.data() {
            None => Ok(behind),
            Some(_) => behind.checked_add(1).ok_or(NoMemory),
        }
    }

    fn put_fields(&self, out: &mut Vec<u8>) -> Result<(), NoMemory> {
        put_field(out, TAG, self.0.part)?;
        self.1.put_fields(out)
    }
}

fn put_field<P: TaggedPart>(out: &mut Vec<u8>, tag: u32, part: &P) -> Result<(), NoMemory>
    ensures ok { OnOk result (out.new.items ≡ out.old.items ++ flat_map field (tagged tag (written_data P.part part.now))) }
    ensures err { OnErr result (Begins out.old.items out.new.items) }
{
    match part.data() {
        None => Ok(()),
        Some(data) => {
            put_tag(out, tag, data.size()?)?;
            data.put_pieces(out)
        }
    }
}

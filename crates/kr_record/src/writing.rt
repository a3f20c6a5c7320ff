//! Records to bytes.

ghost use Rattle.std.specs.Prelude.{◌≡◌, ◌+◌, ◌++◌, length, Ok, OnOk, OnErr};
ghost use Rattle.kr_defs.specs.Sizes.{value_bytes};
ghost use Rattle.kr_defs.specs.declared.record.Record.{Record as AnyRecord};
ghost use Rattle.kr_wire.specs.Laws.{IsBytes};
ghost use Rattle.kr_record.specs.Encodable.{IsEncodable, IsHeld};
ghost use Rattle.kr_record.specs.Grammar.{IsRecord};
ghost use Rattle.kr_record.specs.Reading.{record_of};
ghost use Rattle.kr_record.specs.Spelling.{record_value};

use crate::kinds::{append, record_is_held};
use kr_base::NoMemory;
use kr_defs::Record;
use std::mem;

/// Appends the record's written form. Without memory nothing is appended.
#[tactic(auto, using(crate::proofs::RecordForms::size, crate::proofs::RecordForms::stands))]
pub fn encode(value: &Record, out: &mut Vec<u8>) -> Result<(), NoMemory>
    requires { IsEncodable value.now }
    ensures ok { OnOk result (out.new.items ≡ out.old.items ++ record_value value.now) }
    ensures err { OnErr result (out.new.items ≡ out.old.items) }
    // What is appended stands for the record.
    ensures stands { IsRecord value.now (record_value value.now) }
    // It is as many bytes as the record's kind and its texts and lists say.
    ensures size { OnOk result (length out.new.items ≡ length out.old.items + value_bytes value.now) }
{
    record_is_held(value);
    // The record is written alone first, so that `out` is as it was where memory runs out.
    let before = mem::try_take(out)?;
    let written = append(value, out);
    let bytes = mem::replace(out, before);
    written?;
    out.extend_from_slice(&bytes)?;
    Ok(())
}

/// What is written of a record stands for it, is read as it, has as many bytes as its kind's layout takes, and
/// has no number in it that isn't a byte. This function does nothing.
#[tactic(auto, using(crate::proofs::RecordForms::laws))]
pub fn written_records()
    ensures stands { (r : AnyRecord) → IsEncodable r → IsHeld r → IsRecord r (record_value r) }
    ensures again { (r : AnyRecord) → IsEncodable r → IsHeld r → record_of (record_value r) ≡ Ok r }
    ensures size { (r : AnyRecord) → IsEncodable r → length (record_value r) ≡ value_bytes r }
    ensures bytes { (r : AnyRecord) → IsEncodable r → IsHeld r → IsBytes (record_value r) }
{}

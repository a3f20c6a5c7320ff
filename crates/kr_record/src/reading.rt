//! Records from bytes.

ghost use Rattle.std.specs.Prelude.{◌≡◌, ℕ, List, Ok, Err, IfOk, if◌then◌else◌};
ghost use Rattle.kr_defs.specs.declared.record.Record.{Record as AnyRecord};
ghost use Rattle.kr_record.specs.declared.fault.RecordFault.TheVariants as faults;
ghost use Rattle.kr_record.specs.Grammar.{IsRecord};
ghost use Rattle.kr_record.specs.Answers.{Gives};
ghost use Rattle.kr_record.specs.Reading.{record_of};

use crate::fault::RecordFault;
use crate::kinds::read_kind;
use crate::parts::Mine;
use kr_defs::Record;
use kr_layout::Reader;
use std::alloc::Global;

#[tactic(auto, unfolding(crate::specs::Reading::record_of, crate::specs::Reading::record_at))]
#[inline(always)]
fn record(alloc: Global, value: &[u8]) -> Result<Record, RecordFault>
    ensures { Gives result (record_of value.now) }
{
    let mut from: Reader<'_, Mine> = Reader::new(alloc, value, 0);
    let frame = from.uvarint()?;
    if frame != 1 {
        return Err(RecordFault::FrameVersion { found: frame });
    }
    let key = from.uvarint()?;
    let version = from.uvarint()?;
    let record = read_kind(&mut from, key, version)?;
    whole(record, from.is_empty())
}

// The record, if nothing is behind it.
#[inline(always)]
fn whole(value: Record, is_end: bool) -> Result<Record, RecordFault>
    ensures { result ≡ (if is_end then Ok value else Err faults.Trailing) }
{
    if !is_end {
        return Err(RecordFault::Trailing);
    }
    Ok(value)
}

/// The record that all of the bytes stand for, or the first fault, in the order of reading: the frame
/// version is judged before the key is read, the key when the version is read, bytes left over last.
#[tactic(auto, using(crate::proofs::RecordLaws::found, crate::proofs::RecordLaws::only))]
#[inline(always)]
pub fn decode(alloc: Global, value: &[u8]) -> Result<Record, RecordFault>
    // What is decoded is what the bytes stand for.
    ensures found { IfOk result (λ r. IsRecord r value.now) }
    // What bytes stand for is decoded, unless memory runs out.
    ensures only { (r : AnyRecord) → IsRecord r value.now → Gives result (Ok r) }
    // Which fault it is.
    ensures exact { Gives result (record_of value.now) }
{
    record(alloc, value)
}

/// Bytes stand for one record at most, and what stands for a record is read as it. This function does nothing.
pub fn records()
    ensures one { (r : AnyRecord) (s : AnyRecord) (bytes : List ℕ) → IsRecord r bytes → IsRecord s bytes → r ≡ s }
    ensures read { (r : AnyRecord) (bytes : List ℕ) → IsRecord r bytes → record_of bytes ≡ Ok r }
{}

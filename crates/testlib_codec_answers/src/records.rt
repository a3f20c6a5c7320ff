//! What the decoder of records answers, in words, with what the encoder writes for what was decoded.

ghost use Rattle.std.specs.Prelude.{◌≡◌, ◌<◌, ◌^◌, codes, length, nat_lt, if◌then◌else◌, IfOk, IsErr, string_bytes};
ghost use Rattle.kr_record.specs.Reading.{record_of};
ghost use Rattle.kr_record.specs.Encodable.{IsEncodable};
ghost use Rattle.testlib_codec_answers.specs.Words;
ghost use Rattle.testlib_codec_answers.specs.Words.{TellsRecord, record_fault_words, record_words, too_long};

use kr_defs::Record;
use kr_record::RecordFault;
use kr_wire::WireFault;
use law_round_trip::records_again;
use std::alloc::{AllocError, Global};

pub(crate) const TOO_LONG: &str = "too long to be written";

/// The record that the bytes stand for, by what is written for it, or their first fault.
pub fn record_answer(alloc: Global, bytes: &[u8]) -> Result<String, AllocError>
    ensures { IfOk result (λ text. TellsRecord (string_bytes text) (length bytes.now) (record_of
        bytes.now)) }
{
    records_again();
    match kr_record::decode(alloc, bytes) {
        Ok(record) => written_record(alloc, &record, bytes.len()),
        Err(fault) => record_fault(alloc, fault),
    }
}

// What is written for a record that stood in so many bytes.
fn written_record(alloc: Global, value: &Record, len: usize) -> Result<String, AllocError>
    requires { len < 2 ^ 31 → IsEncodable value.now }
    ensures { IfOk result (λ text. string_bytes text ≡ (if nat_lt len (2 ^ 31) then record_words
        value.now else too_long)) }
{
    if len >= 1 << 31 {
        return String::from_str(alloc, TOO_LONG);
    }
    let mut out = Vec::new(alloc);
    if kr_record::encode(value, &mut out).is_err() {
        return Err(AllocError);
    }
    let digits = hex::encode(alloc, out.as_slice())?;
    format!(in alloc; "ok {digits}")
}

pub(crate) fn wire_words(kind: WireFault) -> &'static str
    ensures { result.now ≡ Words.wire_words kind }
{
    match kind {
        WireFault::Short => "Short",
        WireFault::Overlong => "Overlong",
        WireFault::TooBig => "TooBig",
        WireFault::BadTag => "BadTag",
        WireFault::BadText => "BadText",
        WireFault::BadNull => "BadNull",
    }
}

pub(crate) fn record_fault(alloc: Global, fault: RecordFault) -> Result<String, AllocError>
    ensures words { IfOk result (λ text. string_bytes text ≡ record_fault_words fault) }
    ensures no_memory { fault ≡ RecordFault.NoMemory → IsErr result }
{
    match fault {
        RecordFault::Wire(kind) => format!(in alloc; "Wire {}", wire_words(kind)),
        RecordFault::FrameVersion { found } => format!(in alloc; "FrameVersion {found}"),
        RecordFault::UnknownKey { key } => format!(in alloc; "UnknownKey {key}"),
        RecordFault::UnknownVersion { key, version } => {
            format!(in alloc; "UnknownVersion {key} {version}")
        }
        RecordFault::Trailing => String::from_str(alloc, "Trailing"),
        RecordFault::NoMemory => Err(AllocError),
    }
}

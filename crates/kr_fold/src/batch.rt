//! One batch after the other, from a source.

ghost use Rattle.std.specs.Prelude.{◌≡◌, ◌≤◌, ◌<◌, ◌^◌, None, IfOk, IfErr, IfSome, MatchResult, Ok, Err};
ghost use Rattle.kr_snapshot.specs.Reading.{size_at};
ghost use Rattle.kr_fold.specs.SourceBytes.{longest};
ghost use Rattle.kr_fold.specs.inner.SourceReads.{HasNone, IsEnd, IsNext};

use crate::fault::ToolFault;
use crate::piece::{Filled, fill};
use kr_base::Source;
use kr_batch::{BatchFault, LEAST_SIZE, START};
use kr_wire::{read_i64, read_u32};
use std::alloc::Global;

/// How many bytes there are behind the size of the batch at the front.
#[tactic(auto, unfolding(kr_snapshot::specs::Reading::size_at, kr_batch::specs::Reading::start_at))]
pub(crate) fn read_size(bytes: &[u8]) -> Result<u32, BatchFault>
    ensures read { MatchResult result (λ size. size_at bytes.now ≡ Ok size) (λ e. size_at bytes.now ≡ Err e) }
    ensures small { IfOk result (λ size. size < 2 ^ 31) }
{
    let (_base, next) = read_i64(bytes, 0)?;
    let (size, _next) = read_u32(bytes, next)?;
    if size < LEAST_SIZE || size >= 1 << 31 {
        return Err(BatchFault::Short);
    }
    Ok(size)
}

/// The bytes of the batch at the place `at` of the input, as many as its size says, or none where the input ends there.
pub(crate) fn read_batch<S: Source>(
    alloc: Global,
    source: &mut S,
    at: u64,
) -> Result<Option<Vec<u8>>, ToolFault>
    requires { at ≤ longest }
    ensures end { IfOk result (λ next. next ≡ None → IsEnd (S.left source.old) (S.left source.new) at) }
    ensures batch { IfOk result (λ next. IfSome next (λ bytes. IsNext (S.left source.old) (S.left source.new) at bytes.items)) }
    ensures none { IfErr result (λ fault. HasNone (S.left source.old) (S.left source.new) (S.faults source.old) (S.faults source.new) at fault) }
    ensures later { S.faults source.old ≤ S.faults source.new }
{
    let mut bytes = Vec::new(alloc);
    match fill(source, &mut bytes, START, at) {
        Ok(Filled::Full) => {}
        Ok(Filled::Ended) => {
            return if bytes.is_empty() {
                Ok(None)
            } else {
                Err(ToolFault::Malformed { at })
            };
        }
        Err(fault) => return Err(fault),
    }
    let size = match read_size(bytes.as_slice()) {
        Ok(size) => size as usize,
        Err(_) => return Err(ToolFault::Malformed { at }),
    };
    match fill(source, &mut bytes, START + size, at) {
        Ok(Filled::Full) => Ok(Some(bytes)),
        Ok(Filled::Ended) => Err(ToolFault::Malformed { at }),
        Err(fault) => Err(fault),
    }
}

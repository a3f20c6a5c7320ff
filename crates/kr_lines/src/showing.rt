//! Batches one after the other, and their lines.

ghost use Rattle.std.specs.Prelude.{◌≡◌, ◌⊎◌, ◌+◌, ◌≤◌, ◌^◌, ◌<◌, ◌++◌, [], take, length, None, IfOk, IfErr, IfSome, MatchResult, Ok, Err};
ghost use Rattle.kr_lines.specs.Endings.{IsTooShort, IsWhy, IsShown};
ghost use Rattle.kr_snapshot.specs.Reading.{size_at};
ghost use Rattle.kr_lines.specs.inner.Steps.{IsFront, IsNoText, IsShownTo, IsStopped, IsTextOf, fault_of as of_batch};

use crate::batch::batch_lines;
use crate::fault::ShowFault;
use kr_batch::{BatchFault, LEAST_SIZE, START, decode};
use kr_wire::{read_i64, read_u32};
use std::alloc::Global;

// How many bytes there are behind the size of the batch at the front.
#[tactic(auto, unfolding(kr_snapshot::specs::Reading::size_at, kr_batch::specs::Reading::start_at))]
fn read_size(bytes: &[u8]) -> Result<u32, BatchFault>
    ensures read { MatchResult result (λ size. size_at bytes.now ≡
        Ok size) (λ e. size_at bytes.now ≡ Err e) }
    ensures small { IfOk result (λ size. size < 2 ^ 31) }
{
    let (_base, next) = read_i64(bytes, 0)?;
    let (size, _next) = read_u32(bytes, next)?;
    if size < LEAST_SIZE || size >= 1 << 31 {
        return Err(BatchFault::Short);
    }
    Ok(size)
}

// How many bytes the batch at the front has, where it is whole.
fn front_len(bytes: &[u8]) -> Option<usize>
    ensures some { IfSome result (λ len. (len ≤ length bytes.now) × ((12 ≤ len) ×
        IsFront bytes.now len)) }
    ensures none { result ≡ None → IsTooShort bytes.now }
{
    let len = match read_size(bytes) {
        Ok(size) => size as usize + START,
        Err(_) => return None,
    };
    if bytes.len() < len {
        return None;
    }
    Some(len)
}

// The lines of the batch that stands in these bytes at the place `at`.
#[tactic(auto, using(crate::proofs::Fronts::batch_few, crate::proofs::Fronts::text_of_batch))]
fn text_of(alloc: Global, bytes: &[u8], at: u64) -> Result<Vec<u8>, ShowFault>
    ensures text { IfOk result (λ text. IsTextOf bytes.now text.items) }
    ensures refused { IfErr result (λ fault. IsNoText bytes.now at fault) }
{
    match decode(alloc, bytes) {
        Ok(batch) => match batch_lines(alloc, &batch, bytes) {
            Ok(text) => Ok(text),
            Err(_no_memory) => Err(ShowFault::NoMemory),
        },
        Err(cause) => Err(fault_of(at, cause)),
    }
}

fn fault_of(at: u64, cause: BatchFault) -> ShowFault
    ensures { result ≡ of_batch at cause }
{
    match cause {
        BatchFault::NoMemory => ShowFault::NoMemory,
        _ => ShowFault::Malformed { at, cause },
    }
}

// Appends the lines of the batch at the front of what stands at this place, and answers where it ends.
#[tactic(auto, using(crate::proofs::Fronts::shown_to, crate::proofs::Fronts::stopped_short, crate::proofs::Fronts::stopped_refused))]
fn show_front(
    alloc: Global,
    bytes: &[u8],
    at: usize,
    text: &mut Vec<u8>,
) -> Result<usize, ShowFault>
    requires { at < length bytes.now }
    ensures shown { IfOk result (λ next. IsShownTo bytes.now at text.old.items text.new.items
        next) }
    ensures why { IfErr result (λ fault. IsStopped bytes.now at text.old.items text.new.items
        fault) }
{
    let (_, rest) = bytes.split_at(at);
    let len = match front_len(rest) {
        Some(len) => len,
        None => {
            return Err(ShowFault::Malformed {
                at: at as u64,
                cause: BatchFault::Short,
            });
        }
    };
    let (front, _) = rest.split_at(len);
    let lines = match text_of(alloc, front, at as u64) {
        Ok(lines) => lines,
        Err(fault) => return Err(fault),
    };
    match text.extend_from_slice(&lines) {
        Ok(()) => Ok(at + len),
        Err(_) => Err(ShowFault::NoMemory),
    }
}

/// Appends the lines of the batches that stand behind a head of so many bytes, up to the first fault.
#[tactic(auto, using(crate::proofs::BatchByBatch::begins, crate::proofs::BatchByBatch::goes_on, crate::proofs::BatchByBatch::at_end, crate::proofs::BatchByBatch::broken))]
pub(crate) fn show_bytes(
    alloc: Global,
    bytes: &[u8],
    start: usize,
    text: &mut Vec<u8>,
) -> Result<(), ShowFault>
    requires head { start ≤ length bytes.now }
    requires empty { text.old.items ≡ [] }
    ensures { IsShown (IsWhy result) (take start bytes.now) bytes.now text.new.items }
{
    let mut at = start;
    while at < bytes.len() {
        at = match show_front(alloc, bytes, at, text) {
            Ok(next) => next,
            Err(fault) => return Err(fault),
        };
    }
    Ok(())
}

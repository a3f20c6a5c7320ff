//! An input, taken to its end, and shown.

ghost use Rattle.std.specs.Prelude.{◌≡◌, ◌+◌, ◌≤◌, ◌<◌, length, IfOk, IfErr, IfSome, IsErrOf, OnOk};
ghost use Rattle.std.specs.Io.KnownBytes.{IsAtEnd};
ghost use Rattle.kr_base.specs.Causes.{Rose};
ghost use Rattle.kr_wire.specs.Reading.{Reads};
ghost use Rattle.kr_snapshot.specs.Reading.{numbers_at};
ghost use Rattle.kr_lines.specs.Endings.{IsImageHead, IsLogHead, IsNotShown, ShowEnds, ShowsAll, TakesAll, longest_input};
ghost use Rattle.kr_lines.specs.inner.Runs.{TookBehind, IsHeadOf, IsPieceFault, IsNotTaken, IsStartOf};

use crate::fault::ShowFault;
use crate::showing::show_bytes;
use kr_base::{Sink, Source};
use kr_defs::limits::MOST_SESSION_BYTES;
use kr_wire::{WireFault, read_i64};
use std::alloc::Global;

// The most bytes of one read.
const PIECE: usize = 4096;

/// What is shown.
#[derive(Clone, Copy, Debug, Drop, PartialEq, Eq)]
pub(crate) enum Word {
    /// A log's batches.
    Log,
    /// An image.
    Image,
}

// How many bytes a read may bring, where so many were taken.
fn room(taken: usize) -> usize
    requires { taken < longest_input }
    ensures some { 0 < result }
    ensures piece { result ≤ 4096 }
    ensures fits { taken + result ≤ longest_input }
{
    PIECE.min((MOST_SESSION_BYTES - taken as u64) as usize)
}

// One read, whose bytes get behind the others. It answers how many came; none is the end of the input.
#[tactic(auto, using(crate::proofs::Runs::grew_by, crate::proofs::Runs::took_piece))]
fn read_piece<S: Source>(source: &mut S, bytes: &mut Vec<u8>) -> Result<usize, ShowFault>
    requires { length bytes.old.items < longest_input }
    ensures grew { OnOk result (TookBehind (S.left source.old) (S.left source.new) bytes.old.items
        bytes.new.items) }
    ensures count { IfOk result (λ count. length bytes.new.items ≡ length bytes.old.items + count) }
    ensures within { OnOk result (length bytes.new.items ≤ longest_input) }
    ensures end { IfOk result (λ count. count ≡ 0 → IsAtEnd (S.left source.new)) }
    ensures fault { IfErr result (λ fault. IsPieceFault (S.left source.old) (S.left source.new)
        (length bytes.old.items) fault) }
    ensures rose { IsErrOf result ShowFault.ReadFault →
        Rose (S.faults source.old) (S.faults source.new) }
    ensures later { S.faults source.old ≤ S.faults source.new }
{
    let mut piece = [0; PIECE];
    let (into, _) = piece.split_at_mut(room(bytes.len()));
    let count = match source.read(into) {
        Ok(count) => count,
        Err(_failed) => return Err(ShowFault::ReadFault),
    };
    let (come, _) = into.split_at(count);
    bytes.extend_from_slice(come)?;
    Ok(count)
}

// All bytes of the input.
#[tactic(auto, using(crate::proofs::Runs::consumes_none, crate::proofs::Runs::grew_behind, crate::proofs::Runs::fault_behind))]
fn read_all<S: Source>(alloc: Global, source: &mut S) -> Result<Vec<u8>, ShowFault>
    ensures all { IfOk result (λ bytes. TakesAll (S.left source.old) (S.left source.new)
        bytes.items) }
    ensures fault { IfErr result (λ fault. IsNotTaken (S.left source.old) (S.left source.new)
        fault) }
    ensures rose { IsErrOf result ShowFault.ReadFault →
        Rose (S.faults source.old) (S.faults source.new) }
    ensures later { S.faults source.old ≤ S.faults source.new }
{
    let mut bytes = Vec::new(alloc);
    while (bytes.len() as u64) < MOST_SESSION_BYTES {
        let count = match read_piece(source, &mut bytes) {
            Ok(count) => count,
            Err(fault) => return Err(fault),
        };
        if count == 0 {
            return Ok(bytes);
        }
    }
    Err(ShowFault::TooLong)
}

// The offset and the count of an image, and where they end.
#[tactic(auto, unfolding(kr_snapshot::specs::Reading::numbers_at))]
fn read_head(bytes: &[u8]) -> Result<((i64, u64), usize), WireFault>
    ensures { Reads (λ x. x) result bytes.now (numbers_at bytes.now) }
{
    let (offset, next) = read_i64(bytes, 0)?;
    let (count, next) = read_i64(bytes, next)?;
    if offset < 0 || count < 0 {
        return Err(WireFault::Short);
    }
    Ok(((offset, count.unsigned_abs()), next))
}

// Where the batches begin.
fn start_of(word: Word, bytes: &[u8]) -> Option<usize>
    ensures is { IsStartOf word bytes.now result }
    ensures within { IfSome result (λ start. start ≤ length bytes.now) }
{
    match word {
        Word::Log => Some(0),
        Word::Image => match read_head(bytes) {
            Ok((_numbers, start)) => Some(start),
            Err(_) => None,
        },
    }
}

// The lines of bytes.
#[tactic(auto, using(crate::proofs::Runs::shows_behind, crate::proofs::Runs::not_shown, crate::proofs::Runs::headless))]
fn lines_of(alloc: Global, word: Word, bytes: &[u8]) -> Result<Vec<u8>, ShowFault>
    ensures lines { IfOk result (λ text. ShowsAll (IsHeadOf word) bytes.now text.items) }
    ensures why { IfErr result (λ fault. IsNotShown (IsHeadOf word) bytes.now fault) }
{
    let start = match start_of(word, bytes) {
        Some(start) => start,
        None => return Err(ShowFault::BadHead),
    };
    let mut text = Vec::new(alloc);
    match show_bytes(alloc, bytes, start, &mut text) {
        Ok(()) => Ok(text),
        Err(fault) => Err(fault),
    }
}

/// The lines of the batches that all of the bytes are.
pub fn log_lines(alloc: Global, bytes: &[u8]) -> Result<Vec<u8>, ShowFault>
    ensures lines { IfOk result (λ text. ShowsAll IsLogHead bytes.now text.items) }
    ensures why { IfErr result (λ fault. IsNotShown IsLogHead bytes.now fault) }
{
    lines_of(alloc, Word::Log, bytes)
}

/// The same of an image: of its two numbers, and the batches behind them.
pub fn image_lines(alloc: Global, bytes: &[u8]) -> Result<Vec<u8>, ShowFault>
    ensures lines { IfOk result (λ text. ShowsAll IsImageHead bytes.now text.items) }
    ensures why { IfErr result (λ fault. IsNotShown IsImageHead bytes.now fault) }
{
    lines_of(alloc, Word::Image, bytes)
}

/// Shows all of an input.
#[tactic(auto, using(crate::proofs::Runs::not_read, crate::proofs::Runs::no_head, crate::proofs::Runs::head_of_start, crate::proofs::Runs::written_all, crate::proofs::Runs::written_front, crate::proofs::Runs::no_read, crate::proofs::Runs::no_write))]
pub(crate) fn show<S: Source, K: Sink>(
    alloc: Global,
    word: Word,
    input: &mut S,
    output: &mut K,
) -> Result<(), ShowFault>
    ensures ends { ShowEnds (IsHeadOf word) (S.left input.old) (S.left input.new) (K.written
        output.old) (K.written output.new) result }
    ensures read { IsErrOf result ShowFault.ReadFault →
        Rose (S.faults input.old) (S.faults input.new) }
    ensures write { IsErrOf result ShowFault.WriteFault →
        Rose (K.faults output.old) (K.faults output.new) }
{
    let bytes = match read_all(alloc, input) {
        Ok(bytes) => bytes,
        Err(fault) => return Err(fault),
    };
    let start = match start_of(word, bytes.as_slice()) {
        Some(start) => start,
        None => return Err(ShowFault::BadHead),
    };
    let mut text = Vec::new(alloc);
    let answer = show_bytes(alloc, bytes.as_slice(), start, &mut text);
    match output.put(text.as_slice()) {
        Ok(()) => answer,
        Err(_failed) => Err(ShowFault::WriteFault),
    }
}

//! The fields of a batch before its records.

ghost use Rattle.std.specs.Prelude.{◌≡◌, ◌≤◌, ◌≤ℤ◌, pos, length, drop, IfOk, IfSome, IsTrue, MatchResult, Ok, Err};
ghost use Rattle.std.specs.Result.{result_ok};
ghost use Rattle.kr_defs.specs.declared.limits.TheConstants.{MOST_RECORDS, PLACES_END};
ghost use Rattle.kr_batch.specs.declared.Batch.{Batch as AnyBatch};
ghost use Rattle.kr_batch.specs.Grammar;
ghost use Rattle.kr_batch.specs.Grammar.{IsBatch};
ghost use Rattle.kr_batch.specs.Reading;
ghost use Rattle.kr_batch.specs.Reading.{fixed_at, base_and_rest, head_in, head_of, start_at, sum_at, sum_of};

use crate::crc32c;
use crate::fault::BatchFault;
use kr_defs::limits::{MOST_RECORDS, PLACES_END};
use kr_wire::{piece, read_i8, read_i32, read_i64, read_u16, read_u32};

/// The bytes of a batch's base offset and of its size field, in Kafka's format, version 2.
pub const START: usize = 12;

/// The fewest bytes behind a batch's size field: its header, with no record.
pub const LEAST_SIZE: u32 = 49;

/// The base, and all that follows the size.
#[tactic(auto, unfolding(crate::specs::Reading::base_and_rest))]
pub(crate) fn read_place(bytes: &[u8]) -> Result<(i64, &[u8]), BatchFault>
    ensures { MatchResult result
        (λ x. base_and_rest bytes.now ≡ Ok (x.0, x.1.now))
        (λ e. base_and_rest bytes.now ≡ Err e) }
{
    let ((base, size), next) = read_start(bytes)?;
    let (_start, rest) = bytes.split_at(next);
    if is_short(size, rest.len()) {
        return Err(BatchFault::Short);
    }
    if (size as usize) < rest.len() {
        return Err(BatchFault::Trailing);
    }
    Ok((base, rest))
}

fn is_short(size: u32, rest: usize) -> bool
    ensures { result ≡ Reading.is_short size rest }
{
    size < LEAST_SIZE || size >= 1 << 31 || rest < size as usize
}

#[tactic(auto, unfolding(crate::specs::Reading::start_at))]
fn read_start(bytes: &[u8]) -> Result<((i64, u32), usize), BatchFault>
    ensures { MatchResult result
        (λ x. (start_at bytes.now ≡ Ok ((x.0.0, x.0.1), drop x.1 bytes.now)) × (x.1 ≤ length bytes.now))
        (λ e. start_at bytes.now ≡ Err e) }
{
    let (base, next) = read_i64(bytes, 0)?;
    let (size, next) = read_u32(bytes, next)?;
    Ok(((base, size), next))
}

/// The epoch, and what the CRC is over.
#[tactic(auto, unfolding(crate::specs::Reading::sum_of))]
pub(crate) fn read_sum(bytes: &[u8]) -> Result<(i32, &[u8]), BatchFault>
    ensures { MatchResult result
        (λ x. sum_of bytes.now ≡ Ok (x.0, x.1.now))
        (λ e. sum_of bytes.now ≡ Err e) }
{
    let ((epoch, stored), next) = read_stored(bytes)?;
    let (_start, checked) = bytes.split_at(next);
    let counted = crc32c(checked);
    if stored != counted {
        return Err(BatchFault::Crc { stored, counted });
    }
    Ok((epoch, checked))
}

#[tactic(auto, unfolding(crate::specs::Reading::sum_at))]
fn read_stored(bytes: &[u8]) -> Result<((i32, u32), usize), BatchFault>
    ensures { MatchResult result
        (λ x. (sum_at bytes.now ≡ Ok ((x.0.0, x.0.1), drop x.1 bytes.now)) × (x.1 ≤ length bytes.now))
        (λ e. sum_at bytes.now ≡ Err e) }
{
    let (epoch, next) = read_i32(bytes, 0)?;
    let (magic, next) = read_i8(bytes, next)?;
    if magic != 2 {
        return Err(BatchFault::Magic { found: magic });
    }
    let (crc, next) = read_u32(bytes, next)?;
    Ok(((epoch, crc), next))
}

/// Whether it is a control batch, its base timestamp, its count, and the records.
#[tactic(auto, unfolding(crate::specs::Reading::fixed_at))]
pub(crate) fn read_fixed(bytes: &[u8]) -> Result<((bool, i64, u32), &[u8]), BatchFault>
    ensures read { MatchResult result
        (λ x. fixed_at bytes.now ≡ Ok ((x.0.0, x.0.1, x.0.2), x.1.now))
        (λ e. fixed_at bytes.now ≡ Err e) }
    ensures some { IfOk result (λ x. 1 ≤ x.0.2) }
    ensures few { IfOk result (λ x. x.0.2 ≤ MOST_RECORDS) }
{
    let (attributes, next) = read_u16(bytes, 0)?;
    let kind = compression(attributes);
    if kind > 0 {
        return Err(BatchFault::Compressed { kind });
    }
    let (delta, next) = read_u32(bytes, next)?;
    let (time, next) = read_i64(bytes, next)?;
    let (_skipped, next) = piece(bytes, next, 22)?;
    let (count, next) = read_u32(bytes, next)?;
    if !is_count(count, delta) {
        return Err(BatchFault::BadCount {
            count: count.cast_signed(),
            delta: delta.cast_signed(),
        });
    }
    let (_start, records) = bytes.split_at(next);
    Ok(((is_control(attributes), time, count), records))
}

fn compression(attributes: u16) -> u8
    ensures { result ≡ Grammar.compression attributes }
{
    (attributes % 8) as u8
}

fn is_control(attributes: u16) -> bool
    ensures { result ≡ Grammar.is_control attributes }
{
    attributes / 32 % 2 == 1
}

fn is_count(count: u32, delta: u32) -> bool
    ensures test { result ≡ Reading.is_count count delta }
    ensures some { IsTrue result → 1 ≤ count }
    ensures few { IsTrue result → count ≤ MOST_RECORDS }
{
    count >= 1 && count as usize <= MOST_RECORDS && delta == count - 1
}

/// Where a batch stands, and how many places it takes.
#[derive(Clone, Copy, Debug, Drop, PartialEq, Eq)]
pub struct Heading {
    /// The offset of the first record, from 0 to 2^62.
    pub base: i64,
    /// The epoch of the leader that wrote the batch.
    pub epoch: i32,
    /// How many records it has, from 1 to 10,000.
    pub count: i32,
}

/// The heading of the batch, or `None`: exactly where one of the faults from `Short` to `BadCount` stands, or the base isn't
/// from 0 to 2^62. The records aren't read, and no memory is taken.
pub fn head(bytes: &[u8]) -> Option<Heading>
    ensures exact { result ≡ result_ok (head_of bytes.now) }
    ensures base { IfSome result (λ h. (pos 0 ≤ℤ h.base) × (h.base ≤ℤ PLACES_END)) }
    ensures count { IfSome result (λ h. (pos 1 ≤ℤ h.count) × (h.count ≤ℤ pos MOST_RECORDS)) }
    // It is that of the batch that the bytes stand for.
    ensures batch { (b : AnyBatch) → IsBatch b bytes.now → result ≡ head_in b }
{
    read_head(bytes).ok()
}

#[tactic(auto, unfolding(crate::specs::Reading::head_of))]
fn read_head(bytes: &[u8]) -> Result<Heading, BatchFault>
    ensures exact { result ≡ head_of bytes.now }
    ensures base { IfOk result (λ h. (pos 0 ≤ℤ h.base) × (h.base ≤ℤ PLACES_END)) }
    ensures count { IfOk result (λ h. (pos 1 ≤ℤ h.count) × (h.count ≤ℤ pos MOST_RECORDS)) }
{
    let (base, rest) = read_place(bytes)?;
    let (epoch, checked) = read_sum(rest)?;
    let ((_control, _time, count), _records) = read_fixed(checked)?;
    if !is_base(&base) {
        return Err(BatchFault::BadOffset { at: 0 });
    }
    Ok(Heading {
        base,
        epoch,
        count: count as i32,
    })
}

fn is_base(base: &i64) -> bool
    ensures test { result ≡ Reading.is_base base.now }
    ensures bounds { IsTrue result → (pos 0 ≤ℤ base.now) × (base.now ≤ℤ PLACES_END) }
{
    0 <= *base && *base <= PLACES_END
}

//! Batches to bytes.

ghost use Rattle.std.specs.Prelude.{◌≡◌, pos, ◌≤ℤ◌, ◌+◌, ◌-◌, ◌*◌, ◌/◌, ◌%◌, ◌<◌, ◌≤◌, ◌^◌, ◌++◌, take, drop, length, if◌then◌else◌, IfOk, OnOk, OnErr, FitsSigned, vec_len};
ghost use Rattle.std.specs.Int.{w64};
ghost use Rattle.std.specs.List.{All};
ghost use Rattle.kr_defs.specs.declared.limits.TheConstants.{MOST_RECORDS};
ghost use Rattle.kr_layout.specs.Answers.{Begins};
ghost use Rattle.kr_wire.specs.Spelling.{varint32};
ghost use Rattle.kr_record.specs.Encodable.{IsEncodable};
ghost use Rattle.kr_record.specs.Spelling.{record_value};
ghost use Rattle.kr_batch.specs.Crc as crc;
ghost use Rattle.kr_batch.specs.Grammar.{IsBatch};
ghost use Rattle.kr_batch.specs.BatchBytes.{RECORDS_END, VALUES_END, IsHeldItem, IsWritable, batch_bytes, checked_bytes, fixed_bytes, front_bytes, head_bytes, no_producer, record_body, record_bytes, records_bytes, start_bytes, item_value, values_size, whole_bytes};

use crate::{Batch, crc32c};
use kr_base::NoMemory;
use kr_defs::{Item, Record};
use kr_record::append;
use kr_wire::{
    FewBytes, put_bytes, put_i8, put_i16, put_i32, put_i64, put_u32, put_uvarint, put_varint,
};
use std::alloc::{AllocError, Global};

// The room that is taken at first for a record, in bytes. Most take less.
const RECORD_ROOM: usize = 64;

// What stands before the bytes that the CRC is over, and at their start before the records, in bytes.
const HEAD: usize = 21;

const FIXED: usize = 40;

/// Appends the batch. Without memory nothing changes.
#[tactic(auto, unfolding(crate::specs::BatchBytes::batch_bytes))]
pub fn encode(batch: &Batch, out: &mut Vec<u8>) -> Result<(), NoMemory>
    requires some { 1 ≤ length batch.now.items }
    requires few { length batch.now.items ≤ MOST_RECORDS }
    requires each { All IsWritable batch.now.items }
    requires small { values_size batch.now.items < VALUES_END }
    ensures ok { OnOk result (out.new.items ≡ out.old.items ++ batch_bytes batch.now) }
    ensures err { OnErr result (out.new.items ≡ out.old.items) }
    // What is appended stands for the batch, where its base is at least 0.
    ensures stands { pos 0 ≤ℤ batch.now.base → All IsHeldItem batch.now.items →
        OnOk result (IsBatch batch.now (batch_bytes batch.now)) }
{
    let room = HEAD + FIXED + RECORD_ROOM * batch.items.len();
    let mut whole = Vec::with_capacity(*out.allocator(), room)?;
    put_bytes(&mut whole, &[0; HEAD])?;
    put_checked(batch, &mut whole)?;
    set_head(batch.base, batch.epoch, &mut whole)?;
    Ok(give(whole, out)?)
}

/// Appends the batch of records that stand in bytes already, as `put_numbered` writes them, from 0 on. Without memory
/// nothing changes.
pub fn put_batch(
    base: i64,
    epoch: i32,
    time: i64,
    count: u32,
    records: &[u8],
    out: &mut Vec<u8>,
) -> Result<(), NoMemory>
    requires some { 1 ≤ count }
    requires small { length records.now < RECORDS_END }
    ensures ok { OnOk result (out.new.items ≡
        out.old.items ++ whole_bytes base epoch (fixed_bytes count time ++ records.now)) }
    ensures err { OnErr result (out.new.items ≡ out.old.items) }
{
    let mut whole = Vec::with_capacity(*out.allocator(), HEAD + FIXED + records.len())?;
    put_bytes(&mut whole, &[0; HEAD])?;
    put_fixed(count, time, &mut whole)?;
    put_bytes(&mut whole, records)?;
    set_head(base, epoch, &mut whole)?;
    Ok(give(whole, out)?)
}

// Appends the bytes. Where there are none before them, they aren't copied.
fn give(bytes: Vec<u8>, out: &mut Vec<u8>) -> Result<(), AllocError>
    ensures ok { OnOk result (out.new.items ≡ out.old.items ++ bytes.items) }
    ensures err { OnErr result (out.new.items ≡ out.old.items) }
{
    if out.is_empty() {
        *out = bytes;
        return Ok(());
    }
    out.extend_from_slice(&bytes)
}

// Sets the head, for which there is room before the bytes that the CRC is over.
#[tactic(auto, using(crate::proofs::Sizes::head_length))]
fn set_head(base: i64, epoch: i32, whole: &mut Vec<u8>) -> Result<(), AllocError>
    requires room { HEAD ≤ length whole.old.items }
    requires small { length whole.old.items < 2 ^ 32 }
    ensures { OnOk result (whole.new.items ≡ whole_bytes base epoch (drop HEAD whole.old.items)) }
{
    let head = head_of(*whole.allocator(), base, epoch, &whole[HEAD..])?;
    set_front(whole, &head);
    Ok(())
}

fn head_of(alloc: Global, base: i64, epoch: i32, checked: &[u8]) -> Result<Vec<u8>, AllocError>
    requires { length checked.now + 9 < 2 ^ 32 }
    ensures { IfOk result (λ h. h.items ≡
        head_bytes base (length checked.now + 9) epoch (crc.crc32c checked.now)) }
{
    let mut head = Vec::new(alloc);
    let size = checked.len() as u32 + 9;
    put_head(base, size, epoch, crc32c(checked), &mut head)?;
    Ok(head)
}

fn set_front(bytes: &mut [u8], front: &[u8])
    requires { length front.now ≤ length bytes.old }
    ensures bytes { bytes.new ≡ front.now ++ drop (length front.now) bytes.old }
    ensures len { length bytes.new ≡ length bytes.old }
{
    bytes[..front.len()].copy_from_slice(front);
}

// What stands before the bytes that the CRC is over.
#[tactic(auto, unfolding(crate::specs::BatchBytes::head_bytes))]
fn put_head(base: i64, size: u32, epoch: i32, crc: u32, out: &mut Vec<u8>) -> Result<(), AllocError>
    ensures { OnOk result (out.new.items ≡ out.old.items ++ head_bytes base size epoch crc) }
{
    put_start(base, size, epoch, out)?;
    put_i8(out, 2)?;
    put_u32(out, crc)
}

#[tactic(auto, unfolding(crate::specs::BatchBytes::start_bytes))]
fn put_start(base: i64, size: u32, epoch: i32, out: &mut Vec<u8>) -> Result<(), AllocError>
    ensures { OnOk result (out.new.items ≡ out.old.items ++ start_bytes base size epoch) }
{
    put_i64(out, base)?;
    put_u32(out, size)?;
    put_i32(out, epoch)
}

// What the CRC is over.
#[tactic(auto, unfolding(crate::specs::BatchBytes::checked_bytes))]
fn put_checked(batch: &Batch, out: &mut Vec<u8>) -> Result<(), NoMemory>
    requires some { 1 ≤ length batch.now.items }
    requires few { length batch.now.items ≤ MOST_RECORDS }
    requires each { All IsWritable batch.now.items }
    requires small { values_size batch.now.items < VALUES_END }
    ensures ok { OnOk result (out.new.items ≡ out.old.items ++ checked_bytes batch.now) }
    ensures time { FitsSigned w64 batch.now.time }
{
    put_fixed(batch.items.len() as u32, batch.time, out)?;
    put_records(batch.items.as_slice(), out)
}

#[tactic(auto, unfolding(crate::specs::BatchBytes::fixed_bytes))]
fn put_fixed(count: u32, time: i64, out: &mut Vec<u8>) -> Result<(), AllocError>
    requires { 1 ≤ count }
    ensures { OnOk result (out.new.items ≡ out.old.items ++ fixed_bytes count time) }
{
    put_i16(out, 0)?;
    put_u32(out, count - 1)?;
    put_i64(out, time)?;
    put_i64(out, time)?;
    put_no_producer(out)?;
    put_u32(out, count)
}

#[tactic(auto, unfolding(crate::specs::BatchBytes::no_producer))]
fn put_no_producer(out: &mut Vec<u8>) -> Result<(), AllocError>
    ensures { OnOk result (out.new.items ≡ out.old.items ++ no_producer) }
{
    put_i64(out, -1)?;
    put_i16(out, -1)?;
    put_i32(out, -1)
}

fn put_records(items: &[Item], out: &mut Vec<u8>) -> Result<(), NoMemory>
    requires few { length items.now ≤ MOST_RECORDS }
    requires each { All IsWritable items.now }
    requires small { values_size items.now < VALUES_END }
    ensures { OnOk result (out.new.items ≡ out.old.items ++ records_bytes 0 items.now) }
{
    let mut value = Vec::new(*out.allocator());
    for (number, item) in items.iter().enumerate() {
        put_item(number as u32, item, &mut value, out)?;
    }
    Ok(())
}

fn put_item(delta: u32, item: &Item, value: &mut Vec<u8>, out: &mut Vec<u8>) -> Result<(), NoMemory>
    requires delta { delta < MOST_RECORDS }
    requires each { IsWritable item.now }
    requires small { length (item_value item.now) < VALUES_END }
    ensures { OnOk result (out.new.items ≡
        out.old.items ++ record_bytes delta (item_value item.now)) }
{
    match item {
        Item::Record(record) => put_numbered(delta, record, value, out),
        Item::Control => Ok(()),
    }
}

/// Appends a record as it stands in a batch, where it has this number. Without memory what there was stays, and perhaps more
/// behind it.
/// `value` is room that is used again, whatever it has: a value of another length than the one there foretells is
/// written to it first.
pub fn put_numbered(
    delta: u32,
    record: &Record,
    value: &mut Vec<u8>,
    out: &mut Vec<u8>,
) -> Result<(), NoMemory>
    requires delta { delta < MOST_RECORDS }
    requires encodable { IsEncodable record.now }
    requires small { length (record_value record.now) < VALUES_END }
    ensures ok { OnOk result (out.new.items ≡
        out.old.items ++ record_bytes delta (record_value record.now)) }
    ensures err { OnErr result (Begins out.old.items out.new.items) }
{
    // This value most likely is as long as the last one that was written there.
    let is_placed = match value.len() {
        0..64 => put_placed(delta, record, 1, out)?,
        64..8192 => put_placed(delta, record, 2, out)?,
        _ => false,
    };
    if is_placed {
        return Ok(());
    }
    value.clear();
    append(record, value)?;
    put_record(delta, value, out)?;
    Ok(())
}

// A record whose size and whose value's length take so many bytes each: the value is written where it stays, and these two
// are put last. Whether they take so many: where they don't nothing is put.
#[inline(always)]
fn put_placed(
    delta: u32,
    record: &Record,
    width: usize,
    out: &mut Vec<u8>,
) -> Result<bool, NoMemory>
    requires delta { delta < MOST_RECORDS }
    requires encodable { IsEncodable record.now }
    requires some { 1 ≤ width }
    requires few { width ≤ 2 }
    ensures ok { IfOk result (λ is_so. out.new.items ≡
        (if is_so then out.old.items ++ record_bytes delta (record_value record.now) else out.old.items)) }
    ensures err { OnErr result (Begins out.old.items out.new.items) }
{
    let start = out.as_slice().len();
    put_bytes(out, &[0, 0, 0, 0][..width + 2])?;
    put_uvarint(out, 2 * delta)?;
    put_bytes(out, &[1, 0, 0][..width + 1])?;
    let at = out.as_slice().len();
    append(record, out)?;
    let len = out.as_slice().len() - at;
    if len < 8192 && varint_len(len as u32) == width as u32 {
        let size = body_len(delta, &out[at..]);
        if varint_len(size) == width as u32 {
            put_varint(out, 0)?;
            set_length(out, start, width, size);
            set_length(out, at - width, width, len as u32);
            return Ok(true);
        }
    }
    out.truncate(start);
    Ok(false)
}

// Sets a length that takes so many bytes, one or two.
#[inline(always)]
fn set_length(out: &mut Vec<u8>, at: usize, width: usize, len: u32)
    requires some { 1 ≤ width }
    requires few { width ≤ 2 }
    requires fits { length (varint32 (pos len)) ≡ width }
    requires room { at + width ≤ length out.old.items }
    ensures { out.new.items ≡
        take at out.old.items ++ varint32 (pos len) ++ drop (at + width) out.old.items }
{
    if width == 1 {
        out[at] = (2 * len) as u8;
    } else {
        out[at] = 128 + (2 * len % 128) as u8;
        out[at + 1] = (len / 64) as u8;
    }
}

#[tactic(auto, using(crate::proofs::Records::whole_record))]
fn put_record(delta: u32, value: &[u8], out: &mut Vec<u8>) -> Result<(), AllocError>
    requires delta { delta < MOST_RECORDS }
    requires value { length value.now < VALUES_END }
    ensures ok { OnOk result (out.new.items ≡ out.old.items ++ record_bytes delta value.now) }
    ensures err { OnErr result (Begins out.old.items out.new.items) }
{
    record_front(delta, value).put(out)?;
    out.extend_from_slice(value)?;
    put_varint(out, 0)
}

// What stands before the value of a record.
#[tactic(auto, unfolding(kr_wire::specs::Spelling::varint32, kr_wire::specs::Spelling::varint64, kr_wire::specs::Spelling::signed))]
#[inline(never)]
fn record_front(delta: u32, value: &[u8]) -> FewBytes
    requires delta { delta < MOST_RECORDS }
    requires value { length value.now < VALUES_END }
    ensures { result ≡ front_bytes delta value.now }
{
    let mut front = FewBytes::new();
    push_length(&mut front, body_len(delta, value));
    front.push(0);
    front.push(0);
    push_length(&mut front, delta);
    front.push(1);
    push_length(&mut front, value.len() as u32);
    front
}

// A varint that isn't negative.
#[tactic(auto, unfolding(kr_wire::specs::Spelling::uvarint, kr_wire::specs::Spelling::varint32))]
fn push_length(front: &mut FewBytes, len: u32)
    requires small { len < 2 ^ 31 }
    requires room { length front.old ≤ 19 }
    ensures length { front.new ≡ front.old ++ varint32 (pos len) }
    ensures few { length front.new ≤ length front.old + 5 }
{
    front.push_uvarint(2 * len);
}

#[tactic(auto, using(crate::proofs::Sizes::body_length))]
fn body_len(delta: u32, value: &[u8]) -> u32
    requires delta { delta < MOST_RECORDS }
    requires value { length value.now < VALUES_END }
    ensures size { result ≡ length (record_body delta value.now) }
    ensures small { result < 2 ^ 31 }
    ensures longer { length value.now ≤ result }
{
    let len = value.len() as u32;
    varint_len(delta) + varint_len(len) + len + 4
}

// How many bytes a varint has that isn't negative.
fn varint_len(value: u32) -> u32
    requires { value < 2 ^ 31 }
    ensures len { result ≡ length (varint32 (pos value)) }
    ensures small { result ≤ 5 }
{
    if value < 1 << 6 {
        1
    } else if value < 1 << 13 {
        2
    } else if value < 1 << 20 {
        3
    } else if value < 1 << 27 {
        4
    } else {
        5
    }
}

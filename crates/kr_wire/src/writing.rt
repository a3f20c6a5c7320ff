//! Writing at the end of some bytes.

ghost use Rattle.std.specs.Prelude.{◌≡◌, ◌+◌, ◌^◌, ◌<◌, ◌≤◌, [], ◌∷◌, ◌++◌, length, take, OnOk, OnErr, IfSome};
ghost use Rattle.std.specs.Int.{w8, w16, w32, w64};
ghost use Rattle.std.specs.Option.{option_map};
ghost use Rattle.kr_wire.specs.Grammar;
ghost use Rattle.kr_wire.specs.Spelling;
ghost use Rattle.kr_wire.specs.Spelling.{bool, groups, id, null, number, signed, tag, text, text_or_null, uvarint, varint32, varint64};

use crate::FewBytes;
use std::alloc::AllocError;

/// Bytes as they are. Where they fit and their number is known, this is a few instructions in line.
#[inline(always)]
pub fn put_bytes(out: &mut Vec<u8>, bytes: &[u8]) -> Result<(), AllocError>
    ensures ok { OnOk result (out.new.items ≡ out.old.items ++ bytes.now) }
    ensures err { OnErr result (out.new.items ≡ out.old.items) }
{
    if bytes.len() <= out.capacity() - out.len() {
        let _fits = out.extend_from_slice(bytes);
        return Ok(());
    }
    grow_by(out, bytes)
}

// The same, whether they fit or not.
#[cold]
#[inline(never)]
fn grow_by(out: &mut Vec<u8>, bytes: &[u8]) -> Result<(), AllocError>
    ensures ok { OnOk result (out.new.items ≡ out.old.items ++ bytes.now) }
    ensures err { OnErr result (out.new.items ≡ out.old.items) }
{
    out.extend_from_slice(bytes)
}

// One byte. Where it fits, only it and the length are stored.
#[inline(always)]
fn put_byte(out: &mut Vec<u8>, byte: u8) -> Result<(), AllocError>
    ensures ok { OnOk result (out.new.items ≡ out.old.items ++ byte ∷ []) }
    ensures err { OnErr result (out.new.items ≡ out.old.items) }
{
    if out.len() < out.capacity() {
        out.push_reserved(byte);
        return Ok(());
    }
    grow_by(out, &[byte])
}

// A number in groups of seven bits, with room for so many before the last.
#[inline(always)]
fn put_groups(out: &mut Vec<u8>, value: u64, room: usize) -> Result<(), AllocError>
    requires few { room ≤ 9 }
    requires fits { value < 128 ^ (room + 1) }
    ensures ok { OnOk result (out.new.items ≡ out.old.items ++ groups room value) }
    ensures err { OnErr result (out.new.items ≡ out.old.items) }
{
    if value < 128 {
        return put_byte(out, value as u8);
    }
    put_many_groups(out, value, room)
}

// The groups of a number that has two.
#[tactic(auto, using(crate::proofs::GroupWriting::two_groups))]
fn two_groups(value: u64, room: usize) -> [u8; 2]
    requires some { 1 ≤ room }
    requires big { 128 ≤ value }
    requires small { value < 16384 }
    ensures { result ≡ groups room value }
{
    [128 + (value % 128) as u8, (value / 128) as u8]
}

// The same, whatever the number.
#[inline(never)]
fn put_many_groups(out: &mut Vec<u8>, value: u64, room: usize) -> Result<(), AllocError>
    requires few { room ≤ 9 }
    requires fits { value < 128 ^ (room + 1) }
    ensures ok { OnOk result (out.new.items ≡ out.old.items ++ groups room value) }
    ensures err { OnErr result (out.new.items ≡ out.old.items) }
{
    if room > 0 && value >= 128 && value < 16384 {
        return put_bytes(out, &two_groups(value, room));
    }
    put_all_groups(out, value, room)
}

// The same. It stands alone, so that two groups need no room for more.
#[inline(never)]
fn put_all_groups(out: &mut Vec<u8>, value: u64, room: usize) -> Result<(), AllocError>
    requires few { room ≤ 9 }
    requires fits { value < 128 ^ (room + 1) }
    ensures ok { OnOk result (out.new.items ≡ out.old.items ++ groups room value) }
    ensures err { OnErr result (out.new.items ≡ out.old.items) }
{
    let mut bytes = FewBytes::new();
    bytes.push_groups(value, room);
    bytes.put(out)
}

/// A number in groups of seven bits, the low groups first, in the fewest bytes.
#[tactic(auto, unfolding(crate::specs::Spelling::uvarint))]
#[inline(always)]
pub fn put_uvarint(out: &mut Vec<u8>, value: u32) -> Result<(), AllocError>
    ensures ok { OnOk result (out.new.items ≡ out.old.items ++ uvarint value) }
    ensures err { OnErr result (out.new.items ≡ out.old.items) }
{
    put_groups(out, u64::from(value), 4)
}

// The number without a sign that stands for this one.
fn zigzag(value: i64) -> u64
    ensures { result ≡ Grammar.zigzag value }
{
    if value < 0 {
        2 * (-(value + 1)) as u64 + 1
    } else {
        2 * value as u64
    }
}

/// A number with a sign in zigzag form, of 32 bits.
#[tactic(auto, unfolding(crate::specs::Spelling::varint32))]
#[inline(always)]
pub fn put_varint(out: &mut Vec<u8>, value: i32) -> Result<(), AllocError>
    ensures ok { OnOk result (out.new.items ≡ out.old.items ++ varint32 value) }
    ensures err { OnErr result (out.new.items ≡ out.old.items) }
{
    put_groups(out, zigzag(i64::from(value)), 4)
}

/// A number with a sign in zigzag form, of 64 bits.
#[tactic(auto, unfolding(crate::specs::Spelling::varint64))]
#[inline(always)]
pub fn put_varlong(out: &mut Vec<u8>, value: i64) -> Result<(), AllocError>
    ensures ok { OnOk result (out.new.items ≡ out.old.items ++ varint64 value) }
    ensures err { OnErr result (out.new.items ≡ out.old.items) }
{
    put_groups(out, zigzag(value), 9)
}

/// Both, or neither.
#[inline(never)]
pub fn put_both(out: &mut Vec<u8>, first: &[u8], second: &[u8]) -> Result<(), AllocError>
    ensures ok { OnOk result (out.new.items ≡ out.old.items ++ (first.now ++ second.now)) }
    ensures err { OnErr result (out.new.items ≡ out.old.items) }
{
    let before = out.len();
    out.extend_from_slice(first)?;
    if let Err(refused) = out.extend_from_slice(second) {
        out.truncate(before);
        return Err(refused);
    }
    Ok(())
}

/// Two bytes, high byte first.
#[tactic(auto, unfolding(crate::specs::Spelling::number))]
#[inline(always)]
pub fn put_u16(out: &mut Vec<u8>, value: u16) -> Result<(), AllocError>
    ensures ok { OnOk result (out.new.items ≡ out.old.items ++ number w16 value) }
    ensures err { OnErr result (out.new.items ≡ out.old.items) }
{
    put_bytes(out, &value.to_be_bytes())
}

/// Four bytes, high byte first.
#[tactic(auto, unfolding(crate::specs::Spelling::number))]
#[inline(always)]
pub fn put_u32(out: &mut Vec<u8>, value: u32) -> Result<(), AllocError>
    ensures ok { OnOk result (out.new.items ≡ out.old.items ++ number w32 value) }
    ensures err { OnErr result (out.new.items ≡ out.old.items) }
{
    put_bytes(out, &value.to_be_bytes())
}

/// Eight bytes, high byte first.
#[tactic(auto, unfolding(crate::specs::Spelling::number))]
#[inline(always)]
pub fn put_u64(out: &mut Vec<u8>, value: u64) -> Result<(), AllocError>
    ensures ok { OnOk result (out.new.items ≡ out.old.items ++ number w64 value) }
    ensures err { OnErr result (out.new.items ≡ out.old.items) }
{
    put_bytes(out, &value.to_be_bytes())
}

/// One byte, in two's complement.
#[tactic(auto, unfolding(crate::specs::Spelling::signed))]
#[inline(always)]
pub fn put_i8(out: &mut Vec<u8>, value: i8) -> Result<(), AllocError>
    ensures ok { OnOk result (out.new.items ≡ out.old.items ++ signed w8 value) }
    ensures err { OnErr result (out.new.items ≡ out.old.items) }
{
    put_bytes(out, &value.to_be_bytes())
}

/// Two bytes, high byte first, in two's complement.
#[tactic(auto, unfolding(crate::specs::Spelling::signed))]
#[inline(always)]
pub fn put_i16(out: &mut Vec<u8>, value: i16) -> Result<(), AllocError>
    ensures ok { OnOk result (out.new.items ≡ out.old.items ++ signed w16 value) }
    ensures err { OnErr result (out.new.items ≡ out.old.items) }
{
    put_bytes(out, &value.to_be_bytes())
}

/// Four bytes, high byte first, in two's complement.
#[tactic(auto, unfolding(crate::specs::Spelling::signed))]
#[inline(always)]
pub fn put_i32(out: &mut Vec<u8>, value: i32) -> Result<(), AllocError>
    ensures ok { OnOk result (out.new.items ≡ out.old.items ++ signed w32 value) }
    ensures err { OnErr result (out.new.items ≡ out.old.items) }
{
    if out.capacity() - out.len() >= 4 {
        let _fits = out.extend_from_slice(&value.to_be_bytes());
        return Ok(());
    }
    grow_by_i32(out, value)
}

// The same, whether it fits or not. It is given the number, whose bytes so needn't stand in memory where they fit.
#[tactic(auto, unfolding(crate::specs::Spelling::signed))]
#[cold]
#[inline(never)]
fn grow_by_i32(out: &mut Vec<u8>, value: i32) -> Result<(), AllocError>
    ensures ok { OnOk result (out.new.items ≡ out.old.items ++ signed w32 value) }
    ensures err { OnErr result (out.new.items ≡ out.old.items) }
{
    out.extend_from_slice(&value.to_be_bytes())
}

/// Eight bytes, high byte first, in two's complement.
#[tactic(auto, unfolding(crate::specs::Spelling::signed))]
#[inline(always)]
pub fn put_i64(out: &mut Vec<u8>, value: i64) -> Result<(), AllocError>
    ensures ok { OnOk result (out.new.items ≡ out.old.items ++ signed w64 value) }
    ensures err { OnErr result (out.new.items ≡ out.old.items) }
{
    put_bytes(out, &value.to_be_bytes())
}

/// One byte, 1 for true.
#[inline(always)]
pub fn put_bool(out: &mut Vec<u8>, value: bool) -> Result<(), AllocError>
    ensures ok { OnOk result (out.new.items ≡ out.old.items ++ bool value) }
    ensures err { OnErr result (out.new.items ≡ out.old.items) }
{
    put_byte(out, u8::from(value))
}

/// Sixteen bytes, high byte first.
#[tactic(auto, unfolding(crate::specs::Spelling::id, crate::specs::Spelling::number))]
#[inline(always)]
pub fn put_id(out: &mut Vec<u8>, value: u128) -> Result<(), AllocError>
    ensures ok { OnOk result (out.new.items ≡ out.old.items ++ id value) }
    ensures err { OnErr result (out.new.items ≡ out.old.items) }
{
    put_halves(out, (value >> 64) as u64, (value % (1 << 64)) as u64)
}

// The halves of an id. In line, where the compiler sees that they are halves, it takes the low one apart byte by byte.
#[tactic(auto, unfolding(crate::specs::Spelling::number))]
#[inline(never)]
fn put_halves(out: &mut Vec<u8>, high: u64, low: u64) -> Result<(), AllocError>
    ensures ok { OnOk result (out.new.items ≡ out.old.items ++ (number w64 high ++ number w64 low)) }
    ensures err { OnErr result (out.new.items ≡ out.old.items) }
{
    if out.capacity() - out.len() >= 16 {
        let mut bytes = [0; 16];
        bytes[..8].copy_from_slice(&high.to_be_bytes());
        bytes[8..].copy_from_slice(&low.to_be_bytes());
        let _fits = out.extend_from_slice(&bytes);
        return Ok(());
    }
    put_both(out, &high.to_be_bytes(), &low.to_be_bytes())
}

/// A text behind its length plus one.
#[tactic(auto, unfolding(crate::specs::Spelling::uvarint))]
pub fn put_str(out: &mut Vec<u8>, value: &str) -> Result<(), AllocError>
    requires { length value.now < 2 ^ 31 }
    ensures ok { OnOk result (out.new.items ≡ out.old.items ++ text value.now) }
    ensures err { OnErr result (out.new.items ≡ out.old.items) }
{
    let before = out.len();
    put_groups(out, value.len() as u64 + 1, 4)?;
    if let Err(refused) = out.extend_from_slice(value.as_bytes()) {
        out.truncate(before);
        return Err(refused);
    }
    Ok(())
}

/// A text, or null.
pub fn put_str_or_null(out: &mut Vec<u8>, value: Option<&str>) -> Result<(), AllocError>
    requires { IfSome value (λ t. length t.now < 2 ^ 31) }
    ensures ok { OnOk result (out.new.items ≡ out.old.items ++ text_or_null (option_map (λ t. t.now) value.entry)) }
    ensures err { OnErr result (out.new.items ≡ out.old.items) }
{
    match value {
        None => put_null(out),
        Some(text) => put_str(out, text),
    }
}

/// The count of a list, plus one.
#[inline(always)]
pub fn put_count(out: &mut Vec<u8>, count: u32) -> Result<(), AllocError>
    requires { count < 2 ^ 31 }
    ensures ok { OnOk result (out.new.items ≡ out.old.items ++ Spelling.count count) }
    ensures err { OnErr result (out.new.items ≡ out.old.items) }
{
    put_uvarint(out, count + 1)
}

/// What stands for null, of a text or of a list.
#[inline(always)]
pub fn put_null(out: &mut Vec<u8>) -> Result<(), AllocError>
    ensures ok { OnOk result (out.new.items ≡ out.old.items ++ null) }
    ensures err { OnErr result (out.new.items ≡ out.old.items) }
{
    put_uvarint(out, 0)
}

/// The number of a tagged field and the size of its data, which are to follow.
#[tactic(auto, unfolding(crate::specs::Spelling::uvarint))]
#[inline(always)]
pub fn put_tag(out: &mut Vec<u8>, number: u32, size: u32) -> Result<(), AllocError>
    ensures ok { OnOk result (out.new.items ≡ out.old.items ++ tag number size) }
    ensures err { OnErr result (out.new.items ≡ out.old.items) }
{
    if number < 128 && size < 128 && out.capacity() - out.len() >= 2 {
        out.push_reserved(number as u8);
        out.push_reserved(size as u8);
        return Ok(());
    }
    put_any_tag(out, number, size)
}

// The same, whatever the numbers and the room.
#[tactic(auto, unfolding(crate::specs::Spelling::uvarint))]
#[inline(never)]
fn put_any_tag(out: &mut Vec<u8>, number: u32, size: u32) -> Result<(), AllocError>
    ensures ok { OnOk result (out.new.items ≡ out.old.items ++ tag number size) }
    ensures err { OnErr result (out.new.items ≡ out.old.items) }
{
    let mut bytes = FewBytes::new();
    bytes.push_uvarint(number);
    bytes.push_uvarint(size);
    bytes.put(out)
}

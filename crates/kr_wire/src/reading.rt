//! Reading at a place of some bytes.

ghost use Rattle.std.specs.Prelude.{◌≡◌, ◌==◌, false, true, ◌+◌, ◌-◌, ◌*◌, ◌^◌, ◌<◌, ◌≤◌, ◌∷◌, length, drop, slice_range, IfOk, IfSome, FitsSigned, MatchResult, IsTrue, IsUtf8};
ghost use Rattle.std.specs.Int.{w8, w16, w32, w64};
ghost use Rattle.std.specs.Option.{option_map};
ghost use Rattle.std.specs.Str.{is_utf8};
ghost use Rattle.kr_wire.specs.Reading;
ghost use Rattle.kr_wire.specs.Reading.{Reads, Skips, bool_at, count_at, count_or_null_at, fields_at, groups_at, id_at, none_known, number_at, piece_at, room_at, signed_at, tag_at, tags_at, text_at, text_or_null_at, utf8_at, uvarint_at, uvarlong_at, varint32_at, varint64_at, varint_at};

use crate::WireFault;

// The last of several groups, and the place behind it.
fn last_group(byte: u8, next: usize) -> Result<(u64, usize), WireFault>
    ensures test { MatchResult result (λ x. (byte == 0) ≡ false) (λ e. ((byte == 0) ≡ true) × (e ≡ WireFault.Overlong)) }
    ensures value { IfOk result (λ x. x.0 ≡ byte) }
    ensures next { IfOk result (λ x. x.1 ≡ next) }
{
    if byte == 0 {
        return Err(WireFault::Overlong);
    }
    Ok((u64::from(byte), next))
}

// The groups of seven bits behind the first: with no more room the last is `top` at most.
fn read_groups(bytes: &[u8], at: usize, top: u8, room: u8) -> Result<(u64, usize), WireFault>
    requires start { at ≤ length bytes.now }
    requires small { room ≤ 8 }
    requires low { top ≤ 15 }
    ensures read { Reads (λ n. n) result bytes.now (groups_at top room (drop at bytes.now)) }
    ensures bound { IfOk result (λ x. x.0 < (top + 1) * 128 ^ room) }
{
    if at == bytes.len() {
        return Err(WireFault::Short);
    }
    let byte = bytes[at];
    if room == 0 {
        if byte > top {
            return Err(WireFault::TooBig);
        }
        return last_group(byte, at + 1);
    }
    if byte < 128 {
        return last_group(byte, at + 1);
    }
    let (high, next) = read_groups(bytes, at + 1, top, room - 1)?;
    Ok((u64::from(byte - 128) + 128 * high, next))
}

// A number in groups of seven bits, the low groups first.
#[inline(always)]
fn read_number(bytes: &[u8], at: usize, top: u8, room: u8) -> Result<(u64, usize), WireFault>
    requires start { at ≤ length bytes.now }
    requires small { room ≤ 8 }
    requires low { top ≤ 15 }
    requires fits { (top + 1) * 128 ^ (room + 1) ≤ 2 ^ 64 }
    ensures read { Reads (λ n. n) result bytes.now (varint_at top room (drop at bytes.now)) }
    ensures bound { IfOk result (λ x. x.0 < (top + 1) * 128 ^ (room + 1)) }
{
    if at == bytes.len() {
        return Err(WireFault::Short);
    }
    let byte = bytes[at];
    if byte < 128 {
        return Ok((u64::from(byte), at + 1));
    }
    read_long(bytes, byte, at + 1, top, room)
}

// The same behind its first byte, where that isn't the last.
#[inline(always)]
fn read_long(
    bytes: &[u8],
    first: u8,
    at: usize,
    top: u8,
    room: u8,
) -> Result<(u64, usize), WireFault>
    requires long { 128 ≤ first }
    requires start { at ≤ length bytes.now }
    requires small { room ≤ 8 }
    requires low { top ≤ 15 }
    requires fits { (top + 1) * 128 ^ (room + 1) ≤ 2 ^ 64 }
    ensures read { Reads (λ n. n) result bytes.now (varint_at top room (first ∷ drop at bytes.now)) }
    ensures bound { IfOk result (λ x. x.0 < (top + 1) * 128 ^ (room + 1)) }
{
    if room > 0 && at < bytes.len() && bytes[at] > 0 && bytes[at] < 128 {
        return Ok((u64::from(first - 128) + 128 * u64::from(bytes[at]), at + 1));
    }
    read_longer(bytes, first, at, top, room)
}

// The same, however many groups there are. It stands alone, so that a number of one byte or two needs no room for them.
#[inline(always)]
fn read_longer(
    bytes: &[u8],
    first: u8,
    at: usize,
    top: u8,
    room: u8,
) -> Result<(u64, usize), WireFault>
    requires long { 128 ≤ first }
    requires start { at ≤ length bytes.now }
    requires small { room ≤ 8 }
    requires low { top ≤ 15 }
    requires fits { (top + 1) * 128 ^ (room + 1) ≤ 2 ^ 64 }
    ensures read { Reads (λ n. n) result bytes.now (varint_at top room (first ∷ drop at bytes.now)) }
    ensures bound { IfOk result (λ x. x.0 < (top + 1) * 128 ^ (room + 1)) }
{
    let (high, next) = read_groups(bytes, at, top, room)?;
    Ok((u64::from(first - 128) + 128 * high, next))
}

/// A number of 32 bits in groups of seven, the low groups first, in at most five bytes. The fault is
/// `Short`, `TooBig` or `Overlong`, whichever is met first.
#[inline(always)]
#[tactic(auto, unfolding(crate::specs::Reading::uvarint_at))]
pub fn read_uvarint(bytes: &[u8], at: usize) -> Result<(u32, usize), WireFault>
    requires { at ≤ length bytes.now }
    ensures { Reads (λ n. n) result bytes.now (uvarint_at (drop at bytes.now)) }
{
    let (number, next) = read_number(bytes, at, 15, 3)?;
    Ok((number as u32, next))
}

#[tactic(auto, unfolding(crate::specs::Reading::uvarlong_at))]
fn read_uvarlong(bytes: &[u8], at: usize) -> Result<(u64, usize), WireFault>
    requires { at ≤ length bytes.now }
    ensures { Reads (λ n. n) result bytes.now (uvarlong_at (drop at bytes.now)) }
{
    read_number(bytes, at, 1, 8)
}

// The number that zigzag writes so.
fn unzigzag(number: u64) -> i64
    ensures value { result ≡ Reading.unzigzag number }
    ensures short { number < 2 ^ 32 → FitsSigned w32 result }
{
    let half = (number / 2) as i64;
    if number % 2 == 0 { half } else { -half - 1 }
}

/// A number with a sign in zigzag form, of 32 bits, with the faults of `read_uvarint`.
#[tactic(auto, unfolding(crate::specs::Reading::varint32_at))]
pub fn read_varint(bytes: &[u8], at: usize) -> Result<(i32, usize), WireFault>
    requires { at ≤ length bytes.now }
    ensures { Reads (λ n. n) result bytes.now (varint32_at (drop at bytes.now)) }
{
    let (number, next) = read_uvarint(bytes, at)?;
    Ok((unzigzag(u64::from(number)) as i32, next))
}

/// A number with a sign in zigzag form, of 64 bits, in at most ten bytes, with the faults of
/// `read_uvarint`.
#[tactic(auto, unfolding(crate::specs::Reading::varint64_at))]
pub fn read_varlong(bytes: &[u8], at: usize) -> Result<(i64, usize), WireFault>
    requires { at ≤ length bytes.now }
    ensures { Reads (λ n. n) result bytes.now (varint64_at (drop at bytes.now)) }
{
    let (number, next) = read_uvarlong(bytes, at)?;
    Ok((unzigzag(number), next))
}

/// So many bytes, and the place behind them.
#[inline(always)]
pub fn piece(bytes: &[u8], at: usize, len: usize) -> Result<(&[u8], usize), WireFault>
    requires { at ≤ length bytes.now }
    ensures read { Reads (λ s. s.now) result bytes.now (piece_at len (drop at bytes.now)) }
    ensures at { IfOk result (λ x. (x.1 ≡ at + len) × (x.0.now ≡ slice_range bytes.now at x.1)) }
{
    if bytes.len() - at < len {
        return Err(WireFault::Short);
    }
    let end = at + len;
    Ok((&bytes[at..end], end))
}

fn read_byte(bytes: &[u8], at: usize) -> Result<(u8, usize), WireFault>
    requires { at ≤ length bytes.now }
    ensures { Reads (λ n. n) result bytes.now (number_at w8 (drop at bytes.now)) }
{
    let (piece, next) = piece(bytes, at, 1)?;
    Ok((piece[0], next))
}

/// Two bytes, high byte first, or `Short`.
pub fn read_u16(bytes: &[u8], at: usize) -> Result<(u16, usize), WireFault>
    requires { at ≤ length bytes.now }
    ensures { Reads (λ n. n) result bytes.now (number_at w16 (drop at bytes.now)) }
{
    let (piece, next) = piece(bytes, at, 2)?;
    let number = u16::from_be_bytes([piece[0], piece[1]]);
    Ok((number, next))
}

/// Four bytes, high byte first, or `Short`.
pub fn read_u32(bytes: &[u8], at: usize) -> Result<(u32, usize), WireFault>
    requires { at ≤ length bytes.now }
    ensures { Reads (λ n. n) result bytes.now (number_at w32 (drop at bytes.now)) }
{
    let (piece, next) = piece(bytes, at, 4)?;
    let number = u32::from_be_bytes([piece[0], piece[1], piece[2], piece[3]]);
    Ok((number, next))
}

/// Eight bytes, high byte first, or `Short`.
pub fn read_u64(bytes: &[u8], at: usize) -> Result<(u64, usize), WireFault>
    requires { at ≤ length bytes.now }
    ensures { Reads (λ n. n) result bytes.now (number_at w64 (drop at bytes.now)) }
{
    let (piece, next) = piece(bytes, at, 8)?;
    let number = u64::from_be_bytes([
        piece[0], piece[1], piece[2], piece[3], piece[4], piece[5], piece[6], piece[7],
    ]);
    Ok((number, next))
}

/// One byte, in two's complement, or `Short`.
pub fn read_i8(bytes: &[u8], at: usize) -> Result<(i8, usize), WireFault>
    requires { at ≤ length bytes.now }
    ensures { Reads (λ n. n) result bytes.now (signed_at w8 (drop at bytes.now)) }
{
    let (bits, next) = read_byte(bytes, at)?;
    Ok((bits.cast_signed(), next))
}

/// Two bytes, high byte first, in two's complement, or `Short`.
pub fn read_i16(bytes: &[u8], at: usize) -> Result<(i16, usize), WireFault>
    requires { at ≤ length bytes.now }
    ensures { Reads (λ n. n) result bytes.now (signed_at w16 (drop at bytes.now)) }
{
    let (bits, next) = read_u16(bytes, at)?;
    Ok((bits.cast_signed(), next))
}

/// Four bytes, high byte first, in two's complement, or `Short`.
pub fn read_i32(bytes: &[u8], at: usize) -> Result<(i32, usize), WireFault>
    requires { at ≤ length bytes.now }
    ensures { Reads (λ n. n) result bytes.now (signed_at w32 (drop at bytes.now)) }
{
    let (bits, next) = read_u32(bytes, at)?;
    Ok((bits.cast_signed(), next))
}

/// Eight bytes, high byte first, in two's complement, or `Short`.
pub fn read_i64(bytes: &[u8], at: usize) -> Result<(i64, usize), WireFault>
    requires { at ≤ length bytes.now }
    ensures { Reads (λ n. n) result bytes.now (signed_at w64 (drop at bytes.now)) }
{
    let (bits, next) = read_u64(bytes, at)?;
    Ok((bits.cast_signed(), next))
}

/// One byte, of which 0 alone is false, or `Short`.
pub fn read_bool(bytes: &[u8], at: usize) -> Result<(bool, usize), WireFault>
    requires { at ≤ length bytes.now }
    ensures { Reads (λ b. b) result bytes.now (bool_at (drop at bytes.now)) }
{
    let (byte, next) = read_byte(bytes, at)?;
    Ok((byte != 0, next))
}

/// Sixteen bytes, high byte first, or `Short`.
#[tactic(auto, unfolding(crate::specs::Reading::id_at))]
pub fn read_id(bytes: &[u8], at: usize) -> Result<(u128, usize), WireFault>
    requires { at ≤ length bytes.now }
    ensures { Reads (λ n. n) result bytes.now (id_at (drop at bytes.now)) }
{
    let (high, next) = read_u64(bytes, at)?;
    let (low, next) = read_u64(bytes, next)?;
    Ok((u128::from(high) << 64 | u128::from(low), next))
}

/// Where the bytes of a text stand.
#[derive(Clone, Copy, Debug, Drop, PartialEq, Eq)]
pub struct Span {
    /// The place of the first byte.
    pub start: usize,
    /// The place behind the last.
    pub end: usize,
}

/// A text behind its length plus one, and where its bytes stand. The fault is that of the length,
/// `BadNull`, `Short` or `BadText`, in this order.
#[tactic(auto, unfolding(crate::specs::Reading::text_at))]
pub fn read_str(bytes: &[u8], at: usize) -> Result<(Span, usize), WireFault>
    requires { at ≤ length bytes.now }
    ensures read { Reads (λ s. slice_range bytes.now s.start s.end) result bytes.now (text_at (drop at bytes.now)) }
    ensures span { IfOk result (λ x. (x.0.start ≤ x.0.end) × (x.0.end ≤ length bytes.now)) }
    ensures utf8 { IfOk result (λ x. IsUtf8 (slice_range bytes.now x.0.start x.0.end)) }
{
    let (size, start) = read_uvarint(bytes, at)?;
    if size == 0 {
        return Err(WireFault::BadNull);
    }
    read_utf8(bytes, start, (size - 1) as usize)
}

/// A text, or null. The fault is that of the length, `Short` or `BadText`, in this order.
#[tactic(auto, unfolding(crate::specs::Reading::text_or_null_at))]
pub fn read_str_or_null(bytes: &[u8], at: usize) -> Result<(Option<Span>, usize), WireFault>
    requires { at ≤ length bytes.now }
    ensures read { Reads (λ o. option_map (λ s. slice_range bytes.now s.start s.end) o) result bytes.now (text_or_null_at (drop at bytes.now)) }
    ensures span { IfOk result (λ x. IfSome x.0 (λ s. (s.start ≤ s.end) × (s.end ≤ length bytes.now))) }
    ensures utf8 { IfOk result (λ x. IfSome x.0 (λ s. IsUtf8 (slice_range bytes.now s.start s.end))) }
{
    match read_uvarint(bytes, at)? {
        (0, next) => Ok((None, next)),
        (size, start) => {
            let len = (size - 1) as usize;
            let (text, next) = read_utf8(bytes, start, len)?;
            Ok((Some(text), next))
        }
    }
}

/// A text behind its length plus one, where it stands. The fault is that of the length, `BadNull`,
/// `Short` or `BadText`, in this order.
#[inline(always)]
#[tactic(auto, unfolding(crate::specs::Reading::text_at))]
pub fn read_text(bytes: &[u8], at: usize) -> Result<(&str, usize), WireFault>
    requires { at ≤ length bytes.now }
    ensures { Reads (λ t. t.now) result bytes.now (text_at (drop at bytes.now)) }
{
    let (size, start) = read_uvarint(bytes, at)?;
    if size == 0 {
        return Err(WireFault::BadNull);
    }
    text_piece(bytes, start, (size - 1) as usize)
}

/// A text where it stands, or null. The fault is that of the length, `Short` or `BadText`, in this order.
#[inline(always)]
#[tactic(auto, unfolding(crate::specs::Reading::text_or_null_at))]
pub fn read_text_or_null(bytes: &[u8], at: usize) -> Result<(Option<&str>, usize), WireFault>
    requires { at ≤ length bytes.now }
    ensures { Reads (λ o. option_map (λ t. t.now) o) result bytes.now (text_or_null_at (drop at bytes.now)) }
{
    match read_uvarint(bytes, at)? {
        (0, next) => Ok((None, next)),
        (size, start) => {
            let (text, next) = text_piece(bytes, start, (size - 1) as usize)?;
            Ok((Some(text), next))
        }
    }
}

// So many bytes of UTF-8.
#[inline(always)]
#[tactic(auto, using(crate::proofs::Texts::text_passes, crate::proofs::Texts::other_fails))]
fn text_piece(bytes: &[u8], start: usize, len: usize) -> Result<(&str, usize), WireFault>
    requires { start ≤ length bytes.now }
    ensures { Reads (λ t. t.now) result bytes.now (utf8_at len (drop start bytes.now)) }
{
    let (piece, end) = piece(bytes, start, len)?;
    Ok((text_of(piece)?, end))
}

#[inline(always)]
#[tactic(auto, using(crate::proofs::Texts::text_passes, crate::proofs::Texts::other_fails))]
fn text_of(bytes: &[u8]) -> Result<&str, WireFault>
    ensures { MatchResult result
        (λ t. (true ≡ is_utf8 bytes.now) × (t.now ≡ bytes.now))
        (λ e. (false ≡ is_utf8 bytes.now) × (e ≡ WireFault.BadText)) }
{
    match str::from_utf8(bytes) {
        Ok(text) => Ok(text),
        Err(_) => Err(WireFault::BadText),
    }
}

/// So many bytes of UTF-8, and where they stand, or `Short` or `BadText`, in this order.
pub fn read_utf8(bytes: &[u8], start: usize, len: usize) -> Result<(Span, usize), WireFault>
    requires { start ≤ length bytes.now }
    ensures read { Reads (λ s. slice_range bytes.now s.start s.end) result bytes.now (utf8_at len (drop start bytes.now)) }
    ensures span { IfOk result (λ x. (x.0.start ≤ x.0.end) × (x.0.end ≤ length bytes.now)) }
    ensures utf8 { IfOk result (λ x. IsUtf8 (slice_range bytes.now x.0.start x.0.end)) }
{
    let (text, end) = piece(bytes, start, len)?;
    if !is_text(text) {
        return Err(WireFault::BadText);
    }
    Ok((Span { start, end }, end))
}

#[tactic(auto, using(crate::proofs::Texts::text_passes, crate::proofs::Texts::other_fails))]
fn is_text(bytes: &[u8]) -> bool
    ensures test { result ≡ is_utf8 bytes.now }
    ensures utf8 { IsTrue result → IsUtf8 bytes.now }
{
    match str::from_utf8(bytes) {
        Ok(_) => true,
        Err(_) => false,
    }
}

/// The count of a list, written plus one, which is no more than the bytes behind it. The fault is that
/// of the number, `BadNull` or `Short`, in this order.
#[inline(always)]
#[tactic(auto, unfolding(crate::specs::Reading::count_at))]
pub fn read_count(bytes: &[u8], at: usize) -> Result<(u32, usize), WireFault>
    requires { at ≤ length bytes.now }
    ensures read { Reads (λ n. n) result bytes.now (count_at (drop at bytes.now)) }
    ensures room { IfOk result (λ x. x.0 ≤ length bytes.now - x.1) }
{
    let (count, next) = read_uvarint(bytes, at)?;
    if count == 0 {
        return Err(WireFault::BadNull);
    }
    with_room(bytes, next, count - 1)
}

/// The count of a list, or null. The fault is that of the number or `Short`.
#[inline(always)]
#[tactic(auto, unfolding(crate::specs::Reading::count_or_null_at))]
pub fn read_count_or_null(bytes: &[u8], at: usize) -> Result<(Option<u32>, usize), WireFault>
    requires { at ≤ length bytes.now }
    ensures read { Reads (λ n. n) result bytes.now (count_or_null_at (drop at bytes.now)) }
    ensures room { IfOk result (λ x. IfSome x.0 (λ n. n ≤ length bytes.now - x.1)) }
{
    match read_uvarint(bytes, at)? {
        (0, next) => Ok((None, next)),
        (size, next) => {
            let (count, next) = with_room(bytes, next, size - 1)?;
            Ok((Some(count), next))
        }
    }
}

// The count, where as many bytes are left.
#[inline(always)]
fn with_room(bytes: &[u8], at: usize, count: u32) -> Result<(u32, usize), WireFault>
    requires { at ≤ length bytes.now }
    ensures read { Reads (λ n. n) result bytes.now (room_at count (drop at bytes.now)) }
    ensures room { IfOk result (λ x. x.0 ≤ length bytes.now - x.1) }
{
    if bytes.len() - at < count as usize {
        return Err(WireFault::Short);
    }
    Ok((count, at))
}

/// A tagged field: its number, and the place behind its data.
#[derive(Clone, Copy, Debug, Drop, PartialEq, Eq)]
pub struct Tag {
    /// The field's number.
    pub number: u32,
    /// The place behind its data.
    pub end: usize,
}

fn is_falling(last: Option<u32>, number: u32) -> bool
    ensures { result ≡ Reading.is_falling last number }
{
    match last {
        None => false,
        Some(last) => number <= last,
    }
}

/// The number of a tagged field and the size of its data, and the place of the data. The fault is that
/// of the number, `BadTag` where it isn't above the last one, that of the size, or `Short` where the data
/// end behind the bytes.
#[inline(always)]
pub fn read_tag(bytes: &[u8], at: usize, last: Option<u32>) -> Result<(Tag, usize), WireFault>
    requires { at ≤ length bytes.now }
    ensures read { MatchResult result
        (λ x. tag_at last (drop at bytes.now) ≡ Ok ((x.0.number, x.0.end - x.1), drop x.1 bytes.now))
        (λ e. tag_at last (drop at bytes.now) ≡ Err e) }
    ensures within { IfOk result (λ x. (x.1 ≤ x.0.end) × (x.0.end ≤ length bytes.now)) }
{
    let (number, next) = read_uvarint(bytes, at)?;
    if is_falling(last, number) {
        return Err(WireFault::BadTag);
    }
    let (size, next) = read_uvarint(bytes, next)?;
    if bytes.len() - next < size as usize {
        return Err(WireFault::Short);
    }
    Ok((
        Tag {
            number,
            end: next + size as usize,
        },
        next,
    ))
}

/// Tagged fields of which none is known, and the place behind them, or the first fault.
#[tactic(auto, unfolding(crate::specs::Reading::tags_at))]
pub fn skip_tags(bytes: &[u8], at: usize) -> Result<usize, WireFault>
    requires { at ≤ length bytes.now }
    ensures read { Skips (tags_at none_known tt (drop at bytes.now)) bytes.now result }
    ensures within { IfOk result (λ next. next ≤ length bytes.now) }
{
    let (count, start) = read_uvarint(bytes, at)?;
    skip_fields(bytes, start, count)
}

fn skip_fields(bytes: &[u8], start: usize, count: u32) -> Result<usize, WireFault>
    requires { start ≤ length bytes.now }
    ensures read { Skips (fields_at none_known count None tt (drop start bytes.now)) bytes.now result }
    ensures within { IfOk result (λ next. next ≤ length bytes.now) }
{
    let mut next = start;
    let mut last = None;
    for _ in 0..count {
        let (tag, _) = read_tag(bytes, next, last)?;
        next = tag.end;
        last = Some(tag.number);
    }
    Ok(next)
}

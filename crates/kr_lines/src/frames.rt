//! The versions that the records of a batch tell.

ghost use Rattle.std.specs.Prelude.{◌≡◌, ◌≤◌, length, drop, MatchResult, Ok, Err};
ghost use Rattle.kr_wire.specs.Reading.{Reads};
ghost use Rattle.kr_batch.specs.Grammar;
ghost use Rattle.kr_batch.specs.Reading.{body_at, batch_body, frame_at, key_at, sized_at};
ghost use Rattle.kr_lines.specs.BatchLines as lines;

use kr_wire::{WireFault, piece, read_uvarint, read_varint, read_varlong};

fn natural(size: i32) -> usize
    ensures { result ≡ Grammar.natural size }
{
    if size < 0 { 0 } else { size as usize }
}

// Bytes behind their length.
#[tactic(auto, unfolding(kr_batch::specs::Reading::sized_at))]
fn read_sized(bytes: &[u8], at: usize) -> Result<(&[u8], usize), WireFault>
    requires { at ≤ length bytes.now }
    ensures { Reads (λ s. s.now) result bytes.now (sized_at (drop at bytes.now)) }
{
    let (size, next) = read_varint(bytes, at)?;
    if size < 0 {
        return Err(WireFault::Short);
    }
    let (found, end) = piece(bytes, next, natural(size))?;
    Ok((found, end))
}

#[tactic(auto, unfolding(kr_batch::specs::Reading::key_at))]
fn read_key(bytes: &[u8], at: usize) -> Result<(&[u8], usize), WireFault>
    requires { at ≤ length bytes.now }
    ensures { Reads (λ s. s.now) result bytes.now (key_at (drop at bytes.now)) }
{
    let (size, next) = read_varint(bytes, at)?;
    let (found, end) = piece(bytes, next, natural(size))?;
    Ok((found, end))
}

#[tactic(auto, unfolding(kr_batch::specs::Reading::body_at))]
fn read_body(bytes: &[u8]) -> Result<((i32, &[u8]), usize), WireFault>
    ensures { Reads (λ f. (f.0, f.1.now)) result bytes.now (body_at bytes.now) }
{
    let (_attributes, next) = piece(bytes, 0, 1)?;
    let (_timestamp, next) = read_varlong(bytes, next)?;
    let (delta, next) = read_varint(bytes, next)?;
    let (_key, next) = read_key(bytes, next)?;
    let (value, next) = read_sized(bytes, next)?;
    let (headers, next) = read_varint(bytes, next)?;
    if headers != 0 {
        return Err(WireFault::Short);
    }
    Ok(((delta, value), next))
}

#[tactic(auto, unfolding(kr_batch::specs::Reading::batch_body))]
fn whole_body(bytes: &[u8]) -> Result<(i32, &[u8]), WireFault>
    ensures { MatchResult result
        (λ f. batch_body bytes.now ≡ Ok (f.0, f.1.now))
        (λ e. batch_body bytes.now ≡ Err e) }
{
    let (frame, next) = read_body(bytes)?;
    if next < bytes.len() {
        return Err(WireFault::Short);
    }
    Ok(frame)
}

#[tactic(auto, unfolding(kr_batch::specs::Reading::frame_at))]
fn read_frame(bytes: &[u8], at: usize) -> Result<((i32, &[u8]), usize), WireFault>
    requires { at ≤ length bytes.now }
    ensures { Reads (λ f. (f.0, f.1.now)) result bytes.now (frame_at (drop at bytes.now)) }
{
    let (body, next) = read_sized(bytes, at)?;
    let frame = whole_body(body)?;
    Ok((frame, next))
}

#[tactic(auto, unfolding(crate::specs::BatchLines::value_version))]
fn read_version(value: &[u8]) -> Result<(u32, usize), WireFault>
    ensures { Reads (λ v. v) result value.now (lines.value_version value.now) }
{
    let (_frame, next) = read_uvarint(value, 0)?;
    let (_key, next) = read_uvarint(value, next)?;
    read_uvarint(value, next)
}

#[tactic(auto, unfolding(crate::specs::BatchLines::entry_version))]
fn entry_version(bytes: &[u8], at: usize) -> Result<(u32, usize), WireFault>
    requires { at ≤ length bytes.now }
    ensures { Reads (λ v. v) result bytes.now (lines.entry_version (drop at bytes.now)) }
{
    let ((_delta, value), next) = read_frame(bytes, at)?;
    let (version, _next) = read_version(value)?;
    Ok((version, next))
}

/// The version that the record at this place tells, and where the next one begins.
pub(crate) fn told_version(bytes: &[u8], at: usize) -> (u32, usize)
    requires { at ≤ length bytes.now }
    ensures told { (result.0, drop result.1 bytes.now) ≡
        lines.told_or_none (lines.entry_version (drop at bytes.now)) }
    ensures within { result.1 ≤ length bytes.now }
{
    match entry_version(bytes, at) {
        Ok((version, next)) => (version, next),
        Err(_) => (0, bytes.len()),
    }
}

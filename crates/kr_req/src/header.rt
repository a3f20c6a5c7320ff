//! The header of a request message.

ghost use Rattle.std.specs.Prelude.{◌≤◌, length, drop};
ghost use Rattle.kr_wire.specs.Reading.{Reads};
ghost use Rattle.kr_req.specs.Reading.{Passes, client_at, client_id_at, sized_text_at, head_at};

use kr_wire::{WireFault, read_i16, read_i32, read_utf8, skip_tags};

/// What every message begins with (RequestHeader).
#[derive(Clone, Copy, Debug, Drop, PartialEq, Eq)]
pub struct Start {
    /// The number of the request in Kafka's ApiKeys.
    pub key: i16,
    /// The version of its layout.
    pub version: i16,
    /// The number that the reply is found by.
    pub correlation: i32,
}

/// The start of a message, and the place behind it; or the first fault.
#[tactic(auto, unfolding(crate::specs::Reading::head_at))]
pub fn read_start(message: &[u8], at: usize) -> Result<(Start, usize), WireFault>
    requires { at ≤ length message.now }
    ensures { Reads (λ s. (s.key, s.version, s.correlation)) result message.now (head_at (drop at message.now)) }
{
    let (key, next) = read_i16(message, at)?;
    let (version, next) = read_i16(message, next)?;
    let (correlation, next) = read_i32(message, next)?;
    let start = Start {
        key,
        version,
        correlation,
    };
    Ok((start, next))
}

// The text behind its length.
fn read_sized_text(message: &[u8], at: usize, size: i16) -> Result<usize, WireFault>
    requires { at ≤ length message.now }
    ensures { Passes result message.now (sized_text_at size (drop at message.now)) }
{
    if size < 0 {
        return Err(WireFault::BadNull);
    }
    let (_, next) = read_utf8(message, at, size as usize)?;
    Ok(next)
}

#[tactic(auto, unfolding(crate::specs::Reading::client_id_at))]
fn read_client_id(message: &[u8], at: usize) -> Result<usize, WireFault>
    requires { at ≤ length message.now }
    ensures { Passes result message.now (client_id_at (drop at message.now)) }
{
    let (size, next) = read_i16(message, at)?;
    if size == -1 {
        return Ok(next);
    }
    read_sized_text(message, next, size)
}

/// The place behind the client id and the header's tagged fields, or the first fault.
#[tactic(auto, unfolding(crate::specs::Reading::client_at))]
pub fn read_client(message: &[u8], at: usize) -> Result<usize, WireFault>
    requires { at ≤ length message.now }
    ensures { Passes result message.now (client_at (drop at message.now)) }
{
    let next = read_client_id(message, at)?;
    skip_tags(message, next)
}

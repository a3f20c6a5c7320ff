//! What the bodies of frames stand for.

ghost use Rattle.std.specs.Prelude.{◌≡◌, ◌≤◌, ◌<◌, [], true, pos, length, drop, IfErr, IfOk, OnErr, Ok, Err, MatchResult, IsTrue, IsErrOf};
ghost use Rattle.kr_defs.specs.declared.limits.TheConstants.{MOST_MESSAGE_BYTES};
ghost use Rattle.kr_calls.specs.declared.events.Event.{Event as AnyEvent};
ghost use Rattle.kr_wire.specs.Reading.{Reads};
ghost use Rattle.kr_stream.specs.declared.frame.Frame.{Frame as AnyFrame};
ghost use Rattle.kr_stream.specs.Kinds as kinds;
ghost use Rattle.kr_stream.specs.inner.Bodies.{IsBodyOf, IsEventOf, IsRequestOf, is_of_numbers, numbers_at, time_at, lead_at, commit_at, lost_at, tick_at, stamp_at};

use crate::opening::options;
use crate::{Frame, FrameKind};
use kr_calls::Event;
use kr_defs::Bytes;
use kr_defs::limits::MOST_MESSAGE_BYTES;
use kr_req::decode;
use kr_wire::{WireFault, read_i32, read_i64, read_u32};
use std::alloc::Global;

/// Why a body isn't read.
#[derive(Clone, Copy, Debug, Drop, PartialEq, Eq)]
pub(crate) enum BodyFault {
    /// The bytes stand for no value.
    Misfit,
    NoMemory,
}

/// The frame of a kind with this body, which is no longer than the kind's longest.
pub(crate) fn frame_of(alloc: Global, kind: FrameKind, body: Vec<u8>) -> Result<Frame, BodyFault>
    requires { length body.items ≤ kinds.longest_body kind }
    ensures found { IfOk result (λ frame. IsBodyOf kind frame body.items) }
    ensures misfit { IsErrOf result BodyFault.Misfit → (frame : AnyFrame) → IsBodyOf kind frame body.items → ⊥ }
{
    match kind {
        FrameKind::Open => match options(alloc, body.as_slice()) {
            Ok(options) => Ok(Frame::Open(options)),
            Err(fault) => Err(fault),
        },
        FrameKind::End => Ok(Frame::End),
        _ => match event(alloc, kind, body) {
            Ok(event) => Ok(Frame::Event(event)),
            Err(fault) => Err(fault),
        },
    }
}

// The event of a kind with this body.
fn event(alloc: Global, kind: FrameKind, body: Vec<u8>) -> Result<Event, BodyFault>
    requires short { length body.items ≤ kinds.longest_body kind }
    requires open { kind ≡ FrameKind.Open → ⊥ }
    requires end { kind ≡ FrameKind.End → ⊥ }
    ensures found { IfOk result (λ event. IsEventOf kind event body.items) }
    ensures misfit { IsErrOf result BodyFault.Misfit → (event : AnyEvent) → IsEventOf kind event body.items → ⊥ }
{
    match kind {
        FrameKind::Batch => Ok(Event::Batch {
            bytes: Bytes::from_vec(body),
        }),
        FrameKind::Load => Ok(Event::Load {
            bytes: Bytes::from_vec(body),
        }),
        FrameKind::Request => request(alloc, body.as_slice()),
        _ => numbers(kind, body.as_slice()),
    }
}

// ---- numbers alone

// The event of a kind that has numbers alone.
fn numbers(kind: FrameKind, body: &[u8]) -> Result<Event, BodyFault>
    requires { is_of_numbers kind ≡ true }
    ensures found { IfOk result (λ event. IsEventOf kind event body.now) }
    ensures misfit { OnErr result ((event : AnyEvent) → IsEventOf kind event body.now → ⊥) }
{
    match read_numbers(kind, body) {
        Ok((event, at)) => whole(event, at, body.len()),
        Err(_) => Err(BodyFault::Misfit),
    }
}

fn read_numbers(kind: FrameKind, body: &[u8]) -> Result<(Event, usize), WireFault>
    requires { is_of_numbers kind ≡ true }
    ensures { Reads (λ x. x) result body.now (numbers_at kind body.now) }
{
    match kind {
        FrameKind::Lead => read_lead(body),
        FrameKind::Commit => read_commit(body),
        FrameKind::Lost => read_lost(body),
        FrameKind::Tick => read_tick(body),
        _ => Ok((Event::Image, 0)),
    }
}

// The value, where it was read to the end.
fn whole(value: Event, at: usize, len: usize) -> Result<Event, BodyFault>
    ensures { MatchResult result (λ x. (x ≡ value) × (at ≡ len)) (λ e. at ≡ len → ⊥) }
{
    if at == len {
        Ok(value)
    } else {
        Err(BodyFault::Misfit)
    }
}

#[tactic(auto, unfolding(crate::specs::inner::Bodies::lead_at))]
fn read_lead(body: &[u8]) -> Result<(Event, usize), WireFault>
    ensures { Reads (λ x. x) result body.now (lead_at body.now) }
{
    let (epoch, at) = read_i32(body, 0)?;
    let (next, at) = read_i64(body, at)?;
    let (now, at) = read_time(body, at)?;
    Ok((Event::Lead { epoch, next, now }, at))
}

#[tactic(auto, unfolding(crate::specs::inner::Bodies::commit_at))]
fn read_commit(body: &[u8]) -> Result<(Event, usize), WireFault>
    ensures { Reads (λ x. x) result body.now (commit_at body.now) }
{
    let (epoch, at) = read_i32(body, 0)?;
    let (end, at) = read_i64(body, at)?;
    Ok((Event::Commit { epoch, end }, at))
}

#[tactic(auto, unfolding(crate::specs::inner::Bodies::lost_at))]
fn read_lost(body: &[u8]) -> Result<(Event, usize), WireFault>
    ensures { Reads (λ x. x) result body.now (lost_at body.now) }
{
    let (epoch, at) = read_i32(body, 0)?;
    Ok((Event::Lost { epoch }, at))
}

#[tactic(auto, unfolding(crate::specs::inner::Bodies::tick_at))]
fn read_tick(body: &[u8]) -> Result<(Event, usize), WireFault>
    ensures { Reads (λ x. x) result body.now (tick_at body.now) }
{
    let (now, at) = read_time(body, 0)?;
    Ok((Event::Tick { now }, at))
}

// Milliseconds, at least 0.
#[tactic(auto, unfolding(crate::specs::inner::Bodies::time_at))]
fn read_time(bytes: &[u8], at: usize) -> Result<(i64, usize), WireFault>
    requires { at ≤ length bytes.now }
    ensures { Reads (λ n. n) result bytes.now (time_at (drop at bytes.now)) }
{
    let (now, next) = read_i64(bytes, at)?;
    if now < 0 {
        return Err(WireFault::TooBig);
    }
    Ok((now, next))
}

// ---- requests

// The client and the time, before the message.
#[derive(Clone, Copy, Drop)]
struct Stamp {
    client: u32,
    now: i64,
}

// The event of a Request frame's body.
fn request(alloc: Global, body: &[u8]) -> Result<Event, BodyFault>
    ensures found { IfOk result (λ event. IsEventOf FrameKind.Request event body.now) }
    ensures misfit { IsErrOf result BodyFault.Misfit → (event : AnyEvent) → IsEventOf FrameKind.Request event body.now → ⊥ }
{
    match read_stamp(body) {
        Err(_) => Err(BodyFault::Misfit),
        Ok((stamp, at)) => {
            let (_, message) = body.split_at(at);
            request_with(alloc, stamp, message)
        }
    }
}

#[tactic(auto, unfolding(crate::specs::inner::Bodies::stamp_at))]
fn read_stamp(body: &[u8]) -> Result<(Stamp, usize), WireFault>
    ensures { Reads (λ s. (s.client, s.now)) result body.now (stamp_at body.now) }
{
    let (client, at) = read_u32(body, 0)?;
    let (now, at) = read_time(body, at)?;
    Ok((Stamp { client, now }, at))
}

// The request with this message, of at most 8 MiB.
fn request_with(alloc: Global, stamp: Stamp, message: &[u8]) -> Result<Event, BodyFault>
    ensures found { IfOk result (λ event. IsRequestOf stamp.client stamp.now event message.now) }
    ensures misfit { IsErrOf result BodyFault.Misfit → MOST_MESSAGE_BYTES < length message.now }
{
    if message.len() > MOST_MESSAGE_BYTES {
        return Err(BodyFault::Misfit);
    }
    match decode(alloc, message) {
        Err(_) => Err(BodyFault::NoMemory),
        Ok(ask) => Ok(Event::Request {
            client: stamp.client,
            now: stamp.now,
            ask,
        }),
    }
}

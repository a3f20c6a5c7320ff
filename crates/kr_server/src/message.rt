//! One message from a source.

ghost use Rattle.std.specs.Prelude.{◌≡◌, ◌+◌, ◌<◌, ◌≤◌, length, IfOk, IfErr};
ghost use Rattle.std.specs.Int.{w32};
ghost use Rattle.kr_wire.specs.Grammar.{Exactly, IsNumber};
ghost use Rattle.kr_defs.specs.declared.limits.TheConstants.{MOST_MESSAGE_BYTES, MOST_SESSION_BYTES};
ghost use Rattle.kr_intake.specs.Shortages.{FallsShort};
ghost use Rattle.kr_server.specs.Messages.{IsSizedMessage};
ghost use Rattle.kr_server.specs.inner.Reading.{IsUnread, TookPiece, shortage_end};

use crate::end::ServeEnd;
use kr_base::{NoMemory, Source};
use kr_defs::limits::MOST_MESSAGE_BYTES;
use kr_intake::{Shortage, take};
use std::alloc::Global;

/// The message that begins at `at`, and the place behind it.
pub(crate) fn read_message<S: Source>(
    alloc: Global,
    source: &mut S,
    at: u64,
) -> Result<(Vec<u8>, u64), ServeEnd>
    requires { at ≤ MOST_SESSION_BYTES }
    ensures message { IfOk result (λ x.
        TookPiece (IsSizedMessage x.0.items) (S.left source.old) (S.left source.new) at x.1) }
    ensures unread { IfErr result (λ end. IsUnread at (S.left source.old) (S.left source.new)
        (S.faults source.old) (S.faults source.new) end) }
    ensures further { IfOk result (λ x. at < x.1) }
    ensures later { S.faults source.old ≤ S.faults source.new }
{
    let size = match read_size(source, at) {
        Err(end) => return Err(end),
        Ok(size) => size,
    };
    let body = match body_room(alloc, size as usize) {
        Err(_) => return Err(ServeEnd::NoMemory),
        Ok(body) => body,
    };
    match read_body(source, body, at) {
        Err(shortage) => Err(shortage_end(shortage, at)),
        Ok(body) => Ok((body, at + 4 + u64::from(size))),
    }
}

// The size of the message that begins at `at`.
fn read_size<S: Source>(source: &mut S, at: u64) -> Result<u32, ServeEnd>
    requires { at ≤ MOST_SESSION_BYTES }
    ensures size { IfOk result (λ size.
        TookPiece (IsNumber w32 size) (S.left source.old) (S.left source.new) at (at + 4)) }
    ensures short { IfOk result (λ size. size ≤ MOST_MESSAGE_BYTES) }
    ensures unread { IfErr result (λ end. IsUnread at (S.left source.old) (S.left source.new)
        (S.faults source.old) (S.faults source.new) end) }
    ensures later { S.faults source.old ≤ S.faults source.new }
{
    let mut bytes = [0; 4];
    match take(source, &mut bytes, at) {
        Err(Shortage::Ended { count: 0 }) => return Err(ServeEnd::Closed),
        Err(shortage) => return Err(shortage_end(shortage, at)),
        Ok(()) => {}
    }
    let size = u32::from_be_bytes(bytes);
    if size as usize > MOST_MESSAGE_BYTES {
        return Err(ServeEnd::Malformed { at });
    }
    Ok(size)
}

// Room for a message of this length.
fn body_room(alloc: Global, len: usize) -> Result<Vec<u8>, NoMemory>
    ensures { IfOk result (λ body. length body.items ≡ len) }
{
    let body = vec![in alloc; 0; len]?;
    Ok(body)
}

// The body of the message that begins at `at`, as long as the vector.
fn read_body<S: Source>(source: &mut S, mut body: Vec<u8>, at: u64) -> Result<Vec<u8>, Shortage>
    requires { at + 4 ≤ MOST_SESSION_BYTES }
    ensures body { IfOk result (λ read. TookPiece (Exactly read.items)
        (S.left source.old) (S.left source.new) (at + 4) (at + 4 + length body.items)) }
    ensures len { IfOk result (λ read. length read.items ≡ length body.items) }
    ensures short { IfErr result (λ shortage. FallsShort (at + 4) (length body.items)
        (S.left source.old) (S.left source.new)
        (S.faults source.old) (S.faults source.new) shortage) }
    ensures later { S.faults source.old ≤ S.faults source.new }
{
    match take(source, body.as_mut_slice(), at + 4) {
        Err(shortage) => Err(shortage),
        Ok(()) => Ok(body),
    }
}

// What it means that too few bytes came of the message that begins at `at`.
fn shortage_end(shortage: Shortage, at: u64) -> ServeEnd
    ensures { result ≡ shortage_end at shortage }
{
    match shortage {
        Shortage::Ended { .. } => ServeEnd::Malformed { at },
        Shortage::ReadFault => ServeEnd::ReadFault,
        Shortage::TooLong => ServeEnd::TooLong,
    }
}

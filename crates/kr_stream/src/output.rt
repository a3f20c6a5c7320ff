//! Outputs to frames.

ghost use Rattle.std.specs.Prelude.{◌≡◌, ◌∷◌, ◌++◌, ◌≤◌, drop, length, IfOk, OnOk, IsErrOf};
ghost use Rattle.std.specs.Int.{w32};
ghost use Rattle.kr_base.specs.Causes.{Rose};
ghost use Rattle.kr_wire.specs.Spelling.{number};
ghost use Rattle.kr_stream.specs.Outputs.{BodyFits, FrameFits, ReasonFits, Wrote, WroteFront, body_bytes, frame_bytes, number_of, reason_bytes};

use crate::WriteFault;
use crate::refusal_numbers::{first_number, reason_number, second_number, third_number};
use kr_base::{NoMemory, Sink};
use kr_calls::{Output, Reason};
use kr_req::encode_reply;
use kr_wire::{put_i64, put_u32, put_u64};
use std::alloc::Global;

// The kinds of frames that are written, by their numbers.
const APPEND: u8 = 0x81;

const REPLY: u8 = 0x82;

const REFUSED: u8 = 0x83;

const IMAGE: u8 = 0x84;

/// Writes the output as one frame, by one put.
pub fn write_frame<K: Sink>(alloc: Global, output: &Output, sink: &mut K) -> Result<(), WriteFault>
    ensures ok { OnOk result (Wrote output.now (K.written sink.old) (K.written sink.new)) }
    // The sink failed: some front of the frame was written.
    ensures front { IsErrOf result WriteFault.Failed → WroteFront output.now (K.written sink.old) (K.written sink.new) }
    ensures failed { IsErrOf result WriteFault.Failed → Rose (K.faults sink.old) (K.faults sink.new) }
    // Nothing was put.
    ensures memory { IsErrOf result WriteFault.NoMemory → sink.new ≡ sink.old }
    ensures later { K.faults sink.old ≤ K.faults sink.new }
{
    let bytes = match frame(alloc, output) {
        Ok(bytes) => bytes,
        Err(_) => return Err(WriteFault::NoMemory),
    };
    match sink.put(&bytes) {
        Ok(()) => Ok(()),
        Err(_) => Err(WriteFault::Failed),
    }
}

// The frame's bytes. The size of what follows it is set last, where it fits its field.
fn frame(alloc: Global, output: &Output) -> Result<Vec<u8>, NoMemory>
    ensures bytes { IfOk result (λ bytes. bytes.items ≡ frame_bytes output.now) }
    ensures fits { OnOk result (FrameFits output.now) }
{
    let mut bytes = without_size(alloc, output)?;
    let size = bytes.len() as u64 - 4;
    if size > u64::from(u32::MAX) {
        return Err(NoMemory);
    }
    set_size(bytes.as_mut_slice(), size as u32);
    Ok(bytes)
}

// A frame's bytes with zeros for its size.
fn without_size(alloc: Global, output: &Output) -> Result<Vec<u8>, NoMemory>
    ensures bytes { IfOk result (λ bytes. bytes.items ≡
        number w32 0 ++ (number_of output.now ∷ body_bytes output.now)) }
    ensures fits { OnOk result (BodyFits output.now) }
{
    let mut bytes = Vec::with_capacity(alloc, room_of(output))?;
    put_u32(&mut bytes, 0)?;
    put_output(output, &mut bytes)?;
    Ok(bytes)
}

// The room that is taken at first for a frame, in bytes. Most replies and all refusals take no more.
fn room_of(output: &Output) -> usize {
    match output {
        Output::Append { bytes } | Output::Image { bytes } => bytes.len().saturating_add(5),
        Output::Reply { .. } | Output::Refused { .. } => 64,
    }
}

// Sets the size at the front.
#[tactic(auto, unfolding(kr_wire::specs::Spelling::number))]
fn set_size(bytes: &mut [u8], size: u32)
    requires { 4 ≤ length bytes.old }
    ensures bytes { bytes.new ≡ number w32 size ++ drop 4 bytes.old }
    ensures len { length bytes.new ≡ length bytes.old }
{
    bytes[..4].copy_from_slice(&size.to_be_bytes());
}

// The number of the kind, and the body.
fn put_output(output: &Output, out: &mut Vec<u8>) -> Result<(), NoMemory>
    ensures bytes { OnOk result (out.new.items ≡
        out.old.items ++ (number_of output.now ∷ body_bytes output.now)) }
    ensures fits { OnOk result (BodyFits output.now) }
{
    match output {
        Output::Append { bytes } => put_kind(APPEND, bytes.as_slice(), out),
        Output::Reply {
            client,
            correlation,
            reply,
        } => {
            out.push(REPLY)?;
            put_u32(out, *client)?;
            encode_reply(*correlation, reply, out)
        }
        Output::Refused { event, reason } => {
            out.push(REFUSED)?;
            put_u64(out, *event)?;
            put_reason(reason, out)
        }
        Output::Image { bytes } => put_kind(IMAGE, bytes.as_slice(), out),
    }
}

// The number of a kind, and bytes as its body.
fn put_kind(kind: u8, body: &[u8], out: &mut Vec<u8>) -> Result<(), NoMemory>
    ensures { OnOk result (out.new.items ≡ out.old.items ++ (kind ∷ body.now)) }
{
    out.push(kind)?;
    out.extend_from_slice(body)?;
    Ok(())
}

// The number of the reason, and its three numbers.
fn put_reason(reason: &Reason, out: &mut Vec<u8>) -> Result<(), NoMemory>
    ensures bytes { OnOk result (out.new.items ≡ out.old.items ++ reason_bytes reason.now) }
    ensures fits { OnOk result (ReasonFits reason.now) }
{
    out.push(reason_number(reason))?;
    put_i64(out, first_number(reason))?;
    put_i64(out, second_number(reason))?;
    put_i64(out, third_number(reason))?;
    Ok(())
}

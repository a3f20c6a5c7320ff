//! Replies as JSON.

ghost use Rattle.std.specs.Prelude.{◌≡◌};
ghost use Rattle.kr_messages.specs.MessageTypes.{known_by};
ghost use Rattle.kr_wire.specs.Reading.{Reads};
ghost use Rattle.kr_wire.specs.Schema.{value_at};
ghost use Rattle.kr_door_loop.specs.Replies.{AnswersReply, GivesReply, ShowsKnown, asked_api};

use crate::{Answer, DoorRefusal};
use kr_messages::{ApiMessageType, MessageFault, reply_json};
use kr_wire::{WireFault, read_i16};
use std::alloc::Global;

// The key and the version at the front, and the place behind them.
fn read_api(body: &[u8]) -> Result<((i16, i16), usize), WireFault>
    ensures { Reads (λ a. a) result body.now (value_at asked_api body.now) }
{
    let (key, next) = read_i16(body, 0)?;
    let (version, next) = read_i16(body, next)?;
    Ok(((key, version), next))
}

// The reply to this request.
fn show_known(alloc: Global, asked: ApiMessageType, message: &[u8]) -> Answer
    ensures { GivesReply asked message.now result }
{
    match reply_json(alloc, asked, message) {
        Ok(text) => Ok(text),
        Err(MessageFault::BadMessage) => Err(DoorRefusal::BadBody),
        Err(MessageFault::NoMemory) => Err(DoorRefusal::NoMemory),
    }
}

// The reply to a request of the key with this number, of this version.
fn show_numbered(alloc: Global, key: i16, version: i16, message: &[u8]) -> Answer
    ensures { ShowsKnown (known_by key version) message.now result }
{
    match ApiMessageType::known_by(key, version) {
        Some(asked) => show_known(alloc, asked, message),
        None => Err(DoorRefusal::BadBody),
    }
}

/// The JSON of a reply behind the key and the version of its request.
pub(crate) fn show_reply(alloc: Global, body: &[u8]) -> Answer
    ensures { AnswersReply body.now result }
{
    match read_api(body) {
        Ok(((key, version), next)) => {
            let (_front, message) = body.split_at(next);
            show_numbered(alloc, key, version, message)
        }
        Err(_) => Err(DoorRefusal::BadBody),
    }
}

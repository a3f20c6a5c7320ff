//! UnregisterBroker: its request from bytes, its reply to bytes.

ghost use Rattle.std.specs.Prelude.{◌≡◌, ◌≤◌, refl, length, drop, OnOk, OnErr};
ghost use Rattle.kr_layout.specs.Answers.{Answers, Begins, Puts};
ghost use Rattle.kr_bodies.specs.UnregisterBroker.{IsUnregisterBroker, unregister_broker, unregister_broker_reply};

use crate::Mine;
use kr_base::NoMemory;
use kr_calls::{UnregisterBroker, UnregisterBrokerReply};
use kr_layout::{BodyFault, Get, Put, ReadFault, Reader, put_end, read_body};
use kr_wire::put_null;
use std::alloc::Global;

impl Get<Mine> for UnregisterBroker {
    ghost schema = { unregister_broker };

    ghost is_whole = { refl };

    fn least() -> usize {
        5
    }

    fn get(from: &mut Reader<'_, Mine>) -> Result<UnregisterBroker, ReadFault> {
        let broker = UnregisterBroker {
            broker: from.get()?,
        };
        from.end()?;
        Ok(broker)
    }
}

impl Put<Mine> for UnregisterBrokerReply {
    ghost schema = { unregister_broker_reply };

    fn put_parts(&self, mine: &Mine, out: &mut Vec<u8>) -> Result<(), NoMemory> {
        0i32.put(mine, out)?;
        self.error.put(mine, out)?;
        put_null(out)?;
        put_end(out)
    }
}

/// The UnregisterBroker that all of the message's bytes from a place on stand for, or the first fault in
/// reading order.
pub fn read_unregister_broker(
    alloc: Global,
    message: &[u8],
    at: usize,
) -> Result<UnregisterBroker, BodyFault>
    requires { at ≤ length message.now }
    ensures { Answers IsUnregisterBroker unregister_broker (drop at message.now) result }
{
    read_body::<Mine, _>(alloc, message, at)
}

/// Appends what is written for the reply. Without memory nothing changes.
pub fn put_unregister_broker(
    reply: &UnregisterBrokerReply,
    out: &mut Vec<u8>,
) -> Result<(), NoMemory>
    ensures ok { OnOk result (Puts unregister_broker_reply reply.now out.old.items out.new.items) }
    ensures err { OnErr result (out.new.items ≡ out.old.items) }
{
    reply.put(&Mine, out)
}

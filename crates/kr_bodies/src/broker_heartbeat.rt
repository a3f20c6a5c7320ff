//! BrokerHeartbeat: its request from bytes, its reply to bytes.

ghost use Rattle.std.specs.Prelude.{◌≡◌, ◌≤◌, refl, length, drop, OnOk, OnErr};
ghost use Rattle.kr_layout.specs.Answers.{Answers, Begins, Puts};
ghost use Rattle.kr_bodies.specs.BrokerHeartbeat.{IsBrokerHeartbeat, broker_heartbeat, broker_heartbeat_reply};

use crate::Mine;
use kr_base::NoMemory;
use kr_calls::{BrokerHeartbeat, BrokerHeartbeatReply};
use kr_layout::{BodyFault, Get, Put, ReadFault, Reader, put_end, read_body};
use std::alloc::Global;

impl Get<Mine> for BrokerHeartbeat {
    ghost schema = { broker_heartbeat };

    ghost is_whole = { refl };

    fn least() -> usize {
        23
    }

    fn get(from: &mut Reader<'_, Mine>) -> Result<BrokerHeartbeat, ReadFault> {
        let heartbeat = BrokerHeartbeat {
            broker: from.get()?,
            epoch: from.get()?,
            offset: from.get()?,
            want_fence: from.get()?,
            want_shutdown: from.get()?,
        };
        from.end()?;
        Ok(heartbeat)
    }
}

impl Put<Mine> for BrokerHeartbeatReply {
    ghost schema = { broker_heartbeat_reply };

    fn put_parts(&self, mine: &Mine, out: &mut Vec<u8>) -> Result<(), NoMemory> {
        0i32.put(mine, out)?;
        self.error.put(mine, out)?;
        self.caught_up.put(mine, out)?;
        self.fenced.put(mine, out)?;
        self.should_shut_down.put(mine, out)?;
        put_end(out)
    }
}

/// The BrokerHeartbeat that all of the message's bytes from a place on stand for, or the first fault in
/// reading order.
pub fn read_broker_heartbeat(
    alloc: Global,
    message: &[u8],
    at: usize,
) -> Result<BrokerHeartbeat, BodyFault>
    requires { at ≤ length message.now }
    ensures { Answers IsBrokerHeartbeat broker_heartbeat (drop at message.now) result }
{
    read_body::<Mine, _>(alloc, message, at)
}

/// Appends what is written for the reply. Without memory nothing changes.
pub fn put_broker_heartbeat(reply: &BrokerHeartbeatReply, out: &mut Vec<u8>) -> Result<(), NoMemory>
    ensures ok { OnOk result (Puts broker_heartbeat_reply reply.now out.old.items out.new.items) }
    ensures err { OnErr result (out.new.items ≡ out.old.items) }
{
    reply.put(&Mine, out)
}

//! BrokerRegistration: its request from bytes, its reply to bytes.

ghost use Rattle.std.specs.Prelude.{◌≡◌, ◌≤◌, refl, length, drop, OnOk, OnErr};
ghost use Rattle.kr_layout.specs.Answers.{Answers, Begins, Puts};
ghost use Rattle.kr_bodies.specs.BrokerRegistration.{IsBrokerRegistration, broker_registration, broker_registration_reply, endpoint, range};

use crate::Mine;
use kr_base::NoMemory;
use kr_calls::{BrokerRegistration, BrokerRegistrationReply};
use kr_defs::{Endpoint, Range, Rows};
use kr_layout::{BodyFault, Get, Put, ReadFault, Reader, put_end, read_body};
use std::alloc::Global;

impl Get<Mine> for Endpoint {
    ghost schema = { endpoint };

    ghost is_whole = { refl };

    fn least() -> usize {
        7
    }

    fn get(from: &mut Reader<'_, Mine>) -> Result<Endpoint, ReadFault> {
        let endpoint = Endpoint {
            name: from.get()?,
            host: from.get()?,
            port: from.get()?,
            protocol: from.get()?,
        };
        from.end()?;
        Ok(endpoint)
    }
}

impl Get<Mine> for Range {
    ghost schema = { range };

    ghost is_whole = { refl };

    fn least() -> usize {
        6
    }

    fn get(from: &mut Reader<'_, Mine>) -> Result<Range, ReadFault> {
        let range = Range {
            name: from.get()?,
            min: from.get()?,
            max: from.get()?,
        };
        from.end()?;
        Ok(range)
    }
}

impl Get<Mine> for BrokerRegistration {
    ghost schema = { broker_registration };

    ghost is_whole = { refl };

    fn least() -> usize {
        35
    }

    fn get(from: &mut Reader<'_, Mine>) -> Result<BrokerRegistration, ReadFault> {
        let broker = from.get()?;
        let cluster = from.get()?;
        let incarnation = from.get()?;
        let listeners = from.get()?;
        let features = from.get()?;
        let rack = from.get()?;
        let migrating = from.get()?;
        let _directories: Rows<u128> = from.get()?;
        let previous_epoch = from.get()?;
        from.end()?;
        Ok(BrokerRegistration {
            broker,
            cluster,
            incarnation,
            listeners,
            features,
            rack,
            migrating,
            previous_epoch,
        })
    }
}

impl Put<Mine> for BrokerRegistrationReply {
    ghost schema = { broker_registration_reply };

    fn put_parts(&self, mine: &Mine, out: &mut Vec<u8>) -> Result<(), NoMemory> {
        0i32.put(mine, out)?;
        self.error.put(mine, out)?;
        self.epoch.put(mine, out)?;
        put_end(out)
    }
}

/// The BrokerRegistration that all of the message's bytes from a place on stand for, or the first fault in
/// reading order.
pub fn read_broker_registration(
    alloc: Global,
    message: &[u8],
    at: usize,
) -> Result<BrokerRegistration, BodyFault>
    requires { at ≤ length message.now }
    ensures { Answers IsBrokerRegistration broker_registration (drop at message.now) result }
{
    read_body::<Mine, _>(alloc, message, at)
}

/// Appends what is written for the reply. Without memory nothing changes.
pub fn put_broker_registration(
    reply: &BrokerRegistrationReply,
    out: &mut Vec<u8>,
) -> Result<(), NoMemory>
    ensures ok { OnOk result (Puts broker_registration_reply reply.now out.old.items out.new.items) }
    ensures err { OnErr result (out.new.items ≡ out.old.items) }
{
    reply.put(&Mine, out)
}

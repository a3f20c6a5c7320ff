//! ElectLeaders: its request from bytes, its reply to bytes.

ghost use Rattle.std.specs.Prelude.{◌≡◌, ◌≤◌, refl, length, drop, OnOk, OnErr};
ghost use Rattle.kr_layout.specs.Answers.{Answers, Begins, Puts};
ghost use Rattle.kr_bodies.specs.ElectLeaders.{IsElectLeaders, elect_leaders, elect_leaders_reply, elect_leaders_topic, partition_election_result, replica_election_result};

use crate::Mine;
use kr_base::NoMemory;
use kr_calls::{
    ElectLeaders, ElectLeadersReply, ElectLeadersTopic, PartitionElectionResult,
    ReplicaElectionResult,
};
use kr_layout::{BodyFault, Get, Put, ReadFault, Reader, put_end, read_body};
use kr_wire::put_null;
use std::alloc::Global;

impl Get<Mine> for ElectLeadersTopic {
    ghost schema = { elect_leaders_topic };

    ghost is_whole = { refl };

    fn least() -> usize {
        3
    }

    fn get(from: &mut Reader<'_, Mine>) -> Result<ElectLeadersTopic, ReadFault> {
        let topic = ElectLeadersTopic {
            topic: from.get()?,
            partitions: from.get()?,
        };
        from.end()?;
        Ok(topic)
    }
}

impl Get<Mine> for ElectLeaders {
    ghost schema = { elect_leaders };

    ghost is_whole = { refl };

    fn least() -> usize {
        7
    }

    fn get(from: &mut Reader<'_, Mine>) -> Result<ElectLeaders, ReadFault> {
        let kind = from.get()?;
        let topics = from.get()?;
        let _timeout = from.i32()?;
        from.end()?;
        Ok(ElectLeaders { kind, topics })
    }
}

impl Put<Mine> for PartitionElectionResult {
    ghost schema = { partition_election_result };

    fn put_parts(&self, mine: &Mine, out: &mut Vec<u8>) -> Result<(), NoMemory> {
        self.index.put(mine, out)?;
        self.error.put(mine, out)?;
        put_null(out)?;
        put_end(out)
    }
}

impl Put<Mine> for ReplicaElectionResult {
    ghost schema = { replica_election_result };

    fn put_parts(&self, mine: &Mine, out: &mut Vec<u8>) -> Result<(), NoMemory> {
        self.topic.put(mine, out)?;
        self.partitions.put(mine, out)?;
        put_end(out)
    }
}

impl Put<Mine> for ElectLeadersReply {
    ghost schema = { elect_leaders_reply };

    fn put_parts(&self, mine: &Mine, out: &mut Vec<u8>) -> Result<(), NoMemory> {
        0i32.put(mine, out)?;
        self.error.put(mine, out)?;
        self.results.put(mine, out)?;
        put_end(out)
    }
}

/// The ElectLeaders that all of the message's bytes from a place on stand for, or the first fault in
/// reading order.
pub fn read_elect_leaders(
    alloc: Global,
    message: &[u8],
    at: usize,
) -> Result<ElectLeaders, BodyFault>
    requires { at ≤ length message.now }
    ensures { Answers IsElectLeaders elect_leaders (drop at message.now) result }
{
    read_body::<Mine, _>(alloc, message, at)
}

/// Appends what is written for the reply. Without memory nothing changes.
pub fn put_elect_leaders(reply: &ElectLeadersReply, out: &mut Vec<u8>) -> Result<(), NoMemory>
    ensures ok { OnOk result (Puts elect_leaders_reply reply.now out.old.items out.new.items) }
    ensures err { OnErr result (out.new.items ≡ out.old.items) }
{
    reply.put(&Mine, out)
}

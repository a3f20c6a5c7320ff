//! CreatePartitions: its request from bytes, its reply to bytes.

ghost use Rattle.std.specs.Prelude.{◌≡◌, ◌≤◌, refl, length, drop, OnOk, OnErr};
ghost use Rattle.kr_layout.specs.Answers.{Answers, Begins, Puts};
ghost use Rattle.kr_bodies.specs.CreatePartitions.{IsCreatePartitions, create_partitions, create_partitions_assignment, create_partitions_reply, create_partitions_topic, create_partitions_topic_result};

use crate::Mine;
use kr_base::NoMemory;
use kr_calls::{
    CreatePartitions, CreatePartitionsAssignment, CreatePartitionsReply, CreatePartitionsTopic,
    CreatePartitionsTopicResult,
};
use kr_layout::{BodyFault, Get, Put, ReadFault, Reader, put_end, read_body};
use kr_wire::put_null;
use std::alloc::Global;

impl Get<Mine> for CreatePartitionsAssignment {
    ghost schema = { create_partitions_assignment };

    ghost is_whole = { refl };

    fn least() -> usize {
        2
    }

    fn get(from: &mut Reader<'_, Mine>) -> Result<CreatePartitionsAssignment, ReadFault> {
        let assignment = CreatePartitionsAssignment {
            brokers: from.get()?,
        };
        from.end()?;
        Ok(assignment)
    }
}

impl Get<Mine> for CreatePartitionsTopic {
    ghost schema = { create_partitions_topic };

    ghost is_whole = { refl };

    fn least() -> usize {
        7
    }

    fn get(from: &mut Reader<'_, Mine>) -> Result<CreatePartitionsTopic, ReadFault> {
        let topic = CreatePartitionsTopic {
            name: from.get()?,
            count: from.get()?,
            assignments: from.get()?,
        };
        from.end()?;
        Ok(topic)
    }
}

impl Get<Mine> for CreatePartitions {
    ghost schema = { create_partitions };

    ghost is_whole = { refl };

    fn least() -> usize {
        7
    }

    fn get(from: &mut Reader<'_, Mine>) -> Result<CreatePartitions, ReadFault> {
        let topics = from.get()?;
        let _timeout = from.i32()?;
        let validate_only = from.get()?;
        from.end()?;
        Ok(CreatePartitions {
            topics,
            validate_only,
        })
    }
}

impl Put<Mine> for CreatePartitionsTopicResult {
    ghost schema = { create_partitions_topic_result };

    fn put_parts(&self, mine: &Mine, out: &mut Vec<u8>) -> Result<(), NoMemory> {
        self.name.put(mine, out)?;
        self.error.put(mine, out)?;
        put_null(out)?;
        put_end(out)
    }
}

impl Put<Mine> for CreatePartitionsReply {
    ghost schema = { create_partitions_reply };

    fn put_parts(&self, mine: &Mine, out: &mut Vec<u8>) -> Result<(), NoMemory> {
        0i32.put(mine, out)?;
        self.results.put(mine, out)?;
        put_end(out)
    }
}

/// The CreatePartitions that all of the message's bytes from a place on stand for, or the first fault in
/// reading order.
pub fn read_create_partitions(
    alloc: Global,
    message: &[u8],
    at: usize,
) -> Result<CreatePartitions, BodyFault>
    requires { at ≤ length message.now }
    ensures { Answers IsCreatePartitions create_partitions (drop at message.now) result }
{
    read_body::<Mine, _>(alloc, message, at)
}

/// Appends what is written for the reply. Without memory nothing changes.
pub fn put_create_partitions(
    reply: &CreatePartitionsReply,
    out: &mut Vec<u8>,
) -> Result<(), NoMemory>
    ensures ok { OnOk result (Puts create_partitions_reply reply.now out.old.items out.new.items) }
    ensures err { OnErr result (out.new.items ≡ out.old.items) }
{
    reply.put(&Mine, out)
}

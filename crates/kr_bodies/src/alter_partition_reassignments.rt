//! AlterPartitionReassignments: its request from bytes, its reply to bytes.

ghost use Rattle.std.specs.Prelude.{◌≡◌, ◌≤◌, refl, length, drop, OnOk, OnErr};
ghost use Rattle.kr_layout.specs.Answers.{Answers, Begins, Puts};
ghost use Rattle.kr_bodies.specs.AlterPartitionReassignments.{IsAlterPartitionReassignments, alter_partition_reassignments, alter_partition_reassignments_reply, reassignable_partition, reassignable_partition_response, reassignable_topic, reassignable_topic_response};

use crate::Mine;
use kr_base::NoMemory;
use kr_calls::{
    AlterPartitionReassignments, AlterPartitionReassignmentsReply, ReassignablePartition,
    ReassignablePartitionResponse, ReassignableTopic, ReassignableTopicResponse,
};
use kr_layout::{BodyFault, Get, Put, ReadFault, Reader, put_end, read_body};
use kr_wire::put_null;
use std::alloc::Global;

impl Get<Mine> for ReassignablePartition {
    ghost schema = { reassignable_partition };

    ghost is_whole = { refl };

    fn least() -> usize {
        6
    }

    fn get(from: &mut Reader<'_, Mine>) -> Result<ReassignablePartition, ReadFault> {
        let partition = ReassignablePartition {
            index: from.get()?,
            replicas: from.get()?,
        };
        from.end()?;
        Ok(partition)
    }
}

impl Get<Mine> for ReassignableTopic {
    ghost schema = { reassignable_topic };

    ghost is_whole = { refl };

    fn least() -> usize {
        3
    }

    fn get(from: &mut Reader<'_, Mine>) -> Result<ReassignableTopic, ReadFault> {
        let topic = ReassignableTopic {
            name: from.get()?,
            partitions: from.get()?,
        };
        from.end()?;
        Ok(topic)
    }
}

impl Get<Mine> for AlterPartitionReassignments {
    ghost schema = { alter_partition_reassignments };

    ghost is_whole = { refl };

    fn least() -> usize {
        6
    }

    fn get(from: &mut Reader<'_, Mine>) -> Result<AlterPartitionReassignments, ReadFault> {
        let _timeout = from.i32()?;
        let topics = from.get()?;
        from.end()?;
        Ok(AlterPartitionReassignments { topics })
    }
}

impl Put<Mine> for ReassignablePartitionResponse {
    ghost schema = { reassignable_partition_response };

    fn put_parts(&self, mine: &Mine, out: &mut Vec<u8>) -> Result<(), NoMemory> {
        self.index.put(mine, out)?;
        self.error.put(mine, out)?;
        put_null(out)?;
        put_end(out)
    }
}

impl Put<Mine> for ReassignableTopicResponse {
    ghost schema = { reassignable_topic_response };

    fn put_parts(&self, mine: &Mine, out: &mut Vec<u8>) -> Result<(), NoMemory> {
        self.name.put(mine, out)?;
        self.partitions.put(mine, out)?;
        put_end(out)
    }
}

impl Put<Mine> for AlterPartitionReassignmentsReply {
    ghost schema = { alter_partition_reassignments_reply };

    fn put_parts(&self, mine: &Mine, out: &mut Vec<u8>) -> Result<(), NoMemory> {
        0i32.put(mine, out)?;
        self.error.put(mine, out)?;
        put_null(out)?;
        self.responses.put(mine, out)?;
        put_end(out)
    }
}

/// The AlterPartitionReassignments that all of the message's bytes from a place on stand for, or the first fault in
/// reading order.
pub fn read_alter_partition_reassignments(
    alloc: Global,
    message: &[u8],
    at: usize,
) -> Result<AlterPartitionReassignments, BodyFault>
    requires { at ≤ length message.now }
    ensures { Answers IsAlterPartitionReassignments alter_partition_reassignments (drop at message.now) result }
{
    read_body::<Mine, _>(alloc, message, at)
}

/// Appends what is written for the reply. Without memory nothing changes.
pub fn put_alter_partition_reassignments(
    reply: &AlterPartitionReassignmentsReply,
    out: &mut Vec<u8>,
) -> Result<(), NoMemory>
    ensures ok { OnOk result (Puts alter_partition_reassignments_reply reply.now out.old.items out.new.items) }
    ensures err { OnErr result (out.new.items ≡ out.old.items) }
{
    reply.put(&Mine, out)
}

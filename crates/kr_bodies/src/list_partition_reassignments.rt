//! ListPartitionReassignments: its request from bytes, its reply to bytes.

ghost use Rattle.std.specs.Prelude.{◌≡◌, ◌≤◌, refl, length, drop, OnOk, OnErr};
ghost use Rattle.kr_layout.specs.Answers.{Answers, Begins, Puts};
ghost use Rattle.kr_bodies.specs.ListPartitionReassignments.{IsListPartitionReassignments, list_partition_reassignments, list_partition_reassignments_reply, listed_topic, ongoing_partition_reassignment, ongoing_topic_reassignment};

use crate::Mine;
use kr_base::NoMemory;
use kr_calls::{
    ListPartitionReassignments, ListPartitionReassignmentsReply, ListedTopic,
    OngoingPartitionReassignment, OngoingTopicReassignment,
};
use kr_layout::{BodyFault, Get, Put, ReadFault, Reader, put_end, read_body};
use kr_wire::put_null;
use std::alloc::Global;

impl Get<Mine> for ListedTopic {
    ghost schema = { listed_topic };

    ghost is_whole = { refl };

    fn least() -> usize {
        3
    }

    fn get(from: &mut Reader<'_, Mine>) -> Result<ListedTopic, ReadFault> {
        let topic = ListedTopic {
            name: from.get()?,
            partitions: from.get()?,
        };
        from.end()?;
        Ok(topic)
    }
}

impl Get<Mine> for ListPartitionReassignments {
    ghost schema = { list_partition_reassignments };

    ghost is_whole = { refl };

    fn least() -> usize {
        6
    }

    fn get(from: &mut Reader<'_, Mine>) -> Result<ListPartitionReassignments, ReadFault> {
        let _timeout = from.i32()?;
        let topics = from.get()?;
        from.end()?;
        Ok(ListPartitionReassignments { topics })
    }
}

impl Put<Mine> for OngoingPartitionReassignment {
    ghost schema = { ongoing_partition_reassignment };

    fn put_parts(&self, mine: &Mine, out: &mut Vec<u8>) -> Result<(), NoMemory> {
        self.index.put(mine, out)?;
        self.replicas.put(mine, out)?;
        self.adding.put(mine, out)?;
        self.removing.put(mine, out)?;
        put_end(out)
    }
}

impl Put<Mine> for OngoingTopicReassignment {
    ghost schema = { ongoing_topic_reassignment };

    fn put_parts(&self, mine: &Mine, out: &mut Vec<u8>) -> Result<(), NoMemory> {
        self.name.put(mine, out)?;
        self.partitions.put(mine, out)?;
        put_end(out)
    }
}

impl Put<Mine> for ListPartitionReassignmentsReply {
    ghost schema = { list_partition_reassignments_reply };

    fn put_parts(&self, mine: &Mine, out: &mut Vec<u8>) -> Result<(), NoMemory> {
        0i32.put(mine, out)?;
        self.error.put(mine, out)?;
        put_null(out)?;
        self.topics.put(mine, out)?;
        put_end(out)
    }
}

/// The ListPartitionReassignments that all of the message's bytes from a place on stand for, or the first fault in
/// reading order.
pub fn read_list_partition_reassignments(
    alloc: Global,
    message: &[u8],
    at: usize,
) -> Result<ListPartitionReassignments, BodyFault>
    requires { at ≤ length message.now }
    ensures { Answers IsListPartitionReassignments list_partition_reassignments (drop at message.now) result }
{
    read_body::<Mine, _>(alloc, message, at)
}

/// Appends what is written for the reply. Without memory nothing changes.
pub fn put_list_partition_reassignments(
    reply: &ListPartitionReassignmentsReply,
    out: &mut Vec<u8>,
) -> Result<(), NoMemory>
    ensures ok { OnOk result (Puts list_partition_reassignments_reply reply.now out.old.items out.new.items) }
    ensures err { OnErr result (out.new.items ≡ out.old.items) }
{
    reply.put(&Mine, out)
}

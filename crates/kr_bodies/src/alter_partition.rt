//! AlterPartition: its request from bytes, its reply to bytes.

ghost use Rattle.std.specs.Prelude.{◌≡◌, ◌≤◌, refl, length, drop, OnOk, OnErr};
ghost use Rattle.kr_layout.specs.Answers.{Answers, Begins, Puts};
ghost use Rattle.kr_bodies.specs.AlterPartition.{IsAlterPartition, alter_partition, alter_partition_reply, alter_partition_result, alter_partition_topic, alter_partition_topic_result, broker_state, partition_report};

use crate::Mine;
use kr_base::NoMemory;
use kr_calls::{
    AlterPartition, AlterPartitionReply, AlterPartitionResult, AlterPartitionTopic,
    AlterPartitionTopicResult, BrokerState, PartitionReport,
};
use kr_layout::{BodyFault, Get, Put, ReadFault, Reader, put_end, read_body};
use std::alloc::Global;

impl Get<Mine> for BrokerState {
    ghost schema = { broker_state };

    ghost is_whole = { refl };

    fn least() -> usize {
        13
    }

    fn get(from: &mut Reader<'_, Mine>) -> Result<BrokerState, ReadFault> {
        let state = BrokerState {
            broker: from.get()?,
            epoch: from.get()?,
        };
        from.end()?;
        Ok(state)
    }
}

impl Get<Mine> for PartitionReport {
    ghost schema = { partition_report };

    ghost is_whole = { refl };

    fn least() -> usize {
        15
    }

    fn get(from: &mut Reader<'_, Mine>) -> Result<PartitionReport, ReadFault> {
        let report = PartitionReport {
            index: from.get()?,
            leader_epoch: from.get()?,
            in_sync: from.get()?,
            recovery: from.get()?,
            partition_epoch: from.get()?,
        };
        from.end()?;
        Ok(report)
    }
}

impl Get<Mine> for AlterPartitionTopic {
    ghost schema = { alter_partition_topic };

    ghost is_whole = { refl };

    fn least() -> usize {
        18
    }

    fn get(from: &mut Reader<'_, Mine>) -> Result<AlterPartitionTopic, ReadFault> {
        let topic = AlterPartitionTopic {
            topic: from.get()?,
            partitions: from.get()?,
        };
        from.end()?;
        Ok(topic)
    }
}

impl Get<Mine> for AlterPartition {
    ghost schema = { alter_partition };

    ghost is_whole = { refl };

    fn least() -> usize {
        14
    }

    fn get(from: &mut Reader<'_, Mine>) -> Result<AlterPartition, ReadFault> {
        let partition = AlterPartition {
            broker: from.get()?,
            epoch: from.get()?,
            topics: from.get()?,
        };
        from.end()?;
        Ok(partition)
    }
}

impl Put<Mine> for AlterPartitionResult {
    ghost schema = { alter_partition_result };

    fn put_parts(&self, mine: &Mine, out: &mut Vec<u8>) -> Result<(), NoMemory> {
        self.index.put(mine, out)?;
        self.error.put(mine, out)?;
        self.leader.put(mine, out)?;
        self.leader_epoch.put(mine, out)?;
        self.in_sync.put(mine, out)?;
        self.recovery.put(mine, out)?;
        self.partition_epoch.put(mine, out)?;
        put_end(out)
    }
}

impl Put<Mine> for AlterPartitionTopicResult {
    ghost schema = { alter_partition_topic_result };

    fn put_parts(&self, mine: &Mine, out: &mut Vec<u8>) -> Result<(), NoMemory> {
        self.topic.put(mine, out)?;
        self.partitions.put(mine, out)?;
        put_end(out)
    }
}

impl Put<Mine> for AlterPartitionReply {
    ghost schema = { alter_partition_reply };

    fn put_parts(&self, mine: &Mine, out: &mut Vec<u8>) -> Result<(), NoMemory> {
        0i32.put(mine, out)?;
        self.error.put(mine, out)?;
        self.topics.put(mine, out)?;
        put_end(out)
    }
}

/// The AlterPartition that all of the message's bytes from a place on stand for, or the first fault in
/// reading order.
pub fn read_alter_partition(
    alloc: Global,
    message: &[u8],
    at: usize,
) -> Result<AlterPartition, BodyFault>
    requires { at ≤ length message.now }
    ensures { Answers IsAlterPartition alter_partition (drop at message.now) result }
{
    read_body::<Mine, _>(alloc, message, at)
}

/// Appends what is written for the reply. Without memory nothing changes.
pub fn put_alter_partition(reply: &AlterPartitionReply, out: &mut Vec<u8>) -> Result<(), NoMemory>
    ensures ok { OnOk result (Puts alter_partition_reply reply.now out.old.items out.new.items) }
    ensures err { OnErr result (out.new.items ≡ out.old.items) }
{
    reply.put(&Mine, out)
}

//! Metadata: its request from bytes, its reply to bytes.

ghost use Rattle.std.specs.Prelude.{◌≡◌, ◌≤◌, refl, length, drop, OnOk, OnErr};
ghost use Rattle.kr_layout.specs.Answers.{Answers, Begins, Puts};
ghost use Rattle.kr_bodies.specs.Metadata.{IsMetadata, metadata, metadata_broker, metadata_partition, metadata_reply, metadata_request_topic, metadata_topic};

use crate::Mine;
use kr_base::NoMemory;
use kr_calls::{
    Metadata, MetadataBroker, MetadataPartition, MetadataReply, MetadataRequestTopic, MetadataTopic,
};
use kr_layout::{BodyFault, Get, Put, ReadFault, Reader, put_end, read_body};
use std::alloc::Global;

impl Get<Mine> for MetadataRequestTopic {
    ghost schema = { metadata_request_topic };

    ghost is_whole = { refl };

    fn least() -> usize {
        18
    }

    fn get(from: &mut Reader<'_, Mine>) -> Result<MetadataRequestTopic, ReadFault> {
        let topic = MetadataRequestTopic {
            topic: from.get()?,
            name: from.get()?,
        };
        from.end()?;
        Ok(topic)
    }
}

impl Get<Mine> for Metadata {
    ghost schema = { metadata };

    ghost is_whole = { refl };

    fn least() -> usize {
        4
    }

    fn get(from: &mut Reader<'_, Mine>) -> Result<Metadata, ReadFault> {
        let topics = from.get()?;
        let _auto_create = from.bool()?;
        let _topic_operations = from.bool()?;
        from.end()?;
        Ok(Metadata { topics })
    }
}

impl Put<Mine> for MetadataBroker {
    ghost schema = { metadata_broker };

    fn put_parts(&self, mine: &Mine, out: &mut Vec<u8>) -> Result<(), NoMemory> {
        self.id.put(mine, out)?;
        self.host.put(mine, out)?;
        self.port.put(mine, out)?;
        self.rack.put(mine, out)?;
        put_end(out)
    }
}

impl Put<Mine> for MetadataPartition {
    ghost schema = { metadata_partition };

    fn put_parts(&self, mine: &Mine, out: &mut Vec<u8>) -> Result<(), NoMemory> {
        self.error.put(mine, out)?;
        self.index.put(mine, out)?;
        self.leader.put(mine, out)?;
        self.leader_epoch.put(mine, out)?;
        self.replicas.put(mine, out)?;
        self.in_sync.put(mine, out)?;
        self.offline.put(mine, out)?;
        put_end(out)
    }
}

impl Put<Mine> for MetadataTopic {
    ghost schema = { metadata_topic };

    fn put_parts(&self, mine: &Mine, out: &mut Vec<u8>) -> Result<(), NoMemory> {
        self.error.put(mine, out)?;
        self.name.put(mine, out)?;
        self.topic.put(mine, out)?;
        self.internal.put(mine, out)?;
        self.partitions.put(mine, out)?;
        self.operations.put(mine, out)?;
        put_end(out)
    }
}

impl Put<Mine> for MetadataReply {
    ghost schema = { metadata_reply };

    fn put_parts(&self, mine: &Mine, out: &mut Vec<u8>) -> Result<(), NoMemory> {
        0i32.put(mine, out)?;
        self.brokers.put(mine, out)?;
        self.cluster.put(mine, out)?;
        self.controller.put(mine, out)?;
        self.topics.put(mine, out)?;
        put_end(out)
    }
}

/// The Metadata that all of the message's bytes from a place on stand for, or the first fault in
/// reading order.
pub fn read_metadata(alloc: Global, message: &[u8], at: usize) -> Result<Metadata, BodyFault>
    requires { at ≤ length message.now }
    ensures { Answers IsMetadata metadata (drop at message.now) result }
{
    read_body::<Mine, _>(alloc, message, at)
}

/// Appends what is written for the reply. Without memory nothing changes.
pub fn put_metadata(reply: &MetadataReply, out: &mut Vec<u8>) -> Result<(), NoMemory>
    ensures ok { OnOk result (Puts metadata_reply reply.now out.old.items out.new.items) }
    ensures err { OnErr result (out.new.items ≡ out.old.items) }
{
    reply.put(&Mine, out)
}

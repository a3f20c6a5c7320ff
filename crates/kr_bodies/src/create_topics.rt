//! CreateTopics: its request from bytes, its reply to bytes.

ghost use Rattle.std.specs.Prelude.{◌≡◌, ◌≤◌, refl, length, drop, OnOk, OnErr};
ghost use Rattle.kr_layout.specs.Answers.{Answers, Begins, Puts};
ghost use Rattle.kr_bodies.specs.CreateTopics.{IsCreateTopics, creatable_replica_assignment, creatable_topic, creatable_topic_config, creatable_topic_result, create_topics, create_topics_reply};

use crate::Mine;
use kr_base::NoMemory;
use kr_calls::{
    CreatableReplicaAssignment, CreatableTopic, CreatableTopicConfig, CreatableTopicResult,
    CreateTopics, CreateTopicsReply,
};
use kr_layout::{BodyFault, Get, Put, ReadFault, Reader, put_end, read_body};
use kr_wire::put_null;
use std::alloc::Global;

impl Get<Mine> for CreatableReplicaAssignment {
    ghost schema = { creatable_replica_assignment };

    ghost is_whole = { refl };

    fn least() -> usize {
        6
    }

    fn get(from: &mut Reader<'_, Mine>) -> Result<CreatableReplicaAssignment, ReadFault> {
        let assignment = CreatableReplicaAssignment {
            index: from.get()?,
            brokers: from.get()?,
        };
        from.end()?;
        Ok(assignment)
    }
}

impl Get<Mine> for CreatableTopicConfig {
    ghost schema = { creatable_topic_config };

    ghost is_whole = { refl };

    fn least() -> usize {
        3
    }

    fn get(from: &mut Reader<'_, Mine>) -> Result<CreatableTopicConfig, ReadFault> {
        let config = CreatableTopicConfig {
            name: from.get()?,
            value: from.get()?,
        };
        from.end()?;
        Ok(config)
    }
}

impl Get<Mine> for CreatableTopic {
    ghost schema = { creatable_topic };

    ghost is_whole = { refl };

    fn least() -> usize {
        10
    }

    fn get(from: &mut Reader<'_, Mine>) -> Result<CreatableTopic, ReadFault> {
        let topic = CreatableTopic {
            name: from.get()?,
            partitions: from.get()?,
            factor: from.get()?,
            assignments: from.get()?,
            configs: from.get()?,
        };
        from.end()?;
        Ok(topic)
    }
}

impl Get<Mine> for CreateTopics {
    ghost schema = { create_topics };

    ghost is_whole = { refl };

    fn least() -> usize {
        7
    }

    fn get(from: &mut Reader<'_, Mine>) -> Result<CreateTopics, ReadFault> {
        let topics = from.get()?;
        let _timeout = from.i32()?;
        let validate_only = from.get()?;
        from.end()?;
        Ok(CreateTopics {
            topics,
            validate_only,
        })
    }
}

impl Put<Mine> for CreatableTopicResult {
    ghost schema = { creatable_topic_result };

    fn put_parts(&self, mine: &Mine, out: &mut Vec<u8>) -> Result<(), NoMemory> {
        self.name.put(mine, out)?;
        self.topic.put(mine, out)?;
        self.error.put(mine, out)?;
        put_null(out)?;
        self.partitions.put(mine, out)?;
        self.factor.put(mine, out)?;
        put_null(out)?;
        put_end(out)
    }
}

impl Put<Mine> for CreateTopicsReply {
    ghost schema = { create_topics_reply };

    fn put_parts(&self, mine: &Mine, out: &mut Vec<u8>) -> Result<(), NoMemory> {
        0i32.put(mine, out)?;
        self.topics.put(mine, out)?;
        put_end(out)
    }
}

/// The CreateTopics that all of the message's bytes from a place on stand for, or the first fault in
/// reading order.
pub fn read_create_topics(
    alloc: Global,
    message: &[u8],
    at: usize,
) -> Result<CreateTopics, BodyFault>
    requires { at ≤ length message.now }
    ensures { Answers IsCreateTopics create_topics (drop at message.now) result }
{
    read_body::<Mine, _>(alloc, message, at)
}

/// Appends what is written for the reply. Without memory nothing changes.
pub fn put_create_topics(reply: &CreateTopicsReply, out: &mut Vec<u8>) -> Result<(), NoMemory>
    ensures ok { OnOk result (Puts create_topics_reply reply.now out.old.items out.new.items) }
    ensures err { OnErr result (out.new.items ≡ out.old.items) }
{
    reply.put(&Mine, out)
}

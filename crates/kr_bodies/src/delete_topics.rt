//! DeleteTopics: its request from bytes, its reply to bytes.

ghost use Rattle.std.specs.Prelude.{◌≡◌, ◌≤◌, refl, length, drop, OnOk, OnErr};
ghost use Rattle.kr_layout.specs.Answers.{Answers, Begins, Puts};
ghost use Rattle.kr_bodies.specs.DeleteTopics.{IsDeleteTopics, deletable_topic_result, delete_topic_state, delete_topics, delete_topics_reply};

use crate::Mine;
use kr_base::NoMemory;
use kr_calls::{DeletableTopicResult, DeleteTopicState, DeleteTopics, DeleteTopicsReply};
use kr_layout::{BodyFault, Get, Put, ReadFault, Reader, put_end, read_body};
use kr_wire::put_null;
use std::alloc::Global;

impl Get<Mine> for DeleteTopicState {
    ghost schema = { delete_topic_state };

    ghost is_whole = { refl };

    fn least() -> usize {
        18
    }

    fn get(from: &mut Reader<'_, Mine>) -> Result<DeleteTopicState, ReadFault> {
        let state = DeleteTopicState {
            name: from.get()?,
            topic: from.get()?,
        };
        from.end()?;
        Ok(state)
    }
}

impl Get<Mine> for DeleteTopics {
    ghost schema = { delete_topics };

    ghost is_whole = { refl };

    fn least() -> usize {
        6
    }

    fn get(from: &mut Reader<'_, Mine>) -> Result<DeleteTopics, ReadFault> {
        let topics = from.get()?;
        let _timeout = from.i32()?;
        from.end()?;
        Ok(DeleteTopics { topics })
    }
}

impl Put<Mine> for DeletableTopicResult {
    ghost schema = { deletable_topic_result };

    fn put_parts(&self, mine: &Mine, out: &mut Vec<u8>) -> Result<(), NoMemory> {
        self.name.put(mine, out)?;
        self.topic.put(mine, out)?;
        self.error.put(mine, out)?;
        put_null(out)?;
        put_end(out)
    }
}

impl Put<Mine> for DeleteTopicsReply {
    ghost schema = { delete_topics_reply };

    fn put_parts(&self, mine: &Mine, out: &mut Vec<u8>) -> Result<(), NoMemory> {
        0i32.put(mine, out)?;
        self.responses.put(mine, out)?;
        put_end(out)
    }
}

/// The DeleteTopics that all of the message's bytes from a place on stand for, or the first fault in
/// reading order.
pub fn read_delete_topics(
    alloc: Global,
    message: &[u8],
    at: usize,
) -> Result<DeleteTopics, BodyFault>
    requires { at ≤ length message.now }
    ensures { Answers IsDeleteTopics delete_topics (drop at message.now) result }
{
    read_body::<Mine, _>(alloc, message, at)
}

/// Appends what is written for the reply. Without memory nothing changes.
pub fn put_delete_topics(reply: &DeleteTopicsReply, out: &mut Vec<u8>) -> Result<(), NoMemory>
    ensures ok { OnOk result (Puts delete_topics_reply reply.now out.old.items out.new.items) }
    ensures err { OnErr result (out.new.items ≡ out.old.items) }
{
    reply.put(&Mine, out)
}

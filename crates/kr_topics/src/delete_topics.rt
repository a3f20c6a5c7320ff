//! Topics are deleted.

ghost use Rattle.std.specs.Prelude.{◌≡◌, Some, IfOk};
ghost use Rattle.kr_calls.specs.DeleteTopics as delete_topics;
ghost use Rattle.kr_calls.specs.Refuse.{refused_delete_topics};

use crate::naming::is_named_once;
use kr_base::{NoMemory, Steps};
use kr_calls::errors::{INVALID_REQUEST, UNKNOWN_TOPIC_ID, UNKNOWN_TOPIC_OR_PARTITION};
use kr_calls::{
    DeletableTopicResult, DeleteTopicState, DeleteTopics, DeleteTopicsReply, Draft, Effect, Reply,
};
use kr_defs::{Copied, Record, Rows, Text};
use kr_rules::{Handler, Refusal, Rule, Work, decide_each};
use kr_sessions::Context;
use kr_store::{Seen, Store};
use std::alloc::Global;
use std::sync::ledger::Ledger;

// What is decided of one topic to delete.
struct Deleting;

// The topic's removal, and what is answered.
fn draft_delete_topics(
    alloc: Global,
    name: &Text,
    topic: &u128,
) -> Result<Draft<DeletableTopicResult>, NoMemory>
    ensures { IfOk result (λ draft. draft ≡ delete_topics.deleted name.now topic.now) }
{
    let mut records = Rows::new(alloc);
    records.push(Record::RemoveTopic { topic: *topic })?;
    let name = name.copied(alloc)?;
    Ok(Draft {
        records,
        answer: DeletableTopicResult {
            name: Some(name),
            topic: *topic,
            error: 0,
        },
    })
}

impl Rule<DeleteTopicState, DeletableTopicResult> for Deleting {
    ghost refusal = { λ _. refused_delete_topics };

    ghost rule = { λ _. delete_topics.rule };

    fn refusal(
        &self,
        alloc: Global,
        error: &i16,
        entry: &DeleteTopicState,
    ) -> Result<DeletableTopicResult, NoMemory> {
        let name = Copied::copied(&entry.name, alloc)?;
        Ok(DeletableTopicResult {
            name,
            topic: entry.topic,
            error: *error,
        })
    }

    fn judge<S: Store>(
        &self,
        alloc: Global,
        seen: &Seen<S>,
        _work: &Work,
        entry: &DeleteTopicState,
    ) -> Result<Draft<DeletableTopicResult>, Refusal> {
        if !is_named_once(&entry.name, &entry.topic) {
            return Err(Refusal::Error(INVALID_REQUEST));
        }
        match &entry.name {
            Some(name) => match seen.topic_named(name) {
                Some(topic) => Ok(draft_delete_topics(alloc, &topic.name, &topic.id)?),
                None => Err(Refusal::Error(UNKNOWN_TOPIC_OR_PARTITION)),
            },
            None => match seen.topic(&entry.topic) {
                Some(topic) => Ok(draft_delete_topics(alloc, &topic.name, &topic.id)?),
                None => Err(Refusal::Error(UNKNOWN_TOPIC_ID)),
            },
        }
    }
}

/// Each topic that is named, by its name or its id, is removed.
#[derive(Drop)]
pub struct DeleteTopicsHandler;

impl Handler<DeleteTopics> for DeleteTopicsHandler {
    ghost decided = { λ request given image. delete_topics.decided image given.place request };

    #[tactic(auto, unfolding(kr_calls::specs::DeleteTopics::decided))]
    fn decide<S: Store, L: Ledger>(
        alloc: Global,
        store: &mut S,
        context: &Context,
        request: &DeleteTopics,
        steps: &mut Steps<L>,
    ) -> Result<Effect, NoMemory> {
        let (records, responses) = decide_each(
            alloc,
            store,
            context.place,
            &Deleting,
            request.topics.as_slice(),
            steps,
        )?;
        Ok(Effect {
            records,
            reply: Reply::DeleteTopics(DeleteTopicsReply { responses }),
        })
    }
}

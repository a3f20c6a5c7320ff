//! A leader reports which replicas are in sync with it.

ghost use Rattle.std.specs.Prelude.{◌≡◌};
ghost use Rattle.kr_calls.specs.AlterPartition as alter_partition;

use crate::reports::ReportRule;
use kr_base::{NoMemory, Steps};
use kr_calls::errors::STALE_BROKER_EPOCH;
use kr_calls::{AlterPartition, AlterPartitionReply, AlterPartitionTopicResults, Effect, Reply};
use kr_defs::{Records, Rows};
use kr_rules::{Handler, decide_groups};
use kr_sessions::Context;
use kr_store::{Seen, Store};
use std::alloc::Global;
use std::sync::ledger::Ledger;

// The broker that reports isn't registered with this epoch.
fn is_stale<S: Store>(seen: &Seen<S>, request: &AlterPartition) -> bool
    ensures { result ≡ alter_partition.is_stale seen.now request.now }
{
    match seen.broker(&request.broker) {
        Some(state) => request.epoch != state.epoch,
        None => true,
    }
}

fn reply_of(error: &i16, topics: AlterPartitionTopicResults) -> Reply
    ensures { result ≡ alter_partition.reply_of error.now topics }
{
    Reply::AlterPartition(AlterPartitionReply {
        error: *error,
        topics,
    })
}

/// Each report is accepted or refused by itself, in order; all are refused where the broker isn't registered with its
/// epoch.
#[derive(Drop)]
pub struct AlterPartitionHandler;

impl Handler<AlterPartition> for AlterPartitionHandler {
    ghost decided = { λ request given image. alter_partition.decided given.options.now image given.place request };

    #[tactic(auto, unfolding(kr_calls::specs::AlterPartition::decided))]
    fn decide<S: Store, L: Ledger>(
        alloc: Global,
        store: &mut S,
        context: &Context,
        request: &AlterPartition,
        steps: &mut Steps<L>,
    ) -> Result<Effect, NoMemory> {
        if is_stale(&Seen::tip(store), request) {
            return Ok(Effect {
                records: Records::new(alloc),
                reply: reply_of(&STALE_BROKER_EPOCH, Rows::new(alloc)),
            });
        }
        let rule = ReportRule::new(context.options, &request.broker);
        let topics = request.topics.as_slice();
        let (records, answers) = decide_groups(alloc, store, context.place, &rule, topics, steps)?;
        Ok(Effect {
            records,
            reply: reply_of(&0, answers),
        })
    }
}

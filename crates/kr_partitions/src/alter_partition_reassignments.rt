//! Partitions get other replicas, as was asked for.

ghost use Rattle.kr_calls.specs.AlterPartitionReassignments as alter_partition_reassignments;

use crate::reassignments::ReassignmentRule;
use kr_base::{NoMemory, Steps};
use kr_calls::{AlterPartitionReassignments, AlterPartitionReassignmentsReply, Effect, Reply};
use kr_rules::{Handler, decide_groups};
use kr_sessions::Context;
use kr_store::Store;
use std::alloc::Global;
use std::sync::ledger::Ledger;

/// Each partition's reassignment begins, is replaced or given up, or is refused by itself, in order.
#[derive(Drop)]
pub struct AlterPartitionReassignmentsHandler;

impl Handler<AlterPartitionReassignments> for AlterPartitionReassignmentsHandler {
    ghost decided = { λ request given image. alter_partition_reassignments.decided given.options.now image given.place request };

    #[tactic(auto, unfolding(kr_calls::specs::AlterPartitionReassignments::decided))]
    fn decide<S: Store, L: Ledger>(
        alloc: Global,
        store: &mut S,
        context: &Context,
        request: &AlterPartitionReassignments,
        steps: &mut Steps<L>,
    ) -> Result<Effect, NoMemory> {
        let rule = ReassignmentRule {
            options: context.options,
        };
        let topics = request.topics.as_slice();
        let (records, responses) = decide_groups(
            alloc,
            store,
            context.place,
            &rule,
            topics,
            steps,
        )?;
        Ok(Effect {
            records,
            reply: Reply::AlterPartitionReassignments(AlterPartitionReassignmentsReply {
                error: 0,
                responses,
            }),
        })
    }
}

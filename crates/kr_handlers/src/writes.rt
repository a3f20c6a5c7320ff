//! Each request that changes the image, decided by its handler.

ghost use Rattle.std.specs.Prelude.{◌≡◌, ◌≤◌, ◌+◌, [], pos, IfOk, OnOk};
ghost use Rattle.kr_calls.specs.Deciding.{weights};
ghost use Rattle.kr_calls.specs.declared.calls.Reply.TheVariants as replies;
ghost use Rattle.kr_handlers.specs.Decided.{decided_in};
ghost use Rattle.kr_rules.specs.Handlers.{IsAtPlace};
ghost use Rattle.kr_store.specs.Images.{IsSettled};

use kr_base::{NoMemory, Steps};
use kr_brokers::{BrokerHeartbeatHandler, BrokerRegistrationHandler, UnregisterBrokerHandler};
use kr_calls::{Effect, Reply, Request};
use kr_configs::IncrementalAlterConfigsHandler;
use kr_defs::Records;
use kr_partitions::{
    AlterPartitionHandler, AlterPartitionReassignmentsHandler, ElectLeadersHandler,
};
use kr_rules::Handler;
use kr_sessions::Context;
use kr_store::Store;
use kr_topics::{CreatePartitionsHandler, CreateTopicsHandler, DeleteTopicsHandler};
use std::alloc::Global;
use std::sync::ledger::Ledger;

// A read changes nothing, and is answered elsewhere.
fn nothing(alloc: Global) -> Effect
    ensures records { result.records ≡ [] }
    ensures reply { result.reply ≡ replies.Bare (pos 0) }
{
    Effect {
        records: Records::new(alloc),
        reply: Reply::Bare { error: 0 },
    }
}

/// What the rule of a request gives, at the place where the next record will stand. Its records are in the present image
/// then. A read gives no record, and a reply that says nothing. An Err wants memory, and leaves the kept images as they
/// are.
#[tactic(auto, unfolding(kr_calls::specs::Decide::work_of))]
pub fn decide<S: Store, L: Ledger>(
    alloc: Global,
    store: &mut S,
    context: &Context,
    request: &Request,
    steps: &mut Steps<L>,
) -> Result<Effect, NoMemory>
    requires here { IsAtPlace (S.images store.old) context.now.place }
    ensures records { IfOk result (λ effect. effect.records ≡
        (decided_in context.entry.now (S.images store.old).tip request.now).0.records) }
    ensures reply { IfOk result (λ effect. effect.reply ≡
        (decided_in context.entry.now (S.images store.old).tip request.now).1) }
    ensures image { OnOk result ((S.images store.new).tip ≡
        (decided_in context.entry.now (S.images store.old).tip request.now).0.image) }
    ensures made { IfOk result (λ effect. (S.images store.new).made ≤
        (S.images store.old).made + weights (S.images store.old).tip effect.records) }
    ensures kept { (S.images store.new).kept ≡ (S.images store.old).kept }
    ensures calls { (S.images store.new).kept_made ≡ (S.images store.old).kept_made }
    ensures begins { (S.images store.new).kept_begun ≡ (S.images store.old).kept_begun }
    ensures settled { IsSettled (S.images store.old) → IsSettled (S.images store.new) }
    ensures later { steps.old ≤ steps.new }
{
    match request {
        Request::BrokerRegistration(q) => {
            BrokerRegistrationHandler::decide(alloc, store, context, q, steps)
        }
        Request::BrokerHeartbeat(q) => {
            BrokerHeartbeatHandler::decide(alloc, store, context, q, steps)
        }
        Request::UnregisterBroker(q) => {
            UnregisterBrokerHandler::decide(alloc, store, context, q, steps)
        }
        Request::CreateTopics(q) => CreateTopicsHandler::decide(alloc, store, context, q, steps),
        Request::DeleteTopics(q) => DeleteTopicsHandler::decide(alloc, store, context, q, steps),
        Request::CreatePartitions(q) => {
            CreatePartitionsHandler::decide(alloc, store, context, q, steps)
        }
        Request::AlterPartition(q) => {
            AlterPartitionHandler::decide(alloc, store, context, q, steps)
        }
        Request::ElectLeaders(q) => ElectLeadersHandler::decide(alloc, store, context, q, steps),
        Request::AlterPartitionReassignments(q) => {
            AlterPartitionReassignmentsHandler::decide(alloc, store, context, q, steps)
        }
        Request::IncrementalAlterConfigs(q) => {
            IncrementalAlterConfigsHandler::decide(alloc, store, context, q, steps)
        }
        Request::ListPartitionReassignments(_) | Request::Metadata(_) => Ok(nothing(alloc)),
    }
}

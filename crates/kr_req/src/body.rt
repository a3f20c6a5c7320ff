//! The bodies of requests and replies, by their keys.

ghost use Rattle.std.specs.Prelude.{◌≡◌, ◌≤◌, length, drop, OnOk, OnErr};
ghost use Rattle.kr_layout.specs.Answers.{IsAnswer};
ghost use Rattle.kr_req.specs.Reading.{body_of};
ghost use Rattle.kr_req.specs.inner.ReplyBodies.{PutsBody};

use crate::ApiKey;
use kr_base::NoMemory;
use kr_bodies::{
    put_alter_partition, put_alter_partition_reassignments, put_broker_heartbeat,
    put_broker_registration, put_create_partitions, put_create_topics, put_delete_topics,
    put_elect_leaders, put_incremental_alter_configs, put_list_partition_reassignments,
    put_metadata, put_unregister_broker, read_alter_partition, read_alter_partition_reassignments,
    read_broker_heartbeat, read_broker_registration, read_create_partitions, read_create_topics,
    read_delete_topics, read_elect_leaders, read_incremental_alter_configs,
    read_list_partition_reassignments, read_metadata, read_unregister_broker,
};
use kr_calls::{Reply, Request};
use kr_layout::{BodyFault, Put};
use std::alloc::Global;

/// The request of this key that all of the bytes from a place on stand for, or the first fault.
#[tactic(auto, unfolding(crate::specs::Reading::body_of))]
pub(crate) fn read_body(
    alloc: Global,
    api: ApiKey,
    message: &[u8],
    at: usize,
) -> Result<Request, BodyFault>
    requires { at ≤ length message.now }
    ensures { IsAnswer result (body_of api (drop at message.now)) }
{
    match api {
        ApiKey::BrokerRegistration => read_broker_registration(alloc, message, at).map(
            Request::BrokerRegistration,
        ),
        ApiKey::BrokerHeartbeat => read_broker_heartbeat(alloc, message, at).map(
            Request::BrokerHeartbeat,
        ),
        ApiKey::UnregisterBroker => read_unregister_broker(alloc, message, at).map(
            Request::UnregisterBroker,
        ),
        ApiKey::CreateTopics => read_create_topics(alloc, message, at).map(Request::CreateTopics),
        ApiKey::DeleteTopics => read_delete_topics(alloc, message, at).map(Request::DeleteTopics),
        ApiKey::CreatePartitions => read_create_partitions(alloc, message, at).map(
            Request::CreatePartitions,
        ),
        ApiKey::AlterPartition => read_alter_partition(alloc, message, at).map(
            Request::AlterPartition,
        ),
        ApiKey::ElectLeaders => read_elect_leaders(alloc, message, at).map(Request::ElectLeaders),
        ApiKey::AlterPartitionReassignments => read_alter_partition_reassignments(
            alloc, message, at,
        ).map(Request::AlterPartitionReassignments),
        ApiKey::ListPartitionReassignments => read_list_partition_reassignments(
            alloc, message, at,
        ).map(Request::ListPartitionReassignments),
        ApiKey::IncrementalAlterConfigs => read_incremental_alter_configs(alloc, message, at).map(
            Request::IncrementalAlterConfigs,
        ),
        ApiKey::Metadata => read_metadata(alloc, message, at).map(Request::Metadata),
    }
}

/// Appends what is written for the reply's body. Without memory nothing changes.
pub(crate) fn put_body(reply: &Reply, out: &mut Vec<u8>) -> Result<(), NoMemory>
    ensures ok { OnOk result (PutsBody reply.now out.old.items out.new.items) }
    ensures err { OnErr result (out.new.items ≡ out.old.items) }
{
    match reply {
        Reply::BrokerRegistration(reply) => put_broker_registration(reply, out),
        Reply::BrokerHeartbeat(reply) => put_broker_heartbeat(reply, out),
        Reply::UnregisterBroker(reply) => put_unregister_broker(reply, out),
        Reply::CreateTopics(reply) => put_create_topics(reply, out),
        Reply::DeleteTopics(reply) => put_delete_topics(reply, out),
        Reply::CreatePartitions(reply) => put_create_partitions(reply, out),
        Reply::AlterPartition(reply) => put_alter_partition(reply, out),
        Reply::ElectLeaders(reply) => put_elect_leaders(reply, out),
        Reply::AlterPartitionReassignments(reply) => put_alter_partition_reassignments(reply, out),
        Reply::ListPartitionReassignments(reply) => put_list_partition_reassignments(reply, out),
        Reply::IncrementalAlterConfigs(reply) => put_incremental_alter_configs(reply, out),
        Reply::Metadata(reply) => put_metadata(reply, out),
        Reply::Bare { error } => error.put(&(), out),
    }
}

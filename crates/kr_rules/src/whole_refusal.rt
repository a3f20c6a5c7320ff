//! The reply that refuses a request as a whole.

ghost use Rattle.std.specs.Prelude.{◌≡◌, map, IfOk};
ghost use Rattle.kr_calls.specs.Refuse as refusals;

use kr_base::NoMemory;
use kr_calls::{
    AlterPartitionReassignmentsReply, AlterPartitionReply, BrokerHeartbeatReply,
    BrokerRegistrationReply, ConfigResource, ConfigResponse, ConfigResponses, CreatableTopic,
    CreatableTopicResult, CreatableTopicResults, CreatePartitionsReply, CreatePartitionsTopic,
    CreatePartitionsTopicResult, CreatePartitionsTopicResults, CreateTopicsReply,
    DeletableTopicResult, DeletableTopicResults, DeleteTopicState, DeleteTopicsReply,
    ElectLeadersReply, IncrementalAlterConfigsReply, ListPartitionReassignmentsReply,
    MetadataReply, Reply, Request, UnregisterBrokerReply,
};
use kr_defs::{Copied, Rows};
use std::alloc::Global;

fn refused_topic(
    alloc: Global,
    topic: &CreatableTopic,
    error: i16,
) -> Result<CreatableTopicResult, NoMemory>
    ensures { IfOk result (λ r. r ≡ refusals.refused_create_topics error topic.now) }
{
    let name = topic.name.copied(alloc)?;
    Ok(CreatableTopicResult {
        name,
        topic: 0,
        error,
        partitions: -1,
        factor: -1,
    })
}

fn refuse_create_topics(
    alloc: Global,
    topics: &[CreatableTopic],
    error: i16,
) -> Result<CreatableTopicResults, NoMemory>
    ensures { IfOk result (λ rows. rows ≡ map (refusals.refused_create_topics error) topics.now) }
{
    let mut results = Rows::new(alloc);
    for topic in topics {
        results.push(refused_topic(alloc, topic, error)?)?;
    }
    Ok(results)
}

fn refused_topic_state(
    alloc: Global,
    topic: &DeleteTopicState,
    error: i16,
) -> Result<DeletableTopicResult, NoMemory>
    ensures { IfOk result (λ r. r ≡ refusals.refused_delete_topics error topic.now) }
{
    let name = Copied::copied(&topic.name, alloc)?;
    Ok(DeletableTopicResult {
        name,
        topic: topic.topic,
        error,
    })
}

fn refuse_delete_topics(
    alloc: Global,
    topics: &[DeleteTopicState],
    error: i16,
) -> Result<DeletableTopicResults, NoMemory>
    ensures { IfOk result (λ rows. rows ≡ map (refusals.refused_delete_topics error) topics.now) }
{
    let mut results = Rows::new(alloc);
    for topic in topics {
        results.push(refused_topic_state(alloc, topic, error)?)?;
    }
    Ok(results)
}

fn refused_topic_partitions(
    alloc: Global,
    topic: &CreatePartitionsTopic,
    error: i16,
) -> Result<CreatePartitionsTopicResult, NoMemory>
    ensures { IfOk result (λ r. r ≡ refusals.refused_create_partitions error topic.now) }
{
    let name = topic.name.copied(alloc)?;
    Ok(CreatePartitionsTopicResult { name, error })
}

fn refuse_create_partitions(
    alloc: Global,
    topics: &[CreatePartitionsTopic],
    error: i16,
) -> Result<CreatePartitionsTopicResults, NoMemory>
    ensures { IfOk result (λ rows. rows ≡ map (refusals.refused_create_partitions error) topics.now) }
{
    let mut results = Rows::new(alloc);
    for topic in topics {
        results.push(refused_topic_partitions(alloc, topic, error)?)?;
    }
    Ok(results)
}

fn refused_incremental_alter_configs(
    alloc: Global,
    resource: &ConfigResource,
    error: i16,
) -> Result<ConfigResponse, NoMemory>
    ensures { IfOk result (λ r. r ≡ refusals.refused_incremental_alter_configs error resource.now) }
{
    let name = resource.name.copied(alloc)?;
    Ok(ConfigResponse {
        error,
        kind: resource.kind,
        name,
    })
}

fn refuse_incremental_alter_configs(
    alloc: Global,
    resources: &[ConfigResource],
    error: i16,
) -> Result<ConfigResponses, NoMemory>
    ensures { IfOk result (λ rows. rows ≡ map (refusals.refused_incremental_alter_configs error) resources.now) }
{
    let mut responses = Rows::new(alloc);
    for resource in resources {
        responses.push(refused_incremental_alter_configs(alloc, resource, error)?)?;
    }
    Ok(responses)
}

/// The reply with this error for the request as a whole.
#[tactic(auto, unfolding(kr_calls::specs::Refuse::refuse))]
pub fn refuse(alloc: Global, request: &Request, error: i16) -> Result<Reply, NoMemory>
    ensures { IfOk result (λ reply. reply ≡ refusals.refuse request.now error) }
{
    Ok(match request {
        Request::BrokerRegistration(_) => {
            Reply::BrokerRegistration(BrokerRegistrationReply { error, epoch: -1 })
        }
        Request::BrokerHeartbeat(_) => Reply::BrokerHeartbeat(BrokerHeartbeatReply {
            error,
            caught_up: false,
            fenced: true,
            should_shut_down: false,
        }),
        Request::UnregisterBroker(_) => Reply::UnregisterBroker(UnregisterBrokerReply { error }),
        Request::CreateTopics(request) => {
            let topics = refuse_create_topics(alloc, request.topics.as_slice(), error)?;
            Reply::CreateTopics(CreateTopicsReply { topics })
        }
        Request::DeleteTopics(request) => {
            let responses = refuse_delete_topics(alloc, request.topics.as_slice(), error)?;
            Reply::DeleteTopics(DeleteTopicsReply { responses })
        }
        Request::CreatePartitions(request) => {
            let results = refuse_create_partitions(alloc, request.topics.as_slice(), error)?;
            Reply::CreatePartitions(CreatePartitionsReply { results })
        }
        Request::AlterPartition(_) => Reply::AlterPartition(AlterPartitionReply {
            error,
            topics: Rows::new(alloc),
        }),
        Request::ElectLeaders(_) => Reply::ElectLeaders(ElectLeadersReply {
            error,
            results: Rows::new(alloc),
        }),
        Request::AlterPartitionReassignments(_) => {
            Reply::AlterPartitionReassignments(AlterPartitionReassignmentsReply {
                error,
                responses: Rows::new(alloc),
            })
        }
        Request::ListPartitionReassignments(_) => {
            Reply::ListPartitionReassignments(ListPartitionReassignmentsReply {
                error,
                topics: Rows::new(alloc),
            })
        }
        Request::IncrementalAlterConfigs(request) => {
            let responses = refuse_incremental_alter_configs(
                alloc,
                request.resources.as_slice(),
                error,
            )?;
            Reply::IncrementalAlterConfigs(IncrementalAlterConfigsReply { responses })
        }
        Request::Metadata(_) => Reply::Metadata(MetadataReply {
            brokers: Rows::new(alloc),
            cluster: None,
            controller: -1,
            topics: Rows::new(alloc),
        }),
    })
}

//! Replies without an error.

ghost use Rattle.std.specs.Prelude.{◌≡◌};
ghost use Rattle.kr_workload.specs.Replies as replies;

use kr_calls::{
    AlterPartitionTopicResult, ConfigResponse, CreatableTopicResult, CreatePartitionsTopicResult,
    DeletableTopicResult, MetadataPartition, MetadataTopic, ReassignableTopicResponse,
    ReplicaElectionResult, Reply,
};

fn is_none(error: i16) -> bool
    ensures { result ≡ replies.is_none error }
{
    error == 0
}

fn are_created(topics: &[CreatableTopicResult]) -> bool
    ensures { result ≡ replies.are_created topics.now }
{
    topics.iter().all(|topic| is_none(topic.error))
}

fn are_deleted(topics: &[DeletableTopicResult]) -> bool
    ensures { result ≡ replies.are_deleted topics.now }
{
    topics.iter().all(|topic| is_none(topic.error))
}

fn are_grown(topics: &[CreatePartitionsTopicResult]) -> bool
    ensures { result ≡ replies.are_grown topics.now }
{
    topics.iter().all(|topic| is_none(topic.error))
}

fn are_set(resources: &[ConfigResponse]) -> bool
    ensures { result ≡ replies.are_set resources.now }
{
    resources.iter().all(|resource| is_none(resource.error))
}

fn is_altered(topic: &AlterPartitionTopicResult) -> bool
    ensures { result ≡ replies.is_altered topic.now }
{
    topic
        .partitions
        .as_slice()
        .iter()
        .all(|partition| is_none(partition.error))
}

fn are_altered(topics: &[AlterPartitionTopicResult]) -> bool
    ensures { result ≡ replies.are_altered topics.now }
{
    topics.iter().all(|topic| is_altered(topic))
}

fn is_elected(topic: &ReplicaElectionResult) -> bool
    ensures { result ≡ replies.is_elected topic.now }
{
    topic
        .partitions
        .as_slice()
        .iter()
        .all(|partition| is_none(partition.error))
}

fn are_elected(topics: &[ReplicaElectionResult]) -> bool
    ensures { result ≡ replies.are_elected topics.now }
{
    topics.iter().all(|topic| is_elected(topic))
}

fn is_reassigned(topic: &ReassignableTopicResponse) -> bool
    ensures { result ≡ replies.is_assigned topic.now }
{
    topic
        .partitions
        .as_slice()
        .iter()
        .all(|partition| is_none(partition.error))
}

fn are_reassigned(topics: &[ReassignableTopicResponse]) -> bool
    ensures { result ≡ replies.are_assigned topics.now }
{
    topics.iter().all(|topic| is_reassigned(topic))
}

fn are_partitions_shown(partitions: &[MetadataPartition]) -> bool
    ensures { result ≡ replies.are_partitions_shown partitions.now }
{
    partitions.iter().all(|partition| is_none(partition.error))
}

fn is_shown(topic: &MetadataTopic) -> bool
    ensures { result ≡ replies.is_shown topic.now }
{
    is_none(topic.error) && are_partitions_shown(topic.partitions.as_slice())
}

fn are_shown(topics: &[MetadataTopic]) -> bool
    ensures { result ≡ replies.are_shown topics.now }
{
    topics.iter().all(|topic| is_shown(topic))
}

/// Each error in the reply is 0.
pub(crate) fn is_ok(reply: &Reply) -> bool
    ensures { result ≡ replies.is_ok reply.now }
{
    match reply {
        Reply::BrokerRegistration(body) => is_none(body.error),
        Reply::BrokerHeartbeat(body) => is_none(body.error),
        Reply::UnregisterBroker(body) => is_none(body.error),
        Reply::CreateTopics(body) => are_created(body.topics.as_slice()),
        Reply::DeleteTopics(body) => are_deleted(body.responses.as_slice()),
        Reply::CreatePartitions(body) => are_grown(body.results.as_slice()),
        Reply::AlterPartition(body) => {
            is_none(body.error) && are_altered(body.topics.as_slice())
        }
        Reply::ElectLeaders(body) => is_none(body.error) && are_elected(body.results.as_slice()),
        Reply::AlterPartitionReassignments(body) => {
            is_none(body.error) && are_reassigned(body.responses.as_slice())
        }
        Reply::ListPartitionReassignments(body) => is_none(body.error),
        Reply::IncrementalAlterConfigs(body) => are_set(body.responses.as_slice()),
        Reply::Metadata(body) => are_shown(body.topics.as_slice()),
        Reply::Bare { error } => is_none(*error),
    }
}

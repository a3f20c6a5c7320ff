//! The names of fields.

ghost use Rattle.std.specs.Prelude.{codes};

use crate::object::FieldName;

pub(crate) struct CorrelationId;

impl FieldName for CorrelationId {
    ghost name = { codes "correlationId" };

    fn name() -> &'static str {
        "correlationId"
    }
}

pub(crate) struct ThrottleTimeMs;

impl FieldName for ThrottleTimeMs {
    ghost name = { codes "throttleTimeMs" };

    fn name() -> &'static str {
        "throttleTimeMs"
    }
}

pub(crate) struct ErrorCode;

impl FieldName for ErrorCode {
    ghost name = { codes "errorCode" };

    fn name() -> &'static str {
        "errorCode"
    }
}

pub(crate) struct BrokerEpoch;

impl FieldName for BrokerEpoch {
    ghost name = { codes "brokerEpoch" };

    fn name() -> &'static str {
        "brokerEpoch"
    }
}

pub(crate) struct IsCaughtUp;

impl FieldName for IsCaughtUp {
    ghost name = { codes "isCaughtUp" };

    fn name() -> &'static str {
        "isCaughtUp"
    }
}

pub(crate) struct IsFenced;

impl FieldName for IsFenced {
    ghost name = { codes "isFenced" };

    fn name() -> &'static str {
        "isFenced"
    }
}

pub(crate) struct ShouldShutDown;

impl FieldName for ShouldShutDown {
    ghost name = { codes "shouldShutDown" };

    fn name() -> &'static str {
        "shouldShutDown"
    }
}

pub(crate) struct ErrorMessage;

impl FieldName for ErrorMessage {
    ghost name = { codes "errorMessage" };

    fn name() -> &'static str {
        "errorMessage"
    }
}

pub(crate) struct Name;

impl FieldName for Name {
    ghost name = { codes "name" };

    fn name() -> &'static str {
        "name"
    }
}

pub(crate) struct Value;

impl FieldName for Value {
    ghost name = { codes "value" };

    fn name() -> &'static str {
        "value"
    }
}

pub(crate) struct ReadOnly;

impl FieldName for ReadOnly {
    ghost name = { codes "readOnly" };

    fn name() -> &'static str {
        "readOnly"
    }
}

pub(crate) struct ConfigSource;

impl FieldName for ConfigSource {
    ghost name = { codes "configSource" };

    fn name() -> &'static str {
        "configSource"
    }
}

pub(crate) struct IsSensitive;

impl FieldName for IsSensitive {
    ghost name = { codes "isSensitive" };

    fn name() -> &'static str {
        "isSensitive"
    }
}

pub(crate) struct TopicId;

impl FieldName for TopicId {
    ghost name = { codes "topicId" };

    fn name() -> &'static str {
        "topicId"
    }
}

pub(crate) struct NumPartitions;

impl FieldName for NumPartitions {
    ghost name = { codes "numPartitions" };

    fn name() -> &'static str {
        "numPartitions"
    }
}

pub(crate) struct ReplicationFactor;

impl FieldName for ReplicationFactor {
    ghost name = { codes "replicationFactor" };

    fn name() -> &'static str {
        "replicationFactor"
    }
}

pub(crate) struct Configs;

impl FieldName for Configs {
    ghost name = { codes "configs" };

    fn name() -> &'static str {
        "configs"
    }
}

pub(crate) struct Topics;

impl FieldName for Topics {
    ghost name = { codes "topics" };

    fn name() -> &'static str {
        "topics"
    }
}

pub(crate) struct Responses;

impl FieldName for Responses {
    ghost name = { codes "responses" };

    fn name() -> &'static str {
        "responses"
    }
}

pub(crate) struct Results;

impl FieldName for Results {
    ghost name = { codes "results" };

    fn name() -> &'static str {
        "results"
    }
}

pub(crate) struct PartitionIndex;

impl FieldName for PartitionIndex {
    ghost name = { codes "partitionIndex" };

    fn name() -> &'static str {
        "partitionIndex"
    }
}

pub(crate) struct LeaderId;

impl FieldName for LeaderId {
    ghost name = { codes "leaderId" };

    fn name() -> &'static str {
        "leaderId"
    }
}

pub(crate) struct LeaderEpoch;

impl FieldName for LeaderEpoch {
    ghost name = { codes "leaderEpoch" };

    fn name() -> &'static str {
        "leaderEpoch"
    }
}

pub(crate) struct Isr;

impl FieldName for Isr {
    ghost name = { codes "isr" };

    fn name() -> &'static str {
        "isr"
    }
}

pub(crate) struct LeaderRecoveryState;

impl FieldName for LeaderRecoveryState {
    ghost name = { codes "leaderRecoveryState" };

    fn name() -> &'static str {
        "leaderRecoveryState"
    }
}

pub(crate) struct PartitionEpoch;

impl FieldName for PartitionEpoch {
    ghost name = { codes "partitionEpoch" };

    fn name() -> &'static str {
        "partitionEpoch"
    }
}

pub(crate) struct Partitions;

impl FieldName for Partitions {
    ghost name = { codes "partitions" };

    fn name() -> &'static str {
        "partitions"
    }
}

pub(crate) struct PartitionId;

impl FieldName for PartitionId {
    ghost name = { codes "partitionId" };

    fn name() -> &'static str {
        "partitionId"
    }
}

pub(crate) struct Topic;

impl FieldName for Topic {
    ghost name = { codes "topic" };

    fn name() -> &'static str {
        "topic"
    }
}

pub(crate) struct PartitionResult;

impl FieldName for PartitionResult {
    ghost name = { codes "partitionResult" };

    fn name() -> &'static str {
        "partitionResult"
    }
}

pub(crate) struct ReplicaElectionResults;

impl FieldName for ReplicaElectionResults {
    ghost name = { codes "replicaElectionResults" };

    fn name() -> &'static str {
        "replicaElectionResults"
    }
}

pub(crate) struct Replicas;

impl FieldName for Replicas {
    ghost name = { codes "replicas" };

    fn name() -> &'static str {
        "replicas"
    }
}

pub(crate) struct AddingReplicas;

impl FieldName for AddingReplicas {
    ghost name = { codes "addingReplicas" };

    fn name() -> &'static str {
        "addingReplicas"
    }
}

pub(crate) struct RemovingReplicas;

impl FieldName for RemovingReplicas {
    ghost name = { codes "removingReplicas" };

    fn name() -> &'static str {
        "removingReplicas"
    }
}

pub(crate) struct ResourceType;

impl FieldName for ResourceType {
    ghost name = { codes "resourceType" };

    fn name() -> &'static str {
        "resourceType"
    }
}

pub(crate) struct ResourceName;

impl FieldName for ResourceName {
    ghost name = { codes "resourceName" };

    fn name() -> &'static str {
        "resourceName"
    }
}

pub(crate) struct NodeId;

impl FieldName for NodeId {
    ghost name = { codes "nodeId" };

    fn name() -> &'static str {
        "nodeId"
    }
}

pub(crate) struct Host;

impl FieldName for Host {
    ghost name = { codes "host" };

    fn name() -> &'static str {
        "host"
    }
}

pub(crate) struct Port;

impl FieldName for Port {
    ghost name = { codes "port" };

    fn name() -> &'static str {
        "port"
    }
}

pub(crate) struct Rack;

impl FieldName for Rack {
    ghost name = { codes "rack" };

    fn name() -> &'static str {
        "rack"
    }
}

pub(crate) struct ReplicaNodes;

impl FieldName for ReplicaNodes {
    ghost name = { codes "replicaNodes" };

    fn name() -> &'static str {
        "replicaNodes"
    }
}

pub(crate) struct IsrNodes;

impl FieldName for IsrNodes {
    ghost name = { codes "isrNodes" };

    fn name() -> &'static str {
        "isrNodes"
    }
}

pub(crate) struct OfflineReplicas;

impl FieldName for OfflineReplicas {
    ghost name = { codes "offlineReplicas" };

    fn name() -> &'static str {
        "offlineReplicas"
    }
}

pub(crate) struct IsInternal;

impl FieldName for IsInternal {
    ghost name = { codes "isInternal" };

    fn name() -> &'static str {
        "isInternal"
    }
}

pub(crate) struct TopicAuthorizedOperations;

impl FieldName for TopicAuthorizedOperations {
    ghost name = { codes "topicAuthorizedOperations" };

    fn name() -> &'static str {
        "topicAuthorizedOperations"
    }
}

pub(crate) struct Brokers;

impl FieldName for Brokers {
    ghost name = { codes "brokers" };

    fn name() -> &'static str {
        "brokers"
    }
}

pub(crate) struct ClusterId;

impl FieldName for ClusterId {
    ghost name = { codes "clusterId" };

    fn name() -> &'static str {
        "clusterId"
    }
}

pub(crate) struct ControllerId;

impl FieldName for ControllerId {
    ghost name = { codes "controllerId" };

    fn name() -> &'static str {
        "controllerId"
    }
}

pub(crate) struct EligibleLeaderReplicas;

impl FieldName for EligibleLeaderReplicas {
    ghost name = { codes "eligibleLeaderReplicas" };

    fn name() -> &'static str {
        "eligibleLeaderReplicas"
    }
}

pub(crate) struct LastKnownElr;

impl FieldName for LastKnownElr {
    ghost name = { codes "lastKnownElr" };

    fn name() -> &'static str {
        "lastKnownElr"
    }
}

pub(crate) struct TopicName;

impl FieldName for TopicName {
    ghost name = { codes "topicName" };

    fn name() -> &'static str {
        "topicName"
    }
}

pub(crate) struct NextCursor;

impl FieldName for NextCursor {
    ghost name = { codes "nextCursor" };

    fn name() -> &'static str {
        "nextCursor"
    }
}

//! The names of fields.

ghost use Rattle.std.specs.Prelude.{codes};

use crate::object::FieldName;

pub(crate) struct RequestHeader;

impl FieldName for RequestHeader {
    ghost name = { codes "requestHeader" };

    fn name() -> &'static str {
        "requestHeader"
    }
}

pub(crate) struct Request;

impl FieldName for Request {
    ghost name = { codes "request" };

    fn name() -> &'static str {
        "request"
    }
}

pub(crate) struct RequestApiKey;

impl FieldName for RequestApiKey {
    ghost name = { codes "requestApiKey" };

    fn name() -> &'static str {
        "requestApiKey"
    }
}

pub(crate) struct RequestApiVersion;

impl FieldName for RequestApiVersion {
    ghost name = { codes "requestApiVersion" };

    fn name() -> &'static str {
        "requestApiVersion"
    }
}

pub(crate) struct CorrelationId;

impl FieldName for CorrelationId {
    ghost name = { codes "correlationId" };

    fn name() -> &'static str {
        "correlationId"
    }
}

pub(crate) struct ClientId;

impl FieldName for ClientId {
    ghost name = { codes "clientId" };

    fn name() -> &'static str {
        "clientId"
    }
}

pub(crate) struct Name;

impl FieldName for Name {
    ghost name = { codes "name" };

    fn name() -> &'static str {
        "name"
    }
}

pub(crate) struct Host;

impl FieldName for Host {
    ghost name = { codes "host" };

    fn name() -> &'static str {
        "host"
    }
}

pub(crate) struct Port;

impl FieldName for Port {
    ghost name = { codes "port" };

    fn name() -> &'static str {
        "port"
    }
}

pub(crate) struct SecurityProtocol;

impl FieldName for SecurityProtocol {
    ghost name = { codes "securityProtocol" };

    fn name() -> &'static str {
        "securityProtocol"
    }
}

pub(crate) struct MinSupportedVersion;

impl FieldName for MinSupportedVersion {
    ghost name = { codes "minSupportedVersion" };

    fn name() -> &'static str {
        "minSupportedVersion"
    }
}

pub(crate) struct MaxSupportedVersion;

impl FieldName for MaxSupportedVersion {
    ghost name = { codes "maxSupportedVersion" };

    fn name() -> &'static str {
        "maxSupportedVersion"
    }
}

pub(crate) struct BrokerId;

impl FieldName for BrokerId {
    ghost name = { codes "brokerId" };

    fn name() -> &'static str {
        "brokerId"
    }
}

pub(crate) struct ClusterId;

impl FieldName for ClusterId {
    ghost name = { codes "clusterId" };

    fn name() -> &'static str {
        "clusterId"
    }
}

pub(crate) struct IncarnationId;

impl FieldName for IncarnationId {
    ghost name = { codes "incarnationId" };

    fn name() -> &'static str {
        "incarnationId"
    }
}

pub(crate) struct Listeners;

impl FieldName for Listeners {
    ghost name = { codes "listeners" };

    fn name() -> &'static str {
        "listeners"
    }
}

pub(crate) struct Features;

impl FieldName for Features {
    ghost name = { codes "features" };

    fn name() -> &'static str {
        "features"
    }
}

pub(crate) struct Rack;

impl FieldName for Rack {
    ghost name = { codes "rack" };

    fn name() -> &'static str {
        "rack"
    }
}

pub(crate) struct IsMigratingZkBroker;

impl FieldName for IsMigratingZkBroker {
    ghost name = { codes "isMigratingZkBroker" };

    fn name() -> &'static str {
        "isMigratingZkBroker"
    }
}

pub(crate) struct LogDirs;

impl FieldName for LogDirs {
    ghost name = { codes "logDirs" };

    fn name() -> &'static str {
        "logDirs"
    }
}

pub(crate) struct PreviousBrokerEpoch;

impl FieldName for PreviousBrokerEpoch {
    ghost name = { codes "previousBrokerEpoch" };

    fn name() -> &'static str {
        "previousBrokerEpoch"
    }
}

pub(crate) struct BrokerEpoch;

impl FieldName for BrokerEpoch {
    ghost name = { codes "brokerEpoch" };

    fn name() -> &'static str {
        "brokerEpoch"
    }
}

pub(crate) struct CurrentMetadataOffset;

impl FieldName for CurrentMetadataOffset {
    ghost name = { codes "currentMetadataOffset" };

    fn name() -> &'static str {
        "currentMetadataOffset"
    }
}

pub(crate) struct WantFence;

impl FieldName for WantFence {
    ghost name = { codes "wantFence" };

    fn name() -> &'static str {
        "wantFence"
    }
}

pub(crate) struct WantShutDown;

impl FieldName for WantShutDown {
    ghost name = { codes "wantShutDown" };

    fn name() -> &'static str {
        "wantShutDown"
    }
}

pub(crate) struct PartitionIndex;

impl FieldName for PartitionIndex {
    ghost name = { codes "partitionIndex" };

    fn name() -> &'static str {
        "partitionIndex"
    }
}

pub(crate) struct BrokerIds;

impl FieldName for BrokerIds {
    ghost name = { codes "brokerIds" };

    fn name() -> &'static str {
        "brokerIds"
    }
}

pub(crate) struct Value;

impl FieldName for Value {
    ghost name = { codes "value" };

    fn name() -> &'static str {
        "value"
    }
}

pub(crate) struct NumPartitions;

impl FieldName for NumPartitions {
    ghost name = { codes "numPartitions" };

    fn name() -> &'static str {
        "numPartitions"
    }
}

pub(crate) struct ReplicationFactor;

impl FieldName for ReplicationFactor {
    ghost name = { codes "replicationFactor" };

    fn name() -> &'static str {
        "replicationFactor"
    }
}

pub(crate) struct Assignments;

impl FieldName for Assignments {
    ghost name = { codes "assignments" };

    fn name() -> &'static str {
        "assignments"
    }
}

pub(crate) struct Configs;

impl FieldName for Configs {
    ghost name = { codes "configs" };

    fn name() -> &'static str {
        "configs"
    }
}

pub(crate) struct Topics;

impl FieldName for Topics {
    ghost name = { codes "topics" };

    fn name() -> &'static str {
        "topics"
    }
}

pub(crate) struct TimeoutMs;

impl FieldName for TimeoutMs {
    ghost name = { codes "timeoutMs" };

    fn name() -> &'static str {
        "timeoutMs"
    }
}

pub(crate) struct ValidateOnly;

impl FieldName for ValidateOnly {
    ghost name = { codes "validateOnly" };

    fn name() -> &'static str {
        "validateOnly"
    }
}

pub(crate) struct TopicId;

impl FieldName for TopicId {
    ghost name = { codes "topicId" };

    fn name() -> &'static str {
        "topicId"
    }
}

pub(crate) struct Count;

impl FieldName for Count {
    ghost name = { codes "count" };

    fn name() -> &'static str {
        "count"
    }
}

pub(crate) struct LeaderEpoch;

impl FieldName for LeaderEpoch {
    ghost name = { codes "leaderEpoch" };

    fn name() -> &'static str {
        "leaderEpoch"
    }
}

pub(crate) struct NewIsrWithEpochs;

impl FieldName for NewIsrWithEpochs {
    ghost name = { codes "newIsrWithEpochs" };

    fn name() -> &'static str {
        "newIsrWithEpochs"
    }
}

pub(crate) struct LeaderRecoveryState;

impl FieldName for LeaderRecoveryState {
    ghost name = { codes "leaderRecoveryState" };

    fn name() -> &'static str {
        "leaderRecoveryState"
    }
}

pub(crate) struct PartitionEpoch;

impl FieldName for PartitionEpoch {
    ghost name = { codes "partitionEpoch" };

    fn name() -> &'static str {
        "partitionEpoch"
    }
}

pub(crate) struct Partitions;

impl FieldName for Partitions {
    ghost name = { codes "partitions" };

    fn name() -> &'static str {
        "partitions"
    }
}

pub(crate) struct Topic;

impl FieldName for Topic {
    ghost name = { codes "topic" };

    fn name() -> &'static str {
        "topic"
    }
}

pub(crate) struct ElectionType;

impl FieldName for ElectionType {
    ghost name = { codes "electionType" };

    fn name() -> &'static str {
        "electionType"
    }
}

pub(crate) struct TopicPartitions;

impl FieldName for TopicPartitions {
    ghost name = { codes "topicPartitions" };

    fn name() -> &'static str {
        "topicPartitions"
    }
}

pub(crate) struct Replicas;

impl FieldName for Replicas {
    ghost name = { codes "replicas" };

    fn name() -> &'static str {
        "replicas"
    }
}

pub(crate) struct PartitionIndexes;

impl FieldName for PartitionIndexes {
    ghost name = { codes "partitionIndexes" };

    fn name() -> &'static str {
        "partitionIndexes"
    }
}

pub(crate) struct ConfigOperation;

impl FieldName for ConfigOperation {
    ghost name = { codes "configOperation" };

    fn name() -> &'static str {
        "configOperation"
    }
}

pub(crate) struct ResourceType;

impl FieldName for ResourceType {
    ghost name = { codes "resourceType" };

    fn name() -> &'static str {
        "resourceType"
    }
}

pub(crate) struct ResourceName;

impl FieldName for ResourceName {
    ghost name = { codes "resourceName" };

    fn name() -> &'static str {
        "resourceName"
    }
}

pub(crate) struct Resources;

impl FieldName for Resources {
    ghost name = { codes "resources" };

    fn name() -> &'static str {
        "resources"
    }
}

pub(crate) struct AllowAutoTopicCreation;

impl FieldName for AllowAutoTopicCreation {
    ghost name = { codes "allowAutoTopicCreation" };

    fn name() -> &'static str {
        "allowAutoTopicCreation"
    }
}

pub(crate) struct IncludeTopicAuthorizedOperations;

impl FieldName for IncludeTopicAuthorizedOperations {
    ghost name = { codes "includeTopicAuthorizedOperations" };

    fn name() -> &'static str {
        "includeTopicAuthorizedOperations"
    }
}

pub(crate) struct TopicName;

impl FieldName for TopicName {
    ghost name = { codes "topicName" };

    fn name() -> &'static str {
        "topicName"
    }
}

pub(crate) struct ResponsePartitionLimit;

impl FieldName for ResponsePartitionLimit {
    ghost name = { codes "responsePartitionLimit" };

    fn name() -> &'static str {
        "responsePartitionLimit"
    }
}

pub(crate) struct Cursor;

impl FieldName for Cursor {
    ghost name = { codes "cursor" };

    fn name() -> &'static str {
        "cursor"
    }
}

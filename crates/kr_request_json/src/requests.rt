//! The bodies of requests, field by field as in Kafka's schemas (specs/Requests.antt).

use crate::list::{Array, NullableArray};
use crate::names;
use crate::object::{End, Member, Nullable};
use crate::part::{Boolean, Int8, Int16, Int32, Int64, NullableStr, Str, Uint16, Uuid};

pub(crate) type Listener = Member<
    names::Name,
    Str,
    Member<
        names::Host,
        Str,
        Member<names::Port, Uint16, Member<names::SecurityProtocol, Int16, End>>,
    >,
>;

pub(crate) type Feature = Member<
    names::Name,
    Str,
    Member<names::MinSupportedVersion, Int16, Member<names::MaxSupportedVersion, Int16, End>>,
>;

pub(crate) type BrokerRegistrationRequest = Member<
    names::BrokerId,
    Int32,
    Member<
        names::ClusterId,
        Str,
        Member<
            names::IncarnationId,
            Uuid,
            Member<
                names::Listeners,
                Array<Listener>,
                Member<
                    names::Features,
                    Array<Feature>,
                    Member<
                        names::Rack,
                        NullableStr,
                        Member<
                            names::IsMigratingZkBroker,
                            Boolean,
                            Member<
                                names::LogDirs,
                                Array<Uuid>,
                                Member<names::PreviousBrokerEpoch, Int64, End>,
                            >,
                        >,
                    >,
                >,
            >,
        >,
    >,
>;

pub(crate) type BrokerHeartbeatRequest = Member<
    names::BrokerId,
    Int32,
    Member<
        names::BrokerEpoch,
        Int64,
        Member<
            names::CurrentMetadataOffset,
            Int64,
            Member<names::WantFence, Boolean, Member<names::WantShutDown, Boolean, End>>,
        >,
    >,
>;

pub(crate) type UnregisterBrokerRequest = Member<names::BrokerId, Int32, End>;

pub(crate) type CreatableReplicaAssignment = Member<
    names::PartitionIndex,
    Int32,
    Member<names::BrokerIds, Array<Int32>, End>,
>;

pub(crate) type CreatableTopicConfig = Member<
    names::Name,
    Str,
    Member<names::Value, NullableStr, End>,
>;

pub(crate) type CreatableTopic = Member<
    names::Name,
    Str,
    Member<
        names::NumPartitions,
        Int32,
        Member<
            names::ReplicationFactor,
            Int16,
            Member<
                names::Assignments,
                Array<CreatableReplicaAssignment>,
                Member<names::Configs, Array<CreatableTopicConfig>, End>,
            >,
        >,
    >,
>;

pub(crate) type CreateTopicsRequest = Member<
    names::Topics,
    Array<CreatableTopic>,
    Member<names::TimeoutMs, Int32, Member<names::ValidateOnly, Boolean, End>>,
>;

pub(crate) type DeleteTopicState = Member<
    names::Name,
    NullableStr,
    Member<names::TopicId, Uuid, End>,
>;

pub(crate) type DeleteTopicsRequest = Member<
    names::Topics,
    Array<DeleteTopicState>,
    Member<names::TimeoutMs, Int32, End>,
>;

pub(crate) type CreatePartitionsAssignment = Member<names::BrokerIds, Array<Int32>, End>;

pub(crate) type CreatePartitionsTopic = Member<
    names::Name,
    Str,
    Member<
        names::Count,
        Int32,
        Member<names::Assignments, NullableArray<CreatePartitionsAssignment>, End>,
    >,
>;

pub(crate) type CreatePartitionsRequest = Member<
    names::Topics,
    Array<CreatePartitionsTopic>,
    Member<names::TimeoutMs, Int32, Member<names::ValidateOnly, Boolean, End>>,
>;

pub(crate) type BrokerState = Member<
    names::BrokerId,
    Int32,
    Member<names::BrokerEpoch, Int64, End>,
>;

pub(crate) type PartitionData = Member<
    names::PartitionIndex,
    Int32,
    Member<
        names::LeaderEpoch,
        Int32,
        Member<
            names::NewIsrWithEpochs,
            Array<BrokerState>,
            Member<names::LeaderRecoveryState, Int8, Member<names::PartitionEpoch, Int32, End>>,
        >,
    >,
>;

pub(crate) type TopicData = Member<
    names::TopicId,
    Uuid,
    Member<names::Partitions, Array<PartitionData>, End>,
>;

pub(crate) type AlterPartitionRequest = Member<
    names::BrokerId,
    Int32,
    Member<names::BrokerEpoch, Int64, Member<names::Topics, Array<TopicData>, End>>,
>;

pub(crate) type TopicPartitions = Member<
    names::Topic,
    Str,
    Member<names::Partitions, Array<Int32>, End>,
>;

pub(crate) type ElectLeadersRequest = Member<
    names::ElectionType,
    Int8,
    Member<
        names::TopicPartitions,
        NullableArray<TopicPartitions>,
        Member<names::TimeoutMs, Int32, End>,
    >,
>;

pub(crate) type ReassignablePartition = Member<
    names::PartitionIndex,
    Int32,
    Member<names::Replicas, NullableArray<Int32>, End>,
>;

pub(crate) type ReassignableTopic = Member<
    names::Name,
    Str,
    Member<names::Partitions, Array<ReassignablePartition>, End>,
>;

pub(crate) type AlterPartitionReassignmentsRequest = Member<
    names::TimeoutMs,
    Int32,
    Member<names::Topics, Array<ReassignableTopic>, End>,
>;

pub(crate) type ListPartitionReassignmentsTopics = Member<
    names::Name,
    Str,
    Member<names::PartitionIndexes, Array<Int32>, End>,
>;

pub(crate) type ListPartitionReassignmentsRequest = Member<
    names::TimeoutMs,
    Int32,
    Member<names::Topics, NullableArray<ListPartitionReassignmentsTopics>, End>,
>;

pub(crate) type AlterableConfig = Member<
    names::Name,
    Str,
    Member<names::ConfigOperation, Int8, Member<names::Value, NullableStr, End>>,
>;

pub(crate) type AlterConfigsResource = Member<
    names::ResourceType,
    Int8,
    Member<names::ResourceName, Str, Member<names::Configs, Array<AlterableConfig>, End>>,
>;

pub(crate) type IncrementalAlterConfigsRequest = Member<
    names::Resources,
    Array<AlterConfigsResource>,
    Member<names::ValidateOnly, Boolean, End>,
>;

pub(crate) type MetadataRequestTopic = Member<
    names::TopicId,
    Uuid,
    Member<names::Name, NullableStr, End>,
>;

pub(crate) type MetadataRequest = Member<
    names::Topics,
    NullableArray<MetadataRequestTopic>,
    Member<
        names::AllowAutoTopicCreation,
        Boolean,
        Member<names::IncludeTopicAuthorizedOperations, Boolean, End>,
    >,
>;

pub(crate) type TopicRequest = Member<names::Name, Str, End>;

pub(crate) type Cursor = Member<names::TopicName, Str, Member<names::PartitionIndex, Int32, End>>;

pub(crate) type DescribeTopicPartitionsRequest = Member<
    names::Topics,
    Array<TopicRequest>,
    Member<names::ResponsePartitionLimit, Int32, Member<names::Cursor, Nullable<Cursor>, End>>,
>;

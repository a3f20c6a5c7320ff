//! The bodies of replies, field by field as in Kafka's schemas (specs/Responses.antt).

use crate::list::{Array, NullableArray};
use crate::names;
use crate::object::{End, Member, Nullable, Object};
use crate::shape::{Boolean, Int8, Int16, Int32, Int64, NullableStr, Str, Uuid};

pub(crate) type BrokerRegistrationResponse = Object<
    Member<
        names::ThrottleTimeMs,
        Int32,
        Member<names::ErrorCode, Int16, Member<names::BrokerEpoch, Int64, End>>,
    >,
>;

pub(crate) type BrokerHeartbeatResponse = Object<
    Member<
        names::ThrottleTimeMs,
        Int32,
        Member<
            names::ErrorCode,
            Int16,
            Member<
                names::IsCaughtUp,
                Boolean,
                Member<names::IsFenced, Boolean, Member<names::ShouldShutDown, Boolean, End>>,
            >,
        >,
    >,
>;

pub(crate) type UnregisterBrokerResponse = Object<
    Member<
        names::ThrottleTimeMs,
        Int32,
        Member<names::ErrorCode, Int16, Member<names::ErrorMessage, NullableStr, End>>,
    >,
>;

pub(crate) type CreatableTopicConfigs = Object<
    Member<
        names::Name,
        Str,
        Member<
            names::Value,
            NullableStr,
            Member<
                names::ReadOnly,
                Boolean,
                Member<names::ConfigSource, Int8, Member<names::IsSensitive, Boolean, End>>,
            >,
        >,
    >,
>;

pub(crate) type CreatableTopicResult = Object<
    Member<
        names::Name,
        Str,
        Member<
            names::TopicId,
            Uuid,
            Member<
                names::ErrorCode,
                Int16,
                Member<
                    names::ErrorMessage,
                    NullableStr,
                    Member<
                        names::NumPartitions,
                        Int32,
                        Member<
                            names::ReplicationFactor,
                            Int16,
                            Member<names::Configs, NullableArray<CreatableTopicConfigs>, End>,
                        >,
                    >,
                >,
            >,
        >,
    >,
>;

pub(crate) type CreateTopicsResponse = Object<
    Member<names::ThrottleTimeMs, Int32, Member<names::Topics, Array<CreatableTopicResult>, End>>,
>;

pub(crate) type DeletableTopicResult = Object<
    Member<
        names::Name,
        NullableStr,
        Member<
            names::TopicId,
            Uuid,
            Member<names::ErrorCode, Int16, Member<names::ErrorMessage, NullableStr, End>>,
        >,
    >,
>;

pub(crate) type DeleteTopicsResponse = Object<
    Member<
        names::ThrottleTimeMs,
        Int32,
        Member<names::Responses, Array<DeletableTopicResult>, End>,
    >,
>;

pub(crate) type CreatePartitionsTopicResult = Object<
    Member<
        names::Name,
        Str,
        Member<names::ErrorCode, Int16, Member<names::ErrorMessage, NullableStr, End>>,
    >,
>;

pub(crate) type CreatePartitionsResponse = Object<
    Member<
        names::ThrottleTimeMs,
        Int32,
        Member<names::Results, Array<CreatePartitionsTopicResult>, End>,
    >,
>;

pub(crate) type AlterPartitionData = Object<
    Member<
        names::PartitionIndex,
        Int32,
        Member<
            names::ErrorCode,
            Int16,
            Member<
                names::LeaderId,
                Int32,
                Member<
                    names::LeaderEpoch,
                    Int32,
                    Member<
                        names::Isr,
                        Array<Int32>,
                        Member<
                            names::LeaderRecoveryState,
                            Int8,
                            Member<names::PartitionEpoch, Int32, End>,
                        >,
                    >,
                >,
            >,
        >,
    >,
>;

pub(crate) type AlterPartitionTopicData = Object<
    Member<names::TopicId, Uuid, Member<names::Partitions, Array<AlterPartitionData>, End>>,
>;

pub(crate) type AlterPartitionResponse = Object<
    Member<
        names::ThrottleTimeMs,
        Int32,
        Member<names::ErrorCode, Int16, Member<names::Topics, Array<AlterPartitionTopicData>, End>>,
    >,
>;

pub(crate) type PartitionResult = Object<
    Member<
        names::PartitionId,
        Int32,
        Member<names::ErrorCode, Int16, Member<names::ErrorMessage, NullableStr, End>>,
    >,
>;

pub(crate) type ReplicaElectionResult = Object<
    Member<names::Topic, Str, Member<names::PartitionResult, Array<PartitionResult>, End>>,
>;

pub(crate) type ElectLeadersResponse = Object<
    Member<
        names::ThrottleTimeMs,
        Int32,
        Member<
            names::ErrorCode,
            Int16,
            Member<names::ReplicaElectionResults, Array<ReplicaElectionResult>, End>,
        >,
    >,
>;

pub(crate) type ReassignablePartitionResponse = Object<
    Member<
        names::PartitionIndex,
        Int32,
        Member<names::ErrorCode, Int16, Member<names::ErrorMessage, NullableStr, End>>,
    >,
>;

pub(crate) type ReassignableTopicResponse = Object<
    Member<names::Name, Str, Member<names::Partitions, Array<ReassignablePartitionResponse>, End>>,
>;

pub(crate) type AlterPartitionReassignmentsResponse = Object<
    Member<
        names::ThrottleTimeMs,
        Int32,
        Member<
            names::ErrorCode,
            Int16,
            Member<
                names::ErrorMessage,
                NullableStr,
                Member<names::Responses, Array<ReassignableTopicResponse>, End>,
            >,
        >,
    >,
>;

pub(crate) type OngoingPartitionReassignment = Object<
    Member<
        names::PartitionIndex,
        Int32,
        Member<
            names::Replicas,
            Array<Int32>,
            Member<
                names::AddingReplicas,
                Array<Int32>,
                Member<names::RemovingReplicas, Array<Int32>, End>,
            >,
        >,
    >,
>;

pub(crate) type OngoingTopicReassignment = Object<
    Member<names::Name, Str, Member<names::Partitions, Array<OngoingPartitionReassignment>, End>>,
>;

pub(crate) type ListPartitionReassignmentsResponse = Object<
    Member<
        names::ThrottleTimeMs,
        Int32,
        Member<
            names::ErrorCode,
            Int16,
            Member<
                names::ErrorMessage,
                NullableStr,
                Member<names::Topics, Array<OngoingTopicReassignment>, End>,
            >,
        >,
    >,
>;

pub(crate) type AlterConfigsResourceResponse = Object<
    Member<
        names::ErrorCode,
        Int16,
        Member<
            names::ErrorMessage,
            NullableStr,
            Member<names::ResourceType, Int8, Member<names::ResourceName, Str, End>>,
        >,
    >,
>;

pub(crate) type IncrementalAlterConfigsResponse = Object<
    Member<
        names::ThrottleTimeMs,
        Int32,
        Member<names::Responses, Array<AlterConfigsResourceResponse>, End>,
    >,
>;

pub(crate) type MetadataResponseBroker = Object<
    Member<
        names::NodeId,
        Int32,
        Member<names::Host, Str, Member<names::Port, Int32, Member<names::Rack, NullableStr, End>>>,
    >,
>;

pub(crate) type MetadataResponsePartition = Object<
    Member<
        names::ErrorCode,
        Int16,
        Member<
            names::PartitionIndex,
            Int32,
            Member<
                names::LeaderId,
                Int32,
                Member<
                    names::LeaderEpoch,
                    Int32,
                    Member<
                        names::ReplicaNodes,
                        Array<Int32>,
                        Member<
                            names::IsrNodes,
                            Array<Int32>,
                            Member<names::OfflineReplicas, Array<Int32>, End>,
                        >,
                    >,
                >,
            >,
        >,
    >,
>;

pub(crate) type MetadataResponseTopic = Object<
    Member<
        names::ErrorCode,
        Int16,
        Member<
            names::Name,
            NullableStr,
            Member<
                names::TopicId,
                Uuid,
                Member<
                    names::IsInternal,
                    Boolean,
                    Member<
                        names::Partitions,
                        Array<MetadataResponsePartition>,
                        Member<names::TopicAuthorizedOperations, Int32, End>,
                    >,
                >,
            >,
        >,
    >,
>;

pub(crate) type MetadataResponse = Object<
    Member<
        names::ThrottleTimeMs,
        Int32,
        Member<
            names::Brokers,
            Array<MetadataResponseBroker>,
            Member<
                names::ClusterId,
                NullableStr,
                Member<
                    names::ControllerId,
                    Int32,
                    Member<names::Topics, Array<MetadataResponseTopic>, End>,
                >,
            >,
        >,
    >,
>;

pub(crate) type DescribeTopicPartitionsResponsePartition = Object<
    Member<
        names::ErrorCode,
        Int16,
        Member<
            names::PartitionIndex,
            Int32,
            Member<
                names::LeaderId,
                Int32,
                Member<
                    names::LeaderEpoch,
                    Int32,
                    Member<
                        names::ReplicaNodes,
                        Array<Int32>,
                        Member<
                            names::IsrNodes,
                            Array<Int32>,
                            Member<
                                names::EligibleLeaderReplicas,
                                NullableArray<Int32>,
                                Member<
                                    names::LastKnownElr,
                                    NullableArray<Int32>,
                                    Member<names::OfflineReplicas, Array<Int32>, End>,
                                >,
                            >,
                        >,
                    >,
                >,
            >,
        >,
    >,
>;

pub(crate) type DescribeTopicPartitionsResponseTopic = Object<
    Member<
        names::ErrorCode,
        Int16,
        Member<
            names::Name,
            NullableStr,
            Member<
                names::TopicId,
                Uuid,
                Member<
                    names::IsInternal,
                    Boolean,
                    Member<
                        names::Partitions,
                        Array<DescribeTopicPartitionsResponsePartition>,
                        Member<names::TopicAuthorizedOperations, Int32, End>,
                    >,
                >,
            >,
        >,
    >,
>;

pub(crate) type Cursor = Object<
    Member<names::TopicName, Str, Member<names::PartitionIndex, Int32, End>>,
>;

pub(crate) type DescribeTopicPartitionsResponse = Object<
    Member<
        names::ThrottleTimeMs,
        Int32,
        Member<
            names::Topics,
            Array<DescribeTopicPartitionsResponseTopic>,
            Member<names::NextCursor, Nullable<Cursor>, End>,
        >,
    >,
>;

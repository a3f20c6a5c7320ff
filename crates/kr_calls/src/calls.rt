//! Calls: a request under its correlation id, and its reply.

use crate::{
    AlterPartition, AlterPartitionReassignments, AlterPartitionReassignmentsReply,
    AlterPartitionReply, BrokerHeartbeat, BrokerHeartbeatReply, BrokerRegistration,
    BrokerRegistrationReply, CreatePartitions, CreatePartitionsReply, CreateTopics,
    CreateTopicsReply, DeleteTopics, DeleteTopicsReply, ElectLeaders, ElectLeadersReply,
    IncrementalAlterConfigs, IncrementalAlterConfigsReply, ListPartitionReassignments,
    ListPartitionReassignmentsReply, Metadata, MetadataReply, UnregisterBroker,
    UnregisterBrokerReply,
};

/// A request's body.
pub enum Request {
    /// A broker process starts (API key 62).
    BrokerRegistration(BrokerRegistration),
    /// A broker is alive (API key 63).
    BrokerHeartbeat(BrokerHeartbeat),
    /// A broker is taken out (API key 64).
    UnregisterBroker(UnregisterBroker),
    /// Topics are made (API key 19).
    CreateTopics(CreateTopics),
    /// Topics go (API key 20).
    DeleteTopics(DeleteTopics),
    /// Topics grow (API key 37).
    CreatePartitions(CreatePartitions),
    /// A leader reports who is in sync (API key 56).
    AlterPartition(AlterPartition),
    /// Leaders are elected (API key 43).
    ElectLeaders(ElectLeaders),
    /// Partitions get other replicas (API key 45).
    AlterPartitionReassignments(AlterPartitionReassignments),
    /// Which reassignments go on (API key 46).
    ListPartitionReassignments(ListPartitionReassignments),
    /// Settings are changed (API key 44).
    IncrementalAlterConfigs(IncrementalAlterConfigs),
    /// The brokers and topics (API key 3).
    Metadata(Metadata),
}

impl Request {
    ghost use Rattle.std.specs.Prelude.{◌≡◌};
    ghost use Rattle.kr_calls.specs.Decide as rules;

    /// Whether it changes nothing, and is answered on the committed image.
    pub fn is_read(&self) -> bool
        ensures { result ≡ rules.is_read self.now }
    {
        match self {
            Request::ListPartitionReassignments(_) | Request::Metadata(_) => true,
            _ => false,
        }
    }
}

// By hand: a crate that drops one calls this, where a derived drop is made and proved in each such crate anew.
impl Drop for Request {
    fn drop(self) {
        match self {
            Request::BrokerRegistration(message) => {}
            Request::BrokerHeartbeat(message) => {}
            Request::UnregisterBroker(message) => {}
            Request::CreateTopics(message) => {}
            Request::DeleteTopics(message) => {}
            Request::CreatePartitions(message) => {}
            Request::AlterPartition(message) => {}
            Request::ElectLeaders(message) => {}
            Request::AlterPartitionReassignments(message) => {}
            Request::ListPartitionReassignments(message) => {}
            Request::IncrementalAlterConfigs(message) => {}
            Request::Metadata(message) => {}
        }
    }
}

/// A reply's body.
pub enum Reply {
    /// Of API key 62.
    BrokerRegistration(BrokerRegistrationReply),
    /// Of API key 63.
    BrokerHeartbeat(BrokerHeartbeatReply),
    /// Of API key 64.
    UnregisterBroker(UnregisterBrokerReply),
    /// Of API key 19.
    CreateTopics(CreateTopicsReply),
    /// Of API key 20.
    DeleteTopics(DeleteTopicsReply),
    /// Of API key 37.
    CreatePartitions(CreatePartitionsReply),
    /// Of API key 56.
    AlterPartition(AlterPartitionReply),
    /// Of API key 43.
    ElectLeaders(ElectLeadersReply),
    /// Of API key 45.
    AlterPartitionReassignments(AlterPartitionReassignmentsReply),
    /// Of API key 46.
    ListPartitionReassignments(ListPartitionReassignmentsReply),
    /// Of API key 44.
    IncrementalAlterConfigs(IncrementalAlterConfigsReply),
    /// Of API key 3.
    Metadata(MetadataReply),
    /// The error alone, for a message that was no call.
    Bare { error: i16 },
}

// By hand: a crate that drops one calls this, where a derived drop is made and proved in each such crate anew.
impl Drop for Reply {
    fn drop(self) {
        match self {
            Reply::BrokerRegistration(message) => {}
            Reply::BrokerHeartbeat(message) => {}
            Reply::UnregisterBroker(message) => {}
            Reply::CreateTopics(message) => {}
            Reply::DeleteTopics(message) => {}
            Reply::CreatePartitions(message) => {}
            Reply::AlterPartition(message) => {}
            Reply::ElectLeaders(message) => {}
            Reply::AlterPartitionReassignments(message) => {}
            Reply::ListPartitionReassignments(message) => {}
            Reply::IncrementalAlterConfigs(message) => {}
            Reply::Metadata(message) => {}
            Reply::Bare { error } => {}
        }
    }
}

/// A request under its correlation id, which its reply repeats.
#[derive(Drop)]
pub struct Call {
    /// The number that the client drew for this request.
    pub correlation: i32,
    /// What is asked.
    pub request: Request,
}

/// Why a message is no call.
#[derive(Clone, Copy, Debug, Drop, PartialEq, Eq)]
pub enum AskFault {
    /// This key and version isn't served.
    Unsupported { key: i16, version: i16 },
    /// The bytes don't read as the message's layout.
    Wire,
    /// Bytes are left behind the body.
    Trailing,
}

/// What a message asks.
#[derive(Drop)]
pub enum Ask {
    /// A request that is served.
    Call(Call),
    /// No call: it is answered by an error alone.
    Bare { correlation: i32, fault: AskFault },
}

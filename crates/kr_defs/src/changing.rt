//! What a change of a partition is built from.

use crate::Ids;

/// How a leader is asked for.
#[derive(Clone, Copy, Debug, Drop, PartialEq, Eq)]
pub enum Mode {
    /// The present leader stays where it can.
    Plain,
    /// The first replica leads where it can.
    Preferred,
    /// As plain, but any active replica may lead in the end.
    Unclean,
}

/// Among whom a leader was found.
#[derive(Clone, Copy, Debug, Drop, PartialEq, Eq)]
pub enum Choice {
    /// Among the replicas in sync.
    InSync,
    /// Among the eligible replicas (KIP-966), where none in sync could lead.
    Eligible,
    /// Any active replica: acknowledged records may be lost.
    Unclean,
    /// There is no leader.
    Nobody,
}

/// What is asked of a partition: its lists, and how its leader is found.
#[derive(Drop)]
pub struct Want {
    /// `Replicas`: the brokers that keep a copy; the first is the preferred leader.
    pub replicas: Ids,
    /// `AddingReplicas`: those that a reassignment adds (KIP-455).
    pub adding: Ids,
    /// `RemovingReplicas`: those that a reassignment takes out (KIP-455).
    pub removing: Ids,
    /// `Isr`: the replicas in sync with the leader.
    pub in_sync: Ids,
    /// 0 or 1.
    pub recovery: i8,
    /// How its leader is found.
    pub mode: Mode,
    /// The id of a broker that has restarted uncleanly, where one has (KIP-966).
    pub restarted: Option<i32>,
}

/// What an election and the eligible lists follow from besides the partition.
#[derive(Drop)]
pub struct Facts {
    /// The brokers that are neither fenced nor shutting down.
    pub active: Ids,
    /// Whether unclean election is on.
    pub unclean: bool,
    /// The least number of replicas in sync.
    pub minimum: i32,
}

/// The lists of a partition while a change of it is worked out.
#[derive(Drop)]
pub struct Assignment {
    /// `Replicas`: the brokers that keep a copy; the first is the preferred leader.
    pub replicas: Ids,
    /// `AddingReplicas`: those that a reassignment adds (KIP-455).
    pub adding: Ids,
    /// `RemovingReplicas`: those that a reassignment takes out (KIP-455).
    pub removing: Ids,
    /// `Isr`: the replicas in sync with the leader.
    pub in_sync: Ids,
}

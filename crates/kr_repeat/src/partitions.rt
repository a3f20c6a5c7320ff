//! Requests about partitions.

use crate::Repeat;
use kr_base::NoMemory;
use kr_calls::{
    AlterPartition, AlterPartitionReassignments, AlterPartitionTopic, BrokerState, ElectLeaders,
    ElectLeadersTopic, PartitionReport, ReassignablePartition, ReassignableTopic,
};
use std::alloc::Global;

impl Repeat for BrokerState {
    fn again(&self, _alloc: Global) -> Result<BrokerState, NoMemory> {
        Ok(BrokerState {
            broker: self.broker,
            epoch: self.epoch,
        })
    }

    fn is(&self, other: &BrokerState) -> bool {
        self.broker == other.broker && self.epoch == other.epoch
    }
}

impl Repeat for PartitionReport {
    fn again(&self, alloc: Global) -> Result<PartitionReport, NoMemory> {
        let in_sync = self.in_sync.again(alloc)?;
        Ok(PartitionReport {
            index: self.index,
            leader_epoch: self.leader_epoch,
            in_sync,
            recovery: self.recovery,
            partition_epoch: self.partition_epoch,
        })
    }

    fn is(&self, other: &PartitionReport) -> bool {
        self.index == other.index
            && self.leader_epoch == other.leader_epoch
            && self.in_sync.is(&other.in_sync)
            && self.recovery == other.recovery
            && self.partition_epoch == other.partition_epoch
    }
}

impl Repeat for AlterPartitionTopic {
    fn again(&self, alloc: Global) -> Result<AlterPartitionTopic, NoMemory> {
        let partitions = self.partitions.again(alloc)?;
        Ok(AlterPartitionTopic {
            topic: self.topic,
            partitions,
        })
    }

    fn is(&self, other: &AlterPartitionTopic) -> bool {
        self.topic == other.topic && self.partitions.is(&other.partitions)
    }
}

impl Repeat for AlterPartition {
    fn again(&self, alloc: Global) -> Result<AlterPartition, NoMemory> {
        let topics = self.topics.again(alloc)?;
        Ok(AlterPartition {
            broker: self.broker,
            epoch: self.epoch,
            topics,
        })
    }

    fn is(&self, other: &AlterPartition) -> bool {
        self.broker == other.broker && self.epoch == other.epoch && self.topics.is(&other.topics)
    }
}

impl Repeat for ElectLeadersTopic {
    fn again(&self, alloc: Global) -> Result<ElectLeadersTopic, NoMemory> {
        let topic = self.topic.again(alloc)?;
        let partitions = self.partitions.again(alloc)?;
        Ok(ElectLeadersTopic { topic, partitions })
    }

    fn is(&self, other: &ElectLeadersTopic) -> bool {
        self.topic.is(&other.topic) && self.partitions.is(&other.partitions)
    }
}

impl Repeat for ElectLeaders {
    fn again(&self, alloc: Global) -> Result<ElectLeaders, NoMemory> {
        let topics = self.topics.again(alloc)?;
        Ok(ElectLeaders {
            kind: self.kind,
            topics,
        })
    }

    fn is(&self, other: &ElectLeaders) -> bool {
        self.kind == other.kind && self.topics.is(&other.topics)
    }
}

impl Repeat for ReassignablePartition {
    fn again(&self, alloc: Global) -> Result<ReassignablePartition, NoMemory> {
        let replicas = self.replicas.again(alloc)?;
        Ok(ReassignablePartition {
            index: self.index,
            replicas,
        })
    }

    fn is(&self, other: &ReassignablePartition) -> bool {
        self.index == other.index && self.replicas.is(&other.replicas)
    }
}

impl Repeat for ReassignableTopic {
    fn again(&self, alloc: Global) -> Result<ReassignableTopic, NoMemory> {
        let name = self.name.again(alloc)?;
        let partitions = self.partitions.again(alloc)?;
        Ok(ReassignableTopic { name, partitions })
    }

    fn is(&self, other: &ReassignableTopic) -> bool {
        self.name.is(&other.name) && self.partitions.is(&other.partitions)
    }
}

impl Repeat for AlterPartitionReassignments {
    fn again(&self, alloc: Global) -> Result<AlterPartitionReassignments, NoMemory> {
        let topics = self.topics.again(alloc)?;
        Ok(AlterPartitionReassignments { topics })
    }

    fn is(&self, other: &AlterPartitionReassignments) -> bool {
        self.topics.is(&other.topics)
    }
}

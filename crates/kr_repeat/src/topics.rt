//! Requests about topics.

use crate::Repeat;
use kr_base::NoMemory;
use kr_calls::{
    CreatableReplicaAssignment, CreatableTopic, CreatableTopicConfig, CreatePartitions,
    CreatePartitionsAssignment, CreatePartitionsTopic, CreateTopics, DeleteTopicState,
    DeleteTopics,
};
use std::alloc::Global;

impl Repeat for CreatableReplicaAssignment {
    fn again(&self, alloc: Global) -> Result<CreatableReplicaAssignment, NoMemory> {
        let brokers = self.brokers.again(alloc)?;
        Ok(CreatableReplicaAssignment {
            index: self.index,
            brokers,
        })
    }

    fn is(&self, other: &CreatableReplicaAssignment) -> bool {
        self.index == other.index && self.brokers.is(&other.brokers)
    }
}

impl Repeat for CreatableTopicConfig {
    fn again(&self, alloc: Global) -> Result<CreatableTopicConfig, NoMemory> {
        let name = self.name.again(alloc)?;
        let value = self.value.again(alloc)?;
        Ok(CreatableTopicConfig { name, value })
    }

    fn is(&self, other: &CreatableTopicConfig) -> bool {
        self.name.is(&other.name) && self.value.is(&other.value)
    }
}

impl Repeat for CreatableTopic {
    fn again(&self, alloc: Global) -> Result<CreatableTopic, NoMemory> {
        let name = self.name.again(alloc)?;
        let assignments = self.assignments.again(alloc)?;
        let configs = self.configs.again(alloc)?;
        Ok(CreatableTopic {
            name,
            partitions: self.partitions,
            factor: self.factor,
            assignments,
            configs,
        })
    }

    fn is(&self, other: &CreatableTopic) -> bool {
        self.name.is(&other.name)
            && self.partitions == other.partitions
            && self.factor == other.factor
            && self.assignments.is(&other.assignments)
            && self.configs.is(&other.configs)
    }
}

impl Repeat for CreateTopics {
    fn again(&self, alloc: Global) -> Result<CreateTopics, NoMemory> {
        let topics = self.topics.again(alloc)?;
        Ok(CreateTopics {
            topics,
            validate_only: self.validate_only,
        })
    }

    fn is(&self, other: &CreateTopics) -> bool {
        self.topics.is(&other.topics) && self.validate_only == other.validate_only
    }
}

impl Repeat for DeleteTopicState {
    fn again(&self, alloc: Global) -> Result<DeleteTopicState, NoMemory> {
        let name = self.name.again(alloc)?;
        Ok(DeleteTopicState {
            name,
            topic: self.topic,
        })
    }

    fn is(&self, other: &DeleteTopicState) -> bool {
        self.name.is(&other.name) && self.topic == other.topic
    }
}

impl Repeat for DeleteTopics {
    fn again(&self, alloc: Global) -> Result<DeleteTopics, NoMemory> {
        let topics = self.topics.again(alloc)?;
        Ok(DeleteTopics { topics })
    }

    fn is(&self, other: &DeleteTopics) -> bool {
        self.topics.is(&other.topics)
    }
}

impl Repeat for CreatePartitionsAssignment {
    fn again(&self, alloc: Global) -> Result<CreatePartitionsAssignment, NoMemory> {
        let brokers = self.brokers.again(alloc)?;
        Ok(CreatePartitionsAssignment { brokers })
    }

    fn is(&self, other: &CreatePartitionsAssignment) -> bool {
        self.brokers.is(&other.brokers)
    }
}

impl Repeat for CreatePartitionsTopic {
    fn again(&self, alloc: Global) -> Result<CreatePartitionsTopic, NoMemory> {
        let name = self.name.again(alloc)?;
        let assignments = self.assignments.again(alloc)?;
        Ok(CreatePartitionsTopic {
            name,
            count: self.count,
            assignments,
        })
    }

    fn is(&self, other: &CreatePartitionsTopic) -> bool {
        self.name.is(&other.name)
            && self.count == other.count
            && self.assignments.is(&other.assignments)
    }
}

impl Repeat for CreatePartitions {
    fn again(&self, alloc: Global) -> Result<CreatePartitions, NoMemory> {
        let topics = self.topics.again(alloc)?;
        Ok(CreatePartitions {
            topics,
            validate_only: self.validate_only,
        })
    }

    fn is(&self, other: &CreatePartitions) -> bool {
        self.topics.is(&other.topics) && self.validate_only == other.validate_only
    }
}

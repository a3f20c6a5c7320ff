//! Requests about settings.

use crate::Repeat;
use kr_base::NoMemory;
use kr_calls::{ConfigOperation, ConfigResource, IncrementalAlterConfigs};
use std::alloc::Global;

impl Repeat for ConfigOperation {
    fn again(&self, alloc: Global) -> Result<ConfigOperation, NoMemory> {
        let name = self.name.again(alloc)?;
        let value = self.value.again(alloc)?;
        Ok(ConfigOperation {
            name,
            operation: self.operation,
            value,
        })
    }

    fn is(&self, other: &ConfigOperation) -> bool {
        self.name.is(&other.name)
            && self.operation == other.operation
            && self.value.is(&other.value)
    }
}

impl Repeat for ConfigResource {
    fn again(&self, alloc: Global) -> Result<ConfigResource, NoMemory> {
        let name = self.name.again(alloc)?;
        let configs = self.configs.again(alloc)?;
        Ok(ConfigResource {
            kind: self.kind,
            name,
            configs,
        })
    }

    fn is(&self, other: &ConfigResource) -> bool {
        self.kind == other.kind && self.name.is(&other.name) && self.configs.is(&other.configs)
    }
}

impl Repeat for IncrementalAlterConfigs {
    fn again(&self, alloc: Global) -> Result<IncrementalAlterConfigs, NoMemory> {
        let resources = self.resources.again(alloc)?;
        Ok(IncrementalAlterConfigs {
            resources,
            validate_only: self.validate_only,
        })
    }

    fn is(&self, other: &IncrementalAlterConfigs) -> bool {
        self.resources.is(&other.resources) && self.validate_only == other.validate_only
    }
}

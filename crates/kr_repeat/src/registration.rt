//! Requests about brokers.

use crate::Repeat;
use kr_base::NoMemory;
use kr_calls::{BrokerHeartbeat, BrokerRegistration, UnregisterBroker};
use kr_defs::{Endpoint, Range};
use std::alloc::Global;

impl Repeat for Endpoint {
    fn again(&self, alloc: Global) -> Result<Endpoint, NoMemory> {
        let name = self.name.again(alloc)?;
        let host = self.host.again(alloc)?;
        Ok(Endpoint {
            name,
            host,
            port: self.port,
            protocol: self.protocol,
        })
    }

    fn is(&self, other: &Endpoint) -> bool {
        self.name.is(&other.name)
            && self.host.is(&other.host)
            && self.port == other.port
            && self.protocol == other.protocol
    }
}

impl Repeat for Range {
    fn again(&self, alloc: Global) -> Result<Range, NoMemory> {
        let name = self.name.again(alloc)?;
        Ok(Range {
            name,
            min: self.min,
            max: self.max,
        })
    }

    fn is(&self, other: &Range) -> bool {
        self.name.is(&other.name) && self.min == other.min && self.max == other.max
    }
}

impl Repeat for BrokerRegistration {
    fn again(&self, alloc: Global) -> Result<BrokerRegistration, NoMemory> {
        let cluster = self.cluster.again(alloc)?;
        let listeners = self.listeners.again(alloc)?;
        let features = self.features.again(alloc)?;
        let rack = self.rack.again(alloc)?;
        Ok(BrokerRegistration {
            broker: self.broker,
            cluster,
            incarnation: self.incarnation,
            listeners,
            features,
            rack,
            migrating: self.migrating,
            previous_epoch: self.previous_epoch,
        })
    }

    fn is(&self, other: &BrokerRegistration) -> bool {
        self.broker == other.broker
            && self.cluster.is(&other.cluster)
            && self.incarnation == other.incarnation
            && self.listeners.is(&other.listeners)
            && self.features.is(&other.features)
            && self.rack.is(&other.rack)
            && self.migrating == other.migrating
            && self.previous_epoch == other.previous_epoch
    }
}

impl Repeat for BrokerHeartbeat {
    fn again(&self, _alloc: Global) -> Result<BrokerHeartbeat, NoMemory> {
        Ok(BrokerHeartbeat {
            broker: self.broker,
            epoch: self.epoch,
            offset: self.offset,
            want_fence: self.want_fence,
            want_shutdown: self.want_shutdown,
        })
    }

    fn is(&self, other: &BrokerHeartbeat) -> bool {
        self.broker == other.broker
            && self.epoch == other.epoch
            && self.offset == other.offset
            && self.want_fence == other.want_fence
            && self.want_shutdown == other.want_shutdown
    }
}

impl Repeat for UnregisterBroker {
    fn again(&self, _alloc: Global) -> Result<UnregisterBroker, NoMemory> {
        Ok(UnregisterBroker {
            broker: self.broker,
        })
    }

    fn is(&self, other: &UnregisterBroker) -> bool {
        self.broker == other.broker
    }
}

//! The timelines of all kinds of entries, and how much their present maps have.

ghost use Rattle.std.specs.Prelude.{◌≡◌};

use crate::partition_timeline::PartitionTimeline;
use kr_base::NoMemory;
use kr_defs::{Broker, ConfigKey, Ill, Text, Topic};
use kr_store::Counts;
use kr_timeline::Timeline;
use std::alloc::{AllocError, Global};

/// Why a record wasn't applied.
#[derive(Clone, Copy, Debug, Drop, PartialEq, Eq)]
pub(crate) enum ChangeFault {
    IllFormed(Ill),
    NoMemory,
}

impl From<NoMemory> for ChangeFault {
    ghost use Rattle.kr_image.specs.declared.timelines.ChangeFault.TheVariants as faults;

    ghost from_gives = { λ _ fault. fault ≡ faults.NoMemory };

    fn from(_refused: NoMemory) -> ChangeFault {
        ChangeFault::NoMemory
    }
}

impl From<AllocError> for ChangeFault {
    ghost use Rattle.kr_image.specs.declared.timelines.ChangeFault.TheVariants as faults;

    ghost from_gives = { λ _ fault. fault ≡ faults.NoMemory };

    fn from(_refused: AllocError) -> ChangeFault {
        ChangeFault::NoMemory
    }
}

/// One timeline for each kind of entry, topics by name and by id, and the counts of the present maps.
#[derive(Drop)]
pub(crate) struct Timelines {
    pub alloc: Global,
    pub brokers: Timeline<i32, Broker>,
    pub names: Timeline<Text, u128>,
    pub topics: Timeline<u128, Topic>,
    pub partitions: PartitionTimeline,
    pub configs: Timeline<ConfigKey, Text>,
    pub features: Timeline<Text, i16>,
    pub counts: Counts,
}

//! Where an image is looked at, how much it has, and why an item isn't applied or a read has no answer.

ghost use Rattle.std.specs.Prelude.{◌≡◌};
ghost use Rattle.kr_store.specs.declared.places.ReadFault.TheVariants as faults;

use kr_base::{NoEpoch, NoMemory};
use kr_defs::Ill;

/// An image of a store: the present one, or that of a kept epoch.
#[derive(Clone, Copy, Debug, Drop, PartialEq, Eq)]
pub enum At {
    /// The present image.
    Tip,
    /// The image of a kept epoch, a place of the log.
    Epoch(i64),
}

/// How much an image has. `config_bytes` are the bytes of the resource names, keys and values of all settings.
#[derive(Clone, Copy, Debug, Drop, PartialEq, Eq)]
pub struct Counts {
    /// How many brokers are registered.
    pub brokers: u32,
    /// How many topics there are.
    pub topics: u32,
    /// How many partitions all topics have.
    pub partitions: u32,
    /// Bytes of the resource names, keys and values of all settings.
    pub config_bytes: u32,
    /// Features with a level.
    pub features: u32,
}

/// Why an item wasn't applied: it has no meaning at its place, or there was no memory.
#[derive(Clone, Copy, Debug, Drop, PartialEq, Eq)]
pub enum ApplyFault {
    /// The item at this place of the log has no meaning, for this cause.
    IllFormed { place: i64, cause: Ill },
    /// There was no memory.
    NoMemory,
}

/// Why a read has no answer: the epoch isn't kept, or there was no memory.
#[derive(Clone, Copy, Debug, Drop, PartialEq, Eq)]
pub enum ReadFault {
    /// The epoch isn't kept.
    NoEpoch,
    /// There was no memory.
    NoMemory,
}

impl From<NoEpoch> for ReadFault {
    ghost from_gives = { λ _ fault. fault ≡ faults.NoEpoch };

    fn from(_missing: NoEpoch) -> ReadFault {
        ReadFault::NoEpoch
    }
}

impl From<NoMemory> for ReadFault {
    ghost from_gives = { λ _ fault. fault ≡ faults.NoMemory };

    fn from(_refused: NoMemory) -> ReadFault {
        ReadFault::NoMemory
    }
}

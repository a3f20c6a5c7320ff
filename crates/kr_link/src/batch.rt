//! Batches of the log and images of its beginning, as a link passes them on: their bytes are shared, and read by nobody here.

ghost use Rattle.std.specs.Prelude.{◌≡◌, ◌+◌, IfOk, length};
ghost use Rattle.kr_link.specs.Faults.{IsBatchOrFault};

use kr_base::{NoMemory, Shared};
use kr_defs::{Bytes, Copied};
use std::alloc::{AllocError, Global};
use std::marker::Model;

/// The first place that a log never reaches: places are below 2^63, as Kafka's offsets.
pub const END_OF_PLACES: u64 = 9_223_372_036_854_775_808;

/// Why bytes are no batch.
#[derive(Clone, Copy, Debug, Drop, PartialEq, Eq)]
pub enum LogBatchFault {
    /// There was no memory for it.
    NoMemory,
    /// It ends behind the last place.
    PastTheEnd,
}

/// A batch of the log: where its first record stands, how many it has, the epoch of who wrote it, and its bytes.
#[derive(Drop)]
pub struct LogBatch {
    base: u64,
    count: u32,
    epoch: u32,
    bytes: Shared<Bytes>,
}

impl Model for LogBatch {
    ghost use Rattle.std.specs.Prelude.{◌+◌, ◌<◌, ◌^◌};
    ghost use Rattle.law_quorum.specs.Batches.{Batch as AnyBatch};

    ghost Value = { AnyBatch };

    ghost view = { λ s. record { base = s.base; count = s.count; epoch = s.epoch; bytes = s.bytes } };

    ghost invariant = { λ s. s.base + s.count < 2 ^ 63 };
}

impl LogBatch {
    /// A batch whose bytes these are: `count` records from the place `base` on, written in `epoch`.
    pub fn new(
        alloc: Global,
        base: u64,
        count: u32,
        epoch: u32,
        bytes: Bytes,
    ) -> Result<LogBatch, LogBatchFault>
        ensures { IsBatchOrFault base count result
            (record { base = base; count = count; epoch = epoch; bytes = bytes }) }
    {
        if base >= END_OF_PLACES || u64::from(count) >= END_OF_PLACES - base {
            return Err(LogBatchFault::PastTheEnd);
        }
        match Shared::new(alloc, bytes) {
            Ok(bytes) => Ok(LogBatch {
                base,
                count,
                epoch,
                bytes,
            }),
            Err(_) => Err(LogBatchFault::NoMemory),
        }
    }

    /// The place of its first record.
    pub fn base(&self) -> u64
        ensures { result ≡ self.now.base }
    {
        self.base
    }

    /// The place behind its last record.
    pub fn end(&self) -> u64
        ensures { result ≡ self.now.base + self.now.count }
    {
        self.base + u64::from(self.count)
    }

    /// The epoch of the leadership that wrote it.
    pub fn epoch(&self) -> u32
        ensures { result ≡ self.now.epoch }
    {
        self.epoch
    }

    /// Its bytes.
    pub fn bytes(&self) -> &[u8]
        ensures { result.now ≡ self.now.bytes }
    {
        self.bytes.get().as_slice()
    }

    /// How many bytes it has.
    pub fn size(&self) -> usize
        ensures { result ≡ length self.now.bytes }
    {
        self.bytes.get().len()
    }
}

// Its bytes are shared.
impl Copied for LogBatch {
    fn copied(&self, _alloc: Global) -> Result<LogBatch, AllocError> {
        Ok(LogBatch {
            base: self.base,
            count: self.count,
            epoch: self.epoch,
            bytes: self.bytes.again()?,
        })
    }
}

/// An image that stands for the log before a place.
#[derive(Drop)]
pub struct StoredImage {
    offset: u64,
    bytes: Shared<Bytes>,
}

impl Model for StoredImage {
    ghost use Rattle.law_quorum.specs.Batches.{StoredImage as AnyImage};

    ghost Value = { AnyImage };

    ghost view = { λ s. record { offset = s.offset; bytes = s.bytes } };
}

impl StoredImage {
    /// An image of the log before the place `offset`, whose bytes these are.
    pub fn new(alloc: Global, offset: u64, bytes: Bytes) -> Result<StoredImage, NoMemory>
        ensures { IfOk result (λ image. image ≡ record { offset = offset; bytes = bytes }) }
    {
        Ok(StoredImage {
            offset,
            bytes: Shared::new(alloc, bytes)?,
        })
    }

    /// The place before which it stands for the log.
    pub fn offset(&self) -> u64
        ensures { result ≡ self.now.offset }
    {
        self.offset
    }

    /// Its bytes.
    pub fn bytes(&self) -> &[u8]
        ensures { result.now ≡ self.now.bytes }
    {
        self.bytes.get().as_slice()
    }

    /// How many bytes it has.
    pub fn size(&self) -> usize
        ensures { result ≡ length self.now.bytes }
    {
        self.bytes.get().len()
    }
}

//! Jobs that are done many times: how long they take is measured from outside.

use crate::batches::{Encoded, Kind};
use crate::beats::{BEATS, beat_all, list_of};
use crate::checksum::are_summed;
use crate::copies::{Copies, Work};
use crate::image::Written;
use crate::placing::{PARTITIONS, brokers, place_all};
use crate::request::{Form, ask, topics_of};
use anyhow::Result;
use kr_batch::BatchFault;
use kr_snapshot::{ImageFault, SnapFault};
use kr_store::Store;
use std::alloc::{AllocError, Global};
use std::sync::Wait;
use std::thread::Threads;

/// What is done.
#[derive(Clone, Copy)]
pub(crate) enum Job {
    /// Bytes are summed.
    Sum,
    /// A batch is encoded.
    Encode(Kind),
    /// A batch is decoded.
    Decode(Kind),
    /// A request is read.
    Ask(Form),
    /// An image is written.
    Write,
    /// An image is read.
    Read,
    /// All partitions are placed.
    Place,
    /// All heartbeats of so many brokers come.
    Beat(u16),
    /// Copies of an image of so many partitions are published, or read.
    Copy(Work, i32),
}

/// Each job, with its word.
const JOBS: [(&str, Job); 23] = [
    ("crc32c", Job::Sum),
    ("encode-changes", Job::Encode(Kind::Changes)),
    ("decode-changes", Job::Decode(Kind::Changes)),
    ("encode-settings", Job::Encode(Kind::Settings)),
    ("decode-settings", Job::Decode(Kind::Settings)),
    ("half-a-request", Job::Ask(Form::Half)),
    ("request", Job::Ask(Form::Whole)),
    ("short-request", Job::Ask(Form::Promising)),
    ("write-image", Job::Write),
    ("read-image", Job::Read),
    ("place", Job::Place),
    ("beat-10", Job::Beat(10)),
    ("beat-100", Job::Beat(100)),
    ("beat-1000", Job::Beat(1_000)),
    ("publish-100", Job::Copy(Work::Publish, 100)),
    ("publish-1000", Job::Copy(Work::Publish, 1_000)),
    ("publish-9000", Job::Copy(Work::Publish, 9_000)),
    ("look-100", Job::Copy(Work::Look(1), 100)),
    ("look-1000", Job::Copy(Work::Look(1), 1_000)),
    ("look-9000", Job::Copy(Work::Look(1), 9_000)),
    ("look-twice-100", Job::Copy(Work::Look(2), 100)),
    ("look-twice-1000", Job::Copy(Work::Look(2), 1_000)),
    ("look-twice-9000", Job::Copy(Work::Look(2), 9_000)),
];

impl Job {
    /// The job of this word.
    pub(crate) fn of(word: &str) -> Option<Job> {
        for (name, job) in &JOBS {
            if *name == word {
                return Some(*job);
            }
        }
        None
    }

    /// Does it so often. Whether what came was the right one.
    pub(crate) fn is_done<R: AllocGlobal + Wait + Threads + Sync>(
        self,
        rt: &R,
        rounds: u32,
    ) -> Result<bool> {
        let alloc = rt.alloc();
        match self {
            Job::Sum => Ok(are_summed(alloc, rounds)?),
            Job::Encode(kind) => Ok(is_encoded(alloc, &Encoded::new(alloc, kind)?, rounds)?),
            Job::Decode(kind) => Ok(is_decoded(alloc, &Encoded::new(alloc, kind)?, rounds)?),
            Job::Ask(form) => Ok(is_read(alloc, form, rounds)?),
            Job::Write => Ok(is_image_written(alloc, &Written::new(alloc)?, rounds)?),
            Job::Read => Ok(is_image_read(alloc, &Written::new(alloc)?, rounds)?),
            Job::Place => Ok(are_placed(alloc, rounds)?),
            Job::Beat(brokers) => Ok(have_beaten(alloc, brokers, rounds)?),
            Job::Copy(work, partitions) => Copies { work, partitions }.are_done(rt, alloc, rounds),
        }
    }
}

fn is_encoded(alloc: Global, encoded: &Encoded, rounds: u32) -> Result<bool, AllocError> {
    let mut room = Vec::new(alloc);
    for _ in 0..rounds {
        room.clear();
        encoded.encode(&mut room)?;
    }
    Ok(room.as_slice() == encoded.as_bytes())
}

fn is_decoded(alloc: Global, encoded: &Encoded, rounds: u32) -> Result<bool, BatchFault> {
    for _ in 0..rounds {
        let batch = encoded.decode(alloc)?;
        if batch.items.len() != encoded.records() {
            return Ok(false);
        }
    }
    Ok(true)
}

fn is_read(alloc: Global, form: Form, rounds: u32) -> Result<bool, AllocError> {
    let message = form.message(alloc)?;
    for _ in 0..rounds {
        let ask = ask(alloc, &message)?;
        if topics_of(&ask) != form.topics() {
            return Ok(false);
        }
    }
    Ok(true)
}

fn is_image_written(alloc: Global, image: &Written, rounds: u32) -> Result<bool, SnapFault> {
    let mut room = Vec::new(alloc);
    for _ in 0..rounds {
        room.clear();
        image.write(alloc, &mut room)?;
    }
    Ok(room.as_slice() == image.as_bytes())
}

fn is_image_read(alloc: Global, image: &Written, rounds: u32) -> Result<bool, ImageFault> {
    for _ in 0..rounds {
        let (_, store) = image.read(alloc)?;
        if store.counts() != image.counts() {
            return Ok(false);
        }
    }
    Ok(true)
}

fn are_placed(alloc: Global, rounds: u32) -> Result<bool, AllocError> {
    let brokers = brokers(alloc)?;
    for _ in 0..rounds {
        let placed = place_all(alloc, &brokers)?;
        if placed.len() != PARTITIONS as usize {
            return Ok(false);
        }
    }
    Ok(true)
}

fn have_beaten(alloc: Global, brokers: u16, rounds: u32) -> Result<bool, AllocError> {
    let mut list = list_of(alloc, brokers)?;
    for round in 0..rounds {
        beat_all(&mut list, brokers, i64::from(round) * i64::from(BEATS))?;
    }
    Ok(list.len() == usize::from(brokers))
}

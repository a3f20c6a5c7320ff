//! A source of bytes that are held, and a sink that keeps what is written.

ghost use Rattle.std.specs.Prelude.{◌≡◌, [], Some};

use kr_base::{Failed, Sink, Source, copy_front};
use kr_defs::Bytes;
use std::alloc::Global;
use std::marker::Model;

/// Bytes that are held, of which those from a place on are still to be read. No read of them fails.
#[derive(Drop)]
pub(crate) struct Held<'a> {
    // All bytes.
    bytes: &'a [u8],
    // How many were read.
    at: usize,
}

impl<'a> Model for Held<'a> {
    ghost use Rattle.std.specs.Prelude.{ℕ, List, ◌≤◌, length, drop};

    ghost Value = { List ℕ };

    ghost view = { λ h. drop h.at h.bytes.now };

    ghost invariant = { λ h. h.at ≤ length h.bytes.now };
}

impl<'a> Held<'a> {
    /// All of these bytes.
    pub(crate) fn new(bytes: &'a [u8]) -> Held<'a>
        ensures { result ≡ bytes.now }
    {
        Held { bytes, at: 0 }
    }

    // The bytes that are left.
    fn left(&self) -> &[u8]
        ensures { result.now ≡ self.now }
    {
        &self.bytes[self.at..]
    }
}

impl<'a> Source for Held<'a> {
    ghost left = { λ h. Some h };

    ghost faults = { λ _. 0 };

    fn read(&mut self, into: &mut [u8]) -> Result<usize, Failed> {
        let count = copy_front(self.left(), into);
        self.at += count;
        Ok(count)
    }

    fn faults(&self) -> u64 {
        0
    }
}

/// Keeps what is written. A put fails for want of memory alone.
#[derive(Drop)]
pub(crate) struct Gathered {
    // What was put so far.
    bytes: Vec<u8>,
    // How many puts failed; the count stands still at the greatest u64.
    faults: u64,
}

impl Gathered {
    /// NothingBehind is written yet.
    pub(crate) fn new(alloc: Global) -> Gathered
        ensures written { result.bytes.items ≡ [] }
        ensures faults { result.faults ≡ 0 }
    {
        Gathered {
            bytes: Vec::new(alloc),
            faults: 0,
        }
    }

    /// All that was written.
    pub(crate) fn into_bytes(self) -> Bytes
        ensures { result ≡ self.bytes.items }
    {
        Bytes::from_vec(self.bytes)
    }
}

impl Sink for Gathered {
    ghost written = { λ g. Some g.bytes.items };

    ghost faults = { λ g. g.faults };

    fn put(&mut self, piece: &[u8]) -> Result<(), Failed> {
        match self.bytes.extend_from_slice(piece) {
            Ok(()) => Ok(()),
            Err(_) => {
                self.faults = self.faults.saturating_add(1);
                Err(Failed)
            }
        }
    }

    fn faults(&self) -> u64 {
        self.faults
    }
}

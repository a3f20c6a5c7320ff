//! A source and a sink in memory, whose calls fail by a list.

ghost use Rattle.std.specs.Prelude.{◌≡◌, ◌+◌, ◌-◌, ◌≤◌, min, Some, [], ◌++◌, take, length, IfOk, OnOk, OnErr, ◌↔◌, IsErr, IsOk, IsTrue, Contains};
ghost use Rattle.std.specs.Io.{ReadsAtMost};
ghost use Rattle.std.specs.Io.KnownBytes.{ReadConsumes};
ghost use Rattle.kr_base.specs.Causes.{HasCause, raised};
ghost use Rattle.kr_base.specs.Memory.{takes};

use crate::answers::{Failed, NoMemory};
use crate::outside::{Sink, Source};
use std::alloc::Global;
use std::marker::Model;

/// Bytes in memory, and the numbers of the reads that are to fail, counted from 1.
#[derive(Drop)]
pub struct MemorySource {
    // All bytes, those that were read too.
    bytes: Vec<u8>,
    // How many were read.
    at: usize,
    // The numbers of the reads that fail.
    failing: Vec<u64>,
    // How many reads there were.
    calls: u64,
    // How many of them failed.
    faults: u64,
}

impl Model for MemorySource {
    ghost use Rattle.std.specs.Prelude.{drop, vec_len, ◌≤◌};
    ghost use Rattle.kr_base.specs.Memory.{Input};

    ghost Value = { Input };

    ghost view = { λ s. record { left = drop s.at s.bytes.items; failing = s.failing.items; calls = s.calls; faults = s.faults } };

    ghost invariant = { λ s. s.at ≤ vec_len s.bytes };
}

impl MemorySource {
    /// A source of these bytes, of which no call has been made. `failing` has the numbers of the reads that are to
    /// fail; the first read has number 1.
    pub fn new(bytes: Vec<u8>, failing: Vec<u64>) -> MemorySource
        ensures { result ≡ record { left = bytes.items; failing = failing.items; calls = 0; faults = 0 } }
    {
        MemorySource {
            bytes,
            at: 0,
            failing,
            calls: 0,
            faults: 0,
        }
    }

    /// The bytes that are left.
    pub fn left(&self) -> &[u8]
        ensures { result.now ≡ self.now.left }
    {
        &self.bytes.as_slice()[self.at..]
    }

    /// How many reads were made; the count stands still at the greatest u64.
    pub fn calls(&self) -> u64
        ensures { result ≡ self.now.calls }
    {
        self.calls
    }
}

impl Source for MemorySource {
    ghost left = { λ s. Some s.left };

    ghost faults = { λ s. s.faults };

    /// Reads as many bytes as there is room for and are left. It fails exactly where the call's number is listed.
    fn read(&mut self, into: &mut [u8]) -> Result<usize, Failed>
        ensures bound { ReadsAtMost result into.new }
        ensures bytes { ReadConsumes (Some self.old.left) (Some self.new.left) result into.new }
        ensures cause { HasCause self.old.faults self.new.faults result }
        ensures most { IfOk result (λ count. count ≡ min (length into.new) (length self.old.left)) }
        ensures fails { IsErr result ↔ Contains self.old.failing (raised self.old.calls) }
        ensures calls { self.new.calls ≡ raised self.old.calls }
        ensures failing { self.new.failing ≡ self.old.failing }
    {
        self.calls = self.calls.saturating_add(1);
        if self.failing.contains(&self.calls) {
            self.faults = self.faults.saturating_add(1);
            return Err(Failed);
        }
        let count = copy_front(self.left(), into);
        self.at += count;
        Ok(count)
    }

    fn faults(&self) -> u64 {
        self.faults
    }
}

/// Copies as many bytes as `into` has room for to its front, and answers how many.
pub fn copy_front(from: &[u8], into: &mut [u8]) -> usize
    ensures count { result ≡ min (length from.now) (length into.old) }
    ensures len { length into.new ≡ length into.old }
    ensures copied { take result into.new ≡ take result from.now }
{
    let count = from.len().min(into.len());
    into[..count].copy_from_slice(&from[..count]);
    count
}

/// What was written to memory, and the numbers of the puts that are to fail, counted from 1. All memory is taken when
/// the sink is made.
#[derive(Drop)]
pub struct MemorySink {
    // What was put so far.
    bytes: Vec<u8>,
    // How many bytes are taken at most.
    room: usize,
    // How many puts are taken at most.
    most: u64,
    // The numbers of the puts that fail.
    failing: Vec<u64>,
    // How many puts there were.
    calls: u64,
    // How many of them failed.
    faults: u64,
}

impl Model for MemorySink {
    ghost use Rattle.std.specs.Prelude.{vec_len, vec_capacity, ◌≤◌};
    ghost use Rattle.kr_base.specs.Memory.{Output};

    ghost Value = { Output };

    ghost view = { λ s. record { written = s.bytes.items; room = s.room; most = s.most; failing = s.failing.items; calls = s.calls; faults = s.faults } };

    ghost invariant = { λ s. (vec_len s.bytes ≤ s.room) × (s.room ≤ vec_capacity s.bytes) };
}

impl MemorySink {
    /// A sink with room for so many bytes and so many puts. `failing` has the numbers of the puts that are to fail;
    /// the first put has number 1. Whatever goes past either number fails too.
    pub fn new(
        alloc: Global,
        bytes: usize,
        calls: usize,
        failing: Vec<u64>,
    ) -> Result<MemorySink, NoMemory>
        ensures { IfOk result (λ sink. sink ≡ record { written = []; room = bytes; most = calls; failing = failing.items; calls = 0; faults = 0 }) }
    {
        Ok(MemorySink {
            bytes: Vec::with_capacity(alloc, bytes)?,
            room: bytes,
            most: calls as u64,
            failing,
            calls: 0,
            faults: 0,
        })
    }

    /// The bytes that were written.
    pub fn written(&self) -> &[u8]
        ensures { result.now ≡ self.now.written }
    {
        self.bytes.as_slice()
    }

    /// How many puts were made; the count stands still at the greatest u64.
    pub fn calls(&self) -> u64
        ensures { result ≡ self.now.calls }
    {
        self.calls
    }

    // The next put, of so many bytes, is neither listed nor past the most puts, and has room.
    fn takes(&self, size: usize) -> bool
        ensures { result ≡ takes self.now size }
    {
        let number = self.calls.saturating_add(1);
        !self.failing.contains(&number)
            && number <= self.most
            && size <= self.room - self.bytes.len()
    }
}

impl Sink for MemorySink {
    ghost written = { λ s. Some s.written };

    ghost faults = { λ s. s.faults };

    /// Appends the piece. It fails exactly where the call's number is listed or past the number of calls, or where the
    /// piece has no room, and then takes none of it.
    fn put(&mut self, piece: &[u8]) -> Result<(), Failed>
        ensures ok { OnOk result (self.new.written ≡ self.old.written ++ piece.now) }
        ensures err { OnErr result (self.new.written ≡ self.old.written) }
        ensures cause { HasCause self.old.faults self.new.faults result }
        ensures fails { IsOk result ↔ IsTrue (takes self.old (length piece.now)) }
        ensures calls { self.new.calls ≡ raised self.old.calls }
        ensures failing { self.new.failing ≡ self.old.failing }
        ensures most { self.new.most ≡ self.old.most }
        ensures room { self.new.room ≡ self.old.room }
    {
        let takes = self.takes(piece.len());
        self.calls = self.calls.saturating_add(1);
        if takes && self.bytes.extend_from_slice(piece).is_ok() {
            return Ok(());
        }
        self.faults = self.faults.saturating_add(1);
        Err(Failed)
    }

    fn faults(&self) -> u64 {
        self.faults
    }
}

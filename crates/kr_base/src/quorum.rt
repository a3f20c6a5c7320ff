//! The quorum that keeps a controller's log.

ghost use Rattle.std.specs.Prelude.{◌≡◌, ◌++◌, ◌∷◌, [], ℕ, List, Option, Some, map, length, IfOk, OnOk, OnErr, IsOk, IsTrue, ◌↔◌};
ghost use Rattle.std.specs.List.{concat};
ghost use Rattle.kr_base.specs.Appends.{accepts, with_piece};
ghost use Rattle.kr_base.specs.Causes.{HasCause, raised};

use crate::answers::{Failed, NoMemory};
use std::alloc::Global;
use std::marker::Model;

/// Where a leader's record batches go.
pub trait Quorum {
    /// The pieces that were appended, where the quorum tells them.
    ghost pieces: { Self → Option (List (List ℕ)) };

    /// How many appends have failed; the count stands still at the greatest u64.
    ghost faults: { Self → ℕ };

    /// Appends the piece, which is one record batch. A failed append leaves what was appended as it was; one that doesn't fail
    /// leaves the count of faults.
    fn append(&mut self, bytes: &[u8]) -> Result<(), Failed>
        ensures ok { OnOk result (pieces self.new ≡ with_piece (pieces self.old) bytes.now) }
        ensures err { OnErr result (pieces self.new ≡ pieces self.old) }
        ensures cause { HasCause (faults self.old) (faults self.new) result }
        ensures still { OnOk result (faults self.new ≡ faults self.old) };

    /// How many appends have failed.
    fn faults(&self) -> u64
        ensures { result ≡ faults self.now };
}

/// What was appended in memory, and the numbers of the appends that are to fail, counted from 1. All memory is taken when
/// the quorum is made.
#[derive(Drop)]
pub struct MemoryQuorum {
    // The batches that were appended, one behind the other.
    bytes: Vec<u8>,
    // The length of each of them, in bytes.
    sizes: Vec<usize>,
    // How many bytes are taken at most.
    room: usize,
    // How many batches are taken at most.
    most: u64,
    // The numbers of the appends that fail.
    failing: Vec<u64>,
    // How many appends there were.
    calls: u64,
    // How many of them failed.
    faults: u64,
}

impl Model for MemoryQuorum {
    ghost use Rattle.std.specs.Prelude.{◌≡◌, ◌≤◌, length, vec_capacity, vec_len};
    ghost use Rattle.std.specs.List.{sum};
    ghost use Rattle.kr_base.specs.Appends.{Appended, pieces_of};

    ghost Value = { Appended };

    ghost view = { λ s. record { pieces = pieces_of s.sizes.items s.bytes.items; room = s.room; most = s.most; failing = s.failing.items; calls = s.calls; faults = s.faults } };

    ghost invariant = { λ s. (sum s.sizes.items ≡ length s.bytes.items) × (vec_len s.bytes ≤ s.room) × (s.room ≤ vec_capacity s.bytes) × (vec_len s.sizes ≤ s.calls) × (s.most ≤ vec_capacity s.sizes) };
}

impl MemoryQuorum {
    /// A quorum with room for so many bytes and so many appends. `failing` has the numbers of the appends that are to
    /// fail; the first has number 1. Whatever goes past either number fails too.
    pub fn new(
        alloc: Global,
        bytes: usize,
        calls: usize,
        failing: Vec<u64>,
    ) -> Result<MemoryQuorum, NoMemory>
        ensures { IfOk result (λ quorum. quorum ≡ record { pieces = []; room = bytes; most = calls; failing = failing.items; calls = 0; faults = 0 }) }
    {
        Ok(MemoryQuorum {
            bytes: Vec::with_capacity(alloc, bytes)?,
            sizes: Vec::with_capacity(alloc, calls)?,
            room: bytes,
            most: calls as u64,
            failing,
            calls: 0,
            faults: 0,
        })
    }

    /// The bytes of all pieces, one behind the other.
    #[tactic(auto, using(crate::proofs::Appends::joined))]
    pub fn bytes(&self) -> &[u8]
        ensures { result.now ≡ concat self.now.pieces }
    {
        self.bytes.as_slice()
    }

    /// The size of each piece.
    #[tactic(auto, using(crate::proofs::Appends::measured))]
    pub fn sizes(&self) -> &[usize]
        ensures { result.now ≡ map length self.now.pieces }
    {
        self.sizes.as_slice()
    }

    /// How many appends were made; the count stands still at the greatest u64.
    pub fn calls(&self) -> u64
        ensures { result ≡ self.now.calls }
    {
        self.calls
    }

    // The next append, of so many bytes, is neither listed nor past the most appends, and has room.
    #[tactic(auto, using(crate::proofs::Appends::joined))]
    fn accepts(&self, size: usize) -> bool
        ensures { result ≡ accepts self.now size }
    {
        let number = self.calls.saturating_add(1);
        !self.failing.contains(&number)
            && number <= self.most
            && size <= self.room - self.bytes.len()
    }
}

impl Quorum for MemoryQuorum {
    ghost pieces = { λ s. Some s.pieces };

    ghost faults = { λ s. s.faults };

    /// Appends the piece. It fails exactly where the call's number is listed or past the number of calls, or where the
    /// piece has no room.
    #[tactic(auto, using(crate::proofs::Appends::pieces))]
    fn append(&mut self, bytes: &[u8]) -> Result<(), Failed>
        ensures ok { OnOk result (self.new.pieces ≡ self.old.pieces ++ bytes.now ∷ []) }
        ensures err { OnErr result (self.new.pieces ≡ self.old.pieces) }
        ensures cause { HasCause self.old.faults self.new.faults result }
        ensures still { OnOk result (self.new.faults ≡ self.old.faults) }
        ensures fails { IsOk result ↔ IsTrue (accepts self.old (length bytes.now)) }
        ensures calls { self.new.calls ≡ raised self.old.calls }
        ensures failing { self.new.failing ≡ self.old.failing }
        ensures most { self.new.most ≡ self.old.most }
        ensures room { self.new.room ≡ self.old.room }
    {
        let accepts = self.accepts(bytes.len());
        self.calls = self.calls.saturating_add(1);
        if accepts
            && self.sizes.push(bytes.len()).is_ok()
            && self.bytes.extend_from_slice(bytes).is_ok()
        {
            return Ok(());
        }
        self.faults = self.faults.saturating_add(1);
        Err(Failed)
    }

    fn faults(&self) -> u64 {
        self.faults
    }
}

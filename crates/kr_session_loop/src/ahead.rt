//! Bytes that were read before they are asked for.

ghost use Rattle.std.specs.Prelude.{◌≡◌, ◌<◌, ◌≤◌, min, [], ◌++◌, true, false, take, drop, length, IfOk, OnOk, OnErr};
ghost use Rattle.std.specs.Io.KnownBytes.{Consumes, IsAtEnd, Keeps};
ghost use Rattle.kr_base.specs.Causes.{HasCause};

use kr_base::{Failed, NoMemory, Source, copy_front};
use std::alloc::Global;
use std::marker::Model;

/// For how many bytes there is room.
pub(crate) const ROOM: usize = 256;

/// Bytes that were read before they are asked for, in order.
#[derive(Drop)]
pub(crate) struct Ahead {
    room: Vec<u8>,
    // The place of the first one.
    start: usize,
    // The place behind the last.
    end: usize,
}

impl Model for Ahead {
    ghost use Rattle.std.specs.Prelude.{List, ℕ, ◌≡◌, ◌≤◌, slice_range, vec_len};
    ghost use Rattle.kr_session_loop.specs.declared.ahead.TheConstants.{ROOM};

    ghost Value = { List ℕ };

    ghost view = { λ a. slice_range a.room.items a.start a.end };

    ghost invariant = { λ a. (a.start ≤ a.end) × (a.end ≤ vec_len a.room) × (vec_len a.room ≡ ROOM) };
}

impl Ahead {
    /// No bytes.
    pub(crate) fn new(alloc: Global) -> Result<Ahead, NoMemory>
        ensures { IfOk result (λ ahead. ahead ≡ []) }
    {
        let room = vec![in alloc; 0; ROOM]?;
        Ok(Ahead {
            room,
            start: 0,
            end: 0,
        })
    }

    pub(crate) fn is_empty(&self) -> bool
        ensures none { result ≡ true → self.now ≡ [] }
        ensures some { result ≡ false → 0 < length self.now }
    {
        self.start == self.end
    }

    /// One read of so many bytes at most, where there are none.
    pub(crate) fn fill<S: Source>(&mut self, from: &mut S, most: usize) -> Result<(), Failed>
        requires { self.old ≡ [] }
        ensures read { OnOk result (Consumes (S.left from.old) (S.left from.new) self.new) }
        ensures end { OnOk result (0 < most → length self.new ≡ 0 → IsAtEnd (S.left from.new)) }
        ensures failed { OnErr result (Keeps (S.left from.old) (S.left from.new)) }
        ensures none { OnErr result (self.new ≡ []) }
        ensures cause { HasCause (S.faults from.old) (S.faults from.new) result }
    {
        self.start = 0;
        self.end = 0;
        let most = most.min(ROOM);
        let (front, _) = self.room.as_mut_slice().split_at_mut(most);
        self.end = from.read(front)?;
        Ok(())
    }

    // All of them.
    fn as_slice(&self) -> &[u8]
        ensures { result.now ≡ self.now }
    {
        &self.room.as_slice()[self.start..self.end]
    }

    // The first ones are handed on.
    fn advance(&mut self, count: usize)
        requires { count ≤ length self.old }
        ensures { self.new ≡ drop count self.old }
    {
        self.start += count;
    }

    /// Moves as many of them as there is room for to the front of `into`, and answers how many.
    pub(crate) fn hand(&mut self, into: &mut [u8]) -> usize
        ensures count { result ≡ min (length self.old) (length into.old) }
        ensures bound { result ≤ length into.new }
        ensures bytes { self.old ≡ take result into.new ++ self.new }
    {
        let count = copy_front(self.as_slice(), into);
        self.advance(count);
        count
    }
}

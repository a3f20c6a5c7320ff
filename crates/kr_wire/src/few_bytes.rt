//! A few bytes that are put at once.

ghost use Rattle.std.specs.Prelude.{◌≡◌, ◌+◌, ◌^◌, ◌<◌, ◌≤◌, [], ◌∷◌, ◌++◌, length, OnOk, OnErr};
ghost use Rattle.kr_wire.specs.Spelling.{groups, uvarint};

use std::alloc::AllocError;
use std::marker::Model;

/// A few bytes that are put at once: 24 at most.
#[derive(Drop)]
pub struct FewBytes {
    bytes: [u8; 24],
    // How many there are.
    len: usize,
}

impl Model for FewBytes {
    ghost use Rattle.std.specs.Prelude.{List, ℕ, ◌≤◌, take};

    ghost Value = { List ℕ };

    ghost view = { λ p. take p.len p.bytes };

    ghost invariant = { λ p. p.len ≤ 24 };
}

impl FewBytes {
    /// No bytes.
    #[inline(always)]
    pub fn new() -> FewBytes
        ensures { result ≡ [] }
    {
        FewBytes {
            bytes: [0; 24],
            len: 0,
        }
    }

    /// One byte more.
    #[inline(always)]
    pub fn push(&mut self, byte: u8)
        requires { length self.old < 24 }
        ensures { self.new ≡ self.old ++ byte ∷ [] }
    {
        self.bytes[self.len] = byte;
        self.len += 1;
    }

    /// A number in groups of seven bits, with room for so many before the last.
    #[inline(always)]
    pub(crate) fn push_groups(&mut self, value: u64, room: usize)
        requires few { room ≤ 9 }
        requires fits { value < 128 ^ (room + 1) }
        requires room { length self.old + room < 24 }
        ensures groups { self.new ≡ self.old ++ groups room value }
        ensures few { length self.new ≤ length self.old + room + 1 }
    {
        let mut rest = value;
        let mut left = room;
        while left > 0 && rest >= 128 {
            self.push(128 + (rest % 128) as u8);
            rest /= 128;
            left -= 1;
        }
        self.push(rest as u8);
    }

    /// A number in groups of seven bits, the low groups first, in the fewest bytes.
    #[inline(always)]
    #[tactic(auto, unfolding(crate::specs::Spelling::uvarint))]
    pub fn push_uvarint(&mut self, value: u32)
        requires { length self.old ≤ 19 }
        ensures number { self.new ≡ self.old ++ uvarint value }
        ensures few { length self.new ≤ length self.old + 5 }
    {
        self.push_groups(u64::from(value), 4);
    }

    /// Puts them at the end of others.
    #[inline(always)]
    pub fn put(&self, out: &mut Vec<u8>) -> Result<(), AllocError>
        ensures ok { OnOk result (out.new.items ≡ out.old.items ++ self.now) }
        ensures err { OnErr result (out.new.items ≡ out.old.items) }
    {
        out.extend_from_slice(&self.bytes[..self.len])
    }
}

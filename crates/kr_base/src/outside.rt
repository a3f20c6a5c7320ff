//! What is read from and what is written to.

ghost use Rattle.std.specs.Prelude.{◌≡◌, Option, List, ℕ, OnOk, OnErr};
ghost use Rattle.std.specs.Io.{ReadsAtMost};
ghost use Rattle.std.specs.Io.KnownBytes.{ReadConsumes, Appends};
ghost use Rattle.kr_base.specs.Causes.{HasCause};
ghost use Rattle.kr_base.specs.FailedPuts.{AppendsFront};

use crate::answers::Failed;

/// Bytes that come in, one piece after the other.
pub trait Source {
    /// The bytes that are left, where the source tells them.
    ghost left: { Self → Option (List ℕ) };

    /// How many reads have failed; the count stands still at the greatest u64.
    ghost faults: { Self → ℕ };

    /// Reads some bytes to the front of `into` and answers how many. None, where `into` has room, is the end of the
    /// input. A failed read takes nothing.
    fn read(&mut self, into: &mut [u8]) -> Result<usize, Failed>
        ensures bound { ReadsAtMost result into.new }
        ensures bytes { ReadConsumes (left self.old) (left self.new) result into.new }
        ensures cause { HasCause (faults self.old) (faults self.new) result };

    /// How many reads have failed.
    fn faults(&self) -> u64
        ensures { result ≡ faults self.now };
}

/// Where bytes go out, one piece after the other.
pub trait Sink {
    /// The bytes that were written, where the sink tells them.
    ghost written: { Self → Option (List ℕ) };

    /// How many puts have failed; the count stands still at the greatest u64.
    ghost faults: { Self → ℕ };

    /// Writes the whole piece, or fails after some front of it.
    fn put(&mut self, piece: &[u8]) -> Result<(), Failed>
        ensures ok { OnOk result (Appends (written self.old) (written self.new) piece.now) }
        ensures err { OnErr result (AppendsFront (written self.old) (written self.new) piece.now) }
        ensures cause { HasCause (faults self.old) (faults self.new) result };

    /// How many puts have failed.
    fn faults(&self) -> u64
        ensures { result ≡ faults self.now };
}

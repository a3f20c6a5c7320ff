//! Taking the bytes of a frame.

ghost use Rattle.std.specs.Prelude.{◌≡◌, ◌+◌, ◌≤◌, length, IfErr, OnOk};
ghost use Rattle.std.specs.Io.KnownBytes.{Consumes};
ghost use Rattle.kr_wire.specs.Laws.{IsBytes};
ghost use Rattle.kr_defs.specs.declared.limits.TheConstants.{MOST_SESSION_BYTES};
ghost use Rattle.kr_stream.specs.inner.Taken.{Short, shortage_fault};

use crate::StreamFault;
use kr_base::Source;
use kr_intake::Shortage;

/// Fills a slice with the bytes from `at` on, of a frame that begins at `start`. No more are taken than one stream may
/// have.
pub(crate) fn take<S: Source>(
    source: &mut S,
    into: &mut [u8],
    start: u64,
    at: u64,
) -> Result<(), StreamFault>
    requires { at ≤ MOST_SESSION_BYTES }
    ensures full { OnOk result (Consumes (S.left source.old) (S.left source.new) into.new) }
    ensures known { OnOk result (IsBytes into.new) }
    ensures room { OnOk result (at + length into.old ≤ MOST_SESSION_BYTES) }
    ensures short { IfErr result (λ fault. Short start at (length into.old) (S.left source.old) (S.left source.new) (S.faults source.old) (S.faults source.new) fault) }
    ensures later { S.faults source.old ≤ S.faults source.new }
{
    match kr_intake::take(source, into, at) {
        Err(shortage) => Err(shortage_fault(shortage, start)),
        Ok(()) => Ok(()),
    }
}

// What it means that too few bytes came of the frame that begins at `start`.
fn shortage_fault(shortage: Shortage, start: u64) -> StreamFault
    ensures { result ≡ shortage_fault start shortage }
{
    match shortage {
        Shortage::Ended { .. } => StreamFault::Malformed { at: start },
        Shortage::ReadFault => StreamFault::ReadFault,
        Shortage::TooLong => StreamFault::TooLong,
    }
}

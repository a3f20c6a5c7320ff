//! Bytes that a source gives, a piece at a time: there is never more room than for what has come.

ghost use Rattle.std.specs.Prelude.{◌≡◌, ◌+◌, ◌<◌, ◌≤◌, length, IfOk, IfErr, OnOk};
ghost use Rattle.std.specs.Io.KnownBytes.{IsAtEnd};
ghost use Rattle.kr_fold.specs.SourceBytes.{longest};
ghost use Rattle.kr_fold.specs.inner.SourceReads.{Grew, IsFilled, IsReadFault, IsShortage};

use crate::fault::ToolFault;
use kr_base::Source;
use kr_defs::limits::MOST_SESSION_BYTES;

// The most bytes of one read.
const PIECE: usize = 4096;

/// How far bytes were filled up.
#[derive(Clone, Copy, Debug, Drop, PartialEq, Eq)]
pub(crate) enum Filled {
    /// To as many as were asked for.
    Full,
    /// To the end of the input, which came before.
    Ended,
}

// One read, of at most so many bytes, which get behind the others. It answers how many came; none is the end of the
// input.
#[tactic(auto, using(crate::proofs::Pieces::grew_by))]
fn read_piece<S: Source>(
    source: &mut S,
    bytes: &mut Vec<u8>,
    most: usize,
) -> Result<usize, ToolFault>
    requires { 0 < most }
    ensures grew { OnOk result (Grew (S.left source.old) (S.left source.new) bytes.old.items bytes.new.items) }
    ensures count { IfOk result (λ count. length bytes.new.items ≡ length bytes.old.items + count) }
    ensures bound { IfOk result (λ count. count ≤ most) }
    ensures end { IfOk result (λ count. count ≡ 0 → IsAtEnd (S.left source.new)) }
    ensures fault { IfErr result (λ fault. IsReadFault (S.left source.old) (S.left source.new) (S.faults source.old) (S.faults source.new) bytes.old.items bytes.new.items most fault) }
    ensures later { S.faults source.old ≤ S.faults source.new }
{
    let mut piece = [0; PIECE];
    let (room, _) = piece.split_at_mut(most.min(PIECE));
    let count = match source.read(room) {
        Ok(count) => count,
        Err(_failed) => return Err(ToolFault::ReadFault),
    };
    let (come, _) = room.split_at(count);
    bytes.extend_from_slice(come)?;
    Ok(count)
}

// How many of so many bytes a log has room for, of which so many were taken.
fn room(len: usize, taken: u64) -> usize
    requires { taken ≤ longest }
    ensures within { result ≤ len }
    ensures fits { taken + result ≤ longest }
    ensures none { result ≡ 0 → 0 < len → taken ≡ longest }
{
    len.min((MOST_SESSION_BYTES - taken) as usize)
}

/// Fills bytes, which stand at the place `at` of the input, up to `len` of them. No more are taken than a log may have.
#[tactic(auto, using(crate::proofs::Pieces::grew_none, crate::proofs::Pieces::grew_more, crate::proofs::Pieces::stops))]
pub(crate) fn fill<S: Source>(
    source: &mut S,
    bytes: &mut Vec<u8>,
    len: usize,
    at: u64,
) -> Result<Filled, ToolFault>
    requires short { length bytes.old.items ≤ len }
    requires within { at + length bytes.old.items ≤ longest }
    ensures grew { OnOk result (Grew (S.left source.old) (S.left source.new) bytes.old.items bytes.new.items) }
    ensures filled { IfOk result (λ filled. IsFilled filled (S.left source.new) len (length bytes.new.items)) }
    ensures within { OnOk result (at + length bytes.new.items ≤ longest) }
    ensures ended { IfOk result (λ filled. filled ≡ Filled.Ended → at + length bytes.new.items < longest) }
    ensures fault { IfErr result (λ fault. IsShortage (S.left source.old) (S.left source.new) (S.faults source.old) (S.faults source.new) bytes.old.items bytes.new.items at len fault) }
    ensures later { S.faults source.old ≤ S.faults source.new }
{
    while bytes.len() < len {
        let most = room(len - bytes.len(), at + bytes.len() as u64);
        if most == 0 {
            return Err(ToolFault::TooLong);
        }
        let count = match read_piece(source, bytes, most) {
            Ok(count) => count,
            Err(fault) => return Err(fault),
        };
        if count == 0 {
            return Ok(Filled::Ended);
        }
    }
    Ok(Filled::Full)
}

//! The size and the kind of a frame.

ghost use Rattle.std.specs.Prelude.{◌≡◌, [], ◌∷◌, ◌+◌, ◌-◌, ◌<◌, ◌≤◌, Bool, true, false, length, IfOk, IfErr, IfSome, IfNone};
ghost use Rattle.std.specs.Int.{w32};
ghost use Rattle.kr_wire.specs.Grammar.{Exactly, IsNumber};
ghost use Rattle.kr_defs.specs.declared.limits.TheConstants.{MOST_SESSION_BYTES};
ghost use Rattle.kr_stream.specs.Kinds as kinds;
ghost use Rattle.kr_stream.specs.Reader.{Took, IsHead, IsAllowed, Stopped};
ghost use Rattle.kr_stream.specs.inner.Taken.{Short};

use crate::filling::take;
use crate::{FrameKind, StreamFault};
use kr_base::Source;

/// What stands before a body.
#[derive(Clone, Copy, Debug, Drop, PartialEq, Eq)]
pub(crate) struct Head {
    pub(crate) kind: FrameKind,
    pub(crate) len: usize,
}

/// The kind of a frame that begins at `at`, and the length of its body.
pub(crate) fn read_head<S: Source>(
    source: &mut S,
    opened: bool,
    at: u64,
) -> Result<Head, StreamFault>
    requires { at ≤ MOST_SESSION_BYTES }
    ensures head { IfOk result (λ h. Took (IsHead (h.len + 1) (kinds.number_of h.kind)) (S.left source.old) (S.left source.new) at (at + 5)) }
    ensures place { IfOk result (λ h. kinds.may_stand opened h.kind ≡ true) }
    ensures len { IfOk result (λ h. h.len ≤ kinds.longest_body h.kind) }
    ensures stopped { IfErr result (λ fault. Stopped opened at (S.left source.old) (S.left source.new) (S.faults source.old) (S.faults source.new) fault) }
    ensures later { S.faults source.old ≤ S.faults source.new }
{
    let size = match read_size(source, at) {
        Err(fault) => return Err(fault),
        Ok(size) => size,
    };
    match read_number(source, at) {
        Err(fault) => Err(fault),
        Ok(number) => match allowed_head(opened, number, size) {
            None => Err(StreamFault::Malformed { at }),
            Some(head) => Ok(head),
        },
    }
}

// The size of what follows it, at least 1.
fn read_size<S: Source>(source: &mut S, at: u64) -> Result<u32, StreamFault>
    requires { at ≤ MOST_SESSION_BYTES }
    ensures size { IfOk result (λ size. Took (IsNumber w32 size) (S.left source.old) (S.left source.new) at (at + 4)) }
    ensures some { IfOk result (λ size. 0 < size) }
    ensures stopped { (opened : Bool) → IfErr result (λ fault. Stopped opened at (S.left source.old) (S.left source.new) (S.faults source.old) (S.faults source.new) fault) }
    ensures later { S.faults source.old ≤ S.faults source.new }
{
    let mut bytes = [0; 4];
    match take(source, &mut bytes, at, at) {
        Err(fault) => Err(fault),
        Ok(()) => {
            let size = u32::from_be_bytes(bytes);
            if size == 0 {
                return Err(StreamFault::Malformed { at });
            }
            Ok(size)
        }
    }
}

// The number of the kind of a frame that begins at `at`.
fn read_number<S: Source>(source: &mut S, at: u64) -> Result<u8, StreamFault>
    requires { at + 4 ≤ MOST_SESSION_BYTES }
    ensures number { IfOk result (λ number. Took (Exactly (number ∷ [])) (S.left source.old) (S.left source.new) (at + 4) (at + 5)) }
    ensures short { IfErr result (λ fault. Short at (at + 4) 1 (S.left source.old) (S.left source.new) (S.faults source.old) (S.faults source.new) fault) }
    ensures later { S.faults source.old ≤ S.faults source.new }
{
    let mut bytes = [0; 1];
    match take(source, &mut bytes, at, at + 4) {
        Err(fault) => Err(fault),
        Ok(()) => Ok(bytes[0]),
    }
}

// The kind and the length of the body, where they may stand here.
fn allowed_head(opened: bool, number: u8, size: u32) -> Option<Head>
    requires { 0 < size }
    ensures len { IfSome result (λ h. size ≡ h.len + 1) }
    ensures kind { IfSome result (λ h. number ≡ kinds.number_of h.kind) }
    ensures place { IfSome result (λ h. kinds.may_stand opened h.kind ≡ true) }
    ensures longest { IfSome result (λ h. h.len ≤ kinds.longest_body h.kind) }
    ensures none { IfNone result (IsAllowed opened number (size - 1) → ⊥) }
{
    let len = size as usize - 1;
    match FrameKind::with_number(number) {
        Some(kind) if kind.may_stand(opened) && len <= kind.longest_body() => {
            Some(Head { kind, len })
        }
        _ => None,
    }
}

//! Taking bytes from a source.

ghost use Rattle.std.specs.Prelude.{◌≡◌, ◌+◌, ◌-◌, ◌<◌, ◌≤◌, take, drop, length, IfOk, IfErr, OnErr, OnOk};
ghost use Rattle.std.specs.Io.KnownBytes.{Consumes, IsAtEnd, Keeps};
ghost use Rattle.kr_wire.specs.Laws.{IsBytes};
ghost use Rattle.kr_base.specs.Causes.{HasCause};
ghost use Rattle.kr_defs.specs.declared.limits.TheConstants.{MOST_SESSION_BYTES};
ghost use Rattle.kr_intake.specs.Shortages.{FallsShort, IsShortOf, TakesFewer};

use kr_base::{Failed, Source};
use kr_defs::limits::MOST_SESSION_BYTES;

/// Why fewer bytes were taken than were asked for.
#[derive(Clone, Copy, Debug, Drop, PartialEq, Eq)]
pub enum Shortage {
    /// The input ended behind so many of them.
    Ended { count: usize },
    /// A read failed.
    ReadFault,
    /// A stream may have no more.
    TooLong,
}

// Reads until `into` is full or the input ends, and answers how many bytes were read. It never asks for more than there
// is room for.
fn fill<S: Source>(source: &mut S, into: &mut [u8]) -> Result<usize, Failed>
    ensures bound { IfOk result (λ count. count ≤ length into.new) }
    ensures bytes { IfOk result (λ count. Consumes (S.left source.old) (S.left source.new) (take count into.new)) }
    ensures short { IfOk result (λ count. count < length into.new → IsAtEnd (S.left source.new)) }
    ensures failed { OnErr result (TakesFewer (S.left source.old) (S.left source.new) (length into.old)) }
    ensures cause { HasCause (S.faults source.old) (S.faults source.new) result }
{
    let mut at = 0;
    while at < into.len() {
        let count = read_behind(source, into, at)?;
        if count == 0 {
            break;
        }
        at += count;
    }
    Ok(at)
}

// One read, into what is behind `at`.
fn read_behind<S: Source>(source: &mut S, into: &mut [u8], at: usize) -> Result<usize, Failed>
    requires { at < length into.old }
    ensures before { take at into.new ≡ take at into.old }
    ensures bound { IfOk result (λ count. at + count ≤ length into.new) }
    ensures bytes { IfOk result (λ count. Consumes (S.left source.old) (S.left source.new) (take count (drop at into.new))) }
    ensures end { IfOk result (λ count. count ≡ 0 → IsAtEnd (S.left source.new)) }
    ensures failed { OnErr result (Keeps (S.left source.old) (S.left source.new)) }
    ensures cause { HasCause (S.faults source.old) (S.faults source.new) result }
{
    let (_, rest) = into.split_at_mut(at);
    source.read(rest)
}

/// Fills a slice with the bytes of a stream from `at` on. No more are taken than one stream may have.
pub fn take<S: Source>(source: &mut S, into: &mut [u8], at: u64) -> Result<(), Shortage>
    requires { at ≤ MOST_SESSION_BYTES }
    ensures full { OnOk result (Consumes (S.left source.old) (S.left source.new) into.new) }
    ensures known { OnOk result (IsBytes into.new) }
    ensures room { OnOk result (at + length into.old ≤ MOST_SESSION_BYTES) }
    // Some bytes less were taken, and why.
    ensures short { IfErr result (λ shortage. FallsShort at (length into.old) (S.left source.old) (S.left source.new) (S.faults source.old) (S.faults source.new) shortage) }
    ensures later { S.faults source.old ≤ S.faults source.new }
{
    let len = into.len();
    let most = room(len, at);
    let (front, _) = into.split_at_mut(most);
    match fill(source, front) {
        Err(_) => Err(Shortage::ReadFault),
        Ok(count) => judge(count, most, len),
    }
}

// How many of so many bytes one stream has room for.
fn room(len: usize, at: u64) -> usize
    requires { at ≤ MOST_SESSION_BYTES }
    ensures within { result ≤ len }
    ensures fits { at + result ≤ MOST_SESSION_BYTES }
    ensures all { at + len ≤ MOST_SESSION_BYTES → result ≡ len }
    ensures short { result < len → at + result ≡ MOST_SESSION_BYTES }
{
    len.min((MOST_SESSION_BYTES - at) as usize)
}

// What it means that so many bytes came of so many that were asked for, out of so many that are needed.
fn judge(count: usize, most: usize, len: usize) -> Result<(), Shortage>
    requires read { count ≤ most }
    requires asked { most ≤ len }
    ensures ok { OnOk result ((count ≡ most) × (most ≡ len)) }
    ensures cause { IfErr result (λ shortage. IsShortOf count most len shortage) }
{
    if count < most {
        Err(Shortage::Ended { count })
    } else if most < len {
        Err(Shortage::TooLong)
    } else {
        Ok(())
    }
}

//! The call.

ghost use Rattle.std.specs.Prelude.{◌≡◌, ℕ, true, false, IfOk, IfErr, IsErrOf, ◌↔◌};
ghost use Rattle.kr_base.specs.Causes.{Rose, Still};
ghost use Rattle.kr_fold.specs.Endings.{RefusesBroken, RefusesLonger};
ghost use Rattle.kr_model.specs.World.{is_far};
ghost use Rattle.kr_wire.specs.Grammar.{Exactly};
ghost use Rattle.kr_leaders.specs.Endings.{BalanceEnds, BalancesWhole, IsBalanced, IsBalanceFault, RefusesPast};

use crate::controller::balanced_text;
use kr_base::{Sink, Source};
use kr_defs::limits::GREATEST_TIP;
use kr_fold::{ToolFault, take_image};
use law_balance::rounds_balance;
use std::alloc::Global;
use std::marker::Brand;
use std::sync::ledger::Blank;

fn is_far(place: i64) -> bool
    ensures { result ≡ is_far place }
{
    place > GREATEST_TIP
}

// The bytes of the balanced image of the one that all of the input is.
fn balance_input<S: Source>(alloc: Global, percent: u8, input: &mut S) -> Result<Vec<u8>, ToolFault>
    ensures text { IfOk result (λ text. IsBalanced percent (Exactly text.items) (S.left input.old)
        (S.left input.new)) }
    ensures fault { IfErr result
        (λ fault. IsBalanceFault (S.left input.old) (S.left input.new) fault) }
    ensures read { IsErrOf result ToolFault.ReadFault →
        Rose (S.faults input.old) (S.faults input.new) }
{
    rounds_balance();
    let image = match take_image(alloc, input) {
        Ok(image) => image,
        Err(fault) => return Err(fault),
    };
    if is_far(image.offset) {
        return Err(ToolFault::Malformed { at: 0 });
    }
    Ok(balanced_text::<Brand>(alloc, percent, image, Blank::new(1))?)
}

fn balance_image<S: Source, K: Sink>(
    alloc: Global,
    percent: u8,
    input: &mut S,
    output: &mut K,
) -> Result<(), ToolFault>
    ensures ends { BalanceEnds percent (S.left input.old) (S.left input.new)
        (K.written output.old) (K.written output.new) result }
    ensures read { IsErrOf result ToolFault.ReadFault →
        Rose (S.faults input.old) (S.faults input.new) }
    ensures write { IsErrOf result ToolFault.WriteFault →
        Rose (K.faults output.old) (K.faults output.new) }
{
    let text = match balance_input(alloc, percent, input) {
        Ok(text) => text,
        Err(fault) => return Err(fault),
    };
    match output.put(text.as_slice()) {
        Ok(()) => Ok(()),
        Err(_failed) => Err(ToolFault::WriteFault),
    }
}

/// Reads an image to the end of the input, makes one round of the balancer on it, with so many of a hundred, and writes the
/// image behind that, at the offset behind the records of the round. Nothing is written before all of the input is read and
/// the round is made, and that by one put.
///
/// It answers Malformed where `dump` of an image does, and at 0 for an image whose offset is above 2,305,843,009,213,693,952,
/// behind which no leader begins; ReadFault or WriteFault where a read or the write failed; NoMemory where memory ran out.
pub fn balance<S: Source, K: Sink>(
    alloc: Global,
    percent: u8,
    input: &mut S,
    output: &mut K,
) -> Result<(), ToolFault>
    // What was taken and what was written at each answer.
    ensures ends { BalanceEnds percent (S.left input.old) (S.left input.new)
        (K.written output.old) (K.written output.new) result }
    // A fault is told only where that object's count rose in this call.
    ensures read { IsErrOf result ToolFault.ReadFault →
        Rose (S.faults input.old) (S.faults input.new) }
    ensures write { IsErrOf result ToolFault.WriteFault →
        Rose (K.faults output.old) (K.faults output.new) }
    // Where no read and no write failed: an image is balanced, unless it is past the last place; a broken one is refused at
    // that batch, and a longer one at its limit.
    ensures complete { Still (S.faults input.old) (S.faults input.new) →
        Still (K.faults output.old) (K.faults output.new) →
        BalancesWhole (S.left input.old) result }
    ensures past { Still (S.faults input.old) (S.faults input.new) →
        Still (K.faults output.old) (K.faults output.new) →
        RefusesPast (S.left input.old) result }
    ensures broken { Still (S.faults input.old) (S.faults input.new) →
        Still (K.faults output.old) (K.faults output.new) →
        RefusesBroken (S.left input.old) result }
    ensures longer { Still (S.faults input.old) (S.faults input.new) →
        Still (K.faults output.old) (K.faults output.new) →
        RefusesLonger (S.left input.old) result }
{
    balance_image(alloc, percent, input, output)
}

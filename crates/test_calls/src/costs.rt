//! What going back and forgetting cost on a timeline of a thousand keys: the counter of steps has no value when a program runs,
//! so what is claimed of it are the clauses of these functions.

ghost use Rattle.std.specs.Prelude.{◌≡◌, ◌≤◌, ◌+◌, ◌<◌, IfOk, OnOk};
ghost use Rattle.test_calls.specs.FilledMaps.{HoldsThousand};

use kr_base::{NoMemory, Steps};
use kr_timeline::Timeline;
use std::alloc::Global;
use std::marker::Brand;
use std::process::Abort;
use std::sync::ledger::{Blank, Ledger};

const KEYS: u64 = 1_000;

// Gives each of a thousand keys a value.
#[tactic(auto, unfolding(kr_defs::specs::KeptMaps::inserted))]
fn fill(timeline: &mut Timeline<u128, i32>) -> Result<(), NoMemory>
    ensures kept { timeline.new.maps.kept ≡ timeline.old.maps.kept }
    ensures made { timeline.new.maps.made ≤ timeline.old.maps.made + 1000 }
{
    for key in 0..KEYS {
        timeline.insert(key as u128, 1)?;
    }
    Ok(())
}

// A thousand keys between two kept epochs.
#[tactic(auto, using(crate::proofs::FilledMaps::above_one, crate::proofs::FilledMaps::is_filled))]
fn filled_timeline(alloc: Global) -> Result<Timeline<u128, i32>, NoMemory>
    ensures { IfOk result (λ timeline. HoldsThousand timeline.maps) }
{
    let mut timeline = Timeline::new(alloc);
    timeline.mark(0)?;
    fill(&mut timeline)?;
    timeline.mark(1)?;
    Ok(timeline)
}

// One key changes, and the change is undone: at most two steps.
#[tactic(auto, using(crate::proofs::FilledMaps::filled_again))]
fn undo_one<L: Ledger>(
    timeline: &mut Timeline<u128, i32>,
    steps: &mut Steps<L>,
) -> Result<(), NoMemory>
    requires { HoldsThousand timeline.old.maps }
    ensures filled { OnOk result (HoldsThousand timeline.new.maps) }
    ensures cost { steps.new ≤ steps.old + 2 }
{
    timeline.insert(7, 2)?;
    timeline.revert(1, steps).unwrap();
    Ok(())
}

// One key changes, and what was before is forgotten: at most 1,004 steps.
fn forget_all<L: Ledger>(
    timeline: &mut Timeline<u128, i32>,
    steps: &mut Steps<L>,
) -> Result<(), NoMemory>
    requires { HoldsThousand timeline.old.maps }
    ensures cost { steps.new ≤ steps.old + 1004 }
{
    timeline.insert(7, 3)?;
    timeline.mark(2)?;
    timeline.forget_below(2, steps);
    Ok(())
}

fn costs<L: Ledger>(rt: &impl Abort, alloc: Global, blank: Blank) -> Result<(), NoMemory>
    requires name { blank.name ≡ L.name }
    requires parts { blank.parts ≡ L.parts }
    requires some { 0 < L.parts }
{
    let mut steps: Steps<L> = Steps::new(blank);
    let mut timeline = filled_timeline(alloc)?;
    undo_one(&mut timeline, &mut steps)?;
    assert!(rt; timeline.get(&7) == Some(&1) && timeline.epochs() == 2);
    forget_all(&mut timeline, &mut steps)?;
    assert!(rt; timeline.get(&7) == Some(&3) && timeline.epochs() == 1);
    assert!(rt; timeline.get_at(2, &999) == Ok(Some(&1)));
    Ok(())
}

#[test]
fn revert_and_forget_cost(rt: HostRuntime) -> Result<(), NoMemory> {
    costs::<Brand>(&rt, rt.alloc(), Blank::new(1))
}

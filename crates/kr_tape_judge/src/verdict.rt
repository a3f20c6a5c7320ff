//! Which line of a tape is the first that isn't allowed.

ghost use Rattle.std.specs.Prelude.{◌≡◌, ◌<◌, IfOk, OnOk, replicate};
ghost use Rattle.std.specs.Option.{option_map};
ghost use Rattle.law_link.specs.Links.{no_web};
ghost use Rattle.law_tape.specs.Rules.{first_refused, known_fault, line_fault, new_side, node_told, state_after, tape_begins};
ghost use Rattle.law_tape.specs.Tapes.{IsVerdict};

use crate::seat::Seat;
use crate::store::TapeStore;
use kr_base::NoMemory;
use law_tape::{Fault, Image, Line};
use std::alloc::{AllocError, Global};
use std::marker::Model;

/// How many nodes a tape may tell of.
const NODES: usize = 256;

/// A line that isn't allowed.
#[derive(Drop)]
pub struct RefusedLine {
    /// Its number, from 0 on.
    pub line: usize,
    /// Why it isn't.
    pub fault: Fault,
}

/// What the lines so far show.
#[derive(Drop)]
struct TapeView {
    store: TapeStore,
    seats: Vec<Seat>,
}

impl Model for TapeView {
    ghost use Rattle.std.specs.Prelude.{◌≡◌, length};
    ghost use Rattle.law_tape.specs.Rules.{TapeState};

    ghost Value = { TapeState };

    ghost view = { λ t. record { store = t.store; sides = t.seats.items } };

    ghost invariant = { λ t. length t.seats.items ≡ 256 };
}

impl TapeView {
    fn new(alloc: Global) -> Result<TapeView, AllocError>
        ensures { IfOk result (λ tape. tape ≡ tape_begins) }
    {
        Ok(TapeView {
            store: TapeStore::new(alloc),
            seats: new_seats(alloc)?,
        })
    }

    fn fault(&self, folds: &[Image], line: &Line) -> Option<Fault>
        ensures { result ≡ line_fault folds.now self.now line.now }
    {
        if !(line.node() < NODES) {
            Some(Fault::NoNode)
        } else {
            self.known_fault(folds, line)
        }
    }

    // Of a node that there is.
    fn known_fault(&self, folds: &[Image], line: &Line) -> Option<Fault>
        requires { node_told line.now < 256 }
        ensures { result ≡ known_fault folds.now self.now line.now }
    {
        match line {
            Line::Store { seen, change } => self
                .store
                .fault(self.seats[change.node()].link(), seen, change),
            Line::Link { node, act } => self.seats[*node].fault(folds, &self.store, *node, act),
        }
    }

    fn take(&mut self, alloc: Global, line: &Line) -> Result<(), AllocError>
        requires { node_told line.now < 256 }
        ensures { OnOk result (self.new ≡ state_after self.old line.now) }
    {
        match line {
            Line::Store { seen, change } => self.store.take(seen, change),
            Line::Link { node, act } => self.seats[*node].take(alloc, act),
        }
    }
}

fn new_seats(alloc: Global) -> Result<Vec<Seat>, AllocError>
    ensures { IfOk result (λ seats. seats.items ≡ replicate 256 new_side) }
{
    let mut seats = Vec::new(alloc);
    for _node in 0..NODES {
        seats.push(Seat::new(alloc))?;
    }
    Ok(seats)
}

/// The first line that isn't allowed, and why; none where each is. The folds are the images that the log's beginnings give.
#[tactic(auto, using(crate::proofs::Verdicts::verdicts))]
pub fn judge(
    alloc: Global,
    folds: &[Image],
    lines: &[Line],
) -> Result<Option<RefusedLine>, NoMemory>
    ensures first { IfOk result (λ answer. IsVerdict folds.now no_web lines.now
        (option_map (λ refusal. refusal.line) answer)) }
    ensures why { IfOk result (λ answer. option_map (λ it. (it.line, it.fault)) answer
        ≡ first_refused folds.now 0 tape_begins lines.now) }
{
    let refusal = first_refusal(alloc, folds, lines)?;
    Ok(refusal)
}

#[tactic(auto, using(crate::proofs::Verdicts::nodes))]
fn first_refusal(
    alloc: Global,
    folds: &[Image],
    lines: &[Line],
) -> Result<Option<RefusedLine>, NoMemory>
    ensures { IfOk result (λ answer. option_map (λ it. (it.line, it.fault)) answer
        ≡ first_refused folds.now 0 tape_begins lines.now) }
{
    let mut tape = TapeView::new(alloc)?;
    for (at, line) in lines.iter().enumerate() {
        if let Some(fault) = tape.fault(folds, line) {
            return Ok(Some(RefusedLine { line: at, fault }));
        }
        tape.take(alloc, line)?;
    }
    Ok(None)
}

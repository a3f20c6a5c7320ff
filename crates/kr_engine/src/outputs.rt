//! Outputs are handed out, one after the other.

ghost use Rattle.std.specs.Prelude.{◌≡◌, ◌++◌, ◌∷◌, [], option_to_list, filter, not, false, None, IsTrue, IfNone, List};
ghost use Rattle.kr_model.specs.declared.writes.Write.{Write as AnyWrite};
ghost use Rattle.kr_model.specs.Engine.{Hands, IsSound, HandsTold, output_of, writes_in_order};
ghost use Rattle.kr_model.specs.Outputs as outputs;

use crate::Engine;
use crate::writes::{is_open, told_alone, told_reply};
use kr_calls::Output;
use kr_model::{Told, Write};
use std::collections::VecDeque;

// The first write waits no more.
fn is_first_due(leading: &Option<i32>, end: &i64, held: &VecDeque<Write>) -> bool
    ensures some { (write : AnyWrite) (rest : List AnyWrite) → held.now.items ≡ write ∷ rest → result ≡ not (outputs.is_open leading.now end.now write) }
    ensures none { held.now.items ≡ [] → result ≡ false }
{
    match held.front() {
        Some(write) => !is_open(leading, end, write),
        None => false,
    }
}

// The first write's reply, where it waits no more, and how the write ended.
#[tactic(auto, using(kr_model::proofs::Queues::not_due, kr_model::proofs::Queues::due, kr_model::proofs::Queues::still_waits, kr_model::proofs::Queues::still_ordered))]
fn next_due(leading: &Option<i32>, end: &i64, held: &mut VecDeque<Write>) -> Option<Told>
    requires ordered { IsTrue (writes_in_order held.old.items) }
    ensures in_order { outputs.told_answers leading.now end.now held.old.items ≡ option_to_list result ++ outputs.told_answers leading.now end.now held.new.items }
    ensures none { IfNone result (outputs.told_answers leading.now end.now held.new.items ≡ []) }
    ensures waits { filter (outputs.is_open leading.now end.now) held.new.items ≡ filter (outputs.is_open leading.now end.now) held.old.items }
    ensures ordered { IsTrue (writes_in_order held.new.items) }
{
    if !is_first_due(leading, end, held) {
        return None;
    }
    match held.pop_front() {
        Some(write) => Some(told_reply(end, write)),
        None => None,
    }
}

impl Engine {
    fn next_given(&mut self) -> Option<Output>
        ensures in_order { self.old.given ≡ option_to_list result ++ self.new.given }
        ensures none { IfNone result (self.new.given ≡ []) }
        ensures same { self.new ≡ record self.old { given = self.new.given } }
    {
        self.given.pop_front()
    }

    fn next_refusal(&mut self) -> Option<Output>
        ensures value { result ≡ self.old.refusal }
        ensures same { self.new ≡ record self.old { refusal = None } }
    {
        self.refusal.take()
    }

    fn next_answer(&mut self) -> Option<Told>
        requires ordered { IsTrue (writes_in_order self.old.held) }
        ensures in_order { outputs.told_answers self.old.leading self.old.closed self.old.held ≡ option_to_list result ++ outputs.told_answers self.old.leading self.old.closed self.new.held }
        ensures none { IfNone result (outputs.told_answers self.old.leading self.old.closed self.new.held ≡ []) }
        ensures waits { filter (outputs.is_open self.old.leading self.old.closed) self.new.held ≡ filter (outputs.is_open self.old.leading self.old.closed) self.old.held }
        ensures ordered { IsTrue (writes_in_order self.new.held) }
        ensures same { self.new ≡ record self.old { held = self.new.held } }
    {
        next_due(&self.leading, &self.closed, &mut self.held)
    }

    /// The next output of the last event, as `next_output` hands it out, and with the reply of a write that waited how that
    /// write ended, and where and on what it was decided. It takes no memory.
    #[tactic(auto, using(kr_model::proofs::OutputsLeft::handing))]
    pub fn next_told(&mut self) -> Option<Told>
        requires { IsTrue (writes_in_order self.old.held) }
        ensures hands { Hands self.old self.new (output_of result) }
        ensures tells { HandsTold self.old self.new result }
        ensures sound { IsSound self.old → IsSound self.new }
    {
        if let Some(output) = self.next_given() {
            return Some(told_alone(output));
        }
        if let Some(output) = self.next_refusal() {
            return Some(told_alone(output));
        }
        self.next_answer()
    }

    /// The next output of the last event, in order; none where all are handed out. It takes no memory.
    pub fn next_output(&mut self) -> Option<Output>
        requires { IsTrue (writes_in_order self.old.held) }
        ensures hands { Hands self.old self.new result }
        ensures sound { IsSound self.old → IsSound self.new }
    {
        match self.next_told() {
            Some(Told { output, .. }) => Some(output),
            None => None,
        }
    }
}

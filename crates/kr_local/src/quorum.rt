//! A quorum of this process alone.

ghost use Rattle.std.specs.Prelude.{◌≡◌, ◌∷◌, [], ◌↔◌, drop, IfOk, IfSome, IsOk, IsSome, MatchOption, OnOk};
ghost use Rattle.kr_base.specs.Causes.{HasCause};
ghost use Rattle.kr_local.specs.Appends.{IsInLog, after_taking, commit_of, due_after, heading_taken, opened};
ghost use Rattle.kr_local.specs.Plans.{after_append};

use crate::plan::Plan;
use kr_base::{Failed, NoMemory, Quorum};
use kr_batch::{Heading, head};
use kr_calls::Event;
use std::alloc::Global;
use std::collections::VecDeque;
use std::marker::Model;

/// A quorum that takes a leader's batches and commits them by a script, in the place of one that keeps a log. It reads the
/// heading of a batch alone, and keeps none.
#[derive(Drop)]
pub struct LocalQuorum {
    // What is done at each append.
    plan: Plan,
    // The events that wait to be taken.
    due: VecDeque<Event>,
    // The numbers of the appends that fail, counted from 1.
    failing: Vec<u64>,
    // How many appends there were.
    calls: u64,
    // How many of them failed.
    faults: u64,
}

impl Model for LocalQuorum {
    ghost use Rattle.std.specs.Prelude.{◌≡◌, ◌+◌, ◌<◌, ◌≤◌, [], length, true};
    ghost use Rattle.std.specs.VecDeque.{deque_capacity};
    ghost use Rattle.kr_local.specs.Appends.{Local};

    ghost Value = { Local };

    ghost view = { λ s. record { left = s.plan; due = s.due.items; failing = s.failing.items; calls = s.calls; faults = s.faults } };

    ghost invariant = { λ s. (length s.plan.waits + length s.due.items ≤ deque_capacity s.due) × (0 < deque_capacity s.due) × (s.plan.always ≡ true → s.plan.waits ≡ []) };
}

impl LocalQuorum {
    /// A quorum to which nothing was appended. `script` has for each commit, in order, how many further appends are to
    /// succeed before it is due, where 0 counts as 1; an empty one has a commit after every append. `failing` has the numbers
    /// of the appends that are to fail; the first has number 1.
    pub fn new(alloc: Global, script: Vec<u64>, failing: Vec<u64>) -> Result<LocalQuorum, NoMemory>
        ensures { IfOk result (λ quorum. quorum ≡ opened script.items failing.items) }
    {
        let due = VecDeque::with_capacity(alloc, script.len().max(1))?;
        Ok(LocalQuorum {
            plan: Plan::new(script),
            due,
            failing,
            calls: 0,
            faults: 0,
        })
    }

    /// The commit that came due first and wasn't given yet. It takes no memory.
    pub fn next_event(&mut self) -> Option<Event>
        ensures event { MatchOption result (self.old.due ≡ []) (λ event. self.old.due ≡ event ∷ self.new.due) }
        ensures rest { self.new ≡ record self.old { due = drop 1 self.old.due } }
    {
        self.due.pop_front()
    }

    // The heading of the batch, where the next append takes it.
    fn heading_taken(&self, bytes: &[u8]) -> Option<Heading>
        ensures taken { result ≡ heading_taken self.now bytes.now }
        ensures in_log { IfSome result IsInLog }
    {
        let number = self.calls.saturating_add(1);
        if self.failing.contains(&number) {
            return None;
        }
        head(bytes)
    }

    // The batch was appended.
    fn count(&mut self, heading: &Heading)
        requires { IsInLog heading.now }
        ensures { self.new ≡ record self.old {
          left = after_append self.old.left;
          due = due_after self.old heading.now;
        } }
    {
        if !self.plan.count() {
            return;
        }
        if self.plan.is_always() {
            self.due.clear();
        }
        self.due.push_back_reserved(commit(heading));
    }
}

// The commit of the log up to the end of the batch.
fn commit(heading: &Heading) -> Event
    requires { IsInLog heading.now }
    ensures { result ≡ commit_of heading.now }
{
    Event::Commit {
        epoch: heading.epoch,
        end: heading.base + i64::from(heading.count),
    }
}

impl Quorum for LocalQuorum {
    ghost use Rattle.std.specs.Prelude.{None};

    ghost pieces = { λ _. None };

    ghost faults = { λ s. s.faults };

    /// Takes the batch. It fails exactly where the call's number is listed, or where the bytes have no heading
    /// (`kr_batch::head`). It takes no memory.
    fn append(&mut self, bytes: &[u8]) -> Result<(), Failed>
        ensures cause { HasCause self.old.faults self.new.faults result }
        ensures still { OnOk result (self.new.faults ≡ self.old.faults) }
        ensures fails { IsOk result ↔ IsSome (heading_taken self.old bytes.now) }
        ensures state { self.new ≡ after_taking self.old (heading_taken self.old bytes.now) }
    {
        let taken = self.heading_taken(bytes);
        self.calls = self.calls.saturating_add(1);
        match taken {
            Some(heading) => {
                self.count(&heading);
                Ok(())
            }
            None => {
                self.faults = self.faults.saturating_add(1);
                Err(Failed)
            }
        }
    }

    fn faults(&self) -> u64 {
        self.faults
    }
}

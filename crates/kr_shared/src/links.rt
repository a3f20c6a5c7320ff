//! The seat of the host's link.

ghost use Rattle.std.specs.Prelude.{◌≡◌, ◌++◌, ◌∷◌, [], IfErr, OnOk, OnErr, IsTrue};
ghost use Rattle.std.specs.Arc.{arc_value};
ghost use Rattle.kr_queue.specs.declared.jobs.Job.TheVariants as jobs;
ghost use Rattle.kr_queue.specs.declared.passes.Role.TheVariants as roles;
ghost use Rattle.kr_calls.specs.LinkEvents.{is_link_event};
ghost use Rattle.kr_queue.specs.Passes.{view, IsPassOf};
ghost use Rattle.kr_queue.specs.QueueRule.{a_pass};

use crate::bell::Bell;
use kr_base::NoMemory;
use kr_calls::Event;
use kr_queue::{Job, Pass, Queue};
use std::alloc::Global;
use std::marker::Model;
use std::sync::{Arc, Wait};

/// What pushes the quorum's events, and the stops. A clause sees what it pushed so far.
#[derive(Drop)]
pub struct LinkSeat {
    // Where events and stops are pushed.
    queue: Arc<Queue, Global>,
    // The right to push them.
    pass: Pass,
    // Rung at each push, for the worker.
    bell: Arc<Bell, Global>,
}

impl Model for LinkSeat {
    ghost use Rattle.std.specs.Prelude.{List};
    ghost use Rattle.kr_queue.specs.declared.jobs.Job.{Job};

    ghost Value = { List Job };

    ghost use Rattle.kr_shared.specs.LinkFields.{pushed_by, IsLink};

    ghost view = { pushed_by };

    ghost invariant = { IsLink };
}

impl LinkSeat {
    pub(crate) fn new(queue: Arc<Queue, Global>, pass: Pass, bell: Arc<Bell, Global>) -> LinkSeat
        requires pass { IsPassOf (arc_value queue) pass }
        requires new { view pass ≡ a_pass roles.Link 0 }
        ensures { result ≡ [] }
    {
        LinkSeat { queue, pass, bell }
    }

    /// Pushes an event, which is neither a request nor a question for the image. It comes back where there is no memory for
    /// it.
    pub fn push<R: Wait>(&mut self, rt: &R, event: Event) -> Result<(), (NoMemory, Event)>
        requires { IsTrue (is_link_event event) }
        ensures ok { OnOk result (self.new ≡ self.old ++ jobs.Link event ∷ []) }
        ensures err { IfErr result (λ refused. (refused.1 ≡ event) × (self.new ≡ self.old)) }
    {
        let pushed = self.queue.push(rt, &mut self.pass, Job::Link { event });
        self.bell.ring(rt);
        match pushed {
            Ok(()) => Ok(()),
            Err((fault, Job::Link { event })) => Err((fault, event)),
            Err(_) => unreachable!(),
        }
    }

    /// Pushes a stop. The worker ends at it, and what is asked after it is answered by its number.
    pub fn stop<R: Wait>(&mut self, rt: &R, number: u64) -> Result<(), NoMemory>
        ensures ok { OnOk result (self.new ≡ self.old ++ jobs.Stop number ∷ []) }
        ensures err { OnErr result (self.new ≡ self.old) }
    {
        let pushed = self.queue.push(rt, &mut self.pass, Job::Stop { number });
        self.bell.ring(rt);
        match pushed {
            Ok(()) => Ok(()),
            Err(_) => Err(NoMemory),
        }
    }
}

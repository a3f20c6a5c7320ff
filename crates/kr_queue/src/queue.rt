//! The queue: any number of pushers, one worker, and no bound.

ghost use Rattle.std.specs.Prelude.{◌≡◌, ℕ, ◌+◌, ◌<◌, [], length, IfOk, OnOk, OnErr, IfErr, IfNone, IfSome, IsTrue};
ghost use Rattle.std.specs.Arc.{arc_value};
ghost use Rattle.kr_queue.specs.declared.passes.Role.TheVariants.{Worker, Link, Client};
ghost use Rattle.kr_queue.specs.Jobs.{may_push};
ghost use Rattle.kr_queue.specs.QueueRule.{a_pass, next, after_next};
ghost use Rattle.kr_queue.specs.Steps.{IsPush, IsPop, Holds};
ghost use Rattle.kr_queue.specs.Passes.{view, IsPassOf, AreClients};

use crate::jobs::Job;
use crate::passes::{ClientPasses, Pass, Passes, View};
use crate::rule::{NextRole, Popped, Pushed, QueueRule};
use crossbeam_queue::RuledSegQueue;
use kr_base::NoMemory;
use std::alloc::Global;
use std::sync::{Arc, Wait};

/// Jobs in the order in which they were pushed.
pub struct Queue {
    // The queue itself, with the rule on what each pass may do.
    ruled: RuledSegQueue<Job, View, QueueRule>,
}

impl Drop for Queue {
    fn drop(self) {
        let Queue { ruled } = self;
        ruled.destroy();
    }
}

// An empty queue with the worker's pass.
fn new_queue(alloc: Global) -> Result<(Queue, Pass), NoMemory>
    ensures { IfOk result (λ q. IsPassOf q.0 q.1 × (view q.1 ≡ a_pass Worker 1)) }
{
    let (ruled, seat) = RuledSegQueue::with_rule(alloc)?;
    Ok((Queue { ruled }, Pass { seat }))
}

// The pass of the next role.
#[tactic(auto, using(crate::proofs::RuleSteps::forks))]
fn next_pass(queue: &Queue, worker: &mut Pass) -> Pass
    requires pass { IsPassOf queue.now worker.old }
    requires role { (view worker.old).role ≡ Worker }
    ensures passes { IsPassOf queue.now worker.new × IsPassOf queue.now result }
    ensures worker { view worker.new ≡ after_next (view worker.old) }
    ensures next { view result ≡ next (view worker.old) }
{
    let seat = queue.ruled.another::<NextRole>(&mut worker.seat);
    Pass { seat }
}

// The passes of so many clients.
#[tactic(auto, using(crate::proofs::Clients::one_more))]
fn client_passes(
    alloc: Global,
    queue: &Queue,
    worker: &mut Pass,
    clients: u32,
) -> Result<ClientPasses, NoMemory>
    requires pass { IsPassOf queue.now worker.old }
    requires first { view worker.old ≡ a_pass Worker 2 }
    ensures pass { OnOk result (IsPassOf queue.now worker.new) }
    ensures worker { OnOk result (view worker.new ≡ a_pass Worker (clients + 2)) }
    ensures clients { IfOk result (λ passes. (length passes ≡ clients) × AreClients queue.now passes) }
{
    let mut passes = ClientPasses::new(alloc);
    for _ in 0..clients {
        passes.push(next_pass(queue, worker))?;
    }
    Ok(passes)
}

/// An empty queue, with the pass of its worker, the pass of its link and those of so many clients, of seats 1, 2 and so on.
pub fn open(alloc: Global, clients: u32) -> Result<(Arc<Queue, Global>, Passes), NoMemory>
    ensures worker { IfOk result (λ r. IsPassOf (arc_value r.0) r.1.worker × (view r.1.worker ≡ a_pass Worker (clients + 2))) }
    ensures link { IfOk result (λ r. IsPassOf (arc_value r.0) r.1.link × (view r.1.link ≡ a_pass Link 0)) }
    ensures clients { IfOk result (λ r. (length r.1.clients ≡ clients) × AreClients (arc_value r.0) r.1.clients) }
{
    let (queue, mut worker) = new_queue(alloc)?;
    let link = next_pass(&queue, &mut worker);
    let clients = client_passes(alloc, &queue, &mut worker, clients)?;
    let queue = Arc::new(alloc, queue)?;
    Ok((
        queue,
        Passes {
            worker,
            link,
            clients,
        },
    ))
}

impl Queue {
    /// Adds the job behind all that the queue holds. It comes back where there is no memory for it, and the queue takes
    /// no more than nearly 2^62 jobs. The pass is of this queue, and the job is one that its user may push.
    pub fn push<R: Wait>(&self, rt: &R, pass: &mut Pass, job: Job) -> Result<(), (NoMemory, Job)>
        requires pass { IsPassOf self.now pass.old }
        requires job { IsTrue (may_push (view pass.old).role job) }
        ensures pass { IsPassOf self.now pass.new }
        ensures ok { OnOk result (IsPush (view pass.old) job (view pass.new)) }
        ensures err { IfErr result (λ refused. (refused.1 ≡ job) × (view pass.new ≡ view pass.old)) }
    {
        match self.ruled.push_as::<Pushed, R>(rt, &mut pass.seat, job) {
            Ok(()) => Ok(()),
            Err(job) => Err((NoMemory, job)),
        }
    }

    /// Takes the job before all others that the queue holds; `None` only where it held none. The pass is the worker's.
    pub fn pop<R: Wait>(&self, rt: &R, pass: &mut Pass) -> Option<Job>
        requires pass { IsPassOf self.now pass.old }
        requires role { (view pass.old).role ≡ Worker }
        ensures pass { IsPassOf self.now pass.new }
        ensures some { IfSome result (λ job. IsPop (view pass.old) job (view pass.new)) }
        ensures none { IfNone result ((view pass.new ≡ view pass.old) × Holds (view pass.old) []) }
    {
        self.ruled.pop_as::<Popped, R>(rt, &mut pass.seat)
    }
}

//! Who leads the controller through the session.

ghost use Rattle.std.specs.Prelude.{◌≡◌, ◌≤◌, IfOk, IsTrue, OnOk};
ghost use Rattle.kr_defs.specs.OpenOptions.{are_options};
ghost use Rattle.kr_workload.specs.Session as session;
ghost use Rattle.kr_workload.specs.inner.Standing.{Goes, IsIdle, MayGo, HasMade};

use crate::chances::{Chances, draw_round};
use crate::taking::take;
use crate::tally::{Tally, no_tally};
use kr_base::{NoMemory, Steps};
use kr_calls::{Ask, Call, Event, Request};
use kr_defs::{Options, Text};
use kr_engine::Engine;
use std::alloc::Global;
use std::sync::ledger::Ledger;

/// A controller, how much of the session was made, and what came of it.
pub(crate) struct Host {
    pub(crate) alloc: Global,
    pub(crate) engine: Engine,
    pub(crate) requests: u32,
    pub(crate) epoch: u32,
    pub(crate) drawn: u64,
    pub(crate) tally: Tally,
}

impl Drop for Host {
    fn drop(self) {
        let Host {
            alloc,
            engine,
            requests,
            epoch,
            drawn,
            tally,
        } = self;
    }
}

/// The controller's options in the session of a number.
pub fn options(alloc: Global, seed: u32) -> Result<Options, NoMemory>
    ensures options { IfOk result (λ o. o ≡ session.options seed) }
    ensures fits { IfOk result (λ o. IsTrue (are_options o)) }
{
    Ok(Options {
        node: 1,
        salt: u64::from(seed),
        session_ms: 9000,
        partitions: 1,
        factor: 3,
        minimum: 2,
        cluster: Text::from_str(alloc, "make")?,
    })
}

fn request_event(number: u32, request: Request) -> Event
    requires { number ≤ 2000000000 }
    ensures { result ≡ session.request_event number request }
{
    Event::Request {
        client: 1,
        now: 0,
        ask: Ask::Call(Call {
            correlation: number as i32,
            request,
        }),
    }
}

impl Host {
    /// Nothing has happened.
    pub(crate) fn new(alloc: Global, seed: u32) -> Result<Host, NoMemory>
        ensures stands { IfOk result (λ host. HasMade seed (session.nothing_made seed) host) }
        ensures ready { IfOk result (λ host. IsIdle host.engine) }
        ensures requests { IfOk result (λ host. host.requests ≡ 0) }
        ensures epoch { IfOk result (λ host. host.epoch ≡ 0) }
    {
        let options = options(alloc, seed)?;
        let engine = Engine::new(alloc, options)?;
        Ok(Host {
            alloc,
            engine,
            requests: 0,
            epoch: 0,
            drawn: u64::from(seed),
            tally: no_tally(),
        })
    }

    /// A client's request comes.
    pub(crate) fn ask<L: Ledger>(
        &mut self,
        request: Request,
        steps: &mut Steps<L>,
    ) -> Result<(), NoMemory>
        requires { MayGo self.old 1 0 }
        ensures { OnOk result (Goes self.old self.new (λ seed made. session.ask made request) 1 0) }
    {
        self.requests += 1;
        let event = request_event(self.requests, request);
        take(&mut self.engine, &mut self.tally, &event, steps)
    }

    /// All that was appended is committed.
    pub(crate) fn commit<L: Ledger>(&mut self, steps: &mut Steps<L>) -> Result<(), NoMemory>
        requires { MayGo self.old 0 0 }
        ensures { OnOk result (Goes self.old self.new session.commit_all 0 0) }
    {
        let event = Event::Commit {
            epoch: self.epoch as i32,
            end: self.engine.tip(),
        };
        take(&mut self.engine, &mut self.tally, &event, steps)
    }

    /// The leadership is lost.
    pub(crate) fn lose<L: Ledger>(&mut self, steps: &mut Steps<L>) -> Result<(), NoMemory>
        requires { MayGo self.old 0 0 }
        ensures { OnOk result (Goes self.old self.new (λ seed made. session.lose made) 0 0) }
    {
        let event = Event::Lost {
            epoch: self.epoch as i32,
        };
        take(&mut self.engine, &mut self.tally, &event, steps)
    }

    /// A leadership begins, in the next epoch, at the end.
    pub(crate) fn lead<L: Ledger>(&mut self, steps: &mut Steps<L>) -> Result<(), NoMemory>
        requires { MayGo self.old 0 1 }
        ensures { OnOk result (Goes self.old self.new session.lead_next 0 1) }
    {
        self.epoch += 1;
        let event = Event::Lead {
            epoch: self.epoch as i32,
            next: self.engine.committed(),
            now: 0,
        };
        take(&mut self.engine, &mut self.tally, &event, steps)
    }

    /// A client's request comes, and what it appended is committed.
    pub(crate) fn ask_and_commit<L: Ledger>(
        &mut self,
        request: Request,
        steps: &mut Steps<L>,
    ) -> Result<(), NoMemory>
        requires { MayGo self.old 1 0 }
        ensures { OnOk result
            (Goes self.old self.new (λ seed made. session.ask_and_commit seed made request) 1 0) }
    {
        self.ask(request, steps)?;
        self.commit(steps)
    }

    /// Draws for a round.
    pub(crate) fn draw(&mut self) -> Chances
        requires { MayGo self.old 0 0 }
        ensures goes { Goes self.old self.new (λ seed made. session.after_draw made) 0 0 }
        ensures chances { result ≡ session.chances self.old.drawn }
        ensures broker { result.broker ≤ 6 }
        ensures partition { result.partition ≤ 9 }
    {
        let chances = draw_round(self.drawn);
        self.drawn = chances.last;
        chances
    }
}

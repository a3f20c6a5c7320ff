//! The rounds behind the opening.

ghost use Rattle.std.specs.Prelude.{◌≡◌, ◌≤◌, ℕ, pos, IfOk, OnOk};
ghost use Rattle.kr_model.specs.World.{image_of_tip};
ghost use Rattle.kr_workload.specs.Requests as asking;
ghost use Rattle.kr_workload.specs.Session as session;
ghost use Rattle.kr_workload.specs.Session.{Made, state_behind};
ghost use Rattle.kr_workload.specs.inner.Standing.{Goes, MayGo, HasMade};

use crate::chances::Chances;
use crate::host::Host;
use crate::requests::{election, note, reassignment, report};
use kr_base::{NoMemory, Steps};
use kr_calls::Request;
use kr_store::Seen;
use std::sync::ledger::Ledger;

fn index_of(partition: u32) -> i32
    requires { partition ≤ 9 }
    ensures { result ≡ pos partition }
{
    partition as i32
}

impl Host {
    // The report of a partition's leader, where there is one.
    fn report_now(&self, topic: u64, partition: u32) -> Result<Option<Request>, NoMemory>
        requires { partition ≤ 9 }
        ensures { IfOk result (λ request. (seed : ℕ) (made : Made) → HasMade seed made self.now →
            request ≡ asking.report (image_of_tip (state_behind seed made)) topic (pos partition)) }
    {
        let seen = Seen::tip(self.engine.store());
        report(self.alloc, &seen, topic, index_of(partition))
    }

    // A partition's leader reports, where there is one.
    fn send_report<L: Ledger>(
        &mut self,
        topic: u64,
        partition: u32,
        steps: &mut Steps<L>,
    ) -> Result<(), NoMemory>
        requires may { MayGo self.old 1 0 }
        requires few { partition ≤ 9 }
        ensures { OnOk result
            (Goes self.old self.new (λ seed. session.send_report seed topic partition) 1 0) }
    {
        match self.report_now(topic, partition)? {
            Some(request) => self.ask_and_commit(request, steps),
            None => Ok(()),
        }
    }

    fn reassign<L: Ledger>(
        &mut self,
        chances: &Chances,
        steps: &mut Steps<L>,
    ) -> Result<(), NoMemory>
        requires may { MayGo self.old 1 0 }
        requires broker { chances.now.broker ≤ 6 }
        requires few { chances.now.partition ≤ 9 }
        ensures { OnOk result
            (Goes self.old self.new (λ seed. session.reassign_partition seed chances.now) 1 0) }
    {
        let index = index_of(chances.partition);
        let request = reassignment(self.alloc, chances.topic, index, chances.broker)?;
        self.ask_and_commit(request, steps)
    }

    fn elect<L: Ledger>(
        &mut self,
        topic: u64,
        partition: u32,
        steps: &mut Steps<L>,
    ) -> Result<(), NoMemory>
        requires may { MayGo self.old 1 0 }
        requires few { partition ≤ 9 }
        ensures { OnOk result
            (Goes self.old self.new (λ seed. session.elect_preferred seed topic partition) 1 0) }
    {
        let request = election(self.alloc, topic, index_of(partition))?;
        self.ask_and_commit(request, steps)
    }

    // A setting is changed, and the leadership is lost before that is committed.
    fn fail_over<L: Ledger>(&mut self, round: u32, steps: &mut Steps<L>) -> Result<(), NoMemory>
        requires { MayGo self.old 1 1 }
        ensures { OnOk result (Goes self.old self.new (λ seed. session.fail_over seed round) 1 1) }
    {
        let request = note(self.alloc, round)?;
        self.ask(request, steps)?;
        self.lose(steps)?;
        self.lead(steps)?;
        self.commit(steps)
    }

    // What was drawn is done.
    fn act<L: Ledger>(
        &mut self,
        round: u32,
        chances: &Chances,
        steps: &mut Steps<L>,
    ) -> Result<(), NoMemory>
        requires may { MayGo self.old 1 1 }
        requires broker { chances.now.broker ≤ 6 }
        requires few { chances.now.partition ≤ 9 }
        ensures { OnOk result
            (Goes self.old self.new (λ seed. session.act seed round chances.now) 1 1) }
    {
        match chances.kind {
            0 => self.beat(chances.broker, true, steps),
            1 => self.beat(chances.broker, false, steps),
            2 => self.reassign(chances, steps),
            3 => self.send_report(chances.topic, chances.partition, steps),
            4 => self.elect(chances.topic, chances.partition, steps),
            _ => self.fail_over(round, steps),
        }
    }

    fn play_round<L: Ledger>(&mut self, round: u32, steps: &mut Steps<L>) -> Result<(), NoMemory>
        requires { MayGo self.old 1 1 }
        ensures { OnOk result (Goes self.old self.new (λ seed. session.play_round seed round) 1 1) }
    {
        let chances = self.draw();
        self.act(round, &chances, steps)
    }

    /// So many rounds.
    pub(crate) fn rounds<L: Ledger>(
        &mut self,
        rounds: u32,
        steps: &mut Steps<L>,
    ) -> Result<(), NoMemory>
        requires { MayGo self.old rounds rounds }
        ensures { OnOk result (Goes self.old self.new
            (λ seed. session.steps rounds (session.play_round seed)) rounds rounds) }
    {
        for n in 0..rounds {
            self.play_round(n, steps)?;
        }
        Ok(())
    }
}

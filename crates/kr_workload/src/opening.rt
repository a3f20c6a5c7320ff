//! How the session opens: the node leads, six brokers register and are alive, and three hundred topics are made.

ghost use Rattle.std.specs.Prelude.{◌≡◌, ◌<◌, ◌≤◌, ◌+◌, ℕ, pos, false, OnOk};
ghost use Rattle.kr_model.specs.World.{image_of_tip, tip_of};
ghost use Rattle.kr_workload.specs.Requests as asking;
ghost use Rattle.kr_workload.specs.Session as session;
ghost use Rattle.kr_workload.specs.Session.{Made, state_behind};
ghost use Rattle.kr_workload.specs.inner.Standing.{Goes, MayGo, HasMade};

use crate::host::Host;
use crate::requests::{creation, heartbeat, registration};
use kr_base::{NoMemory, Steps};
use kr_calls::Request;
use kr_store::Seen;
use std::sync::ledger::Ledger;

impl Host {
    fn register<L: Ledger>(&mut self, n: u16, steps: &mut Steps<L>) -> Result<(), NoMemory>
        requires may { MayGo self.old 1 0 }
        requires few { n < 6 }
        ensures { OnOk result (Goes self.old self.new (λ seed. session.register seed n) 1 0) }
    {
        let request = registration(self.alloc, n + 1)?;
        self.ask_and_commit(request, steps)
    }

    // The heartbeat of a broker that has read the whole log.
    fn heartbeat_now(&self, broker: u16, want_fence: bool) -> Request
        ensures { (seed : ℕ) (made : Made) → HasMade seed made self.now →
            result ≡ asking.heartbeat (image_of_tip (state_behind seed made))
            (pos (tip_of (state_behind seed made))) broker want_fence }
    {
        let seen = Seen::tip(self.engine.store());
        heartbeat(&seen, self.engine.tip(), broker, want_fence)
    }

    /// A broker sends a heartbeat; it has read the whole log.
    pub(crate) fn beat<L: Ledger>(
        &mut self,
        broker: u16,
        want_fence: bool,
        steps: &mut Steps<L>,
    ) -> Result<(), NoMemory>
        requires { MayGo self.old 1 0 }
        ensures { OnOk result
            (Goes self.old self.new (λ seed. session.send_heartbeat seed broker want_fence) 1 0) }
    {
        let request = self.heartbeat_now(broker, want_fence);
        self.ask_and_commit(request, steps)
    }

    fn create<L: Ledger>(&mut self, topic: u64, steps: &mut Steps<L>) -> Result<(), NoMemory>
        requires { MayGo self.old 1 0 }
        ensures { OnOk result (Goes self.old self.new (λ seed. session.create seed topic) 1 0) }
    {
        let request = creation(self.alloc, topic)?;
        self.ask_and_commit(request, steps)
    }

    fn register_brokers<L: Ledger>(&mut self, steps: &mut Steps<L>) -> Result<(), NoMemory>
        requires { MayGo self.old 6 0 }
        ensures { OnOk result
            (Goes self.old self.new (λ seed. session.steps 6 (session.register seed)) 6 0) }
    {
        for n in 0u16..6 {
            self.register(n, steps)?;
        }
        Ok(())
    }

    fn beat_brokers<L: Ledger>(&mut self, steps: &mut Steps<L>) -> Result<(), NoMemory>
        requires { MayGo self.old 6 0 }
        ensures { OnOk result
            (Goes self.old self.new (λ seed. session.steps 6 (session.first_heartbeat seed)) 6 0) }
    {
        for n in 0u16..6 {
            self.beat(n + 1, false, steps)?;
        }
        Ok(())
    }

    fn create_topics<L: Ledger>(&mut self, steps: &mut Steps<L>) -> Result<(), NoMemory>
        requires { MayGo self.old 300 0 }
        ensures { OnOk result
            (Goes self.old self.new (λ seed. session.steps 300 (session.create seed)) 300 0) }
    {
        for n in 0u64..300 {
            self.create(n, steps)?;
        }
        Ok(())
    }

    /// The session opens.
    pub(crate) fn open<L: Ledger>(&mut self, steps: &mut Steps<L>) -> Result<(), NoMemory>
        requires { MayGo self.old 312 1 }
        ensures { OnOk result (Goes self.old self.new session.open_session 312 1) }
    {
        self.lead(steps)?;
        self.register_brokers(steps)?;
        self.beat_brokers(steps)?;
        self.create_topics(steps)
    }
}

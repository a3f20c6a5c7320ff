//! What a move makes of its node.

ghost use Rattle.std.specs.Prelude.{◌≡◌, ◌&&◌, ◌<◌, ◌+◌, ◌^◌, ◌++◌, [], MatchResult, None, Some, if◌then◌else◌, is_some, not, option_to_list};
ghost use Rattle.kr_calls.specs.declared.calls.Ask.TheVariants as asks;
ghost use Rattle.kr_calls.specs.declared.events.Event.TheVariants as events;
ghost use Rattle.kr_model.specs.World.{is_far};
ghost use Rattle.law_nodes.specs.declared.moves.MoveFault.TheVariants as faults;
ghost use Rattle.law_nodes.specs.Moves as table;
ghost use Rattle.kr_nodes.specs.inner.Acting as acting;
ghost use Rattle.kr_nodes.specs.inner.Acting.{Acts, IsIdleNode, IsWriteRequest};
ghost use Rattle.kr_nodes.specs.inner.Checks.{IsElectFault, IsFeedFault, IsSettleFault, IsStandbyFault, IsTellFault, MayElect, MayFeed, MaySettleNext, MayTell};

use crate::node::Node;
use crate::shared::{ListBatch, Shared};
use kr_base::Steps;
use kr_calls::{Ask, Call, Event};
use kr_defs::limits::GREATEST_TIP;
use law_nodes::MoveFault;
use std::sync::ledger::Ledger;

fn lead_event(epoch: i32, next: i64, now: i64) -> Event
    ensures { result ≡ events.Lead epoch next now }
{
    Event::Lead { epoch, next, now }
}

fn request_event(client: u32, now: i64, call: Call) -> Event
    ensures { result ≡ events.Request client now (asks.Call call) }
{
    Event::Request {
        client,
        now,
        ask: Ask::Call(call),
    }
}

fn tick_event(now: i64) -> Event
    ensures { result ≡ events.Tick now }
{
    Event::Tick { now }
}

fn commit_event(epoch: i32, end: i64) -> Event
    ensures { result ≡ events.Commit epoch end }
{
    Event::Commit { epoch, end }
}

fn lost_event(epoch: i32) -> Event
    ensures { result ≡ events.Lost epoch }
{
    Event::Lost { epoch }
}

// ---- what a move asks of its node

impl Node {
    pub(crate) fn check_standby(&self, number: u32) -> Result<(), MoveFault>
        ensures { MatchResult result (λ _. self.now.engine.leading ≡ None)
            (λ fault. IsStandbyFault number self.now fault) }
    {
        match self.engine.leading() {
            None => Ok(()),
            Some(_) => Err(MoveFault::NotStandby { node: number }),
        }
    }

    fn led_epoch(&self, number: u32) -> Result<i32, MoveFault>
        ensures { MatchResult result (λ epoch. self.now.engine.leading ≡ Some epoch)
            (λ fault. (self.now.engine.leading ≡ None) × (fault ≡ faults.NotLeading number)) }
    {
        match self.engine.leading() {
            Some(epoch) => Ok(epoch),
            None => Err(MoveFault::NotLeading { node: number }),
        }
    }

    // The list's batch at its end.
    fn batch_to_feed<'a>(
        &self,
        number: u32,
        list: &'a [ListBatch],
    ) -> Result<&'a ListBatch, MoveFault>
        ensures { MatchResult result (λ batch. MayFeed list.now self.now batch.now)
            (λ fault. IsFeedFault number list.now self.now fault) }
    {
        self.check_standby(number)?;
        match list.get(self.fed) {
            Some(batch) => Ok(batch),
            None => Err(MoveFault::NothingNew {
                at: self.engine.committed(),
            }),
        }
    }

    // It has the whole list, and the epoch is new.
    fn check_elect(&self, number: u32, epoch: i32, shared: &Shared) -> Result<i64, MoveFault>
        ensures { MatchResult result (λ next. MayElect epoch shared.now self.now next)
            (λ fault. IsElectFault number epoch shared.now self.now fault) }
    {
        self.check_standby(number)?;
        if epoch <= shared.elected {
            return Err(MoveFault::OldEpoch {
                asked: epoch,
                greatest: shared.elected,
            });
        }
        let end = self.engine.committed();
        if end != shared.length {
            return Err(MoveFault::Behind {
                end,
                length: shared.length,
            });
        }
        Ok(end)
    }

    // It is the leader that was elected last, and has a batch that isn't in the list.
    fn check_settle(&self, number: u32, shared: &Shared) -> Result<(), MoveFault>
        ensures { MatchResult result (λ _. MaySettleNext shared.now self.now)
            (λ fault. IsSettleFault number shared.now self.now fault) }
    {
        let epoch = self.led_epoch(number)?;
        if epoch != shared.elected {
            return Err(MoveFault::NotLatest {
                epoch,
                latest: shared.elected,
            });
        }
        if self.pending.unsettled.is_empty() {
            return Err(MoveFault::NothingNew { at: shared.length });
        }
        Ok(())
    }

    // It leads, and settled what it wasn't told of.
    fn check_tell(&self, number: u32) -> Result<i32, MoveFault>
        ensures { MatchResult result (λ epoch. MayTell self.now epoch)
            (λ fault. IsTellFault number self.now fault) }
    {
        let epoch = self.led_epoch(number)?;
        let at = self.engine.committed();
        if self.settled <= at {
            return Err(MoveFault::NothingNew { at });
        }
        Ok(epoch)
    }

    // A write would be decided.
    fn decides(&self) -> bool
        ensures { result ≡ (is_some self.now.engine.leading && not (is_far self.now.engine.tip)) }
    {
        self.engine.leading().is_some() && self.engine.tip() <= GREATEST_TIP
    }
}

// ---- how much of the list it has then

impl Node {
    // One batch more of the list is below its end, where that isn't the one before.
    fn pass(&mut self, before: i64)
        requires { self.old.fed + 1 < 2 ^ 64 }
        ensures { self.new ≡ record self.old { fed = acting.passed before self.old } }
    {
        if self.engine.committed() != before {
            self.fed += 1;
        }
    }

    // All that it settled is below its end, where that is the one that it was told.
    fn catch_up(&mut self, end: i64)
        ensures { self.new ≡ record self.old { fed = acting.told_fed end self.old } }
    {
        if self.engine.committed() == end {
            self.fed = self.sent;
        }
    }

    // So many batches of the list are below its end, where that is the one of the image.
    pub(crate) fn skip_to(&mut self, end: i64, fed: usize)
        ensures { self.new ≡ record self.old { fed = acting.skipped end fed self.old } }
    {
        if self.engine.committed() == end {
            self.fed = fed;
        }
    }

    // Its first batch that isn't in the list.
    fn pop_unsettled(&mut self) -> Option<ListBatch>
        ensures items { self.old.pending.unsettled.items
            ≡ option_to_list result ++ self.new.pending.unsettled.items }
        ensures none { result ≡ None → self.old.pending.unsettled.items ≡ [] }
        ensures same { self.new ≡ record self.old {
          pending = record self.old.pending { unsettled = self.new.pending.unsettled };
        } }
    {
        self.pending.unsettled.pop_front()
    }

    // A batch of so many items of it joined the list, which has so many batches now.
    fn note_settled(&mut self, count: u32, sent: usize)
        ensures { self.new ≡ record self.old {
          settled = acting.longer self.old.settled count;
          sent = sent;
        } }
    {
        self.settled = self.settled.saturating_add(i64::from(count));
        self.sent = sent;
    }

    // It was elected, where it leads now.
    fn note_election(&self, epoch: i32, shared: &mut Shared)
        ensures { shared.new ≡ record shared.old {
          elected = if is_some self.now.engine.leading then epoch else shared.old.elected;
        } }
    {
        if self.engine.leading().is_some() {
            shared.elected = epoch;
        }
    }
}

// ---- the moves

impl Node {
    /// The list's batch at its end comes.
    pub(crate) fn feed<L: Ledger>(
        &mut self,
        number: u32,
        shared: &mut Shared,
        steps: &mut Steps<L>,
    ) -> Result<(), MoveFault>
        requires { IsIdleNode self.old }
        ensures { Acts (λ _ r n. table.feed r number n)
            number self.old self.new shared.old shared.new result }
    {
        let batch = self.batch_to_feed(number, shared.list.as_slice())?;
        let before = self.engine.committed();
        self.take(number, &batch.event, false, &mut shared.told, steps)?;
        self.pass(before);
        self.return_to_end();
        Ok(())
    }

    /// It begins to lead, where it has the whole list.
    pub(crate) fn elect<L: Ledger>(
        &mut self,
        number: u32,
        epoch: i32,
        now: i64,
        shared: &mut Shared,
        steps: &mut Steps<L>,
    ) -> Result<(), MoveFault>
        requires { IsIdleNode self.old }
        ensures { Acts (λ options r n. table.elect options r number n epoch now)
            number self.old self.new shared.old shared.new result }
    {
        let next = self.check_elect(number, epoch, shared)?;
        let event = lead_event(epoch, next, now);
        self.return_to_end();
        self.take(number, &event, false, &mut shared.told, steps)?;
        self.note_election(epoch, shared);
        Ok(())
    }

    /// A client asks it.
    pub(crate) fn ask<L: Ledger>(
        &mut self,
        number: u32,
        client: u32,
        now: i64,
        call: Call,
        shared: &mut Shared,
        steps: &mut Steps<L>,
    ) -> Result<(), MoveFault>
        requires idle { IsIdleNode self.old }
        requires write { IsWriteRequest call.request }
        ensures { Acts (λ options r n. acting.ask_outcome options r number n client now call)
            number self.old self.new shared.old shared.new result }
    {
        let is_decided = self.decides();
        let event = request_event(client, now, call);
        self.take(number, &event, is_decided, &mut shared.told, steps)?;
        Ok(())
    }

    /// Time goes on.
    pub(crate) fn tick<L: Ledger>(
        &mut self,
        number: u32,
        now: i64,
        shared: &mut Shared,
        steps: &mut Steps<L>,
    ) -> Result<(), MoveFault>
        requires { IsIdleNode self.old }
        ensures { Acts (λ options r n. acting.tick_outcome options r number n now)
            number self.old self.new shared.old shared.new result }
    {
        let event = tick_event(now);
        self.take(number, &event, false, &mut shared.told, steps)?;
        Ok(())
    }

    /// Its first batch that isn't in the list joins it.
    pub(crate) fn settle(&mut self, number: u32, shared: &mut Shared) -> Result<(), MoveFault>
        ensures { Acts (λ _ r n. table.settle r number n)
            number self.old self.new shared.old shared.new result }
    {
        self.check_settle(number, shared)?;
        let Some(batch) = self.pop_unsettled() else {
            return Err(MoveFault::NothingNew { at: shared.length });
        };
        let count = batch.count;
        shared.join(batch)?;
        self.note_settled(count, shared.list.len());
        Ok(())
    }

    /// It is told that what it settled is committed.
    pub(crate) fn tell<L: Ledger>(
        &mut self,
        number: u32,
        shared: &mut Shared,
        steps: &mut Steps<L>,
    ) -> Result<(), MoveFault>
        requires { IsIdleNode self.old }
        ensures { Acts (λ options r n. table.tell options r number n)
            number self.old self.new shared.old shared.new result }
    {
        let epoch = self.check_tell(number)?;
        let end = self.settled;
        let event = commit_event(epoch, end);
        self.take(number, &event, false, &mut shared.told, steps)?;
        self.catch_up(end);
        Ok(())
    }

    /// It is told that its leadership is over.
    pub(crate) fn depose<L: Ledger>(
        &mut self,
        number: u32,
        shared: &mut Shared,
        steps: &mut Steps<L>,
    ) -> Result<(), MoveFault>
        requires { IsIdleNode self.old }
        ensures { Acts (λ options r n. table.depose options r number n)
            number self.old self.new shared.old shared.new result }
    {
        let epoch = self.led_epoch(number)?;
        let event = lost_event(epoch);
        self.take(number, &event, false, &mut shared.told, steps)?;
        self.return_to_end();
        Ok(())
    }
}

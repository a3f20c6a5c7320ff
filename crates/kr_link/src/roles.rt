//! What a link holds of the leadership.

ghost use Rattle.std.specs.Prelude.{◌≡◌, [], IfOk, OnOk, nat_eq};
ghost use Rattle.law_core.specs.Core as laws;
ghost use Rattle.law_core.specs.Core.{after_lead_when_fed, end_of, leading, resigning};
ghost use Rattle.kr_link.specs.declared.roles.LinkRole.TheVariants as variants;
ghost use Rattle.kr_link.specs.Roles.{awaits_append, epoch_led, has_leadership, held_in, held_of, is_leading, is_made_at, is_misplaced, law_role, revision_held};
ghost use Rattle.kr_link.specs.Cores.{asked_in, asking_in, beginning_in, begun_in, committed_in, committed_to, committing, telling_lost};
ghost use Rattle.kr_link.specs.Groups.{may_ask};
ghost use Rattle.kr_link.specs.Outgoing.{again_with, append_action, put_again, put_all, put_one};

use crate::waiting::{base_of_first, end_of, first_base_of, has_no_batch};
use crate::{Action, DaemonFrame, Guard, LogBatch, Outbox, WaitingBatches};
use kr_base::NoMemory;
use kr_defs::{Copied, Rows};
use std::alloc::Global;

/// A leadership that was taken: its epoch, the revision at which its key was made in the store, and where the log ended then.
#[derive(Clone, Copy, Debug, Drop, PartialEq, Eq)]
pub struct Held {
    /// The epoch.
    pub epoch: u32,
    /// The number of the revision at which the leader key was made.
    pub made: u64,
    /// The place at which the log ended then.
    pub start: u64,
}

/// A leadership of which the daemon was told.
#[derive(Drop)]
pub struct Leading {
    /// The leadership.
    pub held: Held,
    /// The batches of the append under way.
    pub asked: Rows<LogBatch>,
    /// Those that wait behind them.
    pub waits: WaitingBatches,
}

/// What a link holds of the leadership.
#[derive(Drop)]
pub enum LinkRole {
    /// Nothing.
    Standby,
    /// It took a leadership of which its daemon wasn't told.
    Elected(Held),
    /// Its daemon leads.
    Leading(Leading),
}

impl Held {
    // It leads, where its daemon was handed the log up to where the leadership began.
    fn begin(self, alloc: Global, fed: u64) -> LinkRole
        ensures { law_role result ≡ after_lead_when_fed fed (held_of self) }
    {
        if fed == self.start {
            return LinkRole::Leading(Leading::new(alloc, self));
        }
        LinkRole::Elected(self)
    }

    // Tells its daemon so.
    fn tell_lead(&self, fed: u64, out: &mut Outbox) -> Result<(), NoMemory>
        ensures { OnOk result (out.new ≡ put_all out.old (leading fed (held_of self.now))) }
    {
        if fed != self.start {
            return Ok(());
        }
        out.put(Action::Send(DaemonFrame::Lead {
            epoch: self.epoch,
            end: self.start,
        }))
    }
}

impl Leading {
    // Nothing waits yet.
    fn new(alloc: Global, held: Held) -> Leading
        ensures { law_role (variants.Leading result) ≡ laws.Leading (held_of held) [] [] }
    {
        Leading {
            held,
            asked: Rows::new(alloc),
            waits: WaitingBatches::new(alloc),
        }
    }

    fn may_ask(&self) -> bool
        ensures { result ≡ may_ask self.now.asked self.now.waits }
    {
        has_no_batch(&self.asked) && !self.waits.is_empty()
    }

    // Calls for an append of those under way.
    fn call(&self, alloc: Global, out: &mut Outbox) -> Result<(), NoMemory>
        ensures { OnOk result (out.new
            ≡ put_one out.old (append_action (held_of self.now.held) self.now.asked)) }
    {
        let guard = Guard {
            made: self.held.made,
            end: base_of_first(&self.asked),
        };
        let batches = self.asked.copied(alloc)?;
        out.put(Action::Append { guard, batches })?;
        Ok(())
    }

    // Calls for an append of what waits, where something does and no append is under way.
    fn ask(&mut self, alloc: Global, out: &mut Outbox) -> Result<(), NoMemory>
        ensures role { OnOk result (law_role (variants.Leading self.new)
            ≡ asked_in (held_of self.old.held) self.old.asked self.old.waits) }
        ensures out { OnOk result (out.new
            ≡ put_all out.old (asking_in (held_of self.old.held) self.old.asked self.old.waits)) }
    {
        if !self.may_ask() {
            return Ok(());
        }
        let group = self.waits.take_group(alloc)?;
        self.asked = group;
        self.call(alloc, out)?;
        Ok(())
    }

    // Calls for the append under way again, where one is.
    fn ask_again(&self, alloc: Global, out: &mut Outbox) -> Result<(), NoMemory>
        ensures { OnOk result (out.new
            ≡ again_with out.old (held_of self.now.held) self.now.asked) }
    {
        if has_no_batch(&self.asked) {
            return Ok(());
        }
        self.call(alloc, out)?;
        Ok(())
    }

    fn is_own(&self, batch: &LogBatch) -> bool
        ensures { result ≡ nat_eq batch.now.epoch self.now.held.epoch }
    {
        batch.epoch() == self.held.epoch
    }

    // The place where its next batch is to begin.
    fn tip(&self, fed: u64) -> u64
        ensures { result ≡ laws.end_of (laws.end_of fed self.now.asked) self.now.waits }
    {
        self.waits.end_behind(end_of(&self.asked, fed))
    }

    fn is_misplaced(&self, fed: u64, batch: &LogBatch) -> bool
        ensures { result ≡ is_misplaced fed (law_role (variants.Leading self.now)) batch.now }
    {
        self.is_own(batch) && batch.base() != self.tip(fed)
    }

    // A batch of the leadership waits, and is called for where no append is under way.
    fn hear(&mut self, alloc: Global, batch: LogBatch, out: &mut Outbox) -> Result<(), NoMemory>
        ensures role { OnOk result (law_role (variants.Leading self.new)
            ≡ (laws.on_appended 0 (law_role (variants.Leading self.old)) batch).0.role) }
        ensures out { OnOk result (out.new
            ≡ put_all out.old (laws.on_appended 0 (law_role (variants.Leading self.old)) batch).1) }
    {
        if !self.is_own(&batch) {
            return Ok(());
        }
        self.waits.push(batch)?;
        self.ask(alloc, out)?;
        Ok(())
    }

    // Commits the batches of the append under way, and calls for an append of those that wait; where they end.
    fn commit(&mut self, alloc: Global, fed: u64, out: &mut Outbox) -> Result<u64, NoMemory>
        ensures end { IfOk result (λ end. end ≡ end_of fed self.old.asked) }
        ensures role { OnOk result (law_role (variants.Leading self.new)
            ≡ committed_in (law_role (variants.Leading self.old))) }
        ensures out { OnOk result (out.new
            ≡ put_all out.old (committing fed (law_role (variants.Leading self.old)))) }
    {
        let end = end_of(&self.asked, fed);
        out.put(Action::Send(DaemonFrame::Commit {
            epoch: self.held.epoch,
            end,
        }))?;
        self.asked = Rows::new(alloc);
        self.ask(alloc, out)?;
        Ok(end)
    }

    // The append under way is of this leadership, from this place on.
    fn awaits_append(&self, made: u64, base: u64) -> bool
        ensures { result ≡ awaits_append made base (law_role (variants.Leading self.now)) }
    {
        match first_base_of(&self.asked) {
            Some(first) => self.held.made == made && first == base,
            None => false,
        }
    }
}

impl LinkRole {
    /// The daemon was told to lead.
    pub fn is_leading(&self) -> bool
        ensures { result ≡ is_leading (law_role self.now) }
    {
        match self {
            LinkRole::Leading(_) => true,
            _ => false,
        }
    }

    /// A leadership is held.
    pub fn has_leadership(&self) -> bool
        ensures { result ≡ has_leadership (law_role self.now) }
    {
        match self {
            LinkRole::Standby => false,
            _ => true,
        }
    }

    /// The leadership that is held.
    pub fn held(&self) -> Option<Held>
        ensures { result ≡ held_in self.now }
    {
        match self {
            LinkRole::Standby => None,
            LinkRole::Elected(held) => Some(*held),
            LinkRole::Leading(leading) => Some(leading.held),
        }
    }

    /// The append under way is of the leadership whose key was made at this revision, from this place on.
    pub fn awaits_append(&self, made: u64, base: u64) -> bool
        ensures { result ≡ awaits_append made base (law_role self.now) }
    {
        match self {
            LinkRole::Leading(leading) => leading.awaits_append(made, base),
            _ => false,
        }
    }

    /// The revision at which the key of the leadership that is held was made.
    pub fn made(&self) -> Option<u64>
        ensures { result ≡ revision_held (law_role self.now) }
    {
        match self {
            LinkRole::Standby => None,
            LinkRole::Elected(held) => Some(held.made),
            LinkRole::Leading(leading) => Some(leading.held.made),
        }
    }

    /// The key of the leadership that is held was made at this revision.
    pub fn is_made_at(&self, made: u64) -> bool
        ensures { result ≡ is_made_at made (law_role self.now) }
    {
        match self {
            LinkRole::Standby => false,
            LinkRole::Elected(held) => held.made == made,
            LinkRole::Leading(leading) => leading.held.made == made,
        }
    }

    /// The epoch that the daemon leads.
    pub fn epoch_led(&self) -> Option<u32>
        ensures { result ≡ epoch_led (law_role self.now) }
    {
        match self {
            LinkRole::Leading(leading) => Some(leading.held.epoch),
            _ => None,
        }
    }

    // The daemon was fed up to `fed`, and its batch doesn't begin where the last one of its leadership ends.
    pub(crate) fn is_misplaced(&self, fed: u64, batch: &LogBatch) -> bool
        ensures { result ≡ is_misplaced fed (law_role self.now) batch.now }
    {
        match self {
            LinkRole::Leading(leading) => leading.is_misplaced(fed, batch),
            _ => false,
        }
    }

    // Calls for the append under way again, where one is.
    pub(crate) fn ask_again(&self, alloc: Global, out: &mut Outbox) -> Result<(), NoMemory>
        ensures { OnOk result (out.new ≡ put_again out.old (law_role self.now)) }
    {
        match self {
            LinkRole::Leading(leading) => leading.ask_again(alloc, out),
            _ => Ok(()),
        }
    }

    // Gives the leadership back that is held.
    pub(crate) fn resign(&self, out: &mut Outbox) -> Result<(), NoMemory>
        ensures { OnOk result (out.new ≡ put_all out.old (resigning (law_role self.now))) }
    {
        match self {
            LinkRole::Standby => Ok(()),
            LinkRole::Elected(held) => out.put(Action::Resign { made: held.made }),
            LinkRole::Leading(leading) => out.put(Action::Resign {
                made: leading.held.made,
            }),
        }
    }

    // Tells the daemon that the leadership is lost of which it was told.
    pub(crate) fn tell_lost(&self, out: &mut Outbox) -> Result<(), NoMemory>
        ensures { OnOk result (out.new ≡ put_all out.old (telling_lost (law_role self.now))) }
    {
        match self {
            LinkRole::Leading(leading) => out.put(Action::Send(DaemonFrame::Lost {
                epoch: leading.held.epoch,
            })),
            _ => Ok(()),
        }
    }

    // The daemon wrote a batch.
    pub(crate) fn hear(
        &mut self,
        alloc: Global,
        batch: LogBatch,
        out: &mut Outbox,
    ) -> Result<(), NoMemory>
        ensures role { OnOk result (law_role self.new
            ≡ (laws.on_appended 0 (law_role self.old) batch).0.role) }
        ensures out { OnOk result (out.new
            ≡ put_all out.old (laws.on_appended 0 (law_role self.old) batch).1) }
    {
        match self {
            LinkRole::Leading(leading) => leading.hear(alloc, batch, out),
            _ => Ok(()),
        }
    }

    // Makes the daemon lead, where it was handed the log, up to `fed`, that a leadership began with of which it wasn't told.
    pub(crate) fn begin(
        &mut self,
        alloc: Global,
        fed: u64,
        out: &mut Outbox,
    ) -> Result<(), NoMemory>
        ensures role { OnOk result (law_role self.new ≡ begun_in fed (law_role self.old)) }
        ensures out { OnOk result (out.new
            ≡ put_all out.old (beginning_in fed (law_role self.old))) }
    {
        match self {
            LinkRole::Standby => Ok(()),
            LinkRole::Leading(_) => Ok(()),
            LinkRole::Elected(held) => {
                let held = *held;
                held.tell_lead(fed, out)?;
                *self = held.begin(alloc, fed);
                Ok(())
            }
        }
    }

    // Commits the batches of the append under way; the place behind them.
    pub(crate) fn commit(
        &mut self,
        alloc: Global,
        fed: u64,
        out: &mut Outbox,
    ) -> Result<u64, NoMemory>
        ensures end { IfOk result (λ end. end ≡ committed_to fed (law_role self.old)) }
        ensures role { OnOk result (law_role self.new ≡ committed_in (law_role self.old)) }
        ensures out { OnOk result (out.new
            ≡ put_all out.old (committing fed (law_role self.old))) }
    {
        match self {
            LinkRole::Leading(leading) => leading.commit(alloc, fed, out),
            _ => Ok(fed),
        }
    }
}

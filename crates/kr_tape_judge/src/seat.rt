//! A node, as a tape shows it: its daemon and its link.

ghost use Rattle.std.specs.Prelude.{◌≡◌, [], OnOk, length};
ghost use Rattle.kr_tape_judge.specs.Parts.{link_settled, node_settled};
ghost use Rattle.law_tape.specs.declared.line.LinkAct.TheVariants as acts;
ghost use Rattle.law_tape.specs.Rules.{act_fault, is_fold, new_side, nothing_stored, side_after};

use crate::daemon::Daemon;
use crate::link::TapeLink;
use crate::store::TapeStore;
use law_tape::{Fault, HeldLeadership, Image, Keep, LinkAct, TapeBatch};
use std::alloc::{AllocError, Global};
use std::marker::Model;

/// A node's daemon and its link.
#[derive(Drop)]
pub struct Seat {
    daemon: Daemon,
    link: TapeLink,
}

impl Model for Seat {
    ghost use Rattle.law_tape.specs.Rules.{Side};

    ghost Value = { Side };

    ghost view = { λ s. record { node = s.daemon; link = s.link } };
}

impl Seat {
    /// A node of which nothing is known.
    pub fn new(alloc: Global) -> Seat
        ensures { result ≡ new_side }
    {
        Seat {
            daemon: Daemon::new(alloc),
            link: TapeLink::new(alloc),
        }
    }

    /// Its link.
    pub fn link(&self) -> &TapeLink
        ensures { result.now ≡ self.now.link }
    {
        &self.link
    }
}

// ---- which fault an act has

impl Seat {
    /// Why the act isn't allowed; none where it is.
    pub fn fault(
        &self,
        folds: &[Image],
        store: &TapeStore,
        node: usize,
        act: &LinkAct,
    ) -> Option<Fault>
        ensures { result ≡ act_fault folds.now store.now node self.now act.now }
    {
        match act {
            LinkAct::Win(held) => self.win_fault(store, node, held),
            LinkAct::Read(batch) => self.read_fault(store, batch),
            LinkAct::Take(image) => self.take_fault(folds, store, image),
            LinkAct::Begin(held) => self.begin_fault(held),
            LinkAct::Write(batch) => self.write_fault(batch),
            LinkAct::Stray(batch) => self.stray_fault(batch),
            LinkAct::Hear(batch) => self.hear_fault(batch),
            LinkAct::Pass(batch) => self.pass_fault(batch),
            LinkAct::Ask { held, group } => self.ask_fault(held, group.as_slice()),
            LinkAct::Settle { held, end } => self.settle_fault(store, held, *end),
            LinkAct::Give(keep) => give_fault(folds, store, keep),
            LinkAct::GiveUp { epoch } => self.give_up_fault(*epoch),
            LinkAct::LetGo => self.let_go_fault(),
            LinkAct::Renew => None,
        }
    }

    fn win_fault(&self, store: &TapeStore, node: usize, held: &HeldLeadership) -> Option<Fault>
        ensures { result ≡ act_fault [] store.now node self.now (acts.Win held.now) }
    {
        if self.link.holds_any() {
            Some(Fault::Holds)
        } else if self.link.was_told(held.epoch) {
            Some(Fault::ToldBefore)
        } else if !store.took(node, held) {
            Some(Fault::NotTaken)
        } else {
            None
        }
    }

    fn read_fault(&self, store: &TapeStore, batch: &TapeBatch) -> Option<Fault>
        ensures { result ≡ act_fault [] store.now 0 self.now (acts.Read batch.now) }
    {
        if self.daemon.leads() {
            Some(Fault::Leads)
        } else if !store.has_at(batch, self.daemon.end()) {
            Some(Fault::NotInLog)
        } else {
            None
        }
    }

    fn take_fault(&self, folds: &[Image], store: &TapeStore, image: &Image) -> Option<Fault>
        ensures { result ≡ act_fault folds.now store.now 0 self.now (acts.Take image.now) }
    {
        if self.daemon.leads() {
            Some(Fault::Leads)
        } else if !(self.daemon.end() <= image.offset as u128) {
            Some(Fault::OlderImage)
        } else if !store.has_boundary(image.offset) {
            Some(Fault::NoBoundary)
        } else if !is_fold(folds, image) {
            Some(Fault::OtherImage)
        } else {
            None
        }
    }

    fn begin_fault(&self, held: &HeldLeadership) -> Option<Fault>
        ensures { result ≡ act_fault [] nothing_stored 0 self.now (acts.Begin held.now) }
    {
        if !self.link.holds(held) {
            Some(Fault::NotHeld)
        } else if self.daemon.leads() {
            Some(Fault::Leads)
        } else if self.daemon.end() != held.start as u128 {
            Some(Fault::OtherPlace)
        } else {
            None
        }
    }

    fn write_fault(&self, batch: &TapeBatch) -> Option<Fault>
        ensures { result ≡ act_fault [] nothing_stored 0 self.now (acts.Write batch.now) }
    {
        if !self.daemon.leads_in(batch.epoch) {
            Some(Fault::NotLeading)
        } else if !self.daemon.wrote_up_to(batch.base) {
            Some(Fault::OtherPlace)
        } else if !batch.has_records() {
            Some(Fault::Empty)
        } else {
            None
        }
    }

    fn stray_fault(&self, batch: &TapeBatch) -> Option<Fault>
        ensures { result ≡ act_fault [] nothing_stored 0 self.now (acts.Stray batch.now) }
    {
        if !self.link.was_told(batch.epoch) {
            Some(Fault::NeverLed)
        } else if self.link.holds_epoch(batch.epoch) {
            Some(Fault::StillHeld)
        } else {
            None
        }
    }

    fn hear_fault(&self, batch: &TapeBatch) -> Option<Fault>
        ensures { result ≡ act_fault [] nothing_stored 0 self.now (acts.Hear batch.now) }
    {
        if !self.link.is_next(batch) {
            Some(Fault::NotNext)
        } else if !self.daemon.leads_in(batch.epoch) {
            Some(Fault::NotLeading)
        } else {
            None
        }
    }

    fn pass_fault(&self, batch: &TapeBatch) -> Option<Fault>
        ensures { result ≡ act_fault [] nothing_stored 0 self.now (acts.Pass batch.now) }
    {
        if !self.link.is_next(batch) {
            Some(Fault::NotNext)
        } else if self.daemon.leads_in(batch.epoch) {
            Some(Fault::OfTheEpoch)
        } else {
            None
        }
    }

    fn ask_fault(&self, held: &HeldLeadership, group: &[TapeBatch]) -> Option<Fault>
        ensures { result ≡ act_fault [] nothing_stored 0 self.now (acts.Ask held.now group.now) }
    {
        if !self.link.holds(held) {
            Some(Fault::NotHeld)
        } else if !self.daemon.leads_in(held.epoch) {
            Some(Fault::NotLeading)
        } else if !self.link.asks_nothing() {
            Some(Fault::UnderWay)
        } else if group.is_empty() {
            Some(Fault::Empty)
        } else if !self.link.waits_for(group) {
            Some(Fault::NotNext)
        } else {
            None
        }
    }

    fn settle_fault(&self, store: &TapeStore, held: &HeldLeadership, end: u64) -> Option<Fault>
        ensures { result ≡ act_fault [] store.now 0 self.now (acts.Settle held.now end) }
    {
        if !self.link.holds(held) {
            Some(Fault::NotHeld)
        } else if !self.daemon.leads_in(held.epoch) {
            Some(Fault::NotLeading)
        } else if self.link.asks_nothing() {
            Some(Fault::NoneAsked)
        } else if !self.link.stands(store, self.daemon.end()) {
            Some(Fault::NotInLog)
        } else if !self.link.asks_from_to(self.daemon.end(), end) {
            Some(Fault::OtherEnd)
        } else {
            None
        }
    }

    fn give_up_fault(&self, epoch: u64) -> Option<Fault>
        ensures { result ≡ act_fault [] nothing_stored 0 self.now (acts.GiveUp epoch) }
    {
        if !self.daemon.leads_in(epoch) {
            Some(Fault::NotLeading)
        } else {
            None
        }
    }

    fn let_go_fault(&self) -> Option<Fault>
        ensures { result ≡ act_fault [] nothing_stored 0 self.now acts.LetGo }
    {
        if self.daemon.leads() {
            Some(Fault::Leads)
        } else {
            None
        }
    }
}

fn give_fault(folds: &[Image], store: &TapeStore, keep: &Keep) -> Option<Fault>
    ensures { result ≡ act_fault folds.now store.now 0 new_side (acts.Give keep.now) }
{
    if !(keep.before < keep.image.offset) {
        Some(Fault::OlderImage)
    } else if !store.has_boundary(keep.image.offset) {
        Some(Fault::NoBoundary)
    } else if !is_fold(folds, &keep.image) {
        Some(Fault::OtherImage)
    } else {
        None
    }
}

// The image is the fold of the log up to its place.
fn is_fold(folds: &[Image], image: &Image) -> bool
    ensures { result ≡ is_fold folds.now image.now }
{
    for fold in folds {
        if fold.offset == image.offset {
            return image.digest == fold.digest;
        }
    }
    false
}

// ---- what an act changes

impl Seat {
    /// Takes an act that is allowed.
    pub fn take(&mut self, alloc: Global, act: &LinkAct) -> Result<(), AllocError>
        ensures { OnOk result (self.new ≡ side_after self.old act.now) }
    {
        match act {
            LinkAct::Win(held) => self.link.win(held),
            LinkAct::Read(batch) => self.daemon.read(batch),
            LinkAct::Take(image) => {
                self.daemon.load(image);
                Ok(())
            }
            LinkAct::Begin(held) => {
                self.daemon.begin(held);
                self.link.begin();
                Ok(())
            }
            LinkAct::Write(batch) => self.write(batch),
            LinkAct::Stray(batch) => self.link.send(batch),
            LinkAct::Hear(batch) => self.link.hear(alloc, batch),
            LinkAct::Pass(_) => self.link.pass(alloc),
            LinkAct::Ask { held, group } => self.link.ask(alloc, held, group.as_slice()),
            LinkAct::Settle { end, .. } => self.settle(alloc, *end),
            LinkAct::Give(keep) => self.link.give(keep),
            LinkAct::GiveUp { .. } => {
                self.daemon.give_up();
                self.link.let_go();
                Ok(())
            }
            LinkAct::LetGo => {
                self.link.let_go();
                Ok(())
            }
            LinkAct::Renew => {
                self.daemon = Daemon::new(alloc);
                self.link.renew();
                Ok(())
            }
        }
    }

    fn write(&mut self, batch: &TapeBatch) -> Result<(), AllocError>
        ensures { OnOk result (self.new ≡ side_after self.old (acts.Write batch.now)) }
    {
        self.daemon.write(batch)?;
        self.link.send(batch)
    }

    fn settle(&mut self, alloc: Global, end: u64) -> Result<(), AllocError>
        ensures { OnOk result (self.new ≡ record {
          node = node_settled self.old.node (length self.old.link.asked) end;
          link = link_settled self.old.link;
        }) }
    {
        self.daemon.settle(alloc, self.link.asked_count(), end)?;
        self.link.settle();
        Ok(())
    }
}

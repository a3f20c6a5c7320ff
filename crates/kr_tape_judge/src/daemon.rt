//! A node's daemon, as a tape shows it.

ghost use Rattle.std.specs.Prelude.{◌≡◌, OnOk, is_some};
ghost use Rattle.law_quorum.specs.Nodes.{after_loss, loaded, new_node, told_to_lead};
ghost use Rattle.kr_tape_judge.specs.Parts.{node_settled};
ghost use Rattle.law_tape.specs.declared.line.LinkAct.TheVariants as acts;
ghost use Rattle.law_tape.specs.Rules.{end_behind, is_number, new_link, node_after};

use crate::lists::{append_copies, end_behind, is_number, split};
use law_tape::{HeldLeadership, Image, TapeBatch};
use std::alloc::{AllocError, Global};
use std::marker::Model;

/// What a daemon was handed and wrote.
#[derive(Drop)]
pub struct Daemon {
    // The image that was loaded, the batches that are committed behind it, and the place behind them.
    image: Option<Image>,
    batches: Vec<TapeBatch>,
    end: u128,
    // The epoch that it leads.
    leads: Option<u64>,
    // Of the batches that it wrote in this leadership those that were committed, and those that weren't.
    settled: Vec<TapeBatch>,
    own: Vec<TapeBatch>,
}

impl Model for Daemon {
    ghost use Rattle.law_quorum.specs.Nodes.{Node};

    ghost Value = { Node };

    ghost view = { λ d. record { image = d.image; batches = d.batches.items; end = d.end; leads = d.leads; settled = d.settled.items; own = d.own.items } };
}

impl Daemon {
    /// One that was handed nothing.
    pub fn new(alloc: Global) -> Daemon
        ensures { result ≡ new_node }
    {
        Daemon {
            image: None,
            batches: Vec::new(alloc),
            end: 0,
            leads: None,
            settled: Vec::new(alloc),
            own: Vec::new(alloc),
        }
    }

    /// It leads.
    pub fn leads(&self) -> bool
        ensures { result ≡ is_some self.now.leads }
    {
        self.leads.is_some()
    }

    /// It leads in this epoch.
    pub fn leads_in(&self, epoch: u64) -> bool
        ensures { result ≡ is_number self.now.leads epoch }
    {
        match self.leads {
            Some(it) => it == epoch,
            None => false,
        }
    }

    /// The place behind what is committed.
    pub fn end(&self) -> u128
        ensures { result ≡ self.now.end }
    {
        self.end
    }

    /// What it wrote ends at the place.
    pub fn wrote_up_to(&self, place: u64) -> bool
        ensures { result ≡ is_number (end_behind self.now.end self.now.own) place }
    {
        is_number(end_behind(self.end, self.own.as_slice()), place)
    }

    // ---- what an act changes

    /// It is handed a batch.
    pub fn read(&mut self, batch: &TapeBatch) -> Result<(), AllocError>
        ensures { OnOk result (self.new
            ≡ node_after self.old new_link (acts.Read batch.now)) }
    {
        self.batches.push(batch.copy())?;
        self.end = batch.end();
        Ok(())
    }

    /// It is handed an image.
    pub fn load(&mut self, image: &Image)
        ensures { self.new ≡ loaded self.old image.now }
    {
        self.image = Some(image.copy());
        self.batches.clear();
        self.end = image.offset as u128;
    }

    /// It is told to lead.
    pub fn begin(&mut self, held: &HeldLeadership)
        ensures { self.new ≡ told_to_lead self.old held.now.epoch }
    {
        self.leads = Some(held.epoch);
        self.settled.clear();
        self.own.clear();
    }

    /// It writes a batch.
    pub fn write(&mut self, batch: &TapeBatch) -> Result<(), AllocError>
        ensures { OnOk result (self.new
            ≡ node_after self.old new_link (acts.Write batch.now)) }
    {
        self.own.push(batch.copy())?;
        Ok(())
    }

    /// So many batches of its own are committed, up to the place.
    pub fn settle(&mut self, alloc: Global, count: usize, end: u64) -> Result<(), AllocError>
        ensures { OnOk result (self.new ≡ node_settled self.old count end) }
    {
        let rest = split(alloc, &mut self.own, count)?;
        append_copies(&mut self.batches, self.own.as_slice())?;
        append_copies(&mut self.settled, self.own.as_slice())?;
        self.own = rest;
        self.end = end as u128;
        Ok(())
    }

    /// It is told that it leads no more.
    pub fn give_up(&mut self)
        ensures { self.new ≡ after_loss self.old }
    {
        self.leads = None;
        self.settled.clear();
        self.own.clear();
    }
}

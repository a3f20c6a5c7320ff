//! A node's link, as a tape shows it.

ghost use Rattle.std.specs.Prelude.{◌≡◌, ℕ, [], ◌++◌, false, OnOk, is_some, length, reverse, nat_eq};
ghost use Rattle.std.specs.List.{list_any};
ghost use Rattle.std.specs.Option.{option_map_or};
ghost use Rattle.law_link.specs.Links.{idle};
ghost use Rattle.law_tape.specs.Equality.{begins_with, same_call, same_keep};
ghost use Rattle.kr_tape_judge.specs.Parts.{link_begun, link_passed, link_settled};
ghost use Rattle.law_tape.specs.declared.line.LinkAct.TheVariants as acts;
ghost use Rattle.law_tape.specs.Rules.{end_behind, has_first_at, holds_leadership, holds_epoch, is_empty, is_first, is_number, link_state_after, new_link};

use crate::lists::{begins_with, copies, end_behind, is_call, is_number, split};
use crate::store::TapeStore;
use kr_defs::Rows;
use law_tape::{AppendCall, HeldLeadership, Keep, TapeBatch};
use std::alloc::{AllocError, Global};
use std::marker::Model;

/// What a link knows, and what it did. The lists of what happened have the latest last.
#[derive(Drop)]
pub struct TapeLink {
    held: Option<HeldLeadership>,
    // The batches of the append whose answer it waits for, and those that it heard of behind them.
    asked: Vec<TapeBatch>,
    waits: Vec<TapeBatch>,
    // The batches that are under way from the daemon.
    pipe: Vec<TapeBatch>,
    // The epochs that it was told to have taken, and all calls that it ever made.
    won: Vec<u64>,
    calls: Vec<AppendCall>,
    keeps: Vec<Keep>,
}

impl Model for TapeLink {
    ghost use Rattle.law_link.specs.Links as link_words;

    ghost Value = { link_words.Link };

    ghost view = { λ l. record { held = l.held; asked = l.asked.items; waits = l.waits.items; pipe = l.pipe.items; won = l.won.items; calls = l.calls.items; keeps = l.keeps.items } };
}

impl TapeLink {
    /// One that did nothing.
    pub fn new(alloc: Global) -> TapeLink
        ensures { result ≡ new_link }
    {
        TapeLink {
            held: None,
            asked: Vec::new(alloc),
            waits: Vec::new(alloc),
            pipe: Vec::new(alloc),
            won: Vec::new(alloc),
            calls: Vec::new(alloc),
            keeps: Vec::new(alloc),
        }
    }

    /// It called for this append.
    pub fn made_call(&self, call: &AppendCall) -> bool
        ensures { result ≡ list_any (same_call call.now) (reverse self.now.calls) }
    {
        self.calls.iter().rev().any(|other| is_call(call, other))
    }

    /// It called for this image to be kept.
    pub fn gave(&self, keep: &Keep) -> bool
        ensures { result ≡ list_any (same_keep keep.now) (reverse self.now.keeps) }
    {
        self.keeps.iter().rev().any(|other| keep.is(other))
    }

    /// It was told that it took the epoch.
    pub fn was_told(&self, epoch: u64) -> bool
        ensures { result ≡ list_any (λ it. nat_eq it epoch) (reverse self.now.won) }
    {
        self.won.iter().rev().any(|it| *it == epoch)
    }

    /// It holds a leadership.
    pub fn holds_any(&self) -> bool
        ensures { result ≡ is_some self.now.held }
    {
        self.held.is_some()
    }

    /// It holds this leadership.
    pub fn holds(&self, held: &HeldLeadership) -> bool
        ensures { result ≡ holds_leadership self.now.held held.now }
    {
        match &self.held {
            Some(it) => it.is(held),
            None => false,
        }
    }

    /// It holds a leadership of this epoch.
    pub fn holds_epoch(&self, epoch: u64) -> bool
        ensures { result ≡ holds_epoch self.now.held epoch }
    {
        match &self.held {
            Some(it) => it.epoch == epoch,
            None => false,
        }
    }

    /// The batch is the next from the daemon.
    pub fn is_next(&self, batch: &TapeBatch) -> bool
        ensures { result ≡ is_first self.now.pipe batch.now }
    {
        match self.pipe.first() {
            Some(first) => first.is(batch),
            None => false,
        }
    }

    /// No append is under way.
    pub fn asks_nothing(&self) -> bool
        ensures { result ≡ is_empty self.now.asked }
    {
        self.asked.is_empty()
    }

    /// How many batches of an append are under way.
    pub fn asked_count(&self) -> usize
        ensures { result ≡ length self.now.asked }
    {
        self.asked.len()
    }

    /// The batches are the next that it heard of.
    pub fn waits_for(&self, group: &[TapeBatch]) -> bool
        ensures { result ≡ begins_with self.now.waits group.now }
    {
        begins_with(self.waits.as_slice(), group)
    }

    /// The first batch of the append that is under way stands in the log at the place.
    pub fn stands(&self, store: &TapeStore, place: u128) -> bool
        ensures { result ≡ has_first_at store.now self.now.asked place }
    {
        match self.asked.first() {
            Some(first) => store.has_at(first, place),
            None => false,
        }
    }

    /// What is under way is behind the one place, and ends at the other.
    pub fn asks_from_to(&self, from: u128, end: u64) -> bool
        ensures { result ≡ is_number (end_behind from self.now.asked) end }
    {
        is_number(end_behind(from, self.asked.as_slice()), end)
    }

    // ---- what an act changes

    /// It is told that it took a leadership.
    pub fn win(&mut self, held: &HeldLeadership) -> Result<(), AllocError>
        ensures { OnOk result (self.new ≡ link_state_after self.old (acts.Win held.now)) }
    {
        self.won.push(held.epoch)?;
        self.held = Some(held.copy());
        self.asked.clear();
        self.waits.clear();
        Ok(())
    }

    /// It makes its daemon lead.
    pub fn begin(&mut self)
        ensures { self.new ≡ link_begun self.old }
    {
        self.asked.clear();
        self.waits.clear();
    }

    /// A batch of the daemon is under way.
    pub fn send(&mut self, batch: &TapeBatch) -> Result<(), AllocError>
        ensures written { OnOk result (self.new
            ≡ link_state_after self.old (acts.Write batch.now)) }
        ensures stray { OnOk result (self.new
            ≡ link_state_after self.old (acts.Stray batch.now)) }
    {
        self.pipe.push(batch.copy())?;
        Ok(())
    }

    /// It takes a batch from the daemon.
    pub fn hear(&mut self, alloc: Global, batch: &TapeBatch) -> Result<(), AllocError>
        ensures { OnOk result (self.new ≡ link_state_after self.old (acts.Hear batch.now)) }
    {
        self.waits.push(batch.copy())?;
        self.pipe = split(alloc, &mut self.pipe, 1)?;
        Ok(())
    }

    /// It passes over a batch of the daemon.
    pub fn pass(&mut self, alloc: Global) -> Result<(), AllocError>
        ensures { OnOk result (self.new ≡ link_passed self.old) }
    {
        self.pipe = split(alloc, &mut self.pipe, 1)?;
        Ok(())
    }

    /// It calls for an append.
    pub fn ask(
        &mut self,
        alloc: Global,
        held: &HeldLeadership,
        group: &[TapeBatch],
    ) -> Result<(), AllocError>
        ensures { OnOk result (self.new
            ≡ link_state_after self.old (acts.Ask held.now group.now)) }
    {
        self.asked = copies(alloc, group)?;
        self.waits = split(alloc, &mut self.waits, group.len())?;
        self.calls.push(AppendCall {
            epoch: held.epoch,
            made: held.made,
            group: Rows::from_vec(copies(alloc, group)?),
        })?;
        Ok(())
    }

    /// It commits what was under way.
    pub fn settle(&mut self)
        ensures { self.new ≡ link_settled self.old }
    {
        self.asked.clear();
    }

    /// It calls for an image to be kept.
    pub fn give(&mut self, keep: &Keep) -> Result<(), AllocError>
        ensures { OnOk result (self.new ≡ link_state_after self.old (acts.Give keep.now)) }
    {
        self.keeps.push(keep.copy())?;
        Ok(())
    }

    /// It holds no leadership any more.
    pub fn let_go(&mut self)
        ensures { self.new ≡ idle self.old }
    {
        self.held = None;
        self.asked.clear();
        self.waits.clear();
    }

    /// Another one takes its place.
    pub fn renew(&mut self)
        ensures { self.new ≡ link_state_after self.old acts.Renew }
    {
        self.let_go();
        self.pipe.clear();
    }
}

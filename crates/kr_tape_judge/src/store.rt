//! The store as a tape shows it.

ghost use Rattle.std.specs.Prelude.{◌≡◌, ◌+◌, ◌++◌, [], ◌∷◌, true, OnOk, find, nat_eq, reverse};
ghost use Rattle.std.specs.List.{list_any};
ghost use Rattle.std.specs.Option.{option_map};
ghost use Rattle.law_quorum.specs.Batches.{offset_of_image};
ghost use Rattle.law_quorum.specs.Changes.{base_of_first, leads_by};
ghost use Rattle.law_tape.specs.declared.line.StoreChange.TheVariants as changes;
ghost use Rattle.law_tape.specs.Equality.{same_batch};
ghost use Rattle.law_tape.specs.Rules.{change_fault, end_behind, has_at, is_boundary, is_number, is_taken_by, new_link, nothing_stored, seen_fault, store_state_after, took};

use crate::link::TapeLink;
use crate::lists::{end_behind, is_number};
use law_tape::{AppendCall, Fault, HeldLeadership, Image, Keep, SeenKeys, StoreChange, TapeBatch};
use std::alloc::{AllocError, Global};
use std::collections::BTreeMap;
use std::marker::Model;

/// The batches of the log, in order.
#[derive(Drop)]
pub struct Log {
    list: Vec<TapeBatch>,
    // Where a batch of a place was put: only a hint.
    hints: BTreeMap<u64, usize>,
}

impl Model for Log {
    ghost use Rattle.std.specs.Prelude.{List};
    ghost use Rattle.law_quorum.specs.Batches as log_words;

    ghost Value = { List log_words.Batch };

    ghost view = { λ s. s.list.items };
}

impl Log {
    /// An empty log.
    pub fn new(alloc: Global) -> Log
        ensures { result ≡ [] }
    {
        Log {
            list: Vec::new(alloc),
            hints: BTreeMap::new(alloc),
        }
    }

    /// The batch stands in the log.
    pub fn has(&self, batch: &TapeBatch) -> bool
        ensures { result ≡ list_any (same_batch batch.now) self.now }
    {
        let hint = match self.hints.get(&batch.base) {
            Some(at) => *at,
            None => 0,
        };
        has_batch(self.list.as_slice(), hint, batch)
    }

    /// A batch ends at the place, or it is 0.
    pub fn has_boundary(&self, place: u128) -> bool
        ensures { result ≡ is_boundary self.now place }
    {
        0 == place || has_end(self.list.as_slice(), place)
    }

    fn push(&mut self, batch: TapeBatch) -> Result<(), AllocError>
        ensures { OnOk result (self.new ≡ self.old ++ batch ∷ []) }
    {
        self.hints.insert(batch.base, self.list.len())?;
        self.list.push(batch)?;
        Ok(())
    }

    /// Adds batches at the end.
    pub fn append(&mut self, group: &[TapeBatch]) -> Result<(), AllocError>
        ensures { OnOk result (self.new ≡ self.old ++ group.now) }
    {
        for batch in group {
            self.push(batch.copy())?;
        }
        Ok(())
    }
}

// A batch of the list ends at the place.
fn has_end(list: &[TapeBatch], place: u128) -> bool
    ensures { result ≡ list_any (λ b. nat_eq (b.base + b.count) place) list.now }
{
    list.iter().any(|batch| batch.end() == place)
}

// Looks at the place of the hint first.
fn has_batch(list: &[TapeBatch], hint: usize, batch: &TapeBatch) -> bool
    ensures { result ≡ list_any (same_batch batch.now) list.now }
{
    if stands_at(list, hint, batch) {
        return true;
    }
    list.iter().any(|other| batch.is(other))
}

fn stands_at(list: &[TapeBatch], hint: usize, batch: &TapeBatch) -> bool
    ensures { result ≡ true → list_any (same_batch batch.now) list.now ≡ true }
{
    match list.get(hint) {
        Some(other) => batch.is(other),
        None => false,
    }
}

/// The leader key: the node and the call that made it, and the revision at which it was made.
#[derive(Drop)]
pub struct LeaderKey {
    node: usize,
    token: u64,
    made: u64,
}

impl Model for LeaderKey {
    ghost use Rattle.law_quorum.specs.Changes.{Leader};

    ghost Value = { Leader };

    ghost view = { λ k. record { node = k.node; token = k.token; made = k.made } };
}

/// A leadership: its node, its epoch, the revision of its key, and the log's end when it began.
#[derive(Drop)]
pub struct Leadership {
    node: usize,
    epoch: u64,
    made: u64,
    start: u128,
}

impl Model for Leadership {
    ghost use Rattle.law_tape.specs.Rules.{TakenLeadership};

    ghost Value = { TakenLeadership };

    ghost view = { λ l. record { node = l.node; epoch = l.epoch; made = l.made; start = l.start } };
}

impl Leadership {
    fn is_of(&self, node: usize, held: &HeldLeadership) -> bool
        ensures { result ≡ is_taken_by node held.now self.now }
    {
        self.node == node && self.made == held.made && self.start == held.start as u128
    }
}

/// The store's keys, its log, and the leaderships that it saw.
#[derive(Drop)]
pub struct TapeStore {
    revision: u64,
    end: u128,
    epoch: u64,
    leader: Option<LeaderKey>,
    image: Option<Image>,
    log: Log,
    taken: Vec<Leadership>,
}

impl Model for TapeStore {
    ghost use Rattle.law_tape.specs.Rules.{StoreState};

    ghost Value = { StoreState };

    ghost view = { λ s. record { revision = s.revision; end = s.end; epoch = s.epoch; leader = s.leader; image = s.image; log = s.log; taken = s.taken.items } };
}

impl TapeStore {
    /// A store without keys.
    pub fn new(alloc: Global) -> TapeStore
        ensures { result ≡ nothing_stored }
    {
        TapeStore {
            revision: 0,
            end: 0,
            epoch: 0,
            leader: None,
            image: None,
            log: Log::new(alloc),
            taken: Vec::new(alloc),
        }
    }

    /// The batch stands at the place.
    pub fn has_at(&self, batch: &TapeBatch, place: u128) -> bool
        ensures { result ≡ has_at self.now batch.now place }
    {
        batch.begins_at(place) && self.log.has(batch)
    }

    /// A batch ends at the place, or it is 0.
    pub fn has_boundary(&self, place: u64) -> bool
        ensures { result ≡ is_boundary self.now.log place }
    {
        self.log.has_boundary(place as u128)
    }

    /// The node took this leadership.
    pub fn took(&self, node: usize, held: &HeldLeadership) -> bool
        ensures { result ≡ took (reverse self.now.taken) node held.now }
    {
        took(self.taken.as_slice(), node, held)
    }
}

fn took(taken: &[Leadership], node: usize, held: &HeldLeadership) -> bool
    ensures { result ≡ took (reverse taken.now) node held.now }
{
    match latest_of(taken, held.epoch) {
        Some(one) => one.is_of(node, held),
        None => false,
    }
}

// The latest leadership of the epoch.
fn latest_of(taken: &[Leadership], epoch: u64) -> Option<&Leadership>
    ensures { option_map (λ one. one.now) result
        ≡ find (λ l. nat_eq l.epoch epoch) (reverse taken.now) }
{
    taken.iter().rev().find(|one| one.epoch == epoch)
}

// ---- changes

impl TapeStore {
    /// Why the change isn't one that the store can have made; none where it is.
    pub fn fault(&self, link: &TapeLink, seen: &SeenKeys, change: &StoreChange) -> Option<Fault>
        ensures { result ≡ change_fault self.now link.now seen.now change.now }
    {
        match change {
            StoreChange::Append { call, .. } => self.append_fault(link, seen, call),
            StoreChange::Drop { keep, .. } => self.drop_fault(link, seen, keep),
            StoreChange::Campaign { epoch, .. } => self.campaign_fault(seen, *epoch),
            StoreChange::Expire => self.seen_fault(seen, Some(self.end), self.dropped_below()),
            StoreChange::Other => self.seen_fault(seen, Some(self.end), self.dropped_below()),
        }
    }

    fn append_fault(&self, link: &TapeLink, seen: &SeenKeys, call: &AppendCall) -> Option<Fault>
        ensures { result ≡ change_fault self.now link.now seen.now (changes.Append 0 call.now) }
    {
        if !link.made_call(call) {
            Some(Fault::NoCall)
        } else if !(self.leads_by(call.made) && self.end == base_of_first(call.group.as_slice())) {
            Some(Fault::OtherKeys)
        } else {
            self.seen_fault(
                seen,
                end_behind(self.end, call.group.as_slice()),
                self.dropped_below(),
            )
        }
    }

    fn drop_fault(&self, link: &TapeLink, seen: &SeenKeys, keep: &Keep) -> Option<Fault>
        ensures { result ≡ change_fault self.now link.now seen.now (changes.Drop 0 keep.now) }
    {
        if !link.gave(keep) {
            Some(Fault::NoKeep)
        } else if self.dropped_below() != keep.before {
            Some(Fault::OtherKeys)
        } else {
            self.seen_fault(seen, Some(self.end), keep.image.offset)
        }
    }

    fn campaign_fault(&self, seen: &SeenKeys, epoch: u64) -> Option<Fault>
        ensures { result ≡ change_fault self.now new_link seen.now (changes.Campaign 0 0 epoch) }
    {
        if !(self.leader.is_none() && self.epoch as u128 + 1 == epoch as u128) {
            Some(Fault::OtherKeys)
        } else {
            self.seen_fault(seen, Some(self.end), self.dropped_below())
        }
    }

    fn seen_fault(&self, seen: &SeenKeys, end: Option<u128>, first: u64) -> Option<Fault>
        ensures { result ≡ seen_fault self.now seen.now end first }
    {
        if self.revision as u128 + 1 != seen.revision as u128 {
            Some(Fault::OtherRevision)
        } else if !is_number(end, seen.end) {
            Some(Fault::OtherEnd)
        } else if first != seen.first {
            Some(Fault::OtherFirst)
        } else {
            None
        }
    }

    // The place before which batches were dropped.
    fn dropped_below(&self) -> u64
        ensures { result ≡ offset_of_image self.now.image }
    {
        match &self.image {
            Some(image) => image.offset,
            None => 0,
        }
    }

    fn leads_by(&self, made: u64) -> bool
        ensures { result ≡ leads_by self.now.leader made }
    {
        match &self.leader {
            Some(leader) => leader.made == made,
            None => false,
        }
    }

    /// Takes a change that the store can have made.
    pub fn take(&mut self, seen: &SeenKeys, change: &StoreChange) -> Result<(), AllocError>
        ensures { OnOk result (self.new ≡ store_state_after self.old seen.now change.now) }
    {
        match change {
            StoreChange::Append { call, .. } => self.append(seen, call),
            StoreChange::Drop { keep, .. } => {
                self.put_image(seen, keep);
                Ok(())
            }
            StoreChange::Campaign { node, token, epoch } => self.campaign(
                seen, *node, *token, *epoch,
            ),
            StoreChange::Expire => {
                self.expire(seen);
                Ok(())
            }
            StoreChange::Other => {
                self.revision = seen.revision;
                Ok(())
            }
        }
    }

    fn append(&mut self, seen: &SeenKeys, call: &AppendCall) -> Result<(), AllocError>
        ensures { OnOk result (self.new
            ≡ store_state_after self.old seen.now (changes.Append 0 call.now)) }
    {
        self.log.append(call.group.as_slice())?;
        self.end = seen.end as u128;
        self.revision = seen.revision;
        Ok(())
    }

    fn put_image(&mut self, seen: &SeenKeys, keep: &Keep)
        ensures { self.new ≡ store_state_after self.old seen.now (changes.Drop 0 keep.now) }
    {
        self.image = Some(keep.image.copy());
        self.revision = seen.revision;
    }

    fn campaign(
        &mut self,
        seen: &SeenKeys,
        node: usize,
        token: u64,
        epoch: u64,
    ) -> Result<(), AllocError>
        ensures { OnOk result (self.new
            ≡ store_state_after self.old seen.now (changes.Campaign node token epoch)) }
    {
        self.taken.push(Leadership {
            node,
            epoch,
            made: seen.revision,
            start: self.end,
        })?;
        self.leader = Some(LeaderKey {
            node,
            token,
            made: seen.revision,
        });
        self.epoch = epoch;
        self.revision = seen.revision;
        Ok(())
    }

    fn expire(&mut self, seen: &SeenKeys)
        ensures { self.new ≡ store_state_after self.old seen.now changes.Expire }
    {
        self.leader = None;
        self.revision = seen.revision;
    }
}

fn base_of_first(group: &[TapeBatch]) -> u128
    ensures { result ≡ base_of_first group.now }
{
    match group {
        [first, ..] => first.base as u128,
        [] => 0,
    }
}

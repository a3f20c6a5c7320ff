//! The engine: what it keeps, what it tells, and how its outputs are handed out.

ghost use Rattle.std.specs.Prelude.{◌≡◌, ◌++◌, [], ◌∷◌, option_to_list, IsTrue, IfOk, IfNone, Some};
ghost use Rattle.kr_defs.specs.OpenOptions.{are_options};
ghost use Rattle.kr_store.specs.Images.{AreValid};
ghost use Rattle.kr_model.specs.Engine.{IsEngine, IsSound, basis_of, outputs_left};
ghost use Rattle.kr_engine.specs.inner.Changes.{cleared_core, counted_core, new_core, refused_core};
ghost use Rattle.kr_engine.specs.inner.Ready.{IsReady};
ghost use Rattle.kr_model.specs.World as worlds;

use kr_base::NoMemory;
use kr_calls::{Entry, Output, Reason};
use kr_defs::{Basis, Options};
use kr_image::ImageStore;
use kr_model::{PastBasis, Write};
use kr_sessions::Sessions;
use kr_store::Store;
use std::alloc::Global;
use std::collections::VecDeque;
use std::marker::Model;
use std::mem;

/// A controller that takes one event after the other.
pub struct Engine {
    /// Where memory comes from.
    pub(crate) alloc: Global,
    /// The settings of the cluster, which never change.
    pub(crate) options: Options,
    /// The image at the tip, and those kept at the closed end and at the ends of the batches above it.
    pub(crate) store: ImageStore,
    /// Which brokers were heard of, and when, since this node leads.
    pub(crate) sessions: Sessions,
    /// The place of the next record.
    pub(crate) tip: i64,
    /// The place up to which the quorum has committed the log.
    pub(crate) committed: i64,
    /// The place up to which it is settled: that of the transaction that is open at the committed end, or that end.
    pub(crate) closed: i64,
    /// The leader epoch, while the node leads.
    pub(crate) leading: Option<i32>,
    /// The greatest leader epoch that it was told of, -1 before the first.
    pub(crate) greatest: i32,
    /// The number of events so far.
    pub(crate) count: u64,
    /// The greatest time so far, in milliseconds.
    pub(crate) time: i64,
    /// The place that the last leadership began at.
    pub(crate) led: i64,
    /// The writes whose replies are not handed out yet, in the order in which they were decided.
    pub(crate) held: VecDeque<Write>,
    /// The outputs of the last event that are not handed out yet.
    pub(crate) given: VecDeque<Output>,
    /// The refusal of the last event, until it is handed out.
    pub(crate) refusal: Option<Output>,
    /// The entries that the last step appended.
    pub(crate) fresh: Vec<Entry>,
}

// By hand: a crate that drops one calls this, where a derived drop is made and proved in each such crate anew.
impl Drop for Engine {
    fn drop(self) {
        let Engine {
            alloc,
            options,
            store,
            sessions,
            tip,
            committed,
            closed,
            leading,
            greatest,
            count,
            time,
            led,
            held,
            given,
            refusal,
            fresh,
        } = self;
    }
}

impl Model for Engine {
    ghost use Rattle.kr_model.specs.Engine.{Core};

    ghost Value = { Core };

    ghost view = { λ e. record {
      options = e.options;
      images = e.store;
      heard = e.sessions.heartbeats;
      tip = e.tip;
      committed = e.committed;
      closed = e.closed;
      leading = e.leading;
      greatest = e.greatest;
      count = e.count;
      time = e.time;
      led = e.led;
      held = e.held.items;
      given = e.given.items;
      refusal = e.refusal;
      fresh = e.fresh.items;
    } };
}

impl Engine {
    fn open(alloc: Global, options: Options) -> Result<Engine, NoMemory>
        ensures { IfOk result (λ e. e ≡ new_core options) }
    {
        let mut store = ImageStore::new(alloc);
        store.mark(0)?;
        Ok(Engine {
            alloc,
            options,
            store,
            sessions: Sessions::new(alloc),
            tip: 0,
            committed: 0,
            closed: 0,
            leading: None,
            greatest: -1,
            count: 0,
            time: 0,
            led: 0,
            held: VecDeque::new(alloc),
            given: VecDeque::new(alloc),
            refusal: None,
            fresh: Vec::new(alloc),
        })
    }

    /// An engine to which nothing has happened, on standby.
    #[tactic(auto, using(crate::proofs::NewEngines::opened_stands, crate::proofs::NewEngines::opened_drained, crate::proofs::NewEngines::opened_fresh))]
    pub fn new(alloc: Global, options: Options) -> Result<Engine, NoMemory>
        requires { IsTrue (are_options options) }
        ensures options { IfOk result (λ e. e.options ≡ options) }
        ensures stands { IfOk result (λ e. IsEngine e worlds.start []) }
        ensures sound { IfOk result (λ e. IsSound e) }
        ensures drained { IfOk result (λ e. outputs_left e ≡ []) }
        ensures fresh { IfOk result (λ e. e.fresh ≡ []) }
    {
        Engine::open(alloc, options)
    }

    /// The first place of the log that isn't written.
    pub fn tip(&self) -> i64
        ensures { result ≡ self.now.tip }
    {
        self.tip
    }

    /// The first place of the log that isn't committed.
    pub fn committed(&self) -> i64
        ensures { result ≡ self.now.committed }
    {
        self.committed
    }

    /// The first place of the log that isn't settled: that of the transaction that is open at the committed end, or that end
    /// where none is open (KIP-868).
    pub fn closed(&self) -> i64
        ensures { result ≡ self.now.closed }
    {
        self.closed
    }

    /// The epoch in which this node leads, none on standby.
    pub fn leading(&self) -> Option<i32>
        ensures { result ≡ self.now.leading }
    {
        self.leading
    }

    /// The image, with those at the closed end and at the ends of the batches above it.
    pub fn store(&self) -> &ImageStore
        ensures { result.now ≡ self.now.images }
    {
        &self.store
    }

    /// What the last event added to the log: its items with their places, or the records of an image in place of all that was
    /// before.
    pub fn fresh(&self) -> &[Entry]
        ensures { result.now ≡ self.now.fresh }
    {
        &self.fresh
    }

    /// What the last event added to the log, as `fresh` has it, which is handed out with this and told no more.
    #[tactic(auto, using(kr_model::proofs::SoundEngines::taken_sound))]
    pub fn take_fresh(&mut self) -> Vec<Entry>
        ensures items { result.items ≡ self.old.fresh }
        ensures taken { self.new ≡ record self.old { fresh = [] } }
        ensures sound { IsSound self.old → IsSound self.new }
    {
        mem::replace(&mut self.fresh, Vec::new(self.alloc))
    }

    /// A copy of what decisions rest on besides the image.
    pub fn basis(&self) -> Result<Basis, NoMemory>
        ensures { IfOk result (λ basis. basis ≡ basis_of self.now) }
    {
        Ok(Basis {
            time: self.time,
            led: self.led,
            contacts: self.sessions.contacts()?,
            stopping: self.sessions.stops()?,
        })
    }

    // The same for clauses alone, with no copy.
    pub(crate) fn past_basis(&self) -> PastBasis
        ensures { result ≡ basis_of self.now }
    {
        PastBasis::of(&self.time, &self.led, &self.sessions)
    }

    pub(crate) fn look_at_images(&self)
        ensures { AreValid self.now.images }
    {
        let _valid = self.store.counts();
    }

    // What the calls rest on.
    pub(crate) fn look_over(&self)
        requires sound { IsSound self.now }
        ensures ready { IsReady self.now }
        ensures valid { AreValid self.now.images }
    {
        self.look_at_images();
    }

    // What the last event added is told no more. It takes no memory.
    pub(crate) fn clear_fresh(&mut self)
        ensures { self.new ≡ cleared_core self.old }
    {
        self.fresh.clear();
    }

    pub(crate) fn count_event(&mut self)
        ensures { self.new ≡ counted_core self.old }
    {
        self.count = self.count.saturating_add(1);
    }

    pub(crate) fn refuse(&mut self, reason: Reason)
        ensures { self.new ≡ refused_core self.old reason }
    {
        let event = self.count.saturating_add(1);
        self.refusal = Some(Output::Refused { event, reason });
    }
}

//! Where memory is wanted, an event is taken back.

ghost use Rattle.std.specs.Prelude.{◌≡◌, ◌≤◌, ◌+◌, [], unwrap_or, OnOk, OnErr};
ghost use Rattle.std.specs.Int.{int_max};
ghost use Rattle.kr_store.specs.Images.{reverted};
ghost use Rattle.kr_engine.specs.inner.Changes.{cleared_core, counted_core};
ghost use Rattle.kr_engine.specs.inner.Lost.{reverting_steps};

use crate::Engine;
use kr_base::{NoEpoch, NoMemory, Steps};
use kr_calls::Entry;
use std::mem;
use std::sync::ledger::Ledger;

// What an event finds, to which the engine goes back where memory is wanted.
#[derive(Drop)]
pub(crate) struct Found {
    // The place of the next record.
    tip: i64,
    // The greatest time.
    time: i64,
    // What the event before added.
    fresh: Vec<Entry>,
}

impl Engine {
    // An event comes; nothing is added yet.
    pub(crate) fn begin(&mut self) -> Found
        ensures tip { result.tip ≡ self.old.tip }
        ensures time { result.time ≡ self.old.time }
        ensures fresh { result.fresh.items ≡ self.old.fresh }
        ensures begun { self.new ≡ cleared_core self.old }
    {
        Found {
            tip: self.tip,
            time: self.time,
            fresh: mem::replace(&mut self.fresh, Vec::new(self.alloc)),
        }
    }

    // An event comes at a time: the greatest time is at least this one.
    pub(crate) fn begin_at(&mut self, now: &i64) -> Found
        ensures tip { result.tip ≡ self.old.tip }
        ensures time { result.time ≡ self.old.time }
        ensures fresh { result.fresh.items ≡ self.old.fresh }
        ensures begun { self.new ≡ record self.old { time = int_max self.old.time now.now; fresh = [] } }
    {
        let found = self.begin();
        let now = *now;
        self.time = self.time.max(now);
        found
    }

    // The state that is kept under the place is the present one, and no later one is kept. It is always there.
    pub(crate) fn revert_to<L: Ledger>(&mut self, place: &i64, steps: &mut Steps<L>)
        ensures images { self.new ≡ record self.old { images = unwrap_or (reverted self.old.images place.now) self.old.images } }
        ensures bound { steps.new ≤ steps.old + reverting_steps self.old.images place.now }
        ensures later { steps.old ≤ steps.new }
    {
        match self.store.revert(*place, steps) {
            Ok(()) | Err(NoEpoch) => {}
        }
    }

    // The state of the tip that was found is the present one, and no later one is kept.
    fn go_back<L: Ledger>(&mut self, found: &Found, steps: &mut Steps<L>)
        ensures back { self.new ≡ record self.old { images = unwrap_or (reverted self.old.images found.now.tip) self.old.images; tip = found.now.tip } }
        ensures later { steps.old ≤ steps.new }
    {
        self.revert_to(&found.tip, steps);
        self.tip = found.tip;
    }

    // Where memory was wanted, the images are those that were found.
    pub(crate) fn undo_images<L: Ledger>(
        &mut self,
        settled: &Result<(), NoMemory>,
        found: &Found,
        steps: &mut Steps<L>,
    )
        ensures ok { OnOk settled.now (self.new ≡ self.old) }
        ensures err { OnErr settled.now (self.new ≡ record self.old { images = unwrap_or (reverted self.old.images found.now.tip) self.old.images; tip = found.now.tip }) }
        ensures still { OnOk settled.now (steps.new ≡ steps.old) }
        ensures later { steps.old ≤ steps.new }
    {
        if settled.is_err() {
            self.go_back(found, steps);
        }
    }

    fn take_back(&mut self, found: Found)
        ensures { self.new ≡ record self.old { time = found.time; given = []; fresh = found.fresh.items } }
    {
        let Found { time, fresh, .. } = found;
        self.time = time;
        self.given.clear();
        self.fresh = fresh;
    }

    // The event is counted; where memory was wanted, nothing of it stays.
    pub(crate) fn end(
        &mut self,
        settled: Result<(), NoMemory>,
        found: Found,
    ) -> Result<(), NoMemory>
        ensures same { result ≡ settled }
        ensures ok { OnOk settled (self.new ≡ counted_core self.old) }
        ensures err { OnErr settled (self.new ≡ record self.old { time = found.time; given = []; fresh = found.fresh.items }) }
    {
        match settled {
            Ok(()) => {
                self.count_event();
                Ok(())
            }
            Err(NoMemory) => {
                self.take_back(found);
                Err(NoMemory)
            }
        }
    }
}

//! What a copy keeps of the log: the state at the end of its entries, and those of the pinned places.

ghost use Rattle.std.specs.Prelude.{◌≡◌, ◌<◌, ◌&&◌, [], negsuc, int_lt, Ok, IsTrue, IsErr, IsSome, IfOk, MatchOption, MatchResult, not, true, false, OnOk, OnErr, Some, fold};
ghost use Rattle.std.specs.Ordering.{int_eq};
ghost use Rattle.kr_defs.specs.declared.limits.TheConstants.{PLACES_END as places_end};
ghost use Rattle.kr_defs.specs.Image.{empty};
ghost use Rattle.kr_calls.specs.Deciding.{apply_records};
ghost use Rattle.kr_calls.specs.SeatList.{is_new_pin, is_place_kept, lower, nothing_pinned, oldest_place, pinned_with, with_item, with_load, with_pin, without_pin};
ghost use Rattle.kr_store.specs.Images.{AreBegunFrom, AreValid, IsAbove, kept_at, kept_once, last_kept, marked, reverted};
ghost use Rattle.kr_store.specs.ItemAnswers.{AppliesAt, MayStand};
ghost use Rattle.kr_store.specs.declared.places.At.TheVariants as places;
ghost use Rattle.kr_view.specs.Pinned.{kept_image_at, log_in, reached_in};
ghost use Rattle.kr_view.specs.Runs.{AreNoSingles, is_single};
ghost use Rattle.kr_view.specs.Scans.{HasCopy, IsNotThere, IsOfCopy};
ghost use Rattle.kr_view.specs.Standing.{ComesTo, IsRunningAt, IsStandingAt, KeepsMore, Loads, StandsIf, run_with, with_run};
ghost use Rattle.kr_view.specs.Steps.{entries_of};

use crate::pins::Pins;
use crate::run::Step;
use crate::scans::ScanFault;
use kr_base::{NoEpoch, NoMemory, Steps};
use kr_calls::{Entry, Pin};
use kr_defs::limits::PLACES_END;
use kr_defs::{Item, Record};
use kr_image::ImageStore;
use kr_store::{ApplyFault, At, Seen, Store};
use std::alloc::Global;
use std::marker::{Brand, Model};
use std::sync::ledger::{Blank, Ledger};

/// A store that keeps the epochs of the end, which is the last, and of the pinned places. Its present state is that at the
/// end. It may keep others between them, and those at which the transactions began that are open there.
#[derive(Drop)]
pub(crate) struct Standing {
    store: ImageStore,
    end: i64,
    pins: Pins,
}

impl Model for Standing {
    ghost use Rattle.kr_calls.specs.SeatList.{PinnedLog};
    ghost use Rattle.kr_view.specs.Pinned.{log_in};
    ghost use Rattle.kr_view.specs.Standing.{IsStandingAt};

    ghost Value = { PinnedLog };

    ghost view = { λ s. log_in s.store s.end s.pins };

    ghost invariant = { λ s. IsStandingAt s.store s.end s.pins };
}

// Makes of the state what the item makes of it, which stands at the place.
fn apply_at<L: Ledger>(
    store: &mut ImageStore,
    place: &i64,
    item: &Item,
    steps: &mut Steps<L>,
) -> Result<(), ApplyFault>
    requires some { IsSome (last_kept store.old) }
    requires stands { MayStand store.old place.now item.now }
    ensures applied { AppliesAt store.old store.new result place.now item.now }
    ensures valid { AreValid store.old × AreValid store.new }
{
    let _counts = store.counts();
    store.apply_at(*place, item, steps)
}

// An item counts there.
fn counts(place: &i64, end: &i64) -> bool
    ensures { result ≡ (int_eq place.now end.now && int_lt place.now places_end) }
{
    *place == *end && *place < PLACES_END
}

// Applies an item, where it counts, and keeps besides the place of a begin. It answers the end. Without memory the state is
// one that was kept.
#[tactic(auto, using(crate::proofs::OpenTransactions::item_steps))]
fn apply_item<L: Ledger>(
    store: &mut ImageStore,
    end: &i64,
    place: &i64,
    item: &Item,
    steps: &mut Steps<L>,
) -> Result<i64, NoMemory>
    requires runs { IsRunningAt store.old end.now }
    ensures ok { IfOk result (λ next. reached_in store.new next
        ≡ with_item (reached_in store.old end.now) place.now item.now) }
    ensures comes { IfOk result (ComesTo store.old store.new end.now) }
    ensures kept { KeepsMore store.old store.new }
{
    if !counts(place, end) {
        return Ok(*end);
    }
    match apply_at(store, place, item, steps) {
        Ok(()) => Ok(*place + 1),
        Err(ApplyFault::IllFormed { .. }) => Ok(*end),
        Err(ApplyFault::NoMemory) => Err(NoMemory),
    }
}

// Applies an entry of a run, where it is an item. It answers the end. Without memory the state is one that was kept.
#[tactic(auto, using(crate::proofs::OpenTransactions::run_steps))]
fn apply_entry<L: Ledger>(
    store: &mut ImageStore,
    end: &i64,
    entry: &Entry,
    steps: &mut Steps<L>,
) -> Result<i64, NoMemory>
    requires runs { IsRunningAt store.old end.now }
    ensures ok { IfOk result (λ next. reached_in store.new next
        ≡ run_with (reached_in store.old end.now) entry.now) }
    ensures comes { IfOk result (ComesTo store.old store.new end.now) }
    ensures kept { KeepsMore store.old store.new }
{
    match entry {
        Entry::Item { place, item } => apply_item(store, end, place, item, steps),
        Entry::Load { .. } | Entry::Pin { .. } | Entry::Unpin { .. } => Ok(*end),
        Entry::Answer { .. } | Entry::Stop { .. } => Ok(*end),
    }
}

// Applies the items of a run. It answers the end. Without memory the state is one that was kept.
#[tactic(auto, using(crate::proofs::OpenTransactions::run_steps))]
fn apply_run<L: Ledger>(
    store: &mut ImageStore,
    end: &i64,
    entries: &[Entry],
    steps: &mut Steps<L>,
) -> Result<i64, NoMemory>
    requires runs { IsRunningAt store.old end.now }
    ensures ok { IfOk result (λ next. reached_in store.new next
        ≡ fold run_with (reached_in store.old end.now) entries.now) }
    ensures comes { IfOk result (ComesTo store.old store.new end.now) }
    ensures kept { KeepsMore store.old store.new }
{
    let mut at = *end;
    for entry in entries {
        at = apply_entry(store, &at, entry, steps)?;
    }
    Ok(at)
}

// Makes the state that was kept at the end the present one.
fn go_back<L: Ledger>(store: &mut ImageStore, end: &i64, steps: &mut Steps<L>)
    requires { IsSome (kept_at store.old end.now) }
    ensures back { reverted store.old end.now ≡ Some store.new }
    ensures valid { AreValid store.old }
{
    let _counts = store.counts();
    if store.revert(*end, steps).is_err() {
        unreachable!();
    }
}

// Keeps the present state at the end.
fn keep(store: &mut ImageStore, end: &i64) -> Result<(), NoMemory>
    requires { IsAbove store.old.kept end.now }
    ensures ok { OnOk result (store.new ≡ marked store.old end.now) }
    ensures err { OnErr result (store.new ≡ store.old) }
    ensures valid { AreValid store.old }
{
    let _counts = store.counts();
    store.mark(*end)
}

// The oldest epoch that is needed: that of the oldest place, or of the begin of the transaction that was open there.
fn oldest_needed(store: &ImageStore, pins: &Pins, end: &i64) -> i64
    requires { IsStandingAt store.now end.now pins.now }
    ensures low { int_lt (fold lower end.now pins.now) result ≡ false }
    ensures begun { AreBegunFrom store.now result }
{
    let oldest = pins.oldest(end);
    let _counts = store.counts();
    match store.open_at(at_epoch(&oldest)) {
        Ok(begin) => begin.unwrap_or(oldest),
        Err(NoEpoch) => oldest,
    }
}

// Drops what isn't needed.
fn forget<L: Ledger>(store: &mut ImageStore, pins: &Pins, end: &i64, steps: &mut Steps<L>)
    requires { IsStandingAt store.old end.now pins.now }
    ensures log { log_in store.new end.now pins.now ≡ log_in store.old end.now pins.now }
    ensures stands { IsStandingAt store.new end.now pins.now }
{
    store.forget_below(oldest_needed(store, pins, end), steps);
}

// Applies the items of a run, and keeps the state at its end, besides those of the pins. It answers the end. Without memory
// nothing changes.
fn advance<L: Ledger>(
    store: &mut ImageStore,
    pins: &Pins,
    end: &i64,
    entries: &[Entry],
    steps: &mut Steps<L>,
) -> Result<i64, NoMemory>
    requires stands { IsStandingAt store.old end.now pins.now }
    ensures ok { IfOk result (λ next. log_in store.new next pins.now ≡ with_run (log_in store.old
        end.now pins.now) entries.now) }
    ensures stands { IfOk result (λ next. IsStandingAt store.new next pins.now) }
    ensures err { OnErr result ((log_in store.new end.now pins.now ≡ log_in store.old end.now
        pins.now) × IsStandingAt store.new end.now pins.now) }
{
    let Ok(next) = apply_run(store, end, entries, steps) else {
        go_back(store, end, steps);
        return Err(NoMemory);
    };
    if next == *end {
        return Ok(next);
    }
    if let Err(NoMemory) = keep(store, &next) {
        go_back(store, end, steps);
        return Err(NoMemory);
    }
    forget(store, pins, &next, steps);
    Ok(next)
}

// Applies the records in order, up to one that has no meaning, and says whether all had one.
#[tactic(auto, unfolding(kr_defs::specs::Apply::apply))]
fn apply_all<L: Ledger>(
    store: &mut ImageStore,
    records: &[Record],
    steps: &mut Steps<L>,
) -> Result<bool, NoMemory>
    requires some { IsSome (last_kept store.old) }
    ensures stood { IfOk result (λ all. StandsIf all (apply_records store.old.tip records.now) store.new.tip) }
    ensures kept { store.new.kept ≡ store.old.kept }
    ensures calls { store.new.kept_made ≡ store.old.kept_made }
    ensures begun { OnOk result (store.new.begun ≡ store.old.begun) }
    ensures kept_begun { store.new.kept_begun ≡ store.old.kept_begun }
{
    for record in records {
        match store.apply_record(0, record, steps) {
            Ok(()) => {}
            Err(ApplyFault::IllFormed { .. }) => return Ok(false),
            Err(ApplyFault::NoMemory) => return Err(NoMemory),
        }
    }
    Ok(true)
}

// A store of the image that the records make, which stands at the offset; none where a record has no meaning.
fn store_of<L: Ledger>(
    alloc: Global,
    offset: &i64,
    records: &[Record],
    steps: &mut Steps<L>,
) -> Result<Option<ImageStore>, NoMemory>
    requires { IsTrue (int_lt (negsuc 0) offset.now) }
    ensures { IfOk result (λ made. MatchOption made (IsErr (apply_records empty records.now)) (λ s. (apply_records empty records.now ≡ Ok s.tip) × (s ≡ kept_once offset.now s.tip))) }
{
    let mut store = ImageStore::new(alloc);
    store.mark(-1)?;
    if !apply_all(&mut store, records, steps)? {
        return Ok(None);
    }
    store.mark(*offset)?;
    store.forget_below(*offset, steps);
    Ok(Some(store))
}

fn at_epoch(epoch: &i64) -> At
    ensures { result ≡ places.Epoch epoch.now }
{
    At::Epoch(*epoch)
}

impl Standing {
    /// The empty image, at place 0, and no pin.
    #[tactic(auto, using(crate::proofs::Kept::beginnings))]
    pub(crate) fn new(alloc: Global) -> Result<Standing, NoMemory>
        ensures { IfOk result (λ s. s ≡ nothing_pinned) }
    {
        let mut store = ImageStore::new(alloc);
        store.mark(0)?;
        Ok(Standing {
            store,
            end: 0,
            pins: Pins::new(alloc),
        })
    }

    #[tactic(auto, using(crate::proofs::Runs::run_is_log))]
    fn take_run<L: Ledger>(
        &mut self,
        entries: &[Entry],
        steps: &mut Steps<L>,
    ) -> Result<(), NoMemory>
        requires { AreNoSingles entries.now }
        ensures ok { OnOk result (self.new ≡ fold pinned_with self.old entries.now) }
        ensures err { OnErr result (self.new ≡ self.old) }
    {
        self.end = advance(&mut self.store, &self.pins, &self.end, entries, steps)?;
        Ok(())
    }

    // An image in place of all counts there.
    fn may_load(&self, offset: &i64) -> bool
        ensures value { result ≡ (not (int_lt offset.now self.now.at.end) && int_lt offset.now places_end) }
        ensures place { int_lt (negsuc 0) self.now.at.end ≡ true }
    {
        self.end <= *offset && *offset < PLACES_END
    }

    // The store of an image in place of all, where it counts.
    fn store_loaded<L: Ledger>(
        &self,
        alloc: Global,
        offset: &i64,
        records: &[Record],
        steps: &mut Steps<L>,
    ) -> Result<Option<ImageStore>, NoMemory>
        ensures { IfOk result (Loads self.now.at offset.now records.now) }
    {
        if !self.may_load(offset) {
            return Ok(None);
        }
        let made = store_of(alloc, offset, records, steps)?;
        Ok(made)
    }

    // All pins go, whether the image counts or not.
    #[tactic(auto, using(crate::proofs::Loaded::loads))]
    fn take_load<L: Ledger>(
        &mut self,
        alloc: Global,
        offset: &i64,
        records: &[Record],
        steps: &mut Steps<L>,
    ) -> Result<(), NoMemory>
        ensures ok { OnOk result (self.new ≡ record {
          at = with_load self.old.at offset.now
              records.now;
          pinned = [];
        }) }
        ensures err { OnErr result (self.new ≡ self.old) }
    {
        let pins = Pins::new(alloc);
        let Some(store) = self.store_loaded(alloc, offset, records, steps)? else {
            self.pins = pins;
            return Ok(());
        };
        *self = Standing {
            store,
            end: *offset,
            pins,
        };
        Ok(())
    }

    #[tactic(auto, using(crate::proofs::PinnedPlaces::pinned))]
    fn is_new(&self, pin: &Pin) -> bool
        ensures { result ≡ is_new_pin self.now.at self.now.pinned pin.now }
    {
        pin.place == self.end && !self.pins.has(pin)
    }

    // The image at the end is kept already.
    #[tactic(auto, using(crate::proofs::PinnedPlaces::taken))]
    fn take_pin(&mut self, pin: &Pin) -> Result<(), NoMemory>
        ensures ok { OnOk result (self.new ≡ record self.old {
          pinned = with_pin self.old.at
              self.old.pinned pin.now;
        }) }
        ensures err { OnErr result (self.new ≡ self.old) }
    {
        if self.is_new(pin) {
            self.pins.push(pin)?;
        }
        Ok(())
    }

    #[tactic(auto, using(crate::proofs::PinnedPlaces::taken))]
    fn take_unpin<L: Ledger>(&mut self, pin: &Pin, steps: &mut Steps<L>)
        ensures { self.new ≡ record self.old { pinned = without_pin self.old.pinned pin.now } }
    {
        self.pins.remove(pin);
        forget(&mut self.store, &self.pins, &self.end, steps);
    }

    fn take_single<L: Ledger>(
        &mut self,
        alloc: Global,
        entry: &Entry,
        steps: &mut Steps<L>,
    ) -> Result<(), NoMemory>
        requires { is_single entry.now ≡ true }
        ensures ok { OnOk result (self.new ≡ pinned_with self.old entry.now) }
        ensures err { OnErr result (self.new ≡ self.old) }
    {
        match entry {
            Entry::Load { offset, records } => self.take_load(
                alloc,
                offset,
                records.as_slice(),
                steps,
            ),
            Entry::Pin { pin } => self.take_pin(pin),
            Entry::Unpin { pin } => {
                self.take_unpin(pin, steps);
                Ok(())
            }
            Entry::Item { .. } | Entry::Answer { .. } | Entry::Stop { .. } => unreachable!(),
        }
    }

    fn take_counted<L: Ledger>(
        &mut self,
        alloc: Global,
        step: &Step,
        blank: Blank,
    ) -> Result<(), NoMemory>
        requires name { blank.name ≡ L.name }
        requires parts { blank.parts ≡ L.parts }
        requires some { 0 < L.parts }
        ensures ok { OnOk result (self.new ≡ fold pinned_with self.old (entries_of step.now)) }
        ensures err { OnErr result (self.new ≡ self.old) }
    {
        let mut steps: Steps<L> = Steps::new(blank);
        match step {
            Step::Run { run } => self.take_run(run.entries(), &mut steps),
            Step::Single { single } => self.take_single(alloc, single.entry(), &mut steps),
        }
    }

    /// The entries of one step more. Without memory nothing changes.
    pub(crate) fn take_in(&mut self, alloc: Global, step: &Step) -> Result<(), NoMemory>
        ensures ok { OnOk result (self.new ≡ fold pinned_with self.old (entries_of step.now)) }
        ensures err { OnErr result (self.new ≡ self.old) }
    {
        self.take_counted::<Brand>(alloc, step, Blank::new(1))
    }

    /// The end.
    pub(crate) fn end(&self) -> i64
        ensures { result ≡ self.now.at.end }
    {
        self.end
    }

    /// The store, whose present image is that at the end.
    pub(crate) fn store(&self) -> &ImageStore
        ensures { result.now.tip ≡ self.now.at.state.image }
    {
        &self.store
    }

    // The place is the end, or pinned.
    #[tactic(auto, using(crate::proofs::PinnedPlaces::pinned))]
    fn keeps(&self, place: &i64) -> bool
        ensures { result ≡ is_place_kept self.now place.now }
    {
        *place == self.end || self.pins.has_place(place)
    }

    #[tactic(auto, using(crate::proofs::PinnedPlaces::pinned))]
    fn oldest(&self) -> i64
        ensures { result ≡ oldest_place self.now }
    {
        self.pins.oldest(&self.end)
    }

    // Why the place isn't there.
    fn absence(&self, place: &i64) -> ScanFault
        requires { IsTrue (not (is_place_kept self.now place.now)) }
        ensures there { IsNotThere self.now place.now result }
        ensures copy { IsOfCopy result }
    {
        let oldest = self.oldest();
        if *place < oldest {
            ScanFault::Gone {
                asked: *place,
                oldest,
            }
        } else {
            ScanFault::NotKept { asked: *place }
        }
    }

    /// The image at a kept place.
    pub(crate) fn image_at(&self, place: &i64) -> Result<Seen<ImageStore>, ScanFault>
        ensures image { MatchResult result (λ seen. kept_image_at self.now place.now ≡ Some seen)
            (IsNotThere self.now place.now) }
        ensures copy { HasCopy result }
    {
        if !self.keeps(place) {
            return Err(self.absence(place));
        }
        match Seen::at(&self.store, at_epoch(place)) {
            Ok(seen) => Ok(seen),
            Err(NoEpoch) => unreachable!(),
        }
    }
}

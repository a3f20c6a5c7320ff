//! The image that a leading controller decides on.

ghost use Rattle.std.specs.Prelude.{◌≡◌, ◌∷◌, [], int_lt, IfOk, IsTrue, OnErr, OnOk, Some};
ghost use Rattle.kr_store.specs.Images.{IsAbove, forgotten, last_kept, marked};
ghost use Rattle.testlib_rule_answers.specs.Histories.{AreClosed, AreEpochs};

use crate::hearing::hear;
use crate::serving::{fence, serve};
use kr_base::{NoMemory, Steps};
use kr_calls::{Effect, Reply, Request};
use kr_defs::limits::PLACES_END;
use kr_defs::{Options, Record};
use kr_image::ImageStore;
use kr_sessions::{Context, Sessions};
use kr_store::{ApplyFault, Store};
use std::alloc::Global;
use std::marker::Model;
use std::sync::ledger::Ledger;
use testlib_words::RowFault;

/// An image, and the place of the next record, under which alone it is kept. No transaction is open in it.
#[derive(Drop)]
pub(crate) struct LeaderImage {
    store: ImageStore,
    place: i64,
}

impl Model for LeaderImage {
    ghost use Rattle.std.specs.Prelude.{ℤ, ◌∷◌, []};
    ghost use Rattle.kr_store.specs.Images.{Images};
    ghost use Rattle.testlib_rule_answers.specs.Histories.{AreClosed, AreEpochs};

    ghost Value = { Images × ℤ };

    ghost view = { λ l. (l.store, l.place) };

    ghost invariant = { λ l. AreEpochs l.store.kept (l.place ∷ []) × AreClosed l.store };
}

impl LeaderImage {
    /// Empty, at place 0.
    #[tactic(auto, using(crate::proofs::NextPlaces::epochs_begun, crate::proofs::ClosedImages::closed_begun))]
    pub(crate) fn new(alloc: Global) -> Result<LeaderImage, NoMemory> {
        let mut store = ImageStore::new(alloc);
        store.mark(0)?;
        Ok(LeaderImage { store, place: 0 })
    }

    /// Decides the request on the image as it is kept; its records are in the present image.
    pub(crate) fn decide<L: Ledger>(
        &mut self,
        alloc: Global,
        options: &Options,
        sessions: &Sessions,
        now: i64,
        request: &Request,
        answer: &mut Effect,
        steps: &mut Steps<L>,
    ) -> Result<(), RowFault> {
        let context = context_of(options, sessions, now, self.place);
        decide(alloc, &mut self.store, &context, request, answer, steps)
    }

    /// The same for the fencing of a broker.
    pub(crate) fn decide_fencing<L: Ledger>(
        &mut self,
        alloc: Global,
        options: &Options,
        sessions: &Sessions,
        now: i64,
        broker: &i32,
        answer: &mut Effect,
        steps: &mut Steps<L>,
    ) -> Result<(), RowFault> {
        let context = context_of(options, sessions, now, self.place);
        decide_fencing(alloc, &mut self.store, &context, broker, answer, steps)
    }

    /// The present image is the one after these records. Where they are those that were decided it is that already.
    pub(crate) fn settle<L: Ledger>(
        &mut self,
        records: &[Record],
        are_decided: bool,
        steps: &mut Steps<L>,
    ) -> Result<(), RowFault> {
        if are_decided {
            return Ok(());
        }
        go_back(&mut self.store, &self.place, steps);
        apply_all(&mut self.store, &self.place, records, steps)
    }

    /// Takes note of whom is heard of after the request, whose records are in the present image.
    pub(crate) fn hear(
        &self,
        sessions: &mut Sessions,
        now: i64,
        request: &Request,
        reply: &Reply,
    ) -> Result<(), RowFault> {
        hear(sessions, &self.store, now, self.place, request, reply)
    }

    /// Keeps the present image under the place behind so many records, and drops the one before.
    pub(crate) fn keep<L: Ledger>(
        &mut self,
        count: usize,
        steps: &mut Steps<L>,
    ) -> Result<(), RowFault> {
        if count == 0 {
            return Ok(());
        }
        let next = behind(self.place, count)?;
        advance(&mut self.store, &self.place, &next, steps)?;
        self.place = next;
        Ok(())
    }
}

fn context_of<'a>(options: &'a Options, sessions: &'a Sessions, now: i64, place: i64) -> Context<'a>
    ensures { result.place ≡ place }
{
    Context {
        options,
        sessions,
        now,
        place,
    }
}

// Makes the kept image the present one.
#[tactic(auto, using(crate::proofs::NextPlaces::leading, crate::proofs::ClosedImages::closed_back))]
fn go_back<L: Ledger>(store: &mut ImageStore, place: &i64, steps: &mut Steps<L>)
    requires kept { AreEpochs store.old.kept (place.now ∷ []) }
    requires closed { AreClosed store.old }
    ensures kept { AreEpochs store.new.kept (place.now ∷ []) }
    ensures closed { AreClosed store.new }
    ensures last { last_kept store.new ≡ Some (place.now, store.new.tip) }
{
    store.revert_to_last(steps);
}

#[tactic(auto, using(crate::proofs::NextPlaces::epochs_same, crate::proofs::ClosedImages::closed_decided))]
fn decide<L: Ledger>(
    alloc: Global,
    store: &mut ImageStore,
    context: &Context,
    request: &Request,
    answer: &mut Effect,
    steps: &mut Steps<L>,
) -> Result<(), RowFault>
    requires kept { AreEpochs store.old.kept (context.now.place ∷ []) }
    requires closed { AreClosed store.old }
    ensures kept { AreEpochs store.new.kept (context.entry.now.place ∷ []) }
    ensures closed { AreClosed store.new }
{
    if context.place < 0 || context.place > PLACES_END {
        return Err(RowFault::Fields);
    }
    go_back(store, &context.place, steps);
    Ok(serve(alloc, store, context, request, answer, steps)?)
}

#[tactic(auto, using(crate::proofs::NextPlaces::epochs_same, crate::proofs::ClosedImages::closed_decided))]
fn decide_fencing<L: Ledger>(
    alloc: Global,
    store: &mut ImageStore,
    context: &Context,
    broker: &i32,
    answer: &mut Effect,
    steps: &mut Steps<L>,
) -> Result<(), RowFault>
    requires kept { AreEpochs store.old.kept (context.now.place ∷ []) }
    requires closed { AreClosed store.old }
    ensures kept { AreEpochs store.new.kept (context.entry.now.place ∷ []) }
    ensures closed { AreClosed store.new }
{
    if context.place < 0 || context.place > PLACES_END {
        return Err(RowFault::Fields);
    }
    go_back(store, &context.place, steps);
    fence(alloc, store, context, broker, answer, steps)
}

// Applies the records.
fn apply_all<L: Ledger>(
    store: &mut ImageStore,
    place: &i64,
    records: &[Record],
    steps: &mut Steps<L>,
) -> Result<(), RowFault>
    requires kept { AreEpochs store.old.kept (place.now ∷ []) }
    requires closed { AreClosed store.old }
    ensures kept { AreEpochs store.new.kept (place.now ∷ []) }
    ensures closed { AreClosed store.new }
{
    for record in records {
        apply(store, place, record, steps)?;
    }
    Ok(())
}

#[tactic(auto, using(crate::proofs::NextPlaces::leading, testlib_rule_answers::proofs::ClosedStores::begins))]
fn apply<L: Ledger>(
    store: &mut ImageStore,
    place: &i64,
    value: &Record,
    steps: &mut Steps<L>,
) -> Result<(), RowFault>
    requires kept { AreEpochs store.old.kept (place.now ∷ []) }
    requires closed { AreClosed store.old }
    ensures kept { AreEpochs store.new.kept (place.now ∷ []) }
    ensures closed { AreClosed store.new }
{
    match store.apply_record(*place, value, steps) {
        Ok(()) => Ok(()),
        Err(ApplyFault::IllFormed { .. }) => Err(RowFault::Fields),
        Err(ApplyFault::NoMemory) => Err(RowFault::NoMemory),
    }
}

// The place behind so many records, where there is a later one.
fn behind(place: i64, count: usize) -> Result<i64, RowFault>
    ensures { IfOk result (λ next. IsTrue (int_lt place next)) }
{
    let Ok(count) = i64::try_from(count) else {
        return Err(RowFault::Fields);
    };
    match place.checked_add(count) {
        Some(next) if place < next => Ok(next),
        _ => Err(RowFault::Fields),
    }
}

// Keeps the present image under the next place alone.
#[tactic(auto, using(crate::proofs::NextPlaces::advancing))]
fn advance<L: Ledger>(
    store: &mut ImageStore,
    place: &i64,
    next: &i64,
    steps: &mut Steps<L>,
) -> Result<(), NoMemory>
    requires kept { AreEpochs store.old.kept (place.now ∷ []) }
    requires closed { AreClosed store.old }
    requires later { IsTrue (int_lt place.now next.now) }
    ensures ok { OnOk result (AreEpochs store.new.kept (next.now ∷ [])) }
    ensures err { OnErr result (AreEpochs store.new.kept (place.now ∷ [])) }
    ensures closed { AreClosed store.new }
{
    mark(store, next)?;
    forget_below(store, next, steps);
    Ok(())
}

fn mark(store: &mut ImageStore, epoch: &i64) -> Result<(), NoMemory>
    requires above { IsAbove store.old.kept epoch.now }
    requires closed { AreClosed store.old }
    ensures ok { OnOk result (store.new ≡ marked store.old epoch.now) }
    ensures err { OnErr result (store.new ≡ store.old) }
    ensures closed { AreClosed store.new }
{
    store.mark(*epoch)
}

fn forget_below<L: Ledger>(store: &mut ImageStore, epoch: &i64, steps: &mut Steps<L>)
    requires { AreClosed store.old }
    ensures left { store.new ≡ forgotten store.old epoch.now }
    ensures closed { AreClosed store.new }
{
    store.forget_below(*epoch, steps);
}

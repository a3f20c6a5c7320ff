//! One copy of what is shown, and how it takes in more.

ghost use Rattle.std.specs.Prelude.{◌≡◌, ◌<◌, [], IfOk, OnOk, OnErr, IsTrue, Some, fold};
ghost use Rattle.kr_calls.specs.Decide.{is_read, query};
ghost use Rattle.std.specs.Option.{option_copied};
ghost use Rattle.kr_calls.specs.SeatList.{end_of, image_of, loads_of, loads_with, stop_with};
ghost use Rattle.kr_view.specs.Looks.{looked};
ghost use Rattle.kr_view.specs.RecordPages.{IsRecordAt, IsRecordPage};
ghost use Rattle.kr_view.specs.Runs.{AreNoSingles};
ghost use Rattle.kr_view.specs.Scans.{AnswersAt, HasCopy, IsPage};
ghost use Rattle.kr_view.specs.Showing.{showing};
ghost use Rattle.kr_view.specs.ShownSteps.{with_step};
ghost use Rattle.kr_view.specs.Steps.{entries_of};

use crate::looks::{Look, look_at};
use crate::page::page_of;
use crate::record_key::RecordKey;
use crate::record_page::{record_of_key, record_page};
use crate::run::Step;
use crate::scans::{Page, ScanFault, ScanKey};
use crate::standing::Standing;
use crate::table::{Table, told_of};
use kr_base::{History, NoMemory, Shared};
use kr_calls::{Entry, Reply, Request};
use kr_defs::{Options, Record, Records};
use kr_image::ImageStore;
use kr_store::{At, Seen};
use left_right::Absorb;
use std::alloc::{AllocError, Global};
use std::marker::Model;

/// The images at the end of the entries and at the pinned places, what each seat was told last, the first stop, and how many
/// images there were in place of all. What was taken in is known to
/// proofs alone.
#[derive(Drop)]
pub(crate) struct Shown {
    options: Shared<Options>,
    alloc: Global,
    standing: Standing,
    table: Table,
    stop: Option<u64>,
    loads: u64,
    history: History<Step>,
}

impl Model for Shown {
    ghost use Rattle.kr_view.specs.Showing.{Showing, HoldsEntries, showing};
    ghost use Rattle.kr_view.specs.Steps.{entries_in};

    ghost Value = { Showing };

    ghost view = { λ s. showing s.options (entries_in s.history) };

    ghost invariant = { λ s. HoldsEntries s.standing s.table s.stop s.loads (entries_in s.history) };
}

fn stop_after(stop: Option<u64>, entry: &Entry) -> Option<u64>
    ensures { result ≡ stop_with stop entry.now }
{
    match (stop, entry) {
        (None, Entry::Stop { number }) => Some(*number),
        _ => stop,
    }
}

fn stop_after_all(stop: Option<u64>, entries: &[Entry]) -> Option<u64>
    ensures { result ≡ fold stop_with stop entries.now }
{
    let mut first = stop;
    for entry in entries {
        first = stop_after(first, entry);
    }
    first
}

fn stop_behind(stop: Option<u64>, step: &Step) -> Option<u64>
    ensures { result ≡ fold stop_with stop (entries_of step.now) }
{
    match step {
        Step::Run { run } => stop_after_all(stop, run.entries()),
        Step::Single { single } => stop_after(stop, single.entry()),
    }
}

// How many images in place of all there are behind one entry more.
fn loads_after(loads: u64, entry: &Entry) -> u64
    ensures { result ≡ loads_with loads entry.now }
{
    match entry {
        Entry::Load { .. } => loads.saturating_add(1),
        _ => loads,
    }
}

// A run has none.
#[tactic(auto, using(crate::proofs::Runs::no_loads))]
fn same_loads(loads: u64, entries: &[Entry]) -> u64
    requires { AreNoSingles entries.now }
    ensures { result ≡ fold loads_with loads entries.now }
{
    let _run = entries;
    loads
}

fn loads_behind(loads: u64, step: &Step) -> u64
    ensures { result ≡ fold loads_with loads (entries_of step.now) }
{
    match step {
        Step::Run { run } => same_loads(loads, run.entries()),
        Step::Single { single } => loads_after(loads, single.entry()),
    }
}

impl Shown {
    /// Nothing is shown yet.
    pub(crate) fn new(alloc: Global, options: Shared<Options>) -> Result<Shown, NoMemory>
        ensures { IfOk result (λ s. s ≡ showing options []) }
    {
        Ok(Shown {
            options,
            alloc,
            standing: Standing::new(alloc)?,
            table: Table::new(alloc)?,
            stop: None,
            loads: 0,
            history: History::new(),
        })
    }

    // The entries of one step more. Without memory nothing changes.
    fn take_in(&mut self, step: &Step) -> Result<(), NoMemory>
        ensures ok { OnOk result (self.new ≡ with_step self.old step.now) }
        ensures err { OnErr result (self.new ≡ self.old) }
    {
        let told = told_of(self.alloc, step)?;
        self.standing.take_in(self.alloc, step)?;
        self.table.note_all(told);
        self.stop = stop_behind(self.stop, step);
        self.loads = loads_behind(self.loads, step);
        self.history = self.history.and(step);
        Ok(())
    }

    /// The end of the entries.
    #[tactic(auto, using(crate::proofs::PinnedPlaces::ends))]
    pub(crate) fn end(&self) -> i64
        ensures { result ≡ end_of self.now.list }
    {
        self.standing.end()
    }

    /// How many images in place of all there are among the entries; the number stands still at the greatest u64.
    pub(crate) fn loads(&self) -> u64
        ensures { result ≡ loads_of self.now.list }
    {
        self.loads
    }

    // The image at a kept place.
    fn image_at(&self, place: &i64) -> Result<Seen<ImageStore>, ScanFault>
        ensures answer { AnswersAt self.now.list place.now (λ image seen. seen ≡ image) result }
        ensures copy { HasCopy result }
    {
        self.standing.image_at(place)
    }

    /// The first partitions behind a key, at a kept place.
    pub(crate) fn scan(
        &self,
        place: &i64,
        after: Option<&ScanKey>,
        max: u32,
    ) -> Result<Page, ScanFault>
        ensures answer { AnswersAt self.now.list place.now (IsPage (option_copied after.entry) max)
            result }
        ensures copy { HasCopy result }
    {
        let seen = self.image_at(place)?;
        match page_of(self.alloc, &seen, after, max) {
            Ok(page) => Ok(page),
            Err(NoMemory) => Err(ScanFault::NoMemory),
        }
    }

    /// The first records behind a key, at a kept place.
    pub(crate) fn records(
        &self,
        place: &i64,
        after: Option<&RecordKey>,
        max: u32,
    ) -> Result<Records, ScanFault>
        ensures answer { AnswersAt self.now.list place.now (IsRecordPage (option_copied
            after.entry) max) result }
        ensures copy { HasCopy result }
    {
        let seen = self.image_at(place)?;
        match record_page(self.alloc, &seen, after, max) {
            Ok(records) => Ok(records),
            Err(NoMemory) => Err(ScanFault::NoMemory),
        }
    }

    /// The record of a key, at a kept place.
    pub(crate) fn record(&self, place: &i64, key: &RecordKey) -> Result<Option<Record>, ScanFault>
        ensures answer { AnswersAt self.now.list place.now (IsRecordAt key.now) result }
        ensures copy { HasCopy result }
    {
        let seen = self.image_at(place)?;
        match record_of_key(self.alloc, &seen, key) {
            Ok(record) => Ok(record),
            Err(NoMemory) => Err(ScanFault::NoMemory),
        }
    }

    /// The reply to a read, on the image at the end of the entries.
    #[tactic(auto, using(crate::proofs::Replied::no_read_without_reply, crate::proofs::PinnedPlaces::ends))]
    pub(crate) fn reply(&self, request: &Request) -> Result<Reply, NoMemory>
        requires { IsTrue (is_read request.now) }
        ensures { IfOk result (λ reply. query self.now.options (image_of self.now.list) request.now ≡ Some reply) }
    {
        let store = self.standing.store();
        match kr_handlers::read(self.alloc, store, At::Tip, self.options.get(), request) {
            Ok(Some(reply)) => Ok(reply),
            Ok(None) => unreachable!(),
            Err(_) => Err(NoMemory),
        }
    }

    /// What the entries say of a seat's ticket.
    pub(crate) fn look(&self, seat: u32, ticket: u64) -> Result<Look, NoMemory>
        requires { seat < 65 }
        ensures { IfOk result (λ look. look ≡ looked seat ticket self.now.list) }
    {
        look_at(self.table.of(seat), self.stop, ticket)
    }
}

impl Absorb<Step> for Shown {
    ghost use Rattle.kr_view.specs.ShownSteps.{with_step};

    type State = Shown;

    ghost state = { λ s. s };

    ghost applied = { with_step };

    fn absorb_first(&mut self, operation: &Step, _other: &Shown) -> Result<(), AllocError> {
        match self.take_in(operation) {
            Ok(()) => Ok(()),
            Err(NoMemory) => Err(AllocError),
        }
    }
}

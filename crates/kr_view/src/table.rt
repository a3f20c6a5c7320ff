//! What all seats were told last.

ghost use Rattle.std.specs.Prelude.{◌≡◌, ◌<◌, length, None, IfOk, OnOk, slice_index_or, fold};
ghost use Rattle.kr_calls.specs.SeatList.{is_older};
ghost use Rattle.kr_view.specs.Steps.{entries_of};
ghost use Rattle.kr_view.specs.Tables.{nothing_told, noted, told_among, told_by, told_more};

use crate::run::Step;
use core::slice::from_ref;
use kr_base::NoMemory;
use kr_calls::{Entry, SeatEntry};
use std::alloc::Global;
use std::collections::VecDeque;
use std::marker::Model;

// A place for each seat from 1 to 64, and one that is not used.
const PLACES: usize = 65;

/// What each seat was told last.
#[derive(Drop)]
pub(crate) struct Table {
    seats: Vec<Option<SeatEntry>>,
}

impl Model for Table {
    ghost use Rattle.std.specs.Prelude.{List, Option};
    ghost use Rattle.kr_calls.specs.declared.seat_entry.SeatEntry.{SeatEntry as AnyEntry};

    ghost Value = { List (Option AnyEntry) };

    ghost view = { λ s. s.seats.items };
}

// What the entry tells a seat, where it does.
fn told_by(entry: &Entry) -> Result<Option<SeatEntry>, NoMemory>
    ensures { IfOk result (λ told. told ≡ told_by entry.now) }
{
    match entry {
        Entry::Item { .. } | Entry::Load { .. } | Entry::Stop { .. } => Ok(None),
        Entry::Pin { pin } => Ok(Some(SeatEntry::Pin { pin: *pin })),
        Entry::Unpin { pin } => Ok(Some(SeatEntry::Unpin { pin: *pin })),
        Entry::Answer { answer } => {
            let answer = answer.again()?;
            Ok(Some(SeatEntry::Answer { answer }))
        }
    }
}

fn add_told(all: &mut VecDeque<SeatEntry>, told: Option<SeatEntry>) -> Result<(), NoMemory>
    ensures { OnOk result (all.new.items ≡ told_more all.old.items told) }
{
    if let Some(told) = told {
        all.push_back(told)?;
    }
    Ok(())
}

// What the entries tell the seats, in order.
fn told_among(alloc: Global, entries: &[Entry]) -> Result<VecDeque<SeatEntry>, NoMemory>
    ensures { IfOk result (λ told. told.items ≡ told_among entries.now) }
{
    let mut all = VecDeque::new(alloc);
    for entry in entries {
        let told = told_by(entry)?;
        add_told(&mut all, told)?;
    }
    Ok(all)
}

/// What the seats are told by what a copy takes in, in order.
pub(crate) fn told_of(alloc: Global, step: &Step) -> Result<VecDeque<SeatEntry>, NoMemory>
    ensures { IfOk result (λ told. told.items ≡ told_among (entries_of step.now)) }
{
    match step {
        Step::Run { run } => told_among(alloc, run.entries()),
        Step::Single { single } => told_among(alloc, from_ref(single.entry())),
    }
}

// It has a smaller ticket than the one that is there.
fn is_older(told: &SeatEntry, last: &Option<SeatEntry>) -> bool
    ensures { result ≡ is_older told.now last.now }
{
    match last {
        Some(last) => told.ticket() < last.ticket(),
        None => false,
    }
}

impl Table {
    pub(crate) fn new(alloc: Global) -> Result<Table, NoMemory>
        ensures { IfOk result (λ table. table ≡ nothing_told) }
    {
        let mut seats = Vec::new(alloc);
        for made in 0..PLACES {
            seats.push(None)?;
        }
        Ok(Table { seats })
    }

    // What a seat is told takes the place of what isn't later.
    fn note(&mut self, told: SeatEntry)
        ensures { self.new ≡ noted self.old told }
    {
        let seat = told.seat() as usize;
        if seat < self.seats.len() && !is_older(&told, &self.seats[seat]) {
            self.seats[seat] = Some(told);
        }
    }

    /// What the seats are told, one after the other.
    pub(crate) fn note_all(&mut self, all: VecDeque<SeatEntry>)
        ensures { self.new ≡ fold noted self.old all.items }
    {
        let mut left = all;
        while let Some(told) = left.pop_front() {
            self.note(told);
        }
    }

    /// What a seat was told last.
    pub(crate) fn of(&self, seat: u32) -> &Option<SeatEntry>
        requires { seat < length self.now }
        ensures { result.now ≡ slice_index_or self.now seat None }
    {
        &self.seats[seat as usize]
    }
}

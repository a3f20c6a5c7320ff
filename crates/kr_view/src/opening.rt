//! How the publisher and the seats are made.

ghost use Rattle.std.specs.Prelude.{◌≡◌, ◌<◌, ◌≤◌, true, [], MatchResult, MatchOption, IfOk, drop, length};
ghost use Rattle.left_right.specs.Sides.{view};
ghost use Rattle.kr_base.specs.Causes.{Rose};
ghost use Rattle.kr_view.specs.CopiesRule.{seen};
ghost use Rattle.kr_view.specs.Opened.{AreSeats, IsOpened, IsViewCause};
ghost use Rattle.kr_view.specs.Showing.{showing};

use crate::publisher::Publisher;
use crate::rule::{CopiesRule, Note, ThreadView};
use crate::seat::ReaderSeat;
use crate::shown::Shown;
use crate::window::{Copies, show};
use kr_base::{NoMemory, Shared};
use kr_defs::{Options, Rows};
use left_right::reader::Reader;
use left_right::writer::Writer;
use std::alloc::{AllocError, Global};
use std::sync::Wait;

/// The seats of readers: number 1, number 2 and so on.
pub type ReaderSeats = Rows<ReaderSeat>;

/// The lines that ask the reader crate for places. A trusted edge: only here is a refusal counted.
#[derive(Drop)]
pub struct Opening {
    // How many places were refused; the count stands still at the greatest u64.
    refused: u64,
}

/// Why nothing was opened.
#[derive(Clone, Copy, Debug, Drop, PartialEq, Eq)]
pub enum ViewFault {
    /// The reader crate had no place for a seat.
    NoPlace,
    /// There was no memory.
    NoMemory,
}

impl Opening {
    /// Nothing was refused yet.
    pub fn new() -> Opening
        ensures { result.refused ≡ 0 }
    {
        Opening { refused: 0 }
    }

    /// How often a place was refused; the count stands still at the greatest u64.
    pub fn refusals(&self) -> u64
        ensures { result ≡ self.now.refused }
    {
        self.refused
    }

    // One more reader, which has seen what the writer has. Where the crate refuses it, the count rises.
    fn place(&mut self, copies: &mut Copies) -> Option<Reader<Shown, ThreadView, CopiesRule>>
        ensures copies { (copies.new.desk.shown ≡ copies.old.desk.shown) × (copies.new.log ≡ copies.old.log) × (copies.new.behind ≡ copies.old.behind) }
        ensures seen { view copies.new.desk.place ≡ view copies.old.desk.place }
        ensures place { MatchOption result (Rose self.old.refused self.new.refused) (λ r. (view r.place ≡ view copies.old.desk.place) × (self.new.refused ≡ self.old.refused)) }
    {
        match copies.factory().reader() {
            Ok(mut reader) => {
                reader.learn::<Note>(copies.tell::<Note>());
                Some(reader)
            }
            Err(_) => {
                self.refused = self.refused.saturating_add(1);
                None
            }
        }
    }
}

// A seat for each number from 1 on.
fn first_seats(
    alloc: Global,
    opening: &mut Opening,
    copies: &mut Copies,
    readers: u32,
) -> Result<ReaderSeats, ViewFault>
    requires readers { readers ≤ 64 }
    requires view { view copies.old.desk.place ≡ seen true copies.old.desk.shown.value.options [] }
    ensures copies { (copies.new.desk.shown ≡ copies.old.desk.shown) × (copies.new.log ≡ copies.old.log) × (copies.new.behind ≡ copies.old.behind) }
    ensures seats { MatchResult result (λ v. (length v ≡ readers) × AreSeats copies.old.desk.shown.value.options v) (IsViewCause opening.old.refused opening.new.refused) }
{
    let mut made = ReaderSeats::new(alloc);
    for count in 0..readers {
        let Some(reader) = opening.place(copies) else {
            return Err(ViewFault::NoPlace);
        };
        if made.push(ReaderSeat::new(count + 1, reader)).is_err() {
            return Err(ViewFault::NoMemory);
        }
    }
    Ok(made)
}

// Copies that show an empty list, which the writer has seen.
fn first_copies<R: Wait>(
    rt: &R,
    alloc: Global,
    options: Options,
    readers: u32,
) -> Result<Copies, NoMemory>
    requires { (0 < readers) × (readers ≤ 64) }
    ensures { IfOk result (λ c. (c.desk.shown.value ≡ showing options []) × (drop c.behind c.log.items ≡ []) × (view c.desk.place ≡ seen true options [])) }
{
    let options = Shared::new(alloc, options)?;
    let first = Shown::new(alloc, options.again()?)?;
    let second = Shown::new(alloc, options)?;
    let writer = Writer::new(alloc, first, second, readers as usize)?;
    let (writer, shown) = show(writer, rt);
    if let Err(_) = shown {
        drop(writer.take(rt));
        return Err(NoMemory);
    }
    Ok(writer)
}

/// A publisher that shows an empty list, and so many seats, from 1 to 64, that have seen it. NoPlace only where the reader
/// crate had no place for a seat.
pub fn open<R: Wait>(
    rt: &R,
    alloc: Global,
    opening: &mut Opening,
    options: Options,
    readers: u32,
) -> Result<(Publisher, ReaderSeats), ViewFault>
    requires { (0 < readers) × (readers ≤ 64) }
    ensures { MatchResult result (λ r. IsOpened options readers r.0 r.1) (IsViewCause opening.old.refused opening.new.refused) }
{
    let Ok(mut copies) = first_copies(rt, alloc, options, readers) else {
        return Err(ViewFault::NoMemory);
    };
    match first_seats(alloc, opening, &mut copies, readers) {
        Ok(seats) => Ok((Publisher::new(alloc, copies), seats)),
        Err(fault) => {
            drop(copies.take(rt));
            Err(fault)
        }
    }
}

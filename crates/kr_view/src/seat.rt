//! A reader's seat.

ghost use Rattle.std.specs.Prelude.{◌≡◌, ◌≤◌, [], Some, IfOk, IsTrue, OnOk};
ghost use Rattle.left_right.specs.Sides.{view};
ghost use Rattle.kr_calls.specs.Decide.{is_read, query};
ghost use Rattle.std.specs.Option.{option_copied};
ghost use Rattle.kr_calls.specs.SeatList.{IsClosedList, end_of, image_of, loads_of};
ghost use Rattle.kr_view.specs.AtomicSteps.{all_seen};
ghost use Rattle.kr_view.specs.Edges.{seen_by};
ghost use Rattle.kr_view.specs.Looks.{IsLook};
ghost use Rattle.kr_view.specs.Seats.{Onward};
ghost use Rattle.kr_view.specs.HeldEdges.{HasEdgeCause, edge_reading};
ghost use Rattle.kr_view.specs.Readers.{HasScanCause};
ghost use Rattle.kr_view.specs.RecordPages.{IsRecordAt, IsRecordPage};
ghost use Rattle.kr_view.specs.Scans.{AnswersAt, IsPage};

use crate::edge::{Edge, Entered};
use crate::looks::Look;
use crate::record_key::RecordKey;
use crate::record_reader::RecordReader;
use crate::rule::{CopiesRule, ThreadView};
use crate::scans::{Page, ScanFault, ScanKey};
use crate::shown::Shown;
use core::mem::replace_with;
use kr_base::NoMemory;
use kr_calls::{Call, Reply};
use kr_defs::{Record, Records};
use left_right::reader::Reader;
use std::marker::Model;

/// Why a seat has no answer.
#[derive(Clone, Copy, Debug, Drop, PartialEq, Eq)]
pub enum CopyFault {
    /// The reader crate gave the seat no copy.
    NoCopy,
    /// There was no memory for the answer.
    NoMemory,
}

// A reader, with the end of the list that it has seen, and how many images in place of all that has.
#[derive(Drop)]
struct Held {
    edge: Edge,
    end: i64,
    loads: u64,
    ghost end_is: { end ≡ end_of (seen_by edge).list },
    ghost loads_is: { loads ≡ loads_of (seen_by edge).list },
}

impl Held {
    // A reader that gives its copy back.
    fn behind(entered: Entered) -> Held
        requires { view entered.reading.place ≡ all_seen entered.reading.part.value }
        ensures seen { seen_by result.edge ≡ view entered.reading.place }
        ensures misses { result.edge.misses ≡ entered.misses }
    {
        let end = entered.get().end();
        let loads = entered.get().loads();
        let edge = entered.leave();
        Held { edge, end, loads }
    }
}

/// The seat of one reader. It sees a list of entries, and each look into the copies may take it further.
#[derive(Drop)]
pub struct ReaderSeat {
    // The seat's number, from 1.
    number: u32,
    // The reader, with the list that it has seen.
    held: Held,
    ghost placed: { number ≤ 64 },
}

impl Model for ReaderSeat {
    ghost use Rattle.kr_view.specs.Seats.{Seat};

    ghost Value = { Seat };

    ghost use Rattle.kr_view.specs.Reader.{seat_of};

    ghost view = { seat_of };
}

fn look_once(held: Held, number: u32, ticket: u64) -> (Held, Result<Look, CopyFault>)
    requires { number ≤ 64 }
    ensures onward { Onward (seen_by held.edge) (seen_by result.0.edge) }
    ensures found { IfOk result.1 (λ look. IsLook (seen_by result.0.edge) number ticket look) }
    ensures cause { HasEdgeCause held.edge result.0.edge result.1 }
{
    let Held { edge, end, loads } = held;
    match edge.enter() {
        Ok(entered) => {
            let found = entered.get().look(number, ticket);
            let held = Held::behind(entered);
            match found {
                Ok(look) => (held, Ok(look)),
                Err(NoMemory) => (held, Err(CopyFault::NoMemory)),
            }
        }
        Err(edge) => (Held { edge, end, loads }, Err(CopyFault::NoCopy)),
    }
}

fn read_once(held: Held, call: &Call) -> (Held, Result<Reply, CopyFault>)
    requires { IsTrue (is_read call.now.request) }
    ensures onward { Onward (seen_by held.edge) (seen_by result.0.edge) }
    ensures closed { OnOk result.1 (IsClosedList (seen_by result.0.edge).list) }
    ensures reply { IfOk result.1 (λ reply. query (seen_by result.0.edge).options (image_of (seen_by result.0.edge).list) call.now.request ≡ Some reply) }
    ensures cause { HasEdgeCause held.edge result.0.edge result.1 }
{
    let Held { edge, end, loads } = held;
    match edge.enter() {
        Ok(entered) => {
            let reply = entered.get().reply(&call.request);
            let held = Held::behind(entered);
            match reply {
                Ok(reply) => (held, Ok(reply)),
                Err(NoMemory) => (held, Err(CopyFault::NoMemory)),
            }
        }
        Err(edge) => (Held { edge, end, loads }, Err(CopyFault::NoCopy)),
    }
}

#[tactic(auto, using(crate::proofs::Misses::with_copy))]
fn scan_once(
    held: Held,
    place: &i64,
    after: Option<&ScanKey>,
    max: u32,
) -> (Held, Result<Page, ScanFault>)
    ensures onward { Onward (seen_by held.edge) (seen_by result.0.edge) }
    ensures page { AnswersAt (seen_by result.0.edge).list place.now (IsPage (option_copied
        after.entry) max) result.1 }
    ensures cause { HasScanCause (edge_reading held.edge) (edge_reading result.0.edge) result.1 }
{
    let Held { edge, end, loads } = held;
    match edge.enter() {
        Ok(entered) => {
            let page = entered.get().scan(place, after, max);
            (Held::behind(entered), page)
        }
        Err(edge) => (Held { edge, end, loads }, Err(ScanFault::NoCopy)),
    }
}

#[tactic(auto, using(crate::proofs::Misses::with_copy))]
fn records_once(
    held: Held,
    place: &i64,
    after: Option<&RecordKey>,
    max: u32,
) -> (Held, Result<Records, ScanFault>)
    ensures onward { Onward (seen_by held.edge) (seen_by result.0.edge) }
    ensures records { AnswersAt (seen_by result.0.edge).list place.now (IsRecordPage
        (option_copied after.entry) max) result.1 }
    ensures cause { HasScanCause (edge_reading held.edge) (edge_reading result.0.edge) result.1 }
{
    let Held { edge, end, loads } = held;
    match edge.enter() {
        Ok(entered) => {
            let records = entered.get().records(place, after, max);
            (Held::behind(entered), records)
        }
        Err(edge) => (Held { edge, end, loads }, Err(ScanFault::NoCopy)),
    }
}

#[tactic(auto, using(crate::proofs::Misses::with_copy))]
fn record_once(
    held: Held,
    place: &i64,
    key: &RecordKey,
) -> (Held, Result<Option<Record>, ScanFault>)
    ensures onward { Onward (seen_by held.edge) (seen_by result.0.edge) }
    ensures record { AnswersAt (seen_by result.0.edge).list place.now (IsRecordAt key.now)
        result.1 }
    ensures cause { HasScanCause (edge_reading held.edge) (edge_reading result.0.edge) result.1 }
{
    let Held { edge, end, loads } = held;
    match edge.enter() {
        Ok(entered) => {
            let record = entered.get().record(place, key);
            (Held::behind(entered), record)
        }
        Err(edge) => (Held { edge, end, loads }, Err(ScanFault::NoCopy)),
    }
}

impl ReaderSeat {
    ghost use Rattle.kr_view.specs.Seats.{HasCopyCause, seat_reading};

    pub(crate) fn new(number: u32, reader: Reader<Shown, ThreadView, CopiesRule>) -> ReaderSeat
        requires { (number ≤ 64) × ((view reader.place).list ≡ []) }
        ensures { result ≡ record { number = number; seen = view reader.place; misses = 0 } }
    {
        let held = Held {
            edge: Edge::over(reader),
            end: 0,
            loads: 0,
        };
        ReaderSeat { number, held }
    }

    /// The seat's number, from 1.
    pub fn number(&self) -> u32
        ensures { result ≡ self.now.number }
    {
        self.number
    }

    /// The end of the list that the seat has seen. It enters no copy, and takes no memory.
    pub fn end(&self) -> i64
        ensures { result ≡ end_of self.now.seen.list }
    {
        self.held.end
    }

    /// How often the seat got no copy; the count stands still at the greatest u64.
    pub fn misses(&self) -> u64
        ensures { result ≡ self.now.misses }
    {
        self.held.edge.misses()
    }

    /// Looks for this seat's answer with the ticket, in all that is published. NoCopy only where the seat got no copy, and
    /// then nothing but the count has changed; NoMemory only where as many hold the answer as can be counted.
    pub fn look(&mut self, ticket: u64) -> Result<Look, CopyFault>
        ensures same { self.new.number ≡ self.old.number }
        ensures onward { Onward self.old.seen self.new.seen }
        ensures found { IfOk result (λ look. IsLook self.new.seen self.old.number ticket look) }
        ensures cause { HasCopyCause self.old self.new result }
    {
        let number = self.number;
        replace_with(&mut self.held, ticket, |held, ticket| {
            look_once(held, number, ticket)
        })
    }

    /// The reply to a read on the image of all that is published, where no transaction is open. It waits for nobody. NoCopy
    /// only where the seat got no copy, and then nothing but the count has changed.
    pub fn read(&mut self, call: &Call) -> Result<Reply, CopyFault>
        requires { IsTrue (is_read call.now.request) }
        ensures same { self.new.number ≡ self.old.number }
        ensures onward { Onward self.old.seen self.new.seen }
        ensures closed { OnOk result (IsClosedList self.new.seen.list) }
        ensures reply { IfOk result (λ reply. query self.new.seen.options (image_of self.new.seen.list) call.now.request ≡ Some reply) }
        ensures cause { HasCopyCause self.old self.new result }
    {
        replace_with(&mut self.held, call, |held, call| read_once(held, call))
    }

    /// The first `max` partitions behind the key, or from the first on where there is none, in walking order, of the image at
    /// a kept place: fewer only where no more follow. It waits for nobody. Gone exactly where all kept places are later ones,
    /// NotKept exactly where the place isn't kept otherwise, NoCopy only where the seat got no copy, and then nothing but the
    /// count has changed.
    pub fn scan(&mut self, place: i64, after: Option<&ScanKey>, max: u32) -> Result<Page, ScanFault>
        ensures same { self.new.number ≡ self.old.number }
        ensures onward { Onward self.old.seen self.new.seen }
        ensures page { AnswersAt self.new.seen.list place (IsPage (option_copied after.entry)
            max) result }
        ensures cause { HasScanCause (seat_reading self.old) (seat_reading self.new) result }
    {
        replace_with(&mut self.held, after, |held, after| {
            scan_once(held, &place, after, max)
        })
    }
}

impl RecordReader for ReaderSeat {
    ghost use Rattle.kr_view.specs.Seats.{seat_reading, with_seat_reading};

    ghost reading = { seat_reading };

    ghost with_reading = { with_seat_reading };

    fn loads(&self) -> u64 {
        self.held.loads
    }

    fn records(
        &mut self,
        place: i64,
        after: Option<&RecordKey>,
        max: u32,
    ) -> Result<Records, ScanFault> {
        replace_with(&mut self.held, after, |held, after| {
            records_once(held, &place, after, max)
        })
    }

    fn record(&mut self, place: i64, key: &RecordKey) -> Result<Option<Record>, ScanFault> {
        replace_with(
            &mut self.held,
            key,
            |held, key| record_once(held, &place, key),
        )
    }
}

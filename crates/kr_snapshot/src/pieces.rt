//! The bytes of an image as they come, in any pieces.

ghost use Rattle.std.specs.Prelude.{◌≡◌, ◌≤◌, ◌<◌, ◌+◌, ◌++◌, length, drop, IfOk, IfErr, MatchResult, OnOk, Ok, Err, pos, negsuc, [], ◌∷◌, ℤ, ◌≤ℤ◌, ◌^◌, None, Some};
ghost use Rattle.kr_defs.specs.Image.{empty};
ghost use Rattle.kr_store.specs.Images.{no_images};
ghost use Rattle.kr_snapshot.specs.ReaderState.{HasRoom, IsBegun, IsFault, IsUnfinished, IsWaiting, LeadsTo, Restores, Waits, body_in, progress_in, standing_in, taken_behind, taken_in};
ghost use Rattle.kr_store.specs.Images.{kept_once};
ghost use Rattle.kr_snapshot.specs.Reading as reading;

use crate::fault::{BatchCause, ImageFault};
use crate::order::Order;
use crate::records::{Tally, read_whole};
use kr_base::{NoMemory, Steps};
use kr_batch::{BatchFault, LEAST_SIZE, START};
use kr_image::ImageStore;
use kr_store::Store;
use kr_wire::{WireFault, read_i64, read_u32};
use std::alloc::Global;
use std::marker::Brand;
use std::sync::ledger::{Blank, Ledger};

/// The bytes of an image before its batches: its offset and the count of its records.
pub const HEAD: usize = 16;

/// Behind the head: the offset, and how far the records are.
#[derive(Drop)]
pub(crate) struct Body {
    pub offset: i64,
    pub tally: Tally,
}

/// What was taken so far.
#[derive(Drop)]
pub(crate) struct Pieces {
    pub alloc: Global,
    pub body: Option<Body>,
    // The bytes of the head or of the batch that isn't whole yet.
    pub held: Vec<u8>,
    pub store: ImageStore,
}

// The size of the batch at the front.
#[tactic(auto, unfolding(crate::specs::Reading::size_at, kr_batch::specs::Reading::start_at))]
fn read_size(held: &[u8]) -> Result<u32, BatchFault>
    ensures { MatchResult result (λ size. reading.size_at held.now ≡ Ok size) (λ e. reading.size_at held.now ≡ Err e) }
{
    let (_base, next) = read_i64(held, 0)?;
    let (size, _next) = read_u32(held, next)?;
    if size < LEAST_SIZE || size >= 1 << 31 {
        return Err(BatchFault::Short);
    }
    Ok(size)
}

// The offset and the count, and where they end.
#[tactic(auto, unfolding(crate::specs::Reading::numbers_at))]
fn read_numbers(held: &[u8]) -> Result<((i64, u64), usize), WireFault>
    ensures read { MatchResult result (λ x. reading.numbers_at held.now ≡ Ok ((x.0.0, x.0.1), drop x.1 held.now)) (λ e. reading.numbers_at held.now ≡ Err e) }
    ensures offset { IfOk result (λ x. pos 0 ≤ℤ x.0.0) }
    ensures count { IfOk result (λ x. x.0.1 < 2 ^ 63) }
{
    let (offset, next) = read_i64(held, 0)?;
    let (count, next) = read_i64(held, next)?;
    if offset < 0 || count < 0 {
        return Err(WireFault::Short);
    }
    Ok(((offset, count.unsigned_abs()), next))
}

// How many bytes there have to be of a batch until more of it is judged.
fn batch_goal(held: &[u8]) -> usize
    requires { IsUnfinished held.now }
    ensures more { length held.now < result }
    ensures waits { (b : ℤ × reading.Progress) → Waits (Some b) held.now result }
{
    if held.len() < START {
        return START;
    }
    match read_size(held) {
        Ok(size) => size as usize + START,
        Err(_) => unreachable!(),
    }
}

// The head, once its two numbers are there.
#[tactic(auto, unfolding(crate::specs::Reading::head_taken))]
fn judge_head(held: &mut Vec<u8>, store: &mut ImageStore) -> Result<Option<Body>, ImageFault>
    requires { store.old ≡ no_images }
    ensures read { IfOk result (λ body. reading.head_taken held.old.items ≡ Ok (record { body = body_in body store.new.tip; held = held.new.items })) }
    ensures begun { IfOk result (λ body. IsBegun body store.new) }
    ensures fault { IfErr result (λ fault. IsFault fault (reading.head_taken held.old.items)) }
{
    if held.len() < HEAD {
        return Ok(None);
    }
    let Ok(((offset, expected), _next)) = read_numbers(held.as_slice()) else {
        let cause = BatchCause::Head;
        return Err(ImageFault::Batch { place: 0, cause });
    };
    store.mark(-1)?;
    held.clear();
    let tally = Tally::begin(expected);
    Ok(Some(Body { offset, tally }))
}

// A batch: its size once base and size are there, and all of it once it is whole.
#[tactic(auto, unfolding(crate::specs::Reading::batch_taken))]
fn judge_batch(
    alloc: Global,
    body: &mut Body,
    held: &mut Vec<u8>,
    store: &mut ImageStore,
) -> Result<(), ImageFault>
    requires begun { IsBegun (Some body.old) store.old }
    ensures read { LeadsTo result (taken_behind body.new store.new held.new.items)
        (reading.batch_taken (standing_in body.old store.old) held.old.items) }
    ensures begun { OnOk result (IsBegun (Some body.new) store.new) }
{
    if held.len() < START {
        return Ok(());
    }
    let size = match read_size(held.as_slice()) {
        Ok(size) => size,
        Err(fault) => {
            return Err(ImageFault::Batch {
                place: body.tally.found as i64,
                cause: BatchCause::Refused(fault),
            });
        }
    };
    if held.len() < size as usize + START {
        return Ok(());
    }
    read_whole(alloc, &mut body.tally, store, held.as_slice())?;
    held.clear();
    Ok(())
}

impl Pieces {
    /// Before the first byte of an image.
    #[tactic(auto, unfolding(crate::specs::Reading::head_taken))]
    pub fn new(alloc: Global) -> Pieces
        ensures taken { taken_in result ≡ reading.nothing_taken }
        ensures waiting { IsWaiting result }
    {
        Pieces {
            alloc,
            body: None,
            held: Vec::new(alloc),
            store: ImageStore::new(alloc),
        }
    }

    // What stands there now, once more bytes have come.
    fn judge(&mut self) -> Result<(), ImageFault>
        requires { IsBegun self.old.body self.old.store }
        ensures read { LeadsTo result (taken_in self.new) (reading.judged (body_in self.old.body self.old.store.tip) self.old.held.items) }
        ensures begun { OnOk result (IsBegun self.new.body self.new.store) }
    {
        if let Some(body) = &mut self.body {
            return judge_batch(self.alloc, body, &mut self.held, &mut self.store);
        }
        self.body = judge_head(&mut self.held, &mut self.store)?;
        Ok(())
    }

    // How many bytes there have to be until more is judged.
    fn goal(&self) -> usize
        requires { IsWaiting self.now }
        ensures more { length self.now.held.items < result }
        ensures waits { Waits (body_in self.now.body self.now.store.tip) self.now.held.items result }
    {
        match &self.body {
            None => HEAD,
            Some(_) => batch_goal(self.held.as_slice()),
        }
    }

    // Takes bytes of the piece up to where more is judged, and gives those that are left.
    #[tactic(auto, using(crate::proofs::ReaderSteps::waiting_after))]
    fn take_some<'a>(&mut self, piece: &'a [u8]) -> Result<&'a [u8], ImageFault>
        requires waiting { IsWaiting self.old }
        requires some { 1 ≤ length piece.now }
        ensures fewer { IfOk result (λ rest. length rest.now < length piece.now) }
        ensures waiting { OnOk result (IsWaiting self.new) }
        ensures read { IfOk result (λ rest. reading.goes_on (taken_in self.old) piece.now ≡ reading.goes_on (taken_in self.new) rest.now) }
        ensures fault { IfErr result (λ fault. IsFault fault (reading.goes_on (taken_in self.old) piece.now)) }
    {
        let room = self.goal() - self.held.len();
        let (front, rest) = piece.split_at(room.min(piece.len()));
        self.held.extend_from_slice(front)?;
        self.judge()?;
        Ok(rest)
    }

    /// Takes a piece.
    #[tactic(auto, using(crate::proofs::ReaderSteps::all_taken, crate::proofs::ReaderSteps::fault_taken))]
    pub fn take(&mut self, piece: &[u8]) -> Result<(), ImageFault>
        requires { IsWaiting self.old }
        ensures waiting { OnOk result (IsWaiting self.new) }
        ensures read { LeadsTo result (taken_in self.new) (reading.goes_on (taken_in self.old) piece.now) }
    {
        let mut rest = piece;
        while !rest.is_empty() {
            rest = self.take_some(rest)?;
        }
        Ok(())
    }

    /// The bytes end here.
    pub fn finish(self) -> Result<(i64, ImageStore), ImageFault>
        requires { IsWaiting self }
        ensures { Restores result (reading.ends (body_in self.body self.store.tip) self.held.items) }
    {
        let Pieces {
            body,
            held,
            store,
            ..
        } = self;
        let Some(body) = body else {
            let cause = BatchCause::Head;
            return Err(ImageFault::Batch { place: 0, cause });
        };
        if !held.is_empty() {
            return Err(ImageFault::Batch {
                place: body.tally.found as i64,
                cause: BatchCause::Refused(BatchFault::Short),
            });
        }
        close(body, store)
    }
}

// The bytes end behind a batch, or behind the head.
#[tactic(auto, using(crate::proofs::ReaderSteps::ends_short, crate::proofs::ReaderSteps::ends_whole))]
fn close(body: Body, store: ImageStore) -> Result<(i64, ImageStore), ImageFault>
    requires { IsBegun (Some body) store }
    ensures { Restores result (reading.ends (Some (body.offset, progress_in body.tally store.tip)) []) }
{
    let Tally {
        expected,
        found,
        ..
    } = body.tally;
    if found < expected {
        return Err(ImageFault::NoEnd { found, expected });
    }
    let store = keep::<Brand>(store, body.offset, Blank::new(1))?;
    Ok((body.offset, store))
}

// Keeps the present image under the offset, and nothing else.
#[tactic(auto, using(kr_store::proofs::Alone::alone, crate::proofs::ReaderSteps::above_all, crate::proofs::ReaderSteps::begun_from))]
fn keep<L: Ledger>(mut store: ImageStore, offset: i64, blank: Blank) -> Result<ImageStore, NoMemory>
    requires name { blank.name ≡ L.name }
    requires parts { blank.parts ≡ L.parts }
    requires whole { 0 < L.parts }
    requires kept { store.kept ≡ (negsuc 0, empty) ∷ [] }
    requires begun { store.begun ≡ None }
    requires kept_begun { store.kept_begun ≡ (negsuc 0, None) ∷ [] }
    requires natural { pos 0 ≤ℤ offset }
    ensures { IfOk result (λ s. s ≡ kept_once offset store.tip) }
{
    let mut steps: Steps<L> = Steps::new(blank);
    let _valid = store.counts();
    store.mark(offset)?;
    store.forget_below(offset, &mut steps);
    Ok(store)
}

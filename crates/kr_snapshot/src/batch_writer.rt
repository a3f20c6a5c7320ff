//! Records are gathered into batches.

ghost use Rattle.std.specs.Prelude.{◌≡◌, ◌<◌, ◌≤◌, ◌^◌, pos, [], ◌∷◌, length, List, OnOk, IfOk};
ghost use Rattle.kr_defs.specs.declared.limits.TheConstants.{IMAGE_BATCH as most};
ghost use Rattle.kr_defs.specs.declared.record.Record.{Record as AnyRecord};
ghost use Rattle.kr_defs.specs.ImageLaws.{as_items};
ghost use Rattle.kr_record.specs.Encodable.{IsHeld};
ghost use Rattle.kr_snapshot.specs.ImageText.{batches_bytes, chunks};
ghost use Rattle.kr_snapshot.specs.inner.Writer.{Adds, MayAdd, Puts, Stands};

use kr_base::NoMemory;
use kr_batch::{put_batch, put_numbered};
use kr_defs::Record;
use kr_defs::limits::IMAGE_BATCH;
use std::alloc::Global;

/// The batches so far, and the records of the next one as they will stand in it.
#[derive(Drop)]
pub(crate) struct BatchWriter {
    // The number of records in the batches.
    before: usize,
    body: Vec<u8>,
    // The number of records in the next batch, and their bytes.
    count: u32,
    records: Vec<u8>,
    // Room for the value of a record.
    value: Vec<u8>,
}

impl BatchWriter {
    /// A writer before the first record.
    #[tactic(auto, using(crate::proofs::Groups::none_yet))]
    pub fn new(alloc: Global) -> BatchWriter
        ensures { Stands result [] }
    {
        BatchWriter {
            before: 0,
            body: Vec::new(alloc),
            count: 0,
            records: Vec::new(alloc),
            value: Vec::new(alloc),
        }
    }

    // Writes the records in hand as a batch.
    fn put_group(&mut self) -> Result<(), NoMemory>
        requires sound { MayAdd self.old [] }
        requires some { 1 ≤ self.old.count }
        ensures { OnOk result (Puts self.old self.new) }
    {
        let base = base_of(self.before, &self.body);
        put_batch(base, 0, 0, self.count, &self.records, &mut self.body)?;
        self.before += self.count as usize;
        self.count = 0;
        self.records.clear();
        Ok(())
    }

    // Where the batch in hand is full it is written.
    #[inline(always)]
    fn make_room(&mut self) -> Result<(), NoMemory>
        requires { MayAdd self.old [] }
        ensures room { OnOk result (self.new.count < most) }
        ensures stands { (done : List AnyRecord) → Stands self.old done →
            OnOk result (Stands self.new done) }
    {
        if (self.count as usize) < IMAGE_BATCH {
            return Ok(());
        }
        self.put_group()
    }

    /// Adds a record.
    #[inline(always)]
    pub fn push(&mut self, record: &Record) -> Result<(), NoMemory>
        requires may { MayAdd self.old (record.now ∷ []) }
        requires held { IsHeld record.now }
        ensures { OnOk result (Adds self.old self.new (record.now ∷ [])) }
    {
        self.make_room()?;
        put_numbered(self.count, record, &mut self.value, &mut self.records)?;
        self.count += 1;
        Ok(())
    }

    fn put_rest(&mut self) -> Result<(), NoMemory>
        requires { MayAdd self.old [] }
        ensures behind { OnOk result (self.new.before ≤ length self.new.body.items) }
        ensures body { (done : List AnyRecord) → Stands self.old done →
            OnOk result (self.new.body.items ≡ batches_bytes 0 (chunks most (as_items done))) }
        ensures all { (done : List AnyRecord) → Stands self.old done →
            OnOk result (self.new.before ≡ length done) }
    {
        if self.count == 0 {
            return Ok(());
        }
        self.put_group()
    }

    /// The bytes of all batches, and how many records they have.
    pub fn finish(mut self) -> Result<(Vec<u8>, usize), NoMemory>
        requires { MayAdd self [] }
        ensures bytes { (done : List AnyRecord) → Stands self done →
            IfOk result (λ x. x.0.items ≡ batches_bytes 0 (chunks most (as_items done))) }
        ensures count { (done : List AnyRecord) → Stands self done →
            IfOk result (λ x. x.1 ≡ length done) }
        ensures small { IfOk result (λ x. x.1 < 2 ^ 63) }
    {
        self.put_rest()?;
        let BatchWriter { before, body, .. } = self;
        Ok((body, before))
    }
}

// The offset of a batch's first record.
fn base_of(before: usize, body: &Vec<u8>) -> i64
    requires { before ≤ length body.now.items }
    ensures { result ≡ pos before }
{
    let _room = body.len();
    before as i64
}

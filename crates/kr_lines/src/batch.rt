//! The lines of a batch.

ghost use Rattle.std.specs.Prelude.{◌≡◌, ◌++◌, ◌≤◌, IfOk, OnOk, OnErr, length};
ghost use Rattle.kr_defs.specs.declared.limits.TheConstants.{MOST_RECORDS};
ghost use Rattle.kr_lines.specs.BatchLines as lines;

use crate::frames::told_version;
use kr_base::NoMemory;
use kr_batch::Batch;
use kr_json::{Place, put_line};
use std::alloc::Global;

// The fields of a batch before its records, in bytes.
const HEAD: usize = 61;

// The place of an item in its batch.
fn place_in(batch: &Batch, number: u32) -> Place
    ensures { result ≡ lines.place_in batch.now number }
{
    Place {
        base: batch.base,
        number,
        epoch: batch.epoch,
        time: batch.time,
    }
}

/// The lines of a batch that stands in these bytes.
#[tactic(auto, using(crate::proofs::Items::line_more, std::proofs::lemmas::List::drop_min), unfolding(crate::specs::BatchLines::batch_lines))]
pub(crate) fn batch_lines(alloc: Global, batch: &Batch, bytes: &[u8]) -> Result<Vec<u8>, NoMemory>
    requires few { length batch.now.items ≤ MOST_RECORDS }
    ensures { IfOk result (λ text. text.items ≡ lines.batch_lines batch.now bytes.now) }
{
    let mut text = Vec::new(alloc);
    let mut at = HEAD.min(bytes.len());
    let mut number = 0;
    for item in batch.items.as_slice() {
        let (version, next) = told_version(bytes, at);
        put_line(alloc, &place_in(batch, number), version, item, &mut text)?;
        at = next;
        number += 1;
    }
    Ok(text)
}

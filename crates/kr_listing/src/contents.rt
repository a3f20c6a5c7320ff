//! All records of an image.

ghost use Rattle.std.specs.Prelude.{◌≡◌, IfOk};
ghost use Rattle.kr_defs.specs.Records.{records_of};

use crate::add_image;
use crate::part_records::{Level, Registration, Setting, TopicRecords};
use kr_base::NoMemory;
use kr_defs::Records;
use kr_store::{Seen, Store};
use std::alloc::Global;

/// The records that make the image, in the order in which one is written.
#[tactic(auto, using(crate::proofs::Sections::sections))]
pub fn records_of<S: Store>(alloc: Global, seen: &Seen<S>) -> Result<Records, NoMemory>
    ensures { IfOk result (λ records. records ≡ records_of seen.now) }
{
    let mut records = Records::new(alloc);
    add_image(
        alloc,
        seen,
        &Level,
        &Registration,
        &TopicRecords,
        &Setting,
        &mut records,
    )?;
    Ok(records)
}

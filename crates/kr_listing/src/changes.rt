//! The record of a change.

ghost use Rattle.std.specs.Prelude.{◌≡◌, IfOk};
ghost use Rattle.kr_defs.specs.Walk.{change_records};

use kr_base::NoMemory;
use kr_defs::{PartitionChange, Record, Records};
use std::alloc::Global;

/// The record of a partition's change, where there is one.
pub fn change_records(
    alloc: Global,
    topic: &u128,
    index: &i32,
    change: Option<PartitionChange>,
) -> Result<Records, NoMemory>
    ensures { IfOk result (λ records. records ≡ change_records topic.now index.now change) }
{
    let mut records = Records::new(alloc);
    if let Some(change) = change {
        records.push(Record::PartitionChange {
            index: *index,
            topic: *topic,
            change,
        })?;
    }
    Ok(records)
}

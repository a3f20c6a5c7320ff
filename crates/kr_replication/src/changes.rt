//! What changes of a partition.

ghost use Rattle.std.specs.Prelude.{◌≡◌, ◌++◌, [], IfOk, OnOk, Option};
ghost use Rattle.std.specs.List.{cons_option};
ghost use Rattle.std.specs.Option.{option_map};
ghost use Rattle.kr_defs.specs.declared.partition.PartitionChange.{PartitionChange as AnyChange};
ghost use Rattle.kr_defs.specs.declared.record.Record.TheVariants as kinds;
ghost use Rattle.kr_defs.specs.Image.{Image};
ghost use Rattle.kr_defs.specs.Walk.{Walked};

use kr_base::NoMemory;
use kr_defs::{Partition, PartitionChange, Record, Records, Text};
use kr_store::{Seen, Store};
use std::alloc::Global;

/// What changes of a partition, beside the name of its topic.
pub trait Change {
    /// The change by the image.
    ghost change: { Self → Image → Walked → Option AnyChange };

    /// The change of the partition with this key by the image, where there is one.
    fn change<S: Store>(
        &self,
        alloc: Global,
        seen: &Seen<S>,
        topic: &Text,
        key: &(u128, i32),
        partition: &Partition,
    ) -> Result<Option<PartitionChange>, NoMemory>
        ensures { IfOk result (λ made. made ≡ change self.now seen.now
            (record { topic = topic.now; key = key.now; partition = partition.now })) };
}

/// Adds the record of the change of the partition with this key, if there is one.
pub fn add_change(
    records: &mut Records,
    key: &(u128, i32),
    change: Option<PartitionChange>,
) -> Result<(), NoMemory>
    ensures { OnOk result (records.new ≡ records.old ++
        cons_option (option_map (λ c. kinds.PartitionChange key.now.1 key.now.0 c) change) []) }
{
    match change {
        Some(change) => {
            records.push(Record::PartitionChange {
                index: key.1,
                topic: key.0,
                change,
            })?;
            Ok(())
        }
        None => Ok(()),
    }
}

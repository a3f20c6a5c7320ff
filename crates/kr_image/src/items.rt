//! A record, or any item but those of transactions, is applied to a store.

ghost use Rattle.std.specs.Prelude.{◌≡◌, ◌≤◌, ◌+◌, IsSome, OnOk};
ghost use Rattle.kr_defs.specs.declared.record.Item.TheVariants as items;
ghost use Rattle.kr_defs.specs.Weight.{weight};
ghost use Rattle.kr_store.specs.ItemAnswers.{Applies, Ticks};
ghost use Rattle.kr_store.specs.Images.{last_kept};
ghost use Rattle.kr_image.specs.Timelines.{keeps_of, made_of, present_image};
ghost use Rattle.kr_image.specs.KeptImages.{IsStoreWith, images_of};

use crate::kept_counts::KeptCounts;
use crate::states::go_back;
use crate::timelines::{ChangeFault, Timelines};
use kr_base::Steps;
use kr_defs::laws::apply_keeps_valid;
use kr_defs::{Item, Record};
use kr_store::ApplyFault;
use std::collections::VecDeque;
use std::sync::ledger::Ledger;

/// Applies the record to the timelines of a store.
#[tactic(auto, unfolding(kr_defs::specs::Apply::apply, kr_defs::specs::Weight::weight))]
pub(crate) fn apply_record<L: Ledger>(
    timelines: &mut Timelines,
    kept: &VecDeque<KeptCounts>,
    begun: &mut Option<i64>,
    place: &i64,
    value: &Record,
    steps: &mut Steps<L>,
) -> Result<(), ApplyFault>
    requires store { IsStoreWith timelines.old kept.now.items begun.old }
    requires some { IsSome (last_kept (images_of timelines.old kept.now.items begun.old)) }
    ensures store { IsStoreWith timelines.new kept.now.items begun.new }
    ensures applied { Applies (images_of timelines.old kept.now.items begun.old)
        (images_of timelines.new kept.now.items begun.new) result place.now
        (items.Record value.now) }
    ensures same { keeps_of timelines.new ≡ keeps_of timelines.old }
    ensures begun { OnOk result (begun.new ≡ begun.old) }
    ensures made { OnOk result (made_of timelines.new ≤
        made_of timelines.old + weight (present_image timelines.old) (items.Record value.now)) }
    ensures counted { Ticks steps.old steps.new result }
{
    apply_keeps_valid();
    steps.tick();
    match timelines.apply_record(value) {
        Ok(()) => Ok(()),
        Err(ChangeFault::IllFormed(cause)) => Err(ApplyFault::IllFormed {
            place: *place,
            cause,
        }),
        Err(ChangeFault::NoMemory) => {
            go_back(timelines, kept, begun, steps);
            Err(ApplyFault::NoMemory)
        }
    }
}

/// Applies the item to the timelines of a store; a control item changes nothing.
#[tactic(auto, unfolding(kr_defs::specs::Apply::apply, kr_defs::specs::Weight::weight))]
pub(crate) fn apply<L: Ledger>(
    timelines: &mut Timelines,
    kept: &VecDeque<KeptCounts>,
    begun: &mut Option<i64>,
    place: &i64,
    item: &Item,
    steps: &mut Steps<L>,
) -> Result<(), ApplyFault>
    requires store { IsStoreWith timelines.old kept.now.items begun.old }
    requires some { IsSome (last_kept (images_of timelines.old kept.now.items begun.old)) }
    ensures store { IsStoreWith timelines.new kept.now.items begun.new }
    ensures applied { Applies (images_of timelines.old kept.now.items begun.old)
        (images_of timelines.new kept.now.items begun.new) result place.now item.now }
    ensures same { keeps_of timelines.new ≡ keeps_of timelines.old }
    ensures begun { OnOk result (begun.new ≡ begun.old) }
    ensures made { OnOk result (made_of timelines.new ≤
        made_of timelines.old + weight (present_image timelines.old) item.now) }
    ensures counted { Ticks steps.old steps.new result }
{
    match item {
        Item::Control => {
            steps.tick();
            Ok(())
        }
        Item::Record(value) => apply_record(timelines, kept, begun, place, value, steps),
    }
}

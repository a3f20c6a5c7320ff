//! An item of a log is applied to a store: a transaction's begin keeps the epoch of its place, its end drops that it is open, and
//! its abort makes the image below its begin the present one (KIP-868).

ghost use Rattle.std.specs.Prelude.{◌≡◌, ◌≤◌, ◌+◌, IsSome, OnErr, OnOk, Some};
ghost use Rattle.kr_defs.specs.LogStates.{abort_open, begin_at, end_open, image_after};
ghost use Rattle.kr_defs.specs.Weight.{weight};
ghost use Rattle.kr_defs.specs.declared.ill.Ill.TheVariants.{BadTransaction};
ghost use Rattle.kr_store.specs.declared.places.ApplyFault.TheVariants as faults;
ghost use Rattle.kr_store.specs.ItemAnswers.{AppliesAt, Becomes, FallsBack, MayOpen, MayStand, Ticks, calls_to_undo, made_at, with_epoch};
ghost use Rattle.kr_store.specs.Images.{IsAbove, kept_at, last_kept, log_place, marked, tip_state};
ghost use Rattle.kr_image.specs.inner.Roles.{item_role, role_of};
ghost use Rattle.kr_image.specs.Timelines.{made_of, present_image};
ghost use Rattle.kr_image.specs.KeptImages.{IsStoreWith, images_of};

use crate::items::apply;
use crate::kept_counts::{KeptCounts, is_last};
use crate::states::{go_back, mark, restore};
use crate::timelines::Timelines;
use kr_base::{NoMemory, Steps};
use kr_defs::{Ill, Item, Record};
use kr_store::ApplyFault;
use std::collections::VecDeque;
use std::sync::ledger::Ledger;

// Keeps the present state under the epoch. Without memory the present state is that of the last kept epoch.
fn mark_or_go_back<L: Ledger>(
    timelines: &mut Timelines,
    kept: &mut VecDeque<KeptCounts>,
    begun: &mut Option<i64>,
    epoch: &i64,
    steps: &mut Steps<L>,
) -> Result<(), NoMemory>
    requires store { IsStoreWith timelines.old kept.old.items begun.old }
    requires some { IsSome (last_kept (images_of timelines.old kept.old.items begun.old)) }
    requires above { IsAbove (images_of timelines.old kept.old.items begun.old).kept epoch.now }
    ensures store { IsStoreWith timelines.new kept.new.items begun.new }
    ensures ok { OnOk result (images_of timelines.new kept.new.items begun.new ≡
        marked (images_of timelines.old kept.old.items begun.old) epoch.now) }
    ensures err { OnErr result (FallsBack (images_of timelines.old kept.old.items begun.old)
        (images_of timelines.new kept.new.items begun.new)) }
    ensures counted { steps.old ≤ steps.new }
    ensures still { OnOk result (steps.new ≡ steps.old) }
{
    match mark(timelines, kept, begun, epoch) {
        Ok(()) => Ok(()),
        Err(NoMemory) => {
            go_back(timelines, kept, begun, steps);
            Err(NoMemory)
        }
    }
}

// Keeps the present state under the epoch, where that isn't the last one already.
fn keep_epoch<L: Ledger>(
    timelines: &mut Timelines,
    kept: &mut VecDeque<KeptCounts>,
    begun: &mut Option<i64>,
    epoch: &i64,
    steps: &mut Steps<L>,
) -> Result<(), NoMemory>
    requires store { IsStoreWith timelines.old kept.old.items begun.old }
    requires some { IsSome (last_kept (images_of timelines.old kept.old.items begun.old)) }
    requires may { MayOpen (images_of timelines.old kept.old.items begun.old) epoch.now }
    ensures store { IsStoreWith timelines.new kept.new.items begun.new }
    ensures ok { OnOk result (images_of timelines.new kept.new.items begun.new ≡
        with_epoch (images_of timelines.old kept.old.items begun.old) epoch.now) }
    ensures there { OnOk result (kept_at
        (images_of timelines.new kept.new.items begun.new) epoch.now ≡
        Some (present_image timelines.old)) }
    ensures err { OnErr result (FallsBack (images_of timelines.old kept.old.items begun.old)
        (images_of timelines.new kept.new.items begun.new)) }
    ensures counted { steps.old ≤ steps.new }
    ensures still { OnOk result (steps.new ≡ steps.old) }
{
    if is_last(kept, epoch) {
        return Ok(());
    }
    mark_or_go_back(timelines, kept, begun, epoch, steps)
}

// What an item is to a transaction.
#[derive(Clone, Copy, Debug, Drop, PartialEq, Eq)]
enum Role {
    Begin,
    End,
    Abort,
    Inner,
}

fn role_of(value: &Record) -> Role
    ensures { result ≡ role_of value.now }
{
    match value {
        Record::BeginTransaction { .. } => Role::Begin,
        Record::EndTransaction => Role::End,
        Record::AbortTransaction { .. } => Role::Abort,
        _ => Role::Inner,
    }
}

fn item_role(item: &Item) -> Role
    ensures { result ≡ item_role item.now }
{
    match item {
        Item::Control => Role::Inner,
        Item::Record(value) => role_of(value),
    }
}

// The place of the open transaction.
fn open_place(begun: &Option<i64>) -> Option<i64>
    ensures { result ≡ begun.now }
{
    *begun
}

fn begun_here(place: &i64) -> Option<i64>
    ensures { result ≡ Some place.now }
{
    Some(*place)
}

fn bad_transaction(place: &i64) -> ApplyFault
    ensures { result ≡ faults.IllFormed place.now BadTransaction }
{
    ApplyFault::IllFormed {
        place: *place,
        cause: Ill::BadTransaction,
    }
}

// A transaction begins at the place.
fn begin<L: Ledger>(
    timelines: &mut Timelines,
    kept: &mut VecDeque<KeptCounts>,
    begun: &mut Option<i64>,
    place: &i64,
    steps: &mut Steps<L>,
) -> Result<(), ApplyFault>
    requires store { IsStoreWith timelines.old kept.old.items begun.old }
    requires some { IsSome (last_kept (images_of timelines.old kept.old.items begun.old)) }
    requires may { MayOpen (images_of timelines.old kept.old.items begun.old) place.now }
    ensures store { IsStoreWith timelines.new kept.new.items begun.new }
    ensures applied { Becomes (images_of timelines.old kept.old.items begun.old)
        (images_of timelines.new kept.new.items begun.new) result place.now
        (begin_at (tip_state (images_of timelines.old kept.old.items begun.old))
        (log_place place.now))
        (with_epoch (images_of timelines.old kept.old.items begun.old) place.now) }
    ensures made { OnOk result (made_of timelines.new ≡
        (with_epoch (images_of timelines.old kept.old.items begun.old) place.now).made) }
    ensures counted { Ticks steps.old steps.new result }
{
    steps.tick();
    if begun.is_some() {
        return Err(bad_transaction(place));
    }
    match keep_epoch(timelines, kept, begun, place, steps) {
        Ok(()) => {
            *begun = begun_here(place);
            Ok(())
        }
        Err(NoMemory) => Err(ApplyFault::NoMemory),
    }
}

// The open transaction ends, and all that it did stays.
fn end<L: Ledger>(
    timelines: &Timelines,
    kept: &VecDeque<KeptCounts>,
    begun: &mut Option<i64>,
    place: &i64,
    steps: &mut Steps<L>,
) -> Result<(), ApplyFault>
    requires store { IsStoreWith timelines.now kept.now.items begun.old }
    ensures store { IsStoreWith timelines.now kept.now.items begun.new }
    ensures applied { Becomes (images_of timelines.now kept.now.items begun.old)
        (images_of timelines.now kept.now.items begun.new) result place.now
        (end_open (tip_state (images_of timelines.now kept.now.items begun.old)))
        (images_of timelines.now kept.now.items begun.old) }
    ensures counted { Ticks steps.old steps.new result }
{
    steps.tick();
    if begun.is_none() {
        return Err(bad_transaction(place));
    }
    *begun = None;
    Ok(())
}

// The open transaction is given up: the image below its begin is the present one again.
fn abort<L: Ledger>(
    timelines: &mut Timelines,
    kept: &VecDeque<KeptCounts>,
    begun: &mut Option<i64>,
    place: &i64,
    steps: &mut Steps<L>,
) -> Result<(), ApplyFault>
    requires store { IsStoreWith timelines.old kept.now.items begun.old }
    requires some { IsSome (last_kept (images_of timelines.old kept.now.items begun.old)) }
    ensures store { IsStoreWith timelines.new kept.now.items begun.new }
    ensures applied { Becomes (images_of timelines.old kept.now.items begun.old)
        (images_of timelines.new kept.now.items begun.new) result place.now
        (abort_open (tip_state (images_of timelines.old kept.now.items begun.old)))
        (images_of timelines.old kept.now.items begun.old) }
    ensures made { OnOk result (made_of timelines.new ≤ made_of timelines.old +
        calls_to_undo (images_of timelines.old kept.now.items begun.old)) }
    ensures counted { Ticks steps.old steps.new result }
{
    steps.tick();
    let found = open_place(begun);
    match &found {
        Some(begin) => match restore(timelines, kept, begun, begin, steps) {
            Ok(()) => {
                *begun = None;
                Ok(())
            }
            Err(NoMemory) => Err(ApplyFault::NoMemory),
        },
        None => Err(bad_transaction(place)),
    }
}

// Any other item changes the image alone.
fn change<L: Ledger>(
    timelines: &mut Timelines,
    kept: &VecDeque<KeptCounts>,
    begun: &mut Option<i64>,
    place: &i64,
    item: &Item,
    steps: &mut Steps<L>,
) -> Result<(), ApplyFault>
    requires store { IsStoreWith timelines.old kept.now.items begun.old }
    requires some { IsSome (last_kept (images_of timelines.old kept.now.items begun.old)) }
    ensures store { IsStoreWith timelines.new kept.now.items begun.new }
    ensures applied { Becomes (images_of timelines.old kept.now.items begun.old)
        (images_of timelines.new kept.now.items begun.new) result place.now
        (image_after (tip_state (images_of timelines.old kept.now.items begun.old)) item.now)
        (images_of timelines.old kept.now.items begun.old) }
    ensures made { OnOk result (made_of timelines.new ≤
        made_of timelines.old + weight (present_image timelines.old) item.now) }
    ensures counted { Ticks steps.old steps.new result }
{
    apply(timelines, kept, begun, place, item, steps)
}

/// Applies the item, which stands at the place.
pub(crate) fn apply_at<L: Ledger>(
    timelines: &mut Timelines,
    kept: &mut VecDeque<KeptCounts>,
    begun: &mut Option<i64>,
    place: &i64,
    item: &Item,
    steps: &mut Steps<L>,
) -> Result<(), ApplyFault>
    requires store { IsStoreWith timelines.old kept.old.items begun.old }
    requires some { IsSome (last_kept (images_of timelines.old kept.old.items begun.old)) }
    requires stands { MayStand
        (images_of timelines.old kept.old.items begun.old) place.now item.now }
    ensures store { IsStoreWith timelines.new kept.new.items begun.new }
    ensures applied { AppliesAt (images_of timelines.old kept.old.items begun.old)
        (images_of timelines.new kept.new.items begun.new) result place.now item.now }
    ensures made { OnOk result (made_of timelines.new ≤
        made_at (images_of timelines.old kept.old.items begun.old) place.now item.now) }
    ensures counted { Ticks steps.old steps.new result }
{
    match item_role(item) {
        Role::Begin => begin(timelines, kept, begun, place, steps),
        Role::End => end(timelines, kept, begun, place, steps),
        Role::Abort => abort(timelines, kept, begun, place, steps),
        Role::Inner => change(timelines, kept, begun, place, item, steps),
    }
}

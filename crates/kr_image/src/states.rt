//! The state of a store: the timelines, the kept epochs with their counts, and the open transaction.

ghost use Rattle.std.specs.Prelude.{◌≡◌, ◌↔◌, ◌+◌, ◌≤◌, None, Some, IsErr, IsOkAnd, IsSome, MatchOption, OnErr, OnOk};
ghost use Rattle.kr_store.specs.ItemAnswers.{FallsBack};
ghost use Rattle.kr_store.specs.Images.{AreBegunFrom, ForgetsWithin, IsAbove, RevertsWithin, begun_of_place, counts_of, forgotten, image_of_place, kept_at, last_kept, marked, reverted};
ghost use Rattle.kr_image.specs.Timelines.{all_above, keeps_of, made_of, present_image};
ghost use Rattle.kr_image.specs.KeptImages.{HaveBegins, IsKept, IsStoreWith, images_of};

use crate::kept_counts::{
    KeptCounts, begun_at, counts_at, keep_from, keep_up_to, kept_under, walks_up_to,
};
use crate::timelines::Timelines;
use kr_base::{NoEpoch, NoMemory, Steps};
use kr_store::{At, Counts};
use std::collections::VecDeque;
use std::sync::ledger::Ledger;

/// Keeps the present state under the epoch, with its counts.
pub(crate) fn mark(
    timelines: &mut Timelines,
    kept: &mut VecDeque<KeptCounts>,
    begun: &Option<i64>,
    epoch: &i64,
) -> Result<(), NoMemory>
    requires store { IsStoreWith timelines.old kept.old.items begun.now }
    requires above { IsAbove (images_of timelines.old kept.old.items begun.now).kept epoch.now }
    ensures store { IsStoreWith timelines.new kept.new.items begun.now }
    ensures ok { OnOk result (images_of timelines.new kept.new.items begun.now ≡
        marked (images_of timelines.old kept.old.items begun.now) epoch.now) }
    ensures err { OnErr result (images_of timelines.new kept.new.items begun.now ≡
        images_of timelines.old kept.old.items begun.now) }
{
    timelines.reserve()?;
    let counts = timelines.counts;
    let walks = walks_up_to(kept, &counts);
    kept.push_back(kept_under(epoch, counts, begun, walks))?;
    timelines.mark(epoch);
    Ok(())
}

/// Makes the state that is kept under the epoch the present one, and drops the later epochs.
pub(crate) fn revert<L: Ledger>(
    timelines: &mut Timelines,
    kept: &mut VecDeque<KeptCounts>,
    begun: &mut Option<i64>,
    epoch: &i64,
    steps: &mut Steps<L>,
) -> Result<(), NoEpoch>
    requires kept { IsKept (keeps_of timelines.old) kept.old.items }
    requires begun { HaveBegins kept.old.items begun.old }
    ensures store { OnOk result (IsStoreWith timelines.new kept.new.items begun.new) }
    ensures ok { OnOk result (reverted
        (images_of timelines.old kept.old.items begun.old) epoch.now ≡
        Some (images_of timelines.new kept.new.items begun.new)) }
    ensures err { OnErr result ((timelines.new ≡ timelines.old) ×
        (kept.new.items ≡ kept.old.items) × (begun.new ≡ begun.old)) }
    ensures no_epoch { IsErr result ↔
        (kept_at (images_of timelines.old kept.old.items begun.old) epoch.now ≡ None) }
    ensures counted { steps.old ≤ steps.new }
    ensures bound { RevertsWithin
        (images_of timelines.old kept.old.items begun.old) epoch.now steps.old steps.new }
{
    let Some(counts) = counts_at(kept, epoch) else {
        return Err(NoEpoch);
    };
    timelines.revert(epoch, counts, steps);
    *begun = begun_at(kept, epoch);
    keep_up_to(kept, epoch, steps);
    Ok(())
}

// Drops the kept epochs below this one, and leaves the index of partitions.
fn drop_below<L: Ledger>(
    timelines: &mut Timelines,
    kept: &mut VecDeque<KeptCounts>,
    begun: &Option<i64>,
    epoch: &i64,
    steps: &mut Steps<L>,
)
    requires store { IsStoreWith timelines.old kept.old.items begun.now }
    requires from { AreBegunFrom
        (images_of timelines.old kept.old.items begun.now) epoch.now }
    ensures store { IsStoreWith timelines.new kept.new.items begun.now }
    ensures images { images_of timelines.new kept.new.items begun.now ≡
        forgotten (images_of timelines.old kept.old.items begun.now) epoch.now }
    ensures counted { steps.old ≤ steps.new }
    ensures bound { ForgetsWithin
        (images_of timelines.old kept.old.items begun.now) epoch.now steps.old steps.new }
{
    timelines.forget_below(epoch, steps);
    keep_from(kept, epoch, steps);
}

/// Drops the kept epochs below this one.
pub(crate) fn forget_below<L: Ledger>(
    timelines: &mut Timelines,
    kept: &mut VecDeque<KeptCounts>,
    begun: &Option<i64>,
    epoch: &i64,
    steps: &mut Steps<L>,
)
    requires store { IsStoreWith timelines.old kept.old.items begun.now }
    requires from { AreBegunFrom
        (images_of timelines.old kept.old.items begun.now) epoch.now }
    ensures store { IsStoreWith timelines.new kept.new.items begun.now }
    ensures images { images_of timelines.new kept.new.items begun.now ≡
        forgotten (images_of timelines.old kept.old.items begun.now) epoch.now }
    ensures counted { steps.old ≤ steps.new }
    ensures bound { ForgetsWithin
        (images_of timelines.old kept.old.items begun.now) epoch.now steps.old steps.new }
{
    drop_below(timelines, kept, begun, epoch, steps);
    timelines.renew_index(kept);
}

/// Makes the state of the last kept epoch the present one, whatever the present maps are.
pub(crate) fn go_back<L: Ledger>(
    timelines: &mut Timelines,
    kept: &VecDeque<KeptCounts>,
    begun: &mut Option<i64>,
    steps: &mut Steps<L>,
)
    requires kept { IsKept (keeps_of timelines.old) kept.now.items }
    requires begun { HaveBegins kept.now.items begun.old }
    requires some { IsSome (last_kept (images_of timelines.old kept.now.items begun.old)) }
    ensures store { IsStoreWith timelines.new kept.now.items begun.new }
    ensures same { keeps_of timelines.new ≡ keeps_of timelines.old }
    ensures back { FallsBack (images_of timelines.old kept.now.items begun.old)
        (images_of timelines.new kept.now.items begun.new) }
    ensures counted { steps.old ≤ steps.new }
{
    match kept.back() {
        Some(k) => {
            timelines.revert(&k.epoch, k.counts, steps);
            *begun = k.begun;
        }
        None => unreachable!(),
    }
}

/// Makes the image that is kept under the epoch the present one, and keeps all epochs. Without memory the present state is that of
/// the last kept epoch.
pub(crate) fn restore<L: Ledger>(
    timelines: &mut Timelines,
    kept: &VecDeque<KeptCounts>,
    begun: &mut Option<i64>,
    epoch: &i64,
    steps: &mut Steps<L>,
) -> Result<(), NoMemory>
    requires store { IsStoreWith timelines.old kept.now.items begun.old }
    requires some { IsSome (last_kept (images_of timelines.old kept.now.items begun.old)) }
    requires there { IsSome
        (kept_at (images_of timelines.old kept.now.items begun.old) epoch.now) }
    ensures store { IsStoreWith timelines.new kept.now.items begun.new }
    ensures same { keeps_of timelines.new ≡ keeps_of timelines.old }
    ensures ok { OnOk result (kept_at
        (images_of timelines.old kept.now.items begun.old) epoch.now ≡
        Some (present_image timelines.new)) }
    ensures begun { OnOk result (begun.new ≡ begun.old) }
    ensures made { OnOk result (made_of timelines.new ≤ made_of timelines.old +
        (all_above (keeps_of timelines.old) epoch.now + made_of timelines.old)) }
    ensures err { OnErr result (FallsBack (images_of timelines.old kept.now.items begun.old)
        (images_of timelines.new kept.now.items begun.new)) }
    ensures counted { steps.old ≤ steps.new }
    ensures still { OnOk result (steps.new ≡ steps.old) }
{
    match counts_at(kept, epoch) {
        Some(counts) => match timelines.restore(epoch, counts) {
            Ok(()) => Ok(()),
            Err(NoMemory) => {
                go_back(timelines, kept, begun, steps);
                Err(NoMemory)
            }
        },
        None => unreachable!(),
    }
}

/// How much the image at the place has.
pub(crate) fn counts(
    timelines: &Timelines,
    kept: &VecDeque<KeptCounts>,
    begun: &Option<i64>,
    at: &At,
) -> Result<Counts, NoEpoch>
    requires { IsStoreWith timelines.now kept.now.items begun.now }
    ensures { MatchOption (image_of_place (images_of timelines.now kept.now.items begun.now) at.now)
        (IsErr result) (λ image. IsOkAnd result (λ counts. counts ≡ counts_of image)) }
{
    match at {
        At::Tip => Ok(timelines.counts),
        At::Epoch(epoch) => match counts_at(kept, epoch) {
            Some(counts) => Ok(counts),
            None => Err(NoEpoch),
        },
    }
}

/// The place of the transaction that is open at the place.
pub(crate) fn open_at(
    timelines: &Timelines,
    kept: &VecDeque<KeptCounts>,
    begun: &Option<i64>,
    at: &At,
) -> Result<Option<i64>, NoEpoch>
    requires { IsStoreWith timelines.now kept.now.items begun.now }
    ensures { MatchOption (image_of_place (images_of timelines.now kept.now.items begun.now) at.now)
        (IsErr result) (λ image. IsOkAnd result (λ there. there ≡
        begun_of_place (images_of timelines.now kept.now.items begun.now) at.now)) }
{
    match at {
        At::Tip => Ok(*begun),
        At::Epoch(epoch) => match counts_at(kept, epoch) {
            Some(_) => Ok(begun_at(kept, epoch)),
            None => Err(NoEpoch),
        },
    }
}

//! A map of a timeline is looked at: the present one, or that of a kept epoch.

ghost use Rattle.std.specs.Option.{option_copied};
ghost use Rattle.kr_defs.specs.Lookups.{Finds, FindsEntry};
ghost use Rattle.kr_defs.specs.Map as map;
ghost use Rattle.kr_image.specs.inner.TimelineMaps.{entries_at};

use kr_base::NoEpoch;
use kr_store::At;
use kr_timeline::Timeline;

/// The value of the key.
pub(crate) fn find_at<'a, K: Ord + Drop, V: Drop>(
    timeline: &'a Timeline<K, V>,
    at: At,
    key: &K,
) -> Result<Option<&'a V>, NoEpoch>
    ensures { Finds (entries_at timeline.now.maps at) result
        (λ entries. map.get K.cmp entries key.now) }
{
    match at {
        At::Tip => Ok(timeline.get(key)),
        At::Epoch(epoch) => timeline.get_at(epoch, key),
    }
}

/// The entry with the least key above the given one, or the first entry.
pub(crate) fn next<'a, K: Ord + Drop, V: Drop>(
    timeline: &'a Timeline<K, V>,
    at: At,
    after: Option<&K>,
) -> Result<Option<(&'a K, &'a V)>, NoEpoch>
    ensures { FindsEntry (entries_at timeline.now.maps at) result
        (λ entries. map.next K.cmp entries (option_copied after.entry)) }
{
    match at {
        At::Tip => Ok(timeline.next(after)),
        At::Epoch(epoch) => timeline.next_at(epoch, after),
    }
}

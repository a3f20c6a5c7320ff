//! What an event adds to the log.

ghost use Rattle.std.specs.Prelude.{◌≡◌, ◌++◌, ◌≤◌, ◌≤ℤ◌, length, OnOk, OnErr};
ghost use Rattle.kr_calls.specs.declared.events.Entry.TheVariants as entries;
ghost use Rattle.kr_defs.specs.declared.limits.TheConstants.{MOST_RECORDS as most_records, PLACES_END as places_end};
ghost use Rattle.kr_engine.specs.inner.Changes.{core_with_entries, GivesAlone};
ghost use Rattle.kr_model.specs.Entries.{item_entries};

use crate::Engine;
use crate::places::Next;
use kr_base::NoMemory;
use kr_calls::Entry;
use kr_defs::{Item, Items, Records};

pub(crate) fn item_entry(place: &i64, item: Item) -> Entry
    ensures { result ≡ entries.Item place.now item }
{
    Entry::Item {
        place: *place,
        item,
    }
}

pub(crate) fn image_entry(offset: &i64, records: Records) -> Entry
    ensures { result ≡ entries.Load offset.now records }
{
    Entry::Load {
        offset: *offset,
        records,
    }
}

// Adds items one behind the other, of which the first stands at the place.
#[tactic(auto, using(kr_model::proofs::LogEntries::placing))]
fn place_items(out: &mut Vec<Entry>, place: &i64, items: Items) -> Result<(), NoMemory>
    requires low { place.now ≤ℤ places_end }
    requires few { length items ≤ most_records }
    ensures { OnOk result (out.new.items ≡ out.old.items ++ item_entries place.now items) }
{
    let mut next = Next::at(place);
    for item in items.into_vec() {
        out.push(item_entry(&next.place, item))?;
        next.go_on();
    }
    Ok(())
}

impl Engine {
    // The items come at the tip.
    pub(crate) fn add_items(&mut self, items: Items) -> Result<(), NoMemory>
        requires low { self.old.tip ≤ℤ places_end }
        requires few { length items ≤ most_records }
        ensures added { OnOk result (self.new ≡ core_with_entries self.old (item_entries self.old.tip items)) }
        ensures begun { OnErr result (GivesAlone self.old self.new) }
    {
        place_items(&mut self.fresh, &self.tip, items)
    }
}

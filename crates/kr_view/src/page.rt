//! Pages of the partitions of an image.

ghost use Rattle.std.specs.Prelude.{◌≡◌, ◌≤◌, ◌++◌, IfOk, OnOk, length, take};
ghost use Rattle.std.specs.Option.{option_copied};
ghost use Rattle.kr_view.specs.PageRows.{rows_behind};
ghost use Rattle.kr_view.specs.Scans.{no_heads, page_of, page_row};

use crate::listing::{Listing, list_behind, list_topics};
use crate::scans::{Page, PageRow, ScanKey};
use kr_base::NoMemory;
use kr_defs::{Copied, Partition, Text};
use kr_store::{Seen, Store};
use std::alloc::Global;

/// Each partition by the name of its topic and its index.
#[derive(Drop)]
struct Partitions;

impl Listing<PageRow> for Partitions {
    ghost heads = { λ _ topic. no_heads topic };

    ghost rows = { λ _ w. page_row w };

    fn head(&self, _alloc: Global, _name: &Text, _id: &u128) -> Result<Option<PageRow>, NoMemory> {
        Ok(None)
    }

    fn row(
        &self,
        alloc: Global,
        name: &Text,
        key: &(u128, i32),
        partition: &Partition,
    ) -> Result<PageRow, NoMemory> {
        let key = ScanKey {
            topic: name.copied(alloc)?,
            index: key.1,
        };
        let partition = partition.copied(alloc)?;
        Ok(PageRow { key, partition })
    }
}

// The partitions behind the key, or all of them.
fn add_rows<S: Store>(
    alloc: Global,
    seen: &Seen<S>,
    after: Option<&ScanKey>,
    most: u32,
    page: &mut Page,
) -> Result<(), NoMemory>
    requires { length page.old ≤ most }
    ensures { OnOk result (page.new ≡ take most (page.old ++ rows_behind seen.now (option_copied
        after.entry))) }
{
    match after {
        None => list_topics(alloc, seen, &Partitions, None, most, page),
        Some(ScanKey { topic, index }) => {
            list_behind(alloc, seen, &Partitions, topic, index, most, page)
        }
    }
}

/// The first partitions behind the key, in walking order.
pub(crate) fn page_of<S: Store>(
    alloc: Global,
    seen: &Seen<S>,
    after: Option<&ScanKey>,
    most: u32,
) -> Result<Page, NoMemory>
    ensures { IfOk result (λ page. page ≡ page_of seen.now (option_copied after.entry) most) }
{
    seen.is_valid();
    let mut page = Page::new(alloc);
    add_rows(alloc, seen, after, most, &mut page)?;
    Ok(page)
}

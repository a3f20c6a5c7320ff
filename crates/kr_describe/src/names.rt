//! The names of a request, each once and in order.

ghost use Rattle.std.specs.Prelude.{◌≡◌, IfOk, OnOk};
ghost use Rattle.std.specs.Map.{keys_of};
ghost use Rattle.kr_pages.specs.Lines.{in_order, with_name};
ghost use Rattle.kr_describe.specs.inner.ShownLines as shown;

use kr_base::NoMemory;
use kr_defs::{Copied, Text, Texts};
use kr_pages::LineKey;
use std::alloc::Global;
use std::cmp::Ordering;
use std::collections::BTreeMap;

/// Names in order, each once.
pub(crate) type Names = BTreeMap<Text, ()>;

// One name more.
fn add_sorted(alloc: Global, name: &Text, sorted: &mut Names) -> Result<(), NoMemory>
    ensures { OnOk result (keys_of sorted.new.entries ≡ with_name (keys_of sorted.old.entries)
        name.now) }
{
    sorted.insert(name.copied(alloc)?, ())?;
    Ok(())
}

pub(crate) fn in_order(alloc: Global, names: &Texts) -> Result<Names, NoMemory>
    ensures { IfOk result (λ sorted. keys_of sorted.entries ≡ in_order names.now) }
{
    let mut sorted = BTreeMap::new(alloc);
    let names = names.as_slice();
    for name in names {
        add_sorted(alloc, name, &mut sorted)?;
    }
    Ok(sorted)
}

/// The index from which on the lines of a name aren't before the cursor; none where all of them are.
pub(crate) fn first_index(name: &Text, cursor: &LineKey) -> Option<i32>
    ensures { result ≡ shown.first_index name.now cursor.now }
{
    match name.cmp(&cursor.topic) {
        Ordering::Less => None,
        Ordering::Equal => Some(cursor.index),
        Ordering::Greater => Some(-1),
    }
}

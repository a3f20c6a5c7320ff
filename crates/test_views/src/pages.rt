//! Pages of a description of topics, by a reader.

use kr_base::NoMemory;
use kr_defs::{Text, Texts};
use kr_describe::{PageFault, page};
use kr_pages::{Describe, DescribedTopic, LineKey};
use kr_view::{ReaderSeat, ScanFault};
use std::alloc::Global;

fn has_name(topic: &DescribedTopic, name: &str) -> bool {
    match &topic.name {
        Some(own) => own.as_str() == name,
        None => false,
    }
}

// The page of one line has this topic with so many partitions, and this is the next cursor's.
fn shows_one(
    alloc: Global,
    seat: &mut ReaderSeat,
    describe: &Describe,
    name: &str,
    parts: usize,
    next: Option<&str>,
) -> bool {
    let Ok(described) = page(alloc, seat, 16, describe) else {
        return false;
    };
    let goes_on = match (&described.next, next) {
        (Some(key), Some(next)) => key.topic.as_str() == next,
        (None, None) => true,
        _ => false,
    };
    match described.topics.as_slice() {
        [topic] => goes_on && has_name(topic, name) && topic.parts.len() == parts,
        _ => false,
    }
}

fn one_line(alloc: Global, cursor: Option<LineKey>) -> Describe {
    Describe {
        names: Texts::new(alloc),
        limit: 1,
        cursor,
    }
}

/// At place 16 stand `u` 0 and `v` 0, a page each; a name that no topic has is a line; place 12 is gone.
pub(crate) fn pages_show_both(alloc: Global, seat: &mut ReaderSeat) -> Result<bool, NoMemory> {
    let first = one_line(alloc, None);
    let topic = Text::from_str(alloc, "v")?;
    let second = one_line(alloc, Some(LineKey { topic, index: 0 }));
    let mut unknown = one_line(alloc, None);
    unknown.names.push(Text::from_str(alloc, "x")?)?;
    let is_gone = matches!(
        page(alloc, seat, 12, &first),
        Err(PageFault::Scan(ScanFault::Gone { .. }))
    );
    Ok(
        is_gone
            && shows_one(alloc, seat, &first, "u", 1, Some("v"))
            && shows_one(alloc, seat, &second, "v", 1, None)
            && shows_one(alloc, seat, &unknown, "x", 0, None),
    )
}

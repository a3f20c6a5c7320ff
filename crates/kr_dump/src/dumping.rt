//! The whole text.

ghost use Rattle.std.specs.Prelude.{◌≡◌, IfOk};
ghost use Rattle.kr_dump.specs.DumpText as texts;

use crate::lines::put_offset;
use crate::parts::{BrokerLine, ConfigLine, FeatureLine, TopicLines};
use kr_base::NoMemory;
use kr_defs::Bytes;
use kr_listing::add_image;
use kr_store::{Seen, Store};
use std::alloc::Global;

/// The text of the image, under an offset: a line an entry, in the order in which an image is written. NoMemory alone comes
/// where there is none.
#[tactic(auto, unfolding(crate::specs::DumpText::dump_text))]
pub fn dump<S: Store>(alloc: Global, seen: &Seen<S>, offset: i64) -> Result<Bytes, NoMemory>
    ensures { IfOk result (λ text. text ≡ texts.dump_text offset seen.now) }
{
    let mut text = Bytes::new(alloc);
    put_offset(alloc, &mut text, offset)?;
    add_image(
        alloc,
        seen,
        &FeatureLine,
        &BrokerLine,
        &TopicLines,
        &ConfigLine,
        &mut text,
    )?;
    Ok(text)
}

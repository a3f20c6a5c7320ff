//! The line of a record.

ghost use Rattle.std.specs.Prelude.{◌≡◌, ◌+ℤ◌, pos, ◌++◌, OnErr, OnOk};
ghost use Rattle.kr_json.specs.Lines as lines;

use crate::kinds::{kind_name, put_data};
use crate::members::{put_i32, put_i64, put_i128};
use crate::place::Place;
use crate::text::put_str;
use kr_base::NoMemory;
use kr_defs::{Item, Record};
use std::alloc::{AllocError, Global};

fn offset_of(place: &Place) -> i128
    ensures { result ≡ place.now.base +ℤ pos place.now.number }
{
    i128::from(place.base) + i128::from(place.number)
}

fn put_place(alloc: Global, out: &mut Vec<u8>, place: &Place) -> Result<(), AllocError>
    ensures { OnOk result (out.new.items ≡ out.old.items ++ lines.place place.now) }
{
    let offset = offset_of(place);
    put_i128(alloc, out, "{\"offset\":", offset)?;
    put_i32(alloc, out, ",\"leaderEpoch\":", &place.epoch)?;
    put_i64(alloc, out, ",\"timestamp\":", &place.time)?;
    Ok(())
}

fn put_record(
    alloc: Global,
    out: &mut Vec<u8>,
    version: u32,
    value: &Record,
) -> Result<(), AllocError>
    ensures { OnOk result (out.new.items ≡ out.old.items ++ lines.record_members version
        value.now) }
{
    put_str(out, ",\"type\":\"")?;
    put_str(out, kind_name(value))?;
    let middle = format!(in alloc; "\",\"version\":{version},\"data\":")?;
    put_str(out, middle.as_str())?;
    put_data(alloc, out, version, value)
}

fn put_item(alloc: Global, out: &mut Vec<u8>, version: u32, item: &Item) -> Result<(), AllocError>
    ensures { OnOk result (out.new.items ≡ out.old.items ++ lines.item_members version item.now) }
{
    match item {
        Item::Record(value) => put_record(alloc, out, version, value),
        Item::Control => put_str(out, ",\"control\":true"),
    }
}

#[tactic(auto, unfolding(crate::specs::Lines::record_line))]
fn put_members(
    alloc: Global,
    place: &Place,
    version: u32,
    item: &Item,
    out: &mut Vec<u8>,
) -> Result<(), AllocError>
    ensures { OnOk result (out.new.items ≡ out.old.items ++ lines.record_line place.now version
        item.now) }
{
    put_place(alloc, out, place)?;
    put_item(alloc, out, version, item)?;
    put_str(out, "}\n")
}

/// Appends the line of what stands at a place of the log, a record of this version, as
/// `kafka-dump-log --cluster-metadata-decoder` shows its payload, and before it offset, epoch and time. Without memory
/// nothing is appended.
pub fn put_line(
    alloc: Global,
    place: &Place,
    version: u32,
    item: &Item,
    out: &mut Vec<u8>,
) -> Result<(), NoMemory>
    ensures ok { OnOk result (out.new.items ≡ out.old.items ++ lines.record_line place.now version
        item.now) }
    ensures err { OnErr result (out.new.items ≡ out.old.items) }
{
    let mut bytes = Vec::new(alloc);
    put_members(alloc, place, version, item, &mut bytes)?;
    Ok(out.extend_from_slice(&bytes)?)
}

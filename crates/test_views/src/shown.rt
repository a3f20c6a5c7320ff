//! What tests of the copies show, and read.

ghost use Rattle.kr_view.specs.Staged.{is_begin_record};
ghost use Rattle.kr_view.specs.StagedLaws.{HasNothing, IsPlain};
ghost use Rattle.std.specs.Prelude.{◌≡◌, false, IfOk, IsTrue, OnOk};
ghost use Rattle.kr_calls.specs.Decide.{is_read};

use kr_base::NoMemory;
use kr_calls::{Call, Entry, Metadata, Request};
use kr_defs::{Ids, Item, Options, Partition, Record, Text};
use kr_view::Publisher;
use kr_view::laws::logged_entries_are_right;
use std::alloc::Global;
use std::sync::Wait;

pub(crate) fn options(alloc: Global) -> Options {
    Options {
        node: 1,
        salt: 1,
        session_ms: 9_000,
        partitions: 1,
        factor: 1,
        minimum: 1,
        cluster: Text::new(alloc),
    }
}

pub(crate) fn topic(alloc: Global, name: &str, id: u128) -> Result<Record, NoMemory>
    ensures { IfOk result (λ r. is_begin_record r ≡ false) }
{
    let name = Text::from_str(alloc, name)?;
    Ok(Record::Topic { name, id })
}

fn broker_1(alloc: Global) -> Result<Ids, NoMemory> {
    let mut ids = Ids::new(alloc);
    ids.push(1)?;
    Ok(ids)
}

// A partition on broker 1.
pub(crate) fn partition(alloc: Global, topic: u128, index: i32) -> Result<Record, NoMemory>
    ensures { IfOk result (λ r. is_begin_record r ≡ false) }
{
    let replicas = broker_1(alloc)?;
    let in_sync = broker_1(alloc)?;
    let state = Partition {
        replicas,
        in_sync,
        eligible: Ids::new(alloc),
        last_known: Ids::new(alloc),
        adding: Ids::new(alloc),
        removing: Ids::new(alloc),
        leader: 1,
        recovery: 0,
        leader_epoch: 0,
        partition_epoch: 0,
    };
    Ok(Record::Partition {
        index,
        topic,
        state,
    })
}

pub(crate) fn stage_record(
    publisher: &mut Publisher,
    place: i64,
    change: Record,
) -> Result<(), NoMemory>
    requires plain { IsPlain publisher.old }
    requires begins { is_begin_record change ≡ false }
    ensures { OnOk result (IsPlain publisher.new) }
{
    let item = Item::Record(change);
    if let Err(_) = publisher.stage(Entry::Item { place, item }) {
        return Err(NoMemory);
    }
    Ok(())
}

pub(crate) fn all_topics() -> Call
    ensures { IsTrue (is_read result.request) }
{
    Call {
        correlation: 5,
        request: Request::Metadata(Metadata { topics: None }),
    }
}

// Shows what is staged, where that is neither an answer nor a pin nor a begin.
pub(crate) fn show_plain<R: Wait>(
    rt: &R,
    publisher: &mut Publisher,
    end: i64,
) -> Result<(), NoMemory>
    requires { IsPlain publisher.old }
    ensures { OnOk result (HasNothing publisher.new) }
{
    logged_entries_are_right();
    publisher.publish(rt, end)?;
    publisher.drop_staged();
    Ok(())
}

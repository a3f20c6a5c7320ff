//! Heartbeats of few and of many brokers.

ghost use Rattle.std.specs.Prelude.{◌<◌, OnOk};

use kr_base::NoMemory;
use kr_contact::ContactList;
use kr_defs::Contact;
use std::alloc::{AllocError, Global};

/// So many heartbeats come in a round, however many brokers send them.
pub(crate) const BEATS: u32 = 100_000;

/// How many brokers send them where each job is done once.
pub(crate) const MANY: u16 = 1_000;

/// A list of so many brokers.
pub(crate) fn list_of(alloc: Global, brokers: u16) -> Result<ContactList, AllocError> {
    let mut list = ContactList::new(alloc);
    for id in 0..brokers {
        make_room(&mut list)?;
        list.touch(i32::from(id), 0);
    }
    Ok(list)
}

/// Each broker beats in turn from this time on, so that it is each time the one at the front, until all heartbeats came.
pub(crate) fn beat_all(list: &mut ContactList, brokers: u16, since: i64) -> Result<(), AllocError> {
    let times = BEATS / u32::from(brokers).max(1);
    for time in 0..times {
        for id in 0..brokers {
            beat(list, i32::from(id), since.wrapping_add(i64::from(time)))?;
        }
    }
    Ok(())
}

// A heartbeat makes sure of room first, as a handler does.
fn beat(list: &mut ContactList, broker: i32, time: i64) -> Result<(), AllocError> {
    make_room(list)?;
    list.beat(&Contact {
        broker,
        time,
        offset: time,
    });
    Ok(())
}

// One broker more is sure to find memory.
fn make_room(list: &mut ContactList) -> Result<(), AllocError>
    ensures { OnOk result (0 < list.new.spare) }
{
    match list.reserve(1) {
        Ok(()) => Ok(()),
        Err(NoMemory) => Err(AllocError),
    }
}

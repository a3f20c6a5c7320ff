//! The worked example of the contact list, and a long list that is dropped.

ghost use Rattle.std.specs.Prelude.{◌≡◌, ◌<◌};

use kr_base::{NoMemory, Steps};
use kr_contact::ContactList;
use std::alloc::Global;
use std::marker::Brand;
use std::process::Abort;
use std::sync::ledger::{Blank, Ledger};

// Brokers 1 and 2 are heard of at 10, and 1 again at 12; and who was the oldest before.
fn two_brokers(alloc: Global) -> Result<(ContactList, Option<(i32, i64)>), NoMemory> {
    let mut list = ContactList::new(alloc);
    list.reserve(2)?;
    list.touch(1, 10);
    list.touch(2, 10);
    let oldest = list.oldest();
    list.touch(1, 12);
    Ok((list, oldest))
}

// Those whose last beat is up to these times.
fn expire<L: Ledger>(list: &ContactList, steps: &mut Steps<L>) -> Result<bool, NoMemory> {
    let at_eleven = list.expired(11, steps)?;
    let at_twelve = list.expired(12, steps)?;
    Ok(at_eleven.as_slice() == [2].as_slice() && at_twelve.as_slice() == [2, 1].as_slice())
}

fn is_removed(list: &mut ContactList) -> bool {
    !list.remove(3) && list.remove(2) && list.oldest() == Some((1, 12))
}

fn three_beats<L: Ledger>(rt: &impl Abort, alloc: Global, blank: Blank) -> Result<(), NoMemory>
    requires name { blank.name ≡ L.name }
    requires parts { blank.parts ≡ L.parts }
    requires some { 0 < L.parts }
{
    let mut steps: Steps<L> = Steps::new(blank);
    let (mut list, oldest) = two_brokers(alloc)?;
    assert!(rt; oldest == Some((1, 10)));
    assert!(rt; list.len() == 2 && list.oldest() == Some((2, 10)));
    assert!(rt; expire(&list, &mut steps)?);
    assert!(rt; is_removed(&mut list));
    Ok(())
}

#[test]
fn contacts_of_two_brokers(rt: HostRuntime) -> Result<(), NoMemory> {
    three_beats::<Brand>(&rt, rt.alloc(), Blank::new(1))
}

fn long_list(alloc: Global) -> Result<ContactList, NoMemory> {
    let mut list = ContactList::new(alloc);
    for id in 0..1_000 {
        list.reserve(1)?;
        list.touch(id, i64::from(id));
    }
    Ok(list)
}

// Who is taken out, and whether it was there.
const REMOVED: [(i32, bool); 4] = [(0, true), (500, true), (999, true), (500, false)];

#[test]
fn a_long_list_is_dropped(rt: HostRuntime) -> Result<(), NoMemory> {
    let mut list = long_list(rt.alloc())?;
    for (id, was_there) in REMOVED {
        assert!(rt; list.remove(id) == was_there);
    }
    assert!(rt; list.len() == 997 && list.oldest() == Some((1, 1)));
    drop(list);
    Ok(())
}

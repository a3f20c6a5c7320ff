//! Single looks at the two lists.

ghost use Rattle.std.specs.Prelude.{◌≡◌, ◌+◌, ◌+ℤ◌, ◌<◌, pos, map, find, int_lt, vec_capacity, vec_len, ◌≤◌, IsTrue, IfOk, ◌&&◌};
ghost use Rattle.std.specs.List.{list_any};
ghost use Rattle.std.specs.Option.{option_map};
ghost use Rattle.std.specs.Ordering.{int_eq};
ghost use Rattle.kr_contact.specs.Contacts.{touched};
ghost use Rattle.kr_defs.specs.Ids.{is_distinct};
ghost use Rattle.kr_defs.specs.Heartbeats.{stopping_without, new_contact, new_stopping};

use kr_base::NoMemory;
use kr_contact::ContactList;
use kr_defs::{Contact, Stopping};
use std::alloc::Global;

// The brokers as contacts that were heard of now.
pub(crate) fn contacts_of(
    alloc: Global,
    brokers: &[i32],
    now: &i64,
) -> Result<ContactList, NoMemory>
    requires { IsTrue (is_distinct brokers.now) }
    ensures { IfOk result (λ list. list.contacts ≡ map (new_contact now.now) brokers.now) }
{
    let mut list = ContactList::new(alloc);
    list.reserve(brokers.len())?;
    for broker in brokers {
        touch(&mut list, broker, now);
    }
    Ok(list)
}

// The broker was heard of now.
fn touch(list: &mut ContactList, broker: &i32, now: &i64)
    requires { 0 < list.old.spare }
    ensures contacts { list.new.contacts ≡ touched list.old.contacts (new_contact now.now broker.now) }
    ensures spare { list.old.spare ≤ list.new.spare + 1 }
{
    list.touch(*broker, *now);
}

// The brokers as stopping ones that began at the tip.
pub(crate) fn stopping_of(
    alloc: Global,
    brokers: &[i32],
    tip: &i64,
) -> Result<Vec<Stopping>, NoMemory>
    ensures { IfOk result (λ stopping. stopping.items ≡ map (new_stopping tip.now) brokers.now) }
{
    let mut stopping = Vec::with_capacity(alloc, brokers.len())?;
    for broker in brokers {
        stopping.push(new_stopping(broker, tip))?;
    }
    Ok(stopping)
}

fn new_stopping(broker: &i32, tip: &i64) -> Stopping
    ensures { result ≡ new_stopping tip.now broker.now }
{
    Stopping {
        broker: *broker,
        tip: *tip,
    }
}

// Takes the broker out.
pub(crate) fn drop_stopping(stopping: &mut Vec<Stopping>, broker: &i32)
    ensures items { stopping.new.items ≡ stopping_without stopping.old.items broker.now }
    ensures len { vec_len stopping.new ≤ vec_len stopping.old }
    ensures capacity { vec_capacity stopping.new ≡ vec_capacity stopping.old }
{
    stopping.retain(|stopping| stopping.broker != *broker);
}

// The broker as it was heard of last.
fn contact_of(contacts: &ContactList, broker: &i32) -> Option<Contact>
    ensures { result ≡ find (λ c. int_eq c.broker broker.now) contacts.now.contacts }
{
    contacts.contact(*broker)
}

// Less than the session's length has passed since the broker was heard of.
fn is_heard(contact: &Contact, now: &i64, session_ms: &u32) -> bool
    ensures { result ≡ int_lt now.now (contact.now.time +ℤ pos session_ms.now) }
{
    let now = *now;
    match contact.time.checked_add(*session_ms as i64) {
        Some(end) => now < end,
        None => true,
    }
}

// The broker is a contact that is still heard.
pub(crate) fn is_valid(contacts: &ContactList, broker: &i32, now: &i64, session_ms: &u32) -> bool
    requires { IsTrue (is_distinct (map (λ c. c.broker) contacts.now.contacts)) }
    ensures { result ≡ list_any (λ c. int_eq c.broker broker.now && int_lt now.now (c.time +ℤ pos session_ms.now)) contacts.now.contacts }
{
    match contact_of(contacts, broker) {
        Some(contact) => is_heard(&contact, now, session_ms),
        None => false,
    }
}

// The offset that the broker reported last.
pub(crate) fn offset_of(contacts: &ContactList, broker: &i32) -> Option<i64>
    ensures { result ≡ option_map (λ c. c.offset) (find (λ c. int_eq c.broker broker.now) contacts.now.contacts) }
{
    let contact = contact_of(contacts, broker)?;
    Some(contact.offset)
}

// The tip when the broker began to stop.
pub(crate) fn stopped_at(stopping: &[Stopping], broker: &i32) -> Option<i64>
    ensures { result ≡ option_map (λ s. s.tip) (find (λ s. int_eq s.broker broker.now) stopping.now) }
{
    let stopping = stopping.iter().find(|stopping| stopping.broker == *broker)?;
    Some(stopping.tip)
}

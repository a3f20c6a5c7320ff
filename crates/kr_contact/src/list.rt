//! Contacts in order of time.

ghost use Rattle.std.specs.Prelude.{◌≡◌, ◌==◌, ◌+◌, ◌≤◌, ◌<◌, [], IsTrue, IfOk, OnOk, OnErr, length, slice_get};
ghost use Rattle.std.specs.Option.{option_map};
ghost use Rattle.kr_defs.specs.Heartbeats.{contacts_without, new_contact};
ghost use Rattle.kr_contact.specs.Contacts.{KeepsRoom, is_contact, contact_of, touched, expired_among, may_touch, seen_of};

use crate::ring::Ring;
use kr_base::{NoMemory, Steps};
use kr_defs::{Contact, Contacts, Ids};
use std::alloc::Global;
use std::marker::{Brand, Model, Send};
use std::sync::ledger::{Blank, Ledger};

/// Brokers as they were heard of, in order of the last contact.
#[derive(Drop)]
pub struct ContactList {
    // Where memory comes from.
    alloc: Global,
    // None until there is room.
    ring: Option<Ring>,
}

impl Model for ContactList {
    ghost use Rattle.kr_contact.specs.Contacts.{ContactsSeen, seen_of};

    ghost Value = { ContactsSeen };

    ghost view = { λ l. seen_of l.ring };
}

// Its pointers lead into its own block, so it may move to another thread.
unsafe impl Send for ContactList {}

impl ContactList {
    /// No broker was heard of. It takes no memory.
    pub fn new(alloc: Global) -> ContactList
        ensures contacts { result.contacts ≡ [] }
        ensures spare { result.spare ≡ 0 }
    {
        ContactList { alloc, ring: None }
    }

    /// A list of the same contacts.
    pub fn copied(&self) -> Result<ContactList, NoMemory>
        ensures { IfOk result (λ list. list.contacts ≡ self.now.contacts) }
    {
        let ring = wider::<Brand>(self.alloc, &self.ring, self.len(), Blank::new(1))?;
        Ok(ContactList {
            alloc: self.alloc,
            ring: Some(ring),
        })
    }

    /// How many brokers are contacts.
    pub fn len(&self) -> usize
        ensures { result ≡ length self.now.contacts }
    {
        match &self.ring {
            Some(ring) => ring.len(),
            None => 0,
        }
    }

    /// No broker is a contact.
    pub fn is_empty(&self) -> bool
        ensures { result ≡ (length self.now.contacts == 0) }
    {
        self.len() == 0
    }

    /// Makes room for so many brokers more, which `touch` then takes with no memory. The contacts stay.
    pub fn reserve(&mut self, more: usize) -> Result<(), NoMemory>
        ensures contacts { self.new.contacts ≡ self.old.contacts }
        ensures ok { OnOk result (more ≤ self.new.spare) }
        ensures spare { self.old.spare ≤ self.new.spare }
        ensures err { OnErr result (self.new ≡ self.old) }
    {
        if more <= self.spare() {
            return Ok(());
        }
        let count = self.len();
        let room = count.checked_add(count.max(more)).ok_or(NoMemory)?;
        let ring = wider::<Brand>(self.alloc, &self.ring, room, Blank::new(1))?;
        self.ring = Some(ring);
        Ok(())
    }

    /// So many brokers more are sure to find memory.
    pub fn spare(&self) -> usize
        ensures { result ≡ self.now.spare }
    {
        match &self.ring {
            Some(ring) => ring.spare(),
            None => 0,
        }
    }

    /// No broker is a contact any more. Room that was made stays.
    pub fn clear(&mut self)
        ensures contacts { self.new.contacts ≡ [] }
        ensures spare { self.old.spare ≤ self.new.spare }
    {
        if let Some(ring) = &mut self.ring {
            ring.clear();
        }
    }

    /// The broker was heard of at the time, in milliseconds, and has reported no offset yet. It becomes the last
    /// contact. It takes no memory.
    pub fn touch(&mut self, id: i32, now: i64)
        requires { IsTrue (may_touch self.old id) }
        ensures contacts { self.new.contacts ≡ touched self.old.contacts (new_contact now id) }
        ensures spare { self.old.spare ≤ self.new.spare + 1 }
        ensures again { KeepsRoom self.old self.new id }
    {
        let contact = Contact {
            broker: id,
            time: now,
            offset: -1,
        };
        self.beat(&contact);
    }

    /// The broker was heard of as the contact says, and becomes the last one. It takes no memory.
    pub fn beat(&mut self, contact: &Contact)
        requires { IsTrue (may_touch self.old contact.now.broker) }
        ensures contacts { self.new.contacts ≡ touched self.old.contacts contact.now }
        ensures spare { self.old.spare ≤ self.new.spare + 1 }
        ensures again { KeepsRoom self.old self.new contact.now.broker }
    {
        beat::<Brand>(self, contact, Blank::new(1));
    }

    /// `beat`, in no more steps than these, however many contacts there are. A step is one node that is read or written.
    /// The look-up of the broker is none.
    pub fn beat_in_steps<L: Ledger>(&mut self, contact: &Contact, steps: &mut Steps<L>)
        requires { IsTrue (may_touch self.old contact.now.broker) }
        ensures contacts { self.new.contacts ≡ touched self.old.contacts contact.now }
        ensures spare { self.old.spare ≤ self.new.spare + 1 }
        ensures again { KeepsRoom self.old self.new contact.now.broker }
        ensures bound { steps.new ≤ steps.old + 9 }
    {
        if let Some(ring) = &mut self.ring {
            ring.touch(contact, steps);
        }
    }

    /// Takes the broker out, and tells whether it was a contact. It takes no memory.
    pub fn remove(&mut self, id: i32) -> bool
        ensures was { result ≡ is_contact self.old.contacts id }
        ensures contacts { self.new.contacts ≡ contacts_without self.old.contacts id }
        ensures spare { self.old.spare ≤ self.new.spare }
    {
        remove::<Brand>(self, id, Blank::new(1))
    }

    /// `remove`, in no more steps than these.
    pub fn remove_in_steps<L: Ledger>(&mut self, id: i32, steps: &mut Steps<L>) -> bool
        ensures was { result ≡ is_contact self.old.contacts id }
        ensures contacts { self.new.contacts ≡ contacts_without self.old.contacts id }
        ensures spare { self.old.spare ≤ self.new.spare }
        ensures bound { steps.new ≤ steps.old + 3 }
    {
        match &mut self.ring {
            Some(ring) => ring.remove(&id, steps),
            None => false,
        }
    }

    /// The broker that was heard of the longest ago, with the time. It takes no memory.
    pub fn oldest(&self) -> Option<(i32, i64)>
        ensures { result ≡ option_map (λ c. (c.broker, c.time)) (slice_get self.now.contacts 0) }
    {
        let oldest = oldest::<Brand>(self, Blank::new(1))?;
        Some((oldest.broker, oldest.time))
    }

    /// The contact that was heard of the longest ago, in no more steps than these.
    pub fn oldest_in_steps<L: Ledger>(&self, steps: &mut Steps<L>) -> Option<Contact>
        ensures oldest { result ≡ slice_get self.now.contacts 0 }
        ensures bound { steps.new ≤ steps.old + 2 }
    {
        match &self.ring {
            Some(ring) => ring.oldest(steps),
            None => None,
        }
    }

    /// The broker as it was heard of last.
    pub fn contact(&self, id: i32) -> Option<Contact>
        ensures { result ≡ contact_of self.now.contacts id }
    {
        match &self.ring {
            Some(ring) => ring.contact(&id),
            None => None,
        }
    }

    /// A copy of the contacts.
    pub fn contacts(&self) -> Result<Contacts, NoMemory>
        ensures { IfOk result (λ contacts. contacts ≡ self.now.contacts) }
    {
        match &self.ring {
            Some(ring) => ring.contacts(self.alloc),
            None => Ok(Contacts::new(self.alloc)),
        }
    }

    /// The brokers that were heard of at the limit or before, the longest ago first. A step is one contact that is
    /// looked at.
    pub fn expired<L: Ledger>(&self, limit: i64, steps: &mut Steps<L>) -> Result<Ids, NoMemory>
        ensures ok { IfOk result (λ brokers. brokers ≡ expired_among self.now.contacts limit) }
        ensures bound { steps.new ≤ steps.old + length (expired_among self.now.contacts limit) + 1 }
        ensures counted { steps.old ≤ steps.new }
    {
        match &self.ring {
            Some(ring) => ring.expired(self.alloc, &limit, steps),
            None => Ok(Ids::new(self.alloc)),
        }
    }
}

// An empty ring with so much room, and the contacts of the old one in it.
fn wider<L: Ledger>(
    alloc: Global,
    old: &Option<Ring>,
    room: usize,
    blank: Blank,
) -> Result<Ring, NoMemory>
    requires name { blank.name ≡ L.name }
    requires parts { blank.parts ≡ L.parts }
    requires some { 0 < L.parts }
    requires room { length (seen_of old.now).contacts ≤ room }
    ensures contacts { IfOk result (λ ring. ring.contacts ≡ (seen_of old.now).contacts) }
    ensures spare { IfOk result (λ ring. room ≤ ring.spare + length (seen_of old.now).contacts) }
{
    let mut steps: Steps<L> = Steps::new(blank);
    let mut ring = Ring::new(alloc, room)?;
    if let Some(old) = old {
        old.copy_into(&mut ring, &mut steps);
    }
    Ok(ring)
}

// `beat_in_steps` with a counter that nobody reads.
fn beat<L: Ledger>(list: &mut ContactList, contact: &Contact, blank: Blank)
    requires name { blank.name ≡ L.name }
    requires parts { blank.parts ≡ L.parts }
    requires some { 0 < L.parts }
    requires may { IsTrue (may_touch list.old contact.now.broker) }
    ensures contacts { list.new.contacts ≡ touched list.old.contacts contact.now }
    ensures spare { list.old.spare ≤ list.new.spare + 1 }
    ensures again { KeepsRoom list.old list.new contact.now.broker }
{
    let mut steps: Steps<L> = Steps::new(blank);
    list.beat_in_steps(contact, &mut steps);
}

// `remove_in_steps` with a counter that nobody reads.
fn remove<L: Ledger>(list: &mut ContactList, id: i32, blank: Blank) -> bool
    requires name { blank.name ≡ L.name }
    requires parts { blank.parts ≡ L.parts }
    requires some { 0 < L.parts }
    ensures was { result ≡ is_contact list.old.contacts id }
    ensures contacts { list.new.contacts ≡ contacts_without list.old.contacts id }
    ensures spare { list.old.spare ≤ list.new.spare }
{
    let mut steps: Steps<L> = Steps::new(blank);
    list.remove_in_steps(id, &mut steps)
}

// `oldest_in_steps` with a counter that nobody reads.
fn oldest<L: Ledger>(list: &ContactList, blank: Blank) -> Option<Contact>
    requires name { blank.name ≡ L.name }
    requires parts { blank.parts ≡ L.parts }
    requires some { 0 < L.parts }
    ensures { result ≡ slice_get list.now.contacts 0 }
{
    let mut steps: Steps<L> = Steps::new(blank);
    list.oldest_in_steps(&mut steps)
}

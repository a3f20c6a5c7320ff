//! A ring of contacts in one block.

ghost use Rattle.std.specs.Prelude.{◌≡◌, ◌+◌, ◌≤◌, ◌<◌, [], ◌++◌, IsTrue, IfOk, length, slice_get, vec_len, vec_capacity};
ghost use Rattle.std.specs.Vec.{vec_ptr};
ghost use Rattle.kr_defs.specs.Heartbeats.{contacts_without};
ghost use Rattle.kr_contact.specs.Contacts.{AreSingle, KeepsRoom, is_contact, contact_of, touched, expired_among, may_touch};
ghost use Rattle.kr_contact.specs.Rings.{AreKnown, contacts_from};

use crate::index::Index;
use crate::nodes::{self, Node, Place};
use crate::walk;
use kr_base::{NoMemory, Steps};
use kr_defs::{Contact, Contacts, Ids};
use std::alloc::Global;
use std::marker::Model;
use std::sync::ledger::Ledger;

/// The contacts as nodes of one block, which are linked both ways in order of the last contact. The first node is no
/// contact: it closes the ring.
#[derive(Drop)]
pub(crate) struct Ring {
    nodes: Vec<Node>,
    first: Place,
    // Which node is a broker's.
    places: Index,
}

impl Model for Ring {
    ghost use Rattle.std.specs.Prelude.{◌≡◌, ◌-◌, ◌≤◌, map, min, length, vec_len, vec_capacity};
    ghost use Rattle.std.specs.Vec.{vec_ptr};
    ghost use Rattle.kr_contact.specs.Contacts.{ContactsSeen};
    ghost use Rattle.kr_contact.specs.Rings.{IsRing, order_of, contact_at};

    ghost Value = { ContactsSeen };

    ghost view = { λ r. record { contacts = map (contact_at r.nodes.items) (order_of r.first.at r.nodes.items (length r.places.entries)); spare = min (vec_capacity r.nodes - vec_len r.nodes) r.places.spare } };

    ghost invariant = { λ r. (r.first.at ≡ vec_ptr r.nodes) × IsRing r.first.at r.nodes.items r.places.entries (order_of r.first.at r.nodes.items (length r.places.entries)) };
}

impl Ring {
    // An empty ring with room for so many contacts.
    pub(crate) fn new(alloc: Global, room: usize) -> Result<Ring, NoMemory>
        ensures empty { IfOk result (λ r. r.contacts ≡ []) }
        ensures room { IfOk result (λ r. room ≤ r.spare) }
    {
        let capacity = room.checked_add(1).ok_or(NoMemory)?;
        let places = Index::with_capacity(alloc, room)?;
        let mut nodes = Vec::with_capacity(alloc, capacity)?;
        let first = nodes::close(&mut nodes);
        Ok(Ring {
            nodes,
            first,
            places,
        })
    }

    pub(crate) fn len(&self) -> usize
        ensures { result ≡ length self.now.contacts }
    {
        self.places.len()
    }

    // No broker is a contact any more. The memory stays.
    pub(crate) fn clear(&mut self)
        ensures contacts { self.new.contacts ≡ [] }
        ensures spare { self.old.spare ≤ self.new.spare }
    {
        self.nodes.clear();
        self.places.clear();
        self.first = nodes::close(&mut self.nodes);
    }

    // Makes the broker the last contact.
    pub(crate) fn touch<L: Ledger>(&mut self, contact: &Contact, steps: &mut Steps<L>)
        requires { IsTrue (may_touch self.old contact.now.broker) }
        ensures contacts { self.new.contacts ≡ touched self.old.contacts contact.now }
        ensures spare { self.old.spare ≤ self.new.spare + 1 }
        ensures again { KeepsRoom self.old self.new contact.now.broker }
        ensures bound { steps.new ≤ steps.old + 9 }
    {
        match self.places.place_of(&contact.broker) {
            Some(place) => nodes::move_last(&mut self.nodes, place, self.first, contact, steps),
            None => {
                let place = nodes::add_last(&mut self.nodes, self.first, contact, steps);
                self.places.put(&contact.broker, place);
            }
        }
    }

    // Takes the broker out, and tells whether it was a contact.
    pub(crate) fn remove<L: Ledger>(&mut self, broker: &i32, steps: &mut Steps<L>) -> bool
        ensures was { result ≡ is_contact self.old.contacts broker.now }
        ensures contacts { self.new.contacts ≡ contacts_without self.old.contacts broker.now }
        ensures spare { self.old.spare ≤ self.new.spare }
        ensures bound { steps.new ≤ steps.old + 3 }
    {
        match self.places.take(broker) {
            Some(place) => {
                nodes::unlink(&mut self.nodes, place, steps);
                true
            }
            None => false,
        }
    }

    // The contact that was heard of the longest ago.
    pub(crate) fn oldest<L: Ledger>(&self, steps: &mut Steps<L>) -> Option<Contact>
        ensures oldest { result ≡ slice_get self.now.contacts 0 }
        ensures bound { steps.new ≤ steps.old + 2 }
    {
        if self.places.is_empty() {
            return None;
        }
        let first = nodes::look(&self.nodes, self.first, steps);
        let oldest = nodes::look(&self.nodes, first.after, steps);
        Some(nodes::contact_in(&oldest))
    }

    // The broker as it was heard of last.
    pub(crate) fn contact(&self, broker: &i32) -> Option<Contact>
        ensures { result ≡ contact_of self.now.contacts broker.now }
    {
        match self.places.place_of(broker) {
            Some(place) => Some(nodes::contact_in(&nodes::read(&self.nodes, place))),
            None => None,
        }
    }

    // The brokers of the front whose time is at most the limit.
    pub(crate) fn expired<L: Ledger>(
        &self,
        alloc: Global,
        limit: &i64,
        steps: &mut Steps<L>,
    ) -> Result<Ids, NoMemory>
        ensures ok { IfOk result (λ brokers. brokers ≡ expired_among self.now.contacts limit.now) }
        ensures bound { steps.new ≤ steps.old + length (expired_among self.now.contacts limit.now) + 1 }
        ensures counted { steps.old ≤ steps.new }
    {
        let from = nodes::read(&self.nodes, self.first).after;
        walk::expired(alloc, &self.nodes, from, self.places.len(), limit, steps)
    }

    // So many brokers more are sure to find memory.
    pub(crate) fn spare(&self) -> usize
        ensures { result ≡ self.now.spare }
    {
        let nodes = self.nodes.capacity() - self.nodes.len();
        nodes.min(self.places.spare())
    }

    // A copy of the contacts.
    pub(crate) fn contacts(&self, alloc: Global) -> Result<Contacts, NoMemory>
        ensures { IfOk result (λ contacts. contacts ≡ self.now.contacts) }
    {
        let from = nodes::read(&self.nodes, self.first).after;
        walk::contacts(alloc, &self.nodes, from, self.places.len())
    }

    // Puts the contacts into an empty ring, in their order.
    pub(crate) fn copy_into<L: Ledger>(&self, to: &mut Ring, steps: &mut Steps<L>)
        requires empty { to.old.contacts ≡ [] }
        requires room { length self.now.contacts ≤ to.old.spare }
        ensures contacts { to.new.contacts ≡ self.now.contacts }
        ensures spare { to.old.spare ≤ to.new.spare + length self.now.contacts }
    {
        let from = nodes::read(&self.nodes, self.first).after;
        copy_contacts(&self.nodes, from, self.places.len(), to, steps);
    }
}

// Touches so many contacts in a ring, from the place on.
fn copy_contacts<L: Ledger>(
    nodes: &Vec<Node>,
    from: Place,
    count: usize,
    to: &mut Ring,
    steps: &mut Steps<L>,
)
    requires known { AreKnown (vec_ptr nodes.now) nodes.now.items count from }
    requires single { AreSingle (to.old.contacts ++ contacts_from (vec_ptr nodes.now) nodes.now.items count from) }
    requires room { count ≤ to.old.spare }
    ensures contacts { to.new.contacts ≡ to.old.contacts ++ contacts_from (vec_ptr nodes.now) nodes.now.items count from }
    ensures spare { to.old.spare ≤ to.new.spare + count }
{
    let mut place = from;
    for _ in 0..count {
        let node = nodes::read(nodes, place);
        to.touch(&nodes::contact_in(&node), steps);
        place = node.after;
    }
}

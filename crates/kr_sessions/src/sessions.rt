//! The brokers that a leading controller hears of, and those of them that are stopping.

ghost use Rattle.std.specs.Prelude.{◌≡◌, ◌==◌, ◌+◌, ◌≤◌, false, length, IfOk, OnOk, OnErr, IsTrue};
ghost use Rattle.kr_defs.specs.Ids.{has, is_distinct, is_within};
ghost use Rattle.kr_defs.specs.Heartbeats.{AreHeartbeats, contact_brokers, stopping_brokers, is_not_before, begin, beat, leave, stop, end, valid, offset_of, stopped_at, expired};
ghost use Rattle.kr_sessions.specs.Sessions.{may_beat};

use crate::lists;
use kr_base::{NoMemory, Steps};
use kr_contact::ContactList;
use kr_defs::{Contact, Contacts, Ids, Stopping, Stops};
use std::alloc::Global;
use std::marker::Model;
use std::sync::ledger::Ledger;

/// The brokers that were heard of since this node leads, and when they began to stop.
#[derive(Drop)]
pub struct Sessions {
    // Where memory comes from.
    alloc: Global,
    // The brokers in the order of their last contact.
    contacts: ContactList,
    // Those of them that began to stop, and at which place.
    stopping: Vec<Stopping>,
}

impl Model for Sessions {
    ghost use Rattle.std.specs.Prelude.{nat_lt, vec_len, vec_capacity};
    ghost use Rattle.kr_defs.specs.Heartbeats.{AreHeartbeats};
    ghost use Rattle.kr_sessions.specs.Sessions.{Heard, heard_of};

    ghost Value = { Heard };

    ghost view = { λ s. heard_of s.contacts.contacts s.stopping.items (nat_lt 0 s.contacts.spare) (nat_lt (vec_len s.stopping) (vec_capacity s.stopping)) };

    ghost invariant = { λ s. AreHeartbeats (record { contacts = s.contacts.contacts; stopping = s.stopping.items }) };
}

impl Sessions {
    /// No broker is heard of.
    pub fn new(alloc: Global) -> Sessions
        ensures { result.heartbeats ≡ end }
    {
        Sessions {
            alloc,
            contacts: ContactList::new(alloc),
            stopping: Vec::new(alloc),
        }
    }

    /// The same brokers, heard of and stopping alike.
    pub fn copied(&self) -> Result<Sessions, NoMemory>
        ensures { IfOk result (λ copy. copy.heartbeats ≡ self.now.heartbeats) }
    {
        Ok(Sessions {
            alloc: self.alloc,
            contacts: self.contacts.copied()?,
            stopping: Vec::from_slice(self.alloc, self.stopping.as_slice())?,
        })
    }

    /// How many brokers are contacts. Whatever was done, each broker stands once in either list, the times never fall
    /// along the contacts, and a stopping broker is a contact.
    pub fn len(&self) -> usize
        ensures count { result ≡ length self.now.heartbeats.contacts }
        ensures stand { AreHeartbeats self.now.heartbeats }
    {
        self.contacts.len()
    }

    /// No broker is a contact.
    pub fn is_empty(&self) -> bool
        ensures { result ≡ (length self.now.heartbeats.contacts == 0) }
    {
        self.contacts.is_empty()
    }

    /// This node leads from the place on: the unfenced brokers were heard of now, and these of them are stopping since.
    pub fn begin(
        &mut self,
        unfenced: &Ids,
        stopping: &Ids,
        now: i64,
        led: i64,
    ) -> Result<(), NoMemory>
        requires unfenced { IsTrue (is_distinct unfenced.now) }
        requires stopping { IsTrue (is_distinct stopping.now) }
        requires among { IsTrue (is_within stopping.now unfenced.now) }
        ensures ok { OnOk result (self.new.heartbeats ≡ begin unfenced.now stopping.now now led) }
        ensures err { OnErr result (self.new ≡ self.old) }
    {
        let contacts = lists::contacts_of(self.alloc, unfenced.as_slice(), &now)?;
        let stopping = lists::stopping_of(self.alloc, stopping.as_slice(), &led)?;
        self.contacts = contacts;
        self.stopping = stopping;
        Ok(())
    }

    /// This node no longer leads.
    pub fn end(&mut self)
        ensures lists { self.new.heartbeats ≡ end }
        ensures contact_room { IsTrue self.old.contact_room → IsTrue self.new.contact_room }
        ensures stopping_room { IsTrue self.old.stopping_room → IsTrue self.new.stopping_room }
    {
        self.contacts.clear();
        self.stopping.clear();
    }

    /// Makes room for one `beat` and one `stop`. Room that was made before stays.
    pub fn reserve(&mut self) -> Result<(), NoMemory>
        ensures same { self.new.heartbeats ≡ self.old.heartbeats }
        ensures contact_room { OnOk result (IsTrue self.new.contact_room) }
        ensures stopping_room { OnOk result (IsTrue self.new.stopping_room) }
        ensures contact_left { IsTrue self.old.contact_room → IsTrue self.new.contact_room }
        ensures stopping_left { IsTrue self.old.stopping_room → IsTrue self.new.stopping_room }
    {
        self.contacts.reserve(1)?;
        self.stopping.reserve(1)?;
        Ok(())
    }

    /// The broker was heard of now, and has read up to the offset. It becomes the last contact.
    pub fn beat(&mut self, broker: i32, now: i64, offset: i64)
        requires room { IsTrue (may_beat self.old broker) }
        requires time { IsTrue (is_not_before self.old.heartbeats now) }
        ensures lists { self.new.heartbeats ≡ beat self.old.heartbeats broker now offset }
        ensures stopping_room { self.new.stopping_room ≡ self.old.stopping_room }
    {
        self.contacts.beat(&Contact {
            broker,
            time: now,
            offset,
        });
    }

    /// The broker is no longer a contact, nor stopping.
    pub fn leave(&mut self, broker: i32)
        ensures lists { self.new.heartbeats ≡ leave self.old.heartbeats broker }
        ensures contact_room { IsTrue self.old.contact_room → IsTrue self.new.contact_room }
        ensures stopping_room { IsTrue self.old.stopping_room → IsTrue self.new.stopping_room }
    {
        let _ = self.contacts.remove(broker);
        lists::drop_stopping(&mut self.stopping, &broker);
    }

    /// The broker began to stop at the tip.
    pub fn stop(&mut self, broker: i32, tip: i64)
        requires contact { IsTrue (has (contact_brokers self.old.heartbeats) broker) }
        requires fresh { has (stopping_brokers self.old.heartbeats) broker ≡ false }
        requires room { IsTrue self.old.stopping_room }
        ensures lists { self.new.heartbeats ≡ stop self.old.heartbeats broker tip }
        ensures contact_room { self.new.contact_room ≡ self.old.contact_room }
    {
        self.stopping.push_reserved(Stopping { broker, tip });
    }

    /// The tip of the log when the broker began to stop.
    pub fn stopped_at(&self, broker: i32) -> Option<i64>
        ensures { result ≡ stopped_at self.now.heartbeats broker }
    {
        lists::stopped_at(self.stopping.as_slice(), &broker)
    }

    /// The broker is a contact, and less than the session's length has passed since.
    pub fn valid(&self, broker: i32, now: i64, session_ms: u32) -> bool
        ensures { result ≡ valid self.now.heartbeats broker now session_ms }
    {
        lists::is_valid(&self.contacts, &broker, &now, &session_ms)
    }

    /// The offset that the broker reported last, where it is a contact.
    pub fn offset_of(&self, broker: i32) -> Option<i64>
        ensures { result ≡ offset_of self.now.heartbeats broker }
    {
        lists::offset_of(&self.contacts, &broker)
    }

    /// The brokers that were heard of at the limit or before, the longest ago first. A step is one contact that is looked at.
    pub fn expired<L: Ledger>(&self, limit: i64, steps: &mut Steps<L>) -> Result<Ids, NoMemory>
        ensures ok { IfOk result (λ brokers. brokers ≡ expired self.now.heartbeats limit) }
        ensures bound { steps.new ≤ steps.old + length (expired self.now.heartbeats limit) + 1 }
        ensures counted { steps.old ≤ steps.new }
    {
        self.contacts.expired(limit, steps)
    }

    /// A copy of the contacts.
    pub fn contacts(&self) -> Result<Contacts, NoMemory>
        ensures { IfOk result (λ contacts. contacts ≡ self.now.heartbeats.contacts) }
    {
        self.contacts.contacts()
    }

    /// A copy of the stopping brokers.
    pub fn stops(&self) -> Result<Stops, NoMemory>
        ensures { IfOk result (λ stops. stops ≡ self.now.heartbeats.stopping) }
    {
        Ok(Stops::from_vec(Vec::from_slice(self.alloc, self.stopping.as_slice())?))
    }
}

//! Which node is a broker's.

ghost use Rattle.std.specs.Prelude.{◌≡◌, ℤ, ◌+◌, ◌<◌, ◌≤◌, ◌==◌, [], None, Some, cond, length, IfErr, IfNone, IfOk, IfSome};
ghost use Rattle.std.specs.Map.{lookup};
ghost use Rattle.std.specs.Ordering.{int_eq};
ghost use Rattle.kr_contact.specs.Entries.{AreOrdered, IsGapAt, IsEntryAt};

use crate::nodes::Place;
use kr_base::NoMemory;
use std::alloc::Global;
use std::marker::Model;

/// The nodes of brokers, in order of the brokers' ids: whatever ids there are, a look-up halves what is left of them.
#[derive(Drop)]
pub(crate) struct Index {
    entries: Vec<(i32, Place)>,
}

impl Model for Index {
    ghost use Rattle.std.specs.Prelude.{◌-◌, vec_capacity, vec_len};
    ghost use Rattle.kr_contact.specs.Entries.{AreOrdered, EntriesSeen};

    ghost Value = { EntriesSeen };

    ghost view = { λ x. record { entries = x.entries.items; spare = vec_capacity x.entries - vec_len x.entries } };

    ghost invariant = { λ x. AreOrdered x.entries.items };
}

// Where the broker's entry stands, or would stand.
fn search(entries: &[(i32, Place)], broker: &i32) -> Result<usize, usize>
    requires { AreOrdered entries.now }
    ensures found { IfOk result (λ at. IsEntryAt entries.now broker.now at) }
    ensures within { IfOk result (λ at. at < length entries.now) }
    ensures absent { IfErr result (λ at. IsGapAt entries.now broker.now at) }
    ensures bound { IfErr result (λ at. at ≤ length entries.now) }
{
    entries.binary_search_by_key(broker, |entry| entry.0)
}

fn entry_of(broker: &i32, place: Place) -> (i32, Place)
    ensures { result ≡ (broker.now, place) }
{
    (*broker, place)
}

impl Index {
    // No entries, with room for so many.
    pub(crate) fn with_capacity(alloc: Global, room: usize) -> Result<Index, NoMemory>
        ensures empty { IfOk result (λ index. index.entries ≡ []) }
        ensures room { IfOk result (λ index. room ≤ index.spare) }
    {
        let entries = Vec::with_capacity(alloc, room)?;
        Ok(Index { entries })
    }

    pub(crate) fn len(&self) -> usize
        ensures { result ≡ length self.now.entries }
    {
        self.entries.len()
    }

    pub(crate) fn is_empty(&self) -> bool
        ensures { result ≡ (length self.now.entries == 0) }
    {
        self.entries.is_empty()
    }

    // So many entries more find room.
    pub(crate) fn spare(&self) -> usize
        ensures { result ≡ self.now.spare }
    {
        self.entries.capacity() - self.entries.len()
    }

    // The room stays.
    pub(crate) fn clear(&mut self)
        ensures entries { self.new.entries ≡ [] }
        ensures spare { self.old.spare ≤ self.new.spare }
    {
        self.entries.clear();
    }

    pub(crate) fn place_of(&self, broker: &i32) -> Option<Place>
        ensures { result ≡ lookup (int_eq broker.now) self.now.entries }
    {
        match search(self.entries.as_slice(), broker) {
            Ok(at) => Some(self.entries[at].1),
            Err(_) => None,
        }
    }

    // Takes the broker's entry out.
    pub(crate) fn take(&mut self, broker: &i32) -> Option<Place>
        ensures value { result ≡ lookup (int_eq broker.now) self.old.entries }
        ensures entries { (q : ℤ) → lookup (int_eq q) self.new.entries ≡ cond (int_eq broker.now q) None (lookup (int_eq q) self.old.entries) }
        ensures none { IfNone result (self.new.entries ≡ self.old.entries) }
        ensures len { IfSome result (λ _. length self.new.entries + 1 ≡ length self.old.entries) }
        ensures spare { self.old.spare ≤ self.new.spare }
    {
        match search(self.entries.as_slice(), broker) {
            Ok(at) => Some(self.entries.remove(at).1),
            Err(_) => None,
        }
    }

    // Puts an entry of a new broker in.
    pub(crate) fn put(&mut self, broker: &i32, place: Place)
        requires room { 0 < self.old.spare }
        requires fresh { lookup (int_eq broker.now) self.old.entries ≡ None }
        ensures entries { (q : ℤ) → lookup (int_eq q) self.new.entries ≡ cond (int_eq broker.now q) (Some place) (lookup (int_eq q) self.old.entries) }
        ensures len { length self.new.entries ≡ length self.old.entries + 1 }
        ensures spare { self.old.spare ≤ self.new.spare + 1 }
    {
        match search(self.entries.as_slice(), broker) {
            Ok(_) => {}
            Err(at) => {
                let _ = self.entries.insert(at, entry_of(broker, place));
            }
        }
    }
}

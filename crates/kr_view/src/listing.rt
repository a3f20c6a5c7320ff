//! What topics and their partitions give, in the order of a walk, up to a number of rows.

ghost use Rattle.std.specs.Prelude.{◌≡◌, ◌≤◌, ◌++◌, ℕ, List, IfOk, OnOk, length, nat_le, take};
ghost use Rattle.std.specs.Option.{option_copied, option_to_list};
ghost use Rattle.kr_defs.specs.Walk.{Walked, walked};
ghost use Rattle.kr_view.specs.Listings.{listed, listed_above, listed_behind, listed_rest, listed_topics};

use kr_base::NoMemory;
use kr_defs::{Partition, Rows, Text};
use kr_store::{Seen, Store, before_all};
use std::alloc::Global;

/// What a topic gives, and each of its partitions behind it.
pub(crate) trait Listing<Y: Drop> {
    ghost heads: { Self → List ℕ × ℕ → List Y };

    ghost rows: { Self → Walked → Y };

    /// What the topic gives before its partitions, if anything.
    fn head(&self, alloc: Global, name: &Text, id: &u128) -> Result<Option<Y>, NoMemory>
        ensures { IfOk result (λ row. option_to_list row ≡ heads self.now (name.now, id.now)) };

    /// What a partition gives.
    fn row(
        &self,
        alloc: Global,
        name: &Text,
        key: &(u128, i32),
        partition: &Partition,
    ) -> Result<Y, NoMemory>
        ensures { IfOk result (λ row. row ≡ rows self.now (walked name.now (
          key.now,
          partition.now,
        ))) };
}

/// There are as many rows as there may be.
pub(crate) fn is_full<Y>(rows: &Rows<Y>, most: u32) -> bool
    ensures { result ≡ nat_le most (length rows.now) }
{
    rows.len() >= most as usize
}

pub(crate) fn key_of(topic: &u128, index: &i32) -> (u128, i32)
    ensures { result ≡ (topic.now, index.now) }
{
    (*topic, *index)
}

// The partitions of the topic of this key, above it.
#[tactic(auto, using(crate::proofs::Filling::fillings))]
fn list_above<Y: Drop, P: Listing<Y>, S: Store>(
    alloc: Global,
    seen: &Seen<S>,
    listing: &P,
    name: &Text,
    first: (u128, i32),
    most: u32,
    rows: &mut Rows<Y>,
) -> Result<(), NoMemory>
    requires { length rows.old ≤ most }
    ensures { OnOk result (rows.new ≡ take most (rows.old ++
        listed_above (P.rows listing.now) seen.now.partitions name.now first)) }
{
    let mut after = first;
    while let Some((key, partition)) = seen.next_of_topic(&after) {
        if is_full(rows, most) {
            return Ok(());
        }
        rows.push(listing.row(alloc, name, key, partition)?)?;
        after = *key;
    }
    Ok(())
}

// What a topic gives before its partitions.
fn list_head<Y: Drop, P: Listing<Y>>(
    alloc: Global,
    listing: &P,
    name: &Text,
    id: &u128,
    most: u32,
    rows: &mut Rows<Y>,
) -> Result<(), NoMemory>
    requires { length rows.old ≤ most }
    ensures { OnOk result (rows.new ≡ take most (rows.old ++ P.heads listing.now (
      name.now,
      id.now,
    ))) }
{
    if is_full(rows, most) {
        return Ok(());
    }
    if let Some(head) = listing.head(alloc, name, id)? {
        rows.push(head)?;
    }
    Ok(())
}

// A topic, and its partitions.
fn list_topic<Y: Drop, P: Listing<Y>, S: Store>(
    alloc: Global,
    seen: &Seen<S>,
    listing: &P,
    name: &Text,
    id: &u128,
    most: u32,
    rows: &mut Rows<Y>,
) -> Result<(), NoMemory>
    requires { length rows.old ≤ most }
    ensures { OnOk result (rows.new ≡ take most (rows.old ++ listed (P.heads listing.now)
        (P.rows listing.now) seen.now.partitions (name.now, id.now))) }
{
    seen.is_valid();
    list_head(alloc, listing, name, id, most, rows)?;
    list_above(alloc, seen, listing, name, before_all(id), most, rows)?;
    Ok(())
}

/// The topics by name, each with its partitions behind it.
#[tactic(auto, using(crate::proofs::Filling::fillings))]
pub(crate) fn list_topics<Y: Drop, P: Listing<Y>, S: Store>(
    alloc: Global,
    seen: &Seen<S>,
    listing: &P,
    after: Option<&Text>,
    most: u32,
    rows: &mut Rows<Y>,
) -> Result<(), NoMemory>
    requires { length rows.old ≤ most }
    ensures { OnOk result (rows.new ≡ take most (rows.old ++ listed_topics (P.heads listing.now)
        (P.rows listing.now) seen.now (option_copied after.entry))) }
{
    seen.is_valid();
    let mut last = after;
    while let Some((name, id)) = seen.next_topic(last) {
        if is_full(rows, most) {
            return Ok(());
        }
        list_topic(alloc, seen, listing, name, id, most, rows)?;
        last = Some(name);
    }
    Ok(())
}

// The partitions behind an index of the topic of this name, where there is one.
fn list_rest<Y: Drop, P: Listing<Y>, S: Store>(
    alloc: Global,
    seen: &Seen<S>,
    listing: &P,
    name: &Text,
    index: &i32,
    most: u32,
    rows: &mut Rows<Y>,
) -> Result<(), NoMemory>
    requires { length rows.old ≤ most }
    ensures { OnOk result (rows.new ≡ take most (rows.old ++ listed_rest (P.heads listing.now)
        (P.rows listing.now) seen.now name.now index.now)) }
{
    let Some(topic) = seen.topic_named(name) else {
        return Ok(());
    };
    list_above(
        alloc,
        seen,
        listing,
        name,
        key_of(&topic.id, index),
        most,
        rows,
    )?;
    Ok(())
}

/// The partitions behind an index of the topic of this name, and the topics behind it.
pub(crate) fn list_behind<Y: Drop, P: Listing<Y>, S: Store>(
    alloc: Global,
    seen: &Seen<S>,
    listing: &P,
    name: &Text,
    index: &i32,
    most: u32,
    rows: &mut Rows<Y>,
) -> Result<(), NoMemory>
    requires { length rows.old ≤ most }
    ensures { OnOk result (rows.new ≡ take most (rows.old ++ listed_behind (P.heads listing.now)
        (P.rows listing.now) seen.now name.now index.now)) }
{
    list_rest(alloc, seen, listing, name, index, most, rows)?;
    list_topics(alloc, seen, listing, Some(name), most, rows)?;
    Ok(())
}

//! Whom the sessions hear of after one operation and the next, in words.

ghost use Rattle.std.specs.Prelude.{◌≡◌, ◌||◌, true, None, Some, map, fold, IfOk, IsTrue, OnOk, int_le, string_bytes};
ghost use Rattle.std.specs.List.{last_or};
ghost use Rattle.std.specs.Option.{option_map_or};
ghost use Rattle.kr_defs.specs.Heartbeats as heartbeats;
ghost use Rattle.kr_defs.specs.Ids as ids;
ghost use Rattle.testlib_rule_answers.specs.HeartbeatWords as words;

use kr_defs::{Contact, Ids, Stopping, is_distinct, is_within};
use kr_sessions::Sessions;
use std::alloc::{AllocError, Global};
use testlib_words::{RowFault, join_by_space};

/// What sessions are told.
#[derive(Drop)]
pub enum Operation {
    /// A leadership begins at the place `led` and the time `now`, in milliseconds, with these brokers, of which some
    /// are stopping.
    Begin {
        unfenced: Ids,
        stopping: Ids,
        now: i64,
        led: i64,
    },
    /// The broker was heard of at this time in milliseconds, and has read up to this place.
    Beat {
        broker: i32,
        now: i64,
        offset: i64,
    },
    /// The broker began to stop where the log ended at this place.
    Stop {
        broker: i32,
        tip: i64,
    },
    /// The broker isn't heard of any more.
    Leave {
        broker: i32,
    },
    /// The leadership ends.
    End,
}

// ---- the conditions of the calls, tested

fn is_contact(contacts: &[Contact], broker: &i32) -> bool
    ensures { result ≡ ids.has (map (λ c. c.broker) contacts.now) broker.now }
{
    match contacts.split_first() {
        None => false,
        Some((contact, others)) => contact.broker == *broker || is_contact(others, broker),
    }
}

fn is_stopping(stopping: &[Stopping], broker: &i32) -> bool
    ensures { result ≡ ids.has (map (λ s. s.broker) stopping.now) broker.now }
{
    match stopping.split_first() {
        None => false,
        Some((first, others)) => first.broker == *broker || is_stopping(others, broker),
    }
}

// The last of these contacts was heard of by now.
fn is_up_to(first: &Contact, others: &[Contact], now: &i64) -> bool
    ensures { result ≡ option_map_or (λ c. int_le c.time now.now) (last_or (Some first.now)
        others.now) true }
{
    match others.split_first() {
        None => first.time <= *now,
        Some((second, behind)) => is_up_to(second, behind, now),
    }
}

/// The time isn't before that of the last contact.
pub fn is_not_before(contacts: &[Contact], now: &i64) -> bool
    ensures { result ≡ option_map_or (λ c. int_le c.time now.now) (last_or None contacts.now) true }
{
    match contacts.split_first() {
        None => true,
        Some((first, others)) => is_up_to(first, others, now),
    }
}

// ---- the operations

fn begin(
    sessions: &mut Sessions,
    unfenced: &Ids,
    stopping: &Ids,
    now: &i64,
    led: &i64,
) -> Result<(), RowFault>
    ensures { OnOk result (sessions.new.heartbeats ≡ heartbeats.begin unfenced.now stopping.now
        now.now led.now) }
{
    if !is_distinct(unfenced.as_slice()) || !is_distinct(stopping.as_slice()) {
        return Err(RowFault::Fields);
    }
    if !is_within(stopping.as_slice(), unfenced) {
        return Err(RowFault::Fields);
    }
    sessions.begin(unfenced, stopping, *now, *led)?;
    Ok(())
}

#[tactic(auto, using(crate::proofs::ContactRoom::spare))]
fn beat(sessions: &mut Sessions, broker: &i32, now: &i64, offset: &i64) -> Result<(), RowFault>
    ensures { OnOk result (sessions.new.heartbeats ≡ heartbeats.beat sessions.old.heartbeats
        broker.now now.now offset.now) }
{
    sessions.reserve()?;
    let contacts = sessions.contacts()?;
    if !is_not_before(contacts.as_slice(), now) {
        return Err(RowFault::Fields);
    }
    sessions.beat(*broker, *now, *offset);
    Ok(())
}

fn stop(sessions: &mut Sessions, broker: &i32, tip: &i64) -> Result<(), RowFault>
    ensures { OnOk result (sessions.new.heartbeats ≡ heartbeats.stop sessions.old.heartbeats
        broker.now tip.now) }
{
    sessions.reserve()?;
    let contacts = sessions.contacts()?;
    let stops = sessions.stops()?;
    if !is_contact(contacts.as_slice(), broker) || is_stopping(stops.as_slice(), broker) {
        return Err(RowFault::Fields);
    }
    sessions.stop(*broker, *tip);
    Ok(())
}

fn operate(sessions: &mut Sessions, operation: &Operation) -> Result<(), RowFault>
    ensures { OnOk result (sessions.new.heartbeats ≡ words.heartbeats_with
        sessions.old.heartbeats operation.now) }
{
    match operation {
        Operation::Begin {
            unfenced,
            stopping,
            now,
            led,
        } => begin(sessions, unfenced, stopping, now, led),
        Operation::Beat {
            broker,
            now,
            offset,
        } => beat(sessions, broker, now, offset),
        Operation::Stop { broker, tip } => stop(sessions, broker, tip),
        Operation::Leave { broker } => {
            sessions.leave(*broker);
            Ok(())
        }
        Operation::End => {
            sessions.end();
            Ok(())
        }
    }
}

// ---- words

fn contact_text(alloc: Global, contact: &Contact) -> Result<String, AllocError>
    ensures { IfOk result (λ text. string_bytes text ≡ words.contact_words contact.now) }
{
    let (broker, time, offset) = (contact.broker, contact.time, contact.offset);
    let heard = format!(in alloc; "{time}:{offset}")?;
    format!(in alloc; "{broker}@{heard}")
}

fn other_contacts_text(alloc: Global, contacts: &[Contact]) -> Result<String, AllocError>
    ensures { IfOk result (λ text. string_bytes text ≡ words.other_contacts_words contacts.now) }
{
    match contacts.split_first() {
        None => Ok(String::new(alloc)),
        Some((contact, others)) => {
            let first = contact_text(alloc, contact)?;
            let behind = other_contacts_text(alloc, others)?;
            format!(in alloc; ",{first}{behind}")
        }
    }
}

fn contacts_text(alloc: Global, contacts: &[Contact]) -> Result<String, AllocError>
    ensures { IfOk result (λ text. string_bytes text ≡ words.contacts_words contacts.now) }
{
    match contacts.split_first() {
        None => String::from_str(alloc, "-"),
        Some((contact, others)) => {
            let first = contact_text(alloc, contact)?;
            let behind = other_contacts_text(alloc, others)?;
            format!(in alloc; "{first}{behind}")
        }
    }
}

fn stopping_text(alloc: Global, stopping: &Stopping) -> Result<String, AllocError>
    ensures { IfOk result (λ text. string_bytes text ≡ words.stopping_words stopping.now) }
{
    let (broker, tip) = (stopping.broker, stopping.tip);
    format!(in alloc; "{broker}@{tip}")
}

fn other_stops_text(alloc: Global, stopping: &[Stopping]) -> Result<String, AllocError>
    ensures { IfOk result (λ text. string_bytes text ≡ words.other_stops_words stopping.now) }
{
    match stopping.split_first() {
        None => Ok(String::new(alloc)),
        Some((first, others)) => {
            let first = stopping_text(alloc, first)?;
            let behind = other_stops_text(alloc, others)?;
            format!(in alloc; ",{first}{behind}")
        }
    }
}

fn stops_text(alloc: Global, stopping: &[Stopping]) -> Result<String, AllocError>
    ensures { IfOk result (λ text. string_bytes text ≡ words.stops_words stopping.now) }
{
    match stopping.split_first() {
        None => String::from_str(alloc, "-"),
        Some((first, others)) => {
            let first = stopping_text(alloc, first)?;
            let behind = other_stops_text(alloc, others)?;
            format!(in alloc; "{first}{behind}")
        }
    }
}

fn sessions_text(alloc: Global, sessions: &Sessions) -> Result<String, RowFault>
    ensures { IfOk result (λ text. string_bytes text ≡ words.heartbeat_words
        sessions.now.heartbeats) }
{
    let contacts = sessions.contacts()?;
    let contacts = contacts_text(alloc, contacts.as_slice())?;
    let stops = sessions.stops()?;
    let stops = stops_text(alloc, stops.as_slice())?;
    Ok(join_by_space(alloc, &contacts, &stops)?)
}

/// The contacts and the stopping brokers after these operations, in words.
pub fn heartbeats_answer(alloc: Global, operations: &[Operation]) -> Result<String, RowFault>
    ensures { IfOk result (λ text. string_bytes text ≡ words.heartbeat_words (fold
        words.heartbeats_with heartbeats.end operations.now)) }
{
    let mut sessions = Sessions::new(alloc);
    for operation in operations {
        operate(&mut sessions, operation)?;
    }
    sessions_text(alloc, &sessions)
}

//! Pings of a daemon, and how far it answers.

ghost use Rattle.std.specs.Prelude.{◌≡◌, ◌++◌, ◌∷◌, [], None, Some, OnOk, length, nat_lt};
ghost use Rattle.kr_link.specs.Pings.{after_answer, fed_more, is_far_ahead, is_answer, is_fresh, is_pinged, leads_as, silence};

use kr_base::NoMemory;
use std::alloc::Global;
use std::collections::VecDeque;
use std::marker::Model;

/// How many milliseconds there are between two beats.
pub const BEAT: u64 = 1_000;

/// So many bytes are fed between two pings.
pub const MOST_UNPINGED: u64 = 1_048_576;

/// A batch counts for so many bytes besides its own: it takes its time however short it is.
pub const EACH_BATCH: u64 = 1_024;

/// A ping that wasn't answered.
#[derive(Clone, Copy, Debug, Drop, PartialEq, Eq)]
pub struct Ping {
    /// Its number among the daemon's events.
    pub event: u64,
    /// When it was sent, in milliseconds.
    pub at: u64,
    /// The epoch that the daemon leads when it takes it.
    pub led: Option<u32>,
}

/// The pings of a daemon that weren't answered, the oldest first; the bytes that were fed behind the last one; when it last answered.
#[derive(Drop)]
pub struct Pings {
    sent: VecDeque<Ping>,
    unpinged: u64,
    heard: Option<u64>,
}

impl Model for Pings {
    ghost use Rattle.kr_link.specs.Pings.{Pinged};

    ghost Value = { Pinged };

    ghost view = { λ s. record { sent = s.sent.items; unpinged = s.unpinged; heard = s.heard } };
}

fn leads_as(one: Option<u32>, other: Option<u32>) -> bool
    ensures { result ≡ leads_as one other }
{
    match (one, other) {
        (Some(one), Some(other)) => one == other,
        (None, None) => true,
        _ => false,
    }
}

fn is_oldest(sent: &VecDeque<Ping>, event: u64, led: Option<u32>) -> bool
    ensures { result ≡ is_answer sent.now.items event led }
{
    match sent.front() {
        Some(ping) => ping.event == event && leads_as(ping.led, led),
        None => false,
    }
}

fn silence(sent: &VecDeque<Ping>, now: u64) -> u64
    ensures { result ≡ silence sent.now.items now }
{
    match sent.front() {
        Some(ping) => now.saturating_sub(ping.at),
        None => 0,
    }
}

fn is_far_ahead(sent: &VecDeque<Ping>) -> bool
    ensures { result ≡ is_far_ahead sent.now.items }
{
    sent.len() > 2
}

impl Pings {
    /// Of a daemon that wasn't pinged yet.
    pub fn new(alloc: Global) -> Pings
        ensures { result ≡ record { sent = []; unpinged = 0; heard = None } }
    {
        Pings {
            sent: VecDeque::new(alloc),
            unpinged: 0,
            heard: None,
        }
    }

    /// One more was sent.
    pub fn send(&mut self, ping: Ping) -> Result<(), NoMemory>
        ensures { OnOk result (self.new
            ≡ record self.old { sent = self.old.sent ++ ping ∷ []; unpinged = 0 }) }
    {
        self.sent.push_back(ping)?;
        self.unpinged = 0;
        Ok(())
    }

    /// The daemon refused an event while it led an epoch: whether that answers the oldest ping that has no answer, as it should.
    pub fn answer(&mut self, event: u64, led: Option<u32>, now: u64) -> bool
        ensures is { result ≡ is_answer self.old.sent event led }
        ensures after { self.new ≡ after_answer self.old event led now }
    {
        if !is_oldest(&self.sent, event, led) {
            return false;
        }
        let _ = self.sent.pop_front();
        self.heard = Some(now);
        true
    }

    /// More of them have no answer than one may be ahead by.
    pub fn is_far_ahead(&self) -> bool
        ensures { result ≡ is_far_ahead self.now.sent }
    {
        is_far_ahead(&self.sent)
    }

    /// For how long the oldest has had no answer.
    pub fn silence(&self, now: u64) -> u64
        ensures { result ≡ silence self.now.sent now }
    {
        silence(&self.sent, now)
    }

    /// The daemon answers: it did so within two beats, and no ping is older.
    pub fn is_fresh(&self, now: u64) -> bool
        ensures { result ≡ is_fresh self.now now }
    {
        match self.heard {
            Some(heard) => now.saturating_sub(heard) < 2 * BEAT && self.silence(now) < 2 * BEAT,
            None => false,
        }
    }

    /// A batch of so many bytes was fed: whether another ping is due.
    pub fn feed(&mut self, bytes: u64) -> bool
        ensures due { result ≡ is_pinged self.old bytes }
        ensures after { self.new ≡ record self.old { unpinged = fed_more self.old.unpinged bytes } }
    {
        self.unpinged = self
            .unpinged
            .saturating_add(bytes)
            .saturating_add(EACH_BATCH);
        self.unpinged >= MOST_UNPINGED
    }
}

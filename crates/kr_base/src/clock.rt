//! Clocks: they are asked for the time, and remember what they said last.

ghost use Rattle.std.specs.Prelude.{◌≡◌, ℕ, ℤ, pos, ◌≤ℤ◌};
ghost use Rattle.kr_base.specs.Causes.{Rose, raised};
ghost use Rattle.kr_base.specs.Clocks.{next_time};

use std::marker::Model;
use std::time;
use std::time::Duration;

/// The time, in milliseconds.
pub trait Clock {
    /// The last answer, 0 before the first.
    ghost last: { Self → ℤ };

    /// How often the clock was asked; the count stands still at the greatest u64.
    ghost asks: { Self → ℕ };

    /// The time, at least 0. It may go back.
    fn now(&mut self) -> i64
        ensures natural { pos 0 ≤ℤ result }
        ensures last { last self.new ≡ result }
        ensures asks { Rose (asks self.old) (asks self.new) };

    /// The last answer of `now`, 0 before the first.
    fn last(&self) -> i64
        ensures last { result ≡ last self.now }
        ensures first { asks self.now ≡ 0 → result ≡ pos 0 };

    /// How often the clock was asked.
    fn asks(&self) -> u64
        ensures { result ≡ asks self.now };
}

/// The system's clock: the time since the year 1970. Where the system doesn't tell it, the last answer stands.
#[derive(Drop)]
pub struct SystemClock<C: time::Clock> {
    // The clock that is asked.
    clock: C,
    // The last answer, in milliseconds.
    last: i64,
    // How often it was asked.
    asks: u64,
    ghost first: { asks ≡ 0 → last ≡ pos 0 },
    ghost natural: { pos 0 ≤ℤ last },
}

impl<C: time::Clock> SystemClock<C> {
    /// A clock that wasn't asked.
    pub fn new(clock: C) -> SystemClock<C>
        ensures last { ⟦<SystemClock<C> as Clock>⟧.last result ≡ pos 0 }
        ensures asks { ⟦<SystemClock<C> as Clock>⟧.asks result ≡ 0 }
    {
        SystemClock {
            clock,
            last: 0,
            asks: 0,
        }
    }
}

// In whole milliseconds, as far as they can be counted.
fn milliseconds(duration: Duration) -> i64
    ensures { pos 0 ≤ℤ result }
{
    i64::try_from(duration.as_millis()).unwrap_or(i64::MAX)
}

impl<C: time::Clock> Clock for SystemClock<C> {
    ghost last = { λ s. s.last };

    ghost asks = { λ s. s.asks };

    fn now(&mut self) -> i64 {
        let time = match self.clock.since_1970() {
            Ok(duration) => milliseconds(duration),
            Err(_) => self.last,
        };
        self.last = time;
        self.asks = self.asks.saturating_add(1);
        time
    }

    fn last(&self) -> i64 {
        self.last
    }

    fn asks(&self) -> u64 {
        self.asks
    }
}

/// A clock that answers by a list of times, and after its end by the last of them. A negative one counts as 0.
#[derive(Drop)]
pub struct MemoryClock {
    // All times, in milliseconds.
    times: Vec<i64>,
    // The last answer, in milliseconds.
    last: i64,
    // How often it was asked.
    asks: u64,
}

impl Model for MemoryClock {
    ghost use Rattle.std.specs.Prelude.{◌≡◌, pos, ◌≤ℤ◌};
    ghost use Rattle.kr_base.specs.Clocks.{Listed};

    ghost Value = { Listed };

    ghost view = { λ s. record { times = s.times.items; last = s.last; asks = s.asks } };

    ghost invariant = { λ s. (s.asks ≡ 0 → s.last ≡ pos 0) × (pos 0 ≤ℤ s.last) };
}

impl MemoryClock {
    /// A clock of these times that wasn't asked.
    pub fn new(times: Vec<i64>) -> MemoryClock
        ensures { result ≡ record { times = times.items; last = pos 0; asks = 0 } }
    {
        MemoryClock {
            times,
            last: 0,
            asks: 0,
        }
    }
}

impl Clock for MemoryClock {
    ghost last = { λ s. s.last };

    ghost asks = { λ s. s.asks };

    /// The next time of the list.
    fn now(&mut self) -> i64
        ensures natural { pos 0 ≤ℤ result }
        ensures last { self.new.last ≡ result }
        ensures asks { self.new.asks ≡ raised self.old.asks }
        ensures time { result ≡ next_time self.old }
        ensures times { self.new.times ≡ self.old.times }
    {
        let time = match self.times.get(self.asks as usize) {
            Some(time) => *time,
            None => self.last,
        };
        self.last = time.max(0);
        self.asks = self.asks.saturating_add(1);
        self.last
    }

    fn last(&self) -> i64 {
        self.last
    }

    fn asks(&self) -> u64 {
        self.asks
    }
}

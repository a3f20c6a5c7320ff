//! What came of the session.

ghost use Rattle.std.specs.Prelude.{◌≡◌, ◌≤◌, ◌++◌, ℕ, IfOk, OnOk, length, string_bytes};
ghost use Rattle.kr_workload.specs.Session as session;
ghost use Rattle.kr_workload.specs.Session.{Made};
ghost use Rattle.kr_workload.specs.Summary as sums;
ghost use Rattle.kr_workload.specs.inner.Counting.{led_with};
ghost use Rattle.kr_workload.specs.inner.Standing.{HasMade};

use crate::host::Host;
use crate::requests::has_leader;
use kr_defs::Partition;
use kr_store::{Seen, Store};
use std::alloc::{AllocError, Global};

/// So many events happened, records were appended, places are committed, replies have no error, replies have one, and
/// partitions have a leader.
#[derive(Clone, Copy, Debug, Drop, PartialEq, Eq)]
pub struct Summary {
    /// How many events there were.
    pub events: u64,
    /// How many records were appended, those too that were lost again.
    pub records: u64,
    /// The first place that isn't committed.
    pub kept: u64,
    /// How many replies have 0 as each error.
    pub ok: u64,
    /// How many other replies there were.
    pub refused: u64,
    /// How many partitions have a leader.
    pub led: u64,
}

// One more, where the partition has a leader.
fn count_if_led(led: u64, partition: &Partition) -> u64
    requires { led ≤ 1000000000 }
    ensures { result ≡ led_with led partition.now }
{
    if has_leader(partition) { led + 1 } else { led }
}

// How many partitions of the image have a leader.
fn count_led<S: Store>(seen: &Seen<S>) -> u64
    ensures { result ≡ sums.led_of seen.now }
{
    seen.is_valid();
    let mut led: u64 = 0;
    let mut after = None;
    while let Some((key, partition)) = seen.next_partition(after) {
        led = count_if_led(led, partition);
        after = Some(key);
    }
    led
}

impl Host {
    /// What came of the session so far.
    pub(crate) fn summary(&self) -> Summary
        ensures { (seed : ℕ) (made : Made) → HasMade seed made self.now →
            length made.events ≤ 10000000000 →
            result ≡ sums.summary (session.options seed) made.events }
    {
        let seen = Seen::tip(self.engine.store());
        Summary {
            events: self.tally.events,
            records: self.tally.records,
            kept: self.engine.committed().unsigned_abs(),
            ok: self.tally.ok,
            refused: self.tally.refused,
            led: count_led(&seen),
        }
    }
}

// Adds a line of a word and a number.
fn add_line(alloc: Global, text: &mut String, word: &str, number: u64) -> Result<(), AllocError>
    ensures { OnOk result
        (string_bytes text.new ≡ string_bytes text.old ++ sums.number_line word.now number) }
{
    let line = format!(in alloc; "{word} {number}\n")?;
    text.push_str(&line)
}

/// Six lines, each a word and a number.
#[tactic(auto, unfolding(crate::specs::Summary::summary_text))]
pub fn summary_text(alloc: Global, summary: &Summary) -> Result<String, AllocError>
    ensures { IfOk result (λ text. string_bytes text ≡ sums.summary_text summary.now) }
{
    let mut text = String::new(alloc);
    add_line(alloc, &mut text, "events", summary.events)?;
    add_line(alloc, &mut text, "records", summary.records)?;
    add_line(alloc, &mut text, "kept", summary.kept)?;
    add_line(alloc, &mut text, "ok", summary.ok)?;
    add_line(alloc, &mut text, "refused", summary.refused)?;
    add_line(alloc, &mut text, "led", summary.led)?;
    Ok(text)
}

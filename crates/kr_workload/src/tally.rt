//! What is counted while events happen.

ghost use Rattle.std.specs.Prelude.{◌≡◌, ◌∷◌, [], length, filter};
ghost use Rattle.kr_workload.specs.inner.Counting as counting;
ghost use Rattle.kr_workload.specs.Summary as sums;

use crate::replies::is_ok;
use kr_calls::{Entry, Output};
use kr_defs::Item;

/// So many events, records that they appended, replies without an error, and others. Each count stays at the greatest of 64
/// bits.
#[derive(Clone, Copy, Debug, Drop, PartialEq, Eq)]
pub(crate) struct Tally {
    pub(crate) events: u64,
    pub(crate) records: u64,
    pub(crate) ok: u64,
    pub(crate) refused: u64,
}

pub(crate) fn no_tally() -> Tally
    ensures { result ≡ counting.no_tally }
{
    Tally {
        events: 0,
        records: 0,
        ok: 0,
        refused: 0,
    }
}

#[tactic(auto, unfolding(crate::specs::Summary::is_record))]
fn is_record(entry: &Entry) -> bool
    ensures { result ≡ sums.is_record entry.now }
{
    match entry {
        Entry::Item {
            item: Item::Record(_),
            ..
        } => true,
        Entry::Item { .. } | Entry::Load { .. } => false,
        Entry::Pin { .. } | Entry::Unpin { .. } => false,
        Entry::Answer { .. } | Entry::Stop { .. } => false,
    }
}

fn count_records(entries: &[Entry]) -> u64
    ensures { result ≡ length (filter sums.is_record entries.now) }
{
    entries.iter().filter(|entry| is_record(entry)).count() as u64
}

/// An event happened, and added these entries to the log.
pub(crate) fn count_event(tally: &mut Tally, entries: &[Entry])
    ensures { tally.new ≡ counting.with_appended tally.old entries.now }
{
    tally.events = tally.events.saturating_add(1);
    tally.records = tally.records.saturating_add(count_records(entries));
}

/// An output was handed out.
pub(crate) fn count_output(tally: &mut Tally, output: &Output)
    ensures { tally.new ≡ counting.with_output tally.old output.now }
{
    if let Output::Reply { reply, .. } = output {
        if is_ok(reply) {
            tally.ok = tally.ok.saturating_add(1);
        } else {
            tally.refused = tally.refused.saturating_add(1);
        }
    }
}

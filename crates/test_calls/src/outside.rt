//! What a worker asks of the outside: quorums, clocks, gates, and values that many hold.

use kr_base::{
    Clock, CountingGate, Gate, MemoryClock, MemoryQuorum, NoMemory, Quorum, Shared, SystemClock,
};
use kr_calls::Event;
use kr_local::LocalQuorum;
use std::alloc::Global;

// The record batch of the session that sets the minimum of in-sync replicas, in epoch 5, at base 0 and at base 1.
const FIRST: &str =
    "0000000000000000000000540000000502235de38000000000000000000000000003e800000000000003e8ffffffffffffffffffffffffffff000000014400000001380104000401146d696e2e696e73796e632e7265706c6963617302320000";

const SECOND: &str =
    "0000000000000001000000540000000502235de38000000000000000000000000003e800000000000003e8ffffffffffffffffffffffffffff000000014400000001380104000401146d696e2e696e73796e632e7265706c6963617302320000";

const NO_BATCH: &str = "000000";

// What is asked of a quorum of one process: that it takes these bytes, given in hex, or that it refuses them; and that the next
// event is a commit up to place 2 in epoch 5, or none.
enum Ask {
    Takes(&'static str),
    Refuses(&'static str),
    Commits,
    Waits,
}

// The second append fails, and two are taken before a commit.
const BY_SCRIPT: [Ask; 6] = [
    Ask::Takes(FIRST),
    Ask::Refuses(FIRST),
    Ask::Waits,
    Ask::Takes(SECOND),
    Ask::Commits,
    Ask::Waits,
];

// With no script.
const AT_ONCE: [Ask; 5] = [
    Ask::Takes(FIRST),
    Ask::Refuses(NO_BATCH),
    Ask::Takes(SECOND),
    Ask::Commits,
    Ask::Waits,
];

impl Ask {
    fn is_met(&self, alloc: Global, quorum: &mut LocalQuorum) -> bool {
        match self {
            Ask::Takes(text) => takes(alloc, quorum, text) == Some(true),
            Ask::Refuses(text) => takes(alloc, quorum, text) == Some(false),
            Ask::Commits => is_commit(&quorum.next_event()),
            Ask::Waits => quorum.next_event().is_none(),
        }
    }
}

// Whether the bytes are taken, where they can be read.
fn takes(alloc: Global, quorum: &mut LocalQuorum, text: &str) -> Option<bool> {
    match hex::decode(alloc, text) {
        Ok(bytes) => Some(quorum.append(&bytes).is_ok()),
        Err(_) => None,
    }
}

fn is_commit(event: &Option<Event>) -> bool {
    matches!(event, Some(Event::Commit { epoch: 5, end: 2 }))
}

// How many are met before the first that isn't, and how many faults there were.
fn count_met(alloc: Global, mut quorum: LocalQuorum, asks: &[Ask]) -> (usize, u64) {
    let mut met = 0usize;
    for ask in asks {
        if !ask.is_met(alloc, &mut quorum) {
            break;
        }
        met = met.saturating_add(1);
    }
    (met, quorum.faults())
}

#[test]
fn a_quorum_commits_by_its_script(rt: HostRuntime) -> Result<(), NoMemory> {
    let alloc = rt.alloc();
    let quorum = LocalQuorum::new(alloc, vec![in alloc; 2]?, vec![in alloc; 2]?)?;
    assert!(rt; count_met(alloc, quorum, &BY_SCRIPT) == (6, 1));
    Ok(())
}

#[test]
fn a_quorum_without_a_script_commits_after_each_append(rt: HostRuntime) -> Result<(), NoMemory> {
    let alloc = rt.alloc();
    let quorum = LocalQuorum::new(alloc, Vec::new(alloc), Vec::new(alloc))?;
    assert!(rt; count_met(alloc, quorum, &AT_ONCE) == (5, 1));
    Ok(())
}

// What is appended, and whether it is taken: the second append fails, and there is room for five bytes and for four sizes.
const APPENDS: [(&[u8], bool); 5] = [
    (&[1, 2, 3], true),
    (&[4], false),
    (&[4, 5, 6], false),
    (&[4, 5], true),
    (&[], false),
];

#[test]
fn a_memory_quorum_fails_by_its_list_and_its_room(rt: HostRuntime) -> Result<(), NoMemory> {
    let alloc = rt.alloc();
    let mut quorum = MemoryQuorum::new(alloc, 5, 4, vec![in alloc; 2]?)?;
    for (bytes, is_taken) in &APPENDS {
        assert!(rt; quorum.append(bytes).is_ok() == *is_taken);
    }
    assert!(rt; quorum.bytes() == [1, 2, 3, 4, 5].as_slice());
    assert!(rt; quorum.sizes() == [3, 2].as_slice());
    assert!(rt; quorum.calls() == 5 && quorum.faults() == 3);
    Ok(())
}

#[test]
fn a_memory_clock_answers_by_its_list(rt: HostRuntime) -> Result<(), NoMemory> {
    let alloc = rt.alloc();
    let mut clock = MemoryClock::new(vec![in alloc; 7, -1, 5]?);
    assert!(rt; clock.last() == 0 && clock.asks() == 0);
    for time in [7, 0, 5, 5] {
        assert!(rt; clock.now() == time);
    }
    assert!(rt; clock.last() == 5 && clock.asks() == 4);
    Ok(())
}

#[test]
fn the_systems_clock_serves(rt: HostRuntime) {
    let mut clock = SystemClock::new(&rt);
    assert!(rt; clock.last() == 0 && clock.asks() == 0);
    let time = clock.now();
    // Later than the year 2001.
    assert!(rt; time > 1_000_000_000_000);
    assert!(rt; clock.last() == time && clock.asks() == 1);
}

#[test]
fn a_gate_counts_who_passes(rt: HostRuntime) {
    let mut gate = CountingGate::new();
    gate.before(3);
    gate.before(9);
    assert!(rt; gate.passed == 2 && gate.last == Some(9));
}

#[test]
fn a_value_has_many_holders(rt: HostRuntime) -> Result<(), NoMemory> {
    let one = Shared::new(rt.alloc(), 7)?;
    let other = one.again()?;
    assert!(rt; *one.get() == 7 && *other.get() == 7);
    Ok(())
}

//! What comes of the session of a number.

use kr_workload::{Summary, make, summary_text};
use std::test::Fail;

// A Lead, and a Commit behind each of 312 requests; 6 registrations, 6 brokers that become active, 300 topics with 10
// partitions each.
const OPENED: Summary = Summary {
    events: 625,
    records: 3312,
    kept: 3312,
    ok: 312,
    refused: 0,
    led: 3000,
};

#[test]
fn no_rounds(rt: HostRuntime) -> Result<(), Fail> {
    for seed in [7, 0, 4294967295] {
        assert!(rt; make(rt.alloc(), seed, 0)? == OPENED, "of {seed}");
    }
    Ok(())
}

const SIX_LINES: &str = "events 625\nrecords 3312\nkept 3312\nok 312\nrefused 0\nled 3000\n";

#[test]
fn six_lines(rt: HostRuntime) -> Result<(), Fail> {
    let text = summary_text(rt.alloc(), &OPENED)?;
    assert!(rt; text.as_str() == SIX_LINES);
    Ok(())
}

// A number that is drawn behind this one.
fn next_drawn(drawn: u64) -> u64 {
    drawn
        .wrapping_mul(6364136223846793005)
        .wrapping_add(1442695040888963407)
}

// How many of the first rounds lose the leadership: the first of a round's four draws gives 5.
fn losses(seed: u32, rounds: u32) -> u64 {
    let mut drawn = u64::from(seed);
    let mut losses: u64 = 0;
    for _ in 0..rounds {
        drawn = next_drawn(drawn);
        if (drawn >> 32) % 6 == 5 {
            losses = losses.saturating_add(1);
        }
        for _ in 0..3 {
            drawn = next_drawn(drawn);
        }
    }
    losses
}

// The first event is a Lead; each request has a reply, and one event follows it, or three where the leadership is lost.
#[test]
fn each_request_is_answered(rt: HostRuntime) -> Result<(), Fail> {
    let summary = make(rt.alloc(), 1, 2000)?;
    let replies = summary.ok.saturating_add(summary.refused);
    let pairs = replies.saturating_add(losses(1, 2000));
    assert!(rt; summary.events == pairs.saturating_mul(2).saturating_add(1));
    Ok(())
}

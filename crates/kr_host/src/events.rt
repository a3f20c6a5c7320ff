//! The events that the link's seat takes.

ghost use Rattle.std.specs.Prelude.{◌≡◌, ◌+◌, ◌<◌, ◌^◌, false, IfSome, IfNone, IsTrue};
ghost use Rattle.kr_calls.specs.LinkEvents.{is_link_event};
ghost use Rattle.kr_host.specs.Weights as weights;

use kr_calls::Event;
use kr_flow::{Origin, Waiting};
use std::time::Duration;
use std::{thread, time};

// How long a thread rests before it tries again what failed, in milliseconds.
const REST_MS: u64 = 10;

/// How many bytes an event takes besides those that it brings.
pub const EVENT_BYTES: u64 = 256;

/// Waits a little, before something is tried again.
pub(crate) fn rest<C: time::Clock>(clock: &C) {
    thread::sleep(clock, Duration::from_millis(REST_MS));
}

/// The event, where it is one that the link brings: no request, and no question for the image.
pub(crate) fn link_event(event: Event) -> Option<Event>
    ensures some { IfSome result (λ e. (e ≡ event) × IsTrue (is_link_event event)) }
    ensures none { IfNone result (is_link_event event ≡ false) }
{
    if event.is_of_link() {
        Some(event)
    } else {
        None
    }
}

// How many bytes an event brings.
fn brought_by(event: &Event) -> usize
    ensures brought { result ≡ weights.brought event.now }
    ensures fits { result + EVENT_BYTES < 2 ^ 64 }
{
    match event {
        Event::Batch { bytes } => bytes.as_slice().len(),
        Event::Load { bytes } => bytes.as_slice().len(),
        _ => 0,
    }
}

/// What an event of this origin takes while it waits.
pub(crate) fn waiting_of(origin: Origin, event: &Event) -> Waiting
    ensures { result ≡ weights.waiting_of origin event.now }
{
    Waiting {
        origin,
        bytes: brought_by(event) as u64 + EVENT_BYTES,
    }
}

//! Why an event is refused.

ghost use Rattle.std.specs.Prelude.{◌≡◌};
ghost use Rattle.kr_model.specs.Reasons as reasons;

use kr_batch::BatchFault;
use kr_calls::{BatchRefusal, ImageRefusal, Reason};
use kr_defs::Ill;
use kr_snapshot::ImageFault;

// The led epoch, -1 on standby.
fn ours(leading: &Option<i32>) -> i32
    ensures { result ≡ reasons.led_epoch leading.now }
{
    match leading {
        Some(led) => *led,
        None => -1,
    }
}

pub(crate) fn not_leading(asked: &i32, leading: &Option<i32>) -> Reason
    ensures { result ≡ reasons.not_leading asked.now leading.now }
{
    Reason::NotLeading {
        asked: *asked,
        ours: ours(leading),
    }
}

pub(crate) fn bad_commit(asked: &i64, committed: &i64, tip: &i64) -> Reason
    ensures { result ≡ reasons.bad_commit asked.now committed.now tip.now }
{
    Reason::BadCommit {
        asked: *asked,
        committed: *committed,
        tip: *tip,
    }
}

pub(crate) fn already_leading(leading: &Option<i32>) -> Reason
    ensures { result ≡ reasons.already_leading leading.now }
{
    Reason::AlreadyLeading {
        ours: ours(leading),
    }
}

pub(crate) fn old_epoch(asked: &i32, greatest: &i32) -> Reason
    ensures { result ≡ reasons.old_epoch asked.now greatest.now }
{
    Reason::OldEpoch {
        asked: *asked,
        greatest: *greatest,
    }
}

pub(crate) fn bad_next(asked: &i64, end: &i64) -> Reason
    ensures { result ≡ reasons.bad_next asked.now end.now }
{
    Reason::BadNext {
        asked: *asked,
        end: *end,
    }
}

pub(crate) fn exhausted(place: &i64) -> Reason
    ensures { result ≡ reasons.exhausted place.now }
{
    Reason::Exhausted { place: *place }
}

pub(crate) fn gap(expected: &i64, found: &i64) -> Reason
    ensures { result ≡ reasons.gap expected.now found.now }
{
    Reason::Gap {
        expected: *expected,
        found: *found,
    }
}

// Which fault a batch has; want of memory is none, and is answered before.
fn batch_refusal(fault: &BatchFault) -> BatchRefusal
    ensures { result ≡ reasons.batch_refusal fault.now }
{
    match fault {
        BatchFault::Short | BatchFault::NoMemory => BatchRefusal::Short,
        BatchFault::Trailing => BatchRefusal::Trailing,
        BatchFault::Magic { .. } => BatchRefusal::Magic,
        BatchFault::Crc { .. } => BatchRefusal::Crc,
        BatchFault::Compressed { .. } => BatchRefusal::Compressed,
        BatchFault::BadCount { .. } => BatchRefusal::BadCount,
        BatchFault::BadOffset { at } => BatchRefusal::BadOffset { at: *at },
        BatchFault::Record { at, .. } => BatchRefusal::Record { at: *at },
    }
}

pub(crate) fn bad_batch(fault: &BatchFault) -> Reason
    ensures { result ≡ reasons.bad_batch fault.now }
{
    Reason::BadBatch(batch_refusal(fault))
}

// Which fault an image has; want of memory is none, and is answered before.
fn image_refusal(fault: &ImageFault) -> ImageRefusal
    ensures { result ≡ reasons.image_refusal fault.now }
{
    match fault {
        ImageFault::Batch { place, .. } => ImageRefusal::Batch { place: *place },
        ImageFault::NoEnd { .. } | ImageFault::NoMemory => ImageRefusal::NoEnd,
        ImageFault::Order { place } => ImageRefusal::Order { place: *place },
        ImageFault::IllFormed { place, .. } => ImageRefusal::IllFormed { place: *place },
    }
}

pub(crate) fn bad_image(fault: &ImageFault) -> Reason
    ensures { result ≡ reasons.bad_image fault.now }
{
    Reason::BadImage(image_refusal(fault))
}

pub(crate) fn ill_formed(place: &i64, cause: &Ill) -> Reason
    ensures { result ≡ reasons.ill_formed place.now cause.now }
{
    Reason::IllFormed {
        place: *place,
        cause: *cause,
    }
}

pub(crate) fn older_image(asked: &i64, committed: &i64) -> Reason
    ensures { result ≡ reasons.older_image asked.now committed.now }
{
    Reason::OlderImage {
        asked: *asked,
        committed: *committed,
    }
}

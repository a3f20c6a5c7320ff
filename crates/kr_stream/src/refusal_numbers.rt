//! The numbers of a refusal in its frame.

ghost use Rattle.std.specs.Prelude.{◌≡◌, FitsSigned};
ghost use Rattle.std.specs.Int.{w64};
ghost use Rattle.kr_stream.specs.RefusalNumbers as refusals;

use kr_calls::{BatchRefusal, ImageRefusal, Reason};

pub(crate) fn reason_number(reason: &Reason) -> u8
    ensures { result ≡ refusals.reason_number reason.now }
{
    match reason {
        Reason::AlreadyLeading { .. } => 1,
        Reason::NotLeading { .. } => 2,
        Reason::OldEpoch { .. } => 3,
        Reason::BadNext { .. } => 4,
        Reason::BadCommit { .. } => 5,
        Reason::Gap { .. } => 6,
        Reason::BadBatch(_) => 7,
        Reason::IllFormed { .. } => 8,
        Reason::OlderImage { .. } => 9,
        Reason::BadImage(_) => 10,
        Reason::Exhausted { .. } => 11,
    }
}

fn batch_number(refusal: &BatchRefusal) -> u8
    ensures { result ≡ refusals.batch_number refusal.now }
{
    match refusal {
        BatchRefusal::Short => 1,
        BatchRefusal::Trailing => 2,
        BatchRefusal::Magic => 3,
        BatchRefusal::Crc => 4,
        BatchRefusal::Compressed => 5,
        BatchRefusal::BadCount => 6,
        BatchRefusal::BadOffset { .. } => 7,
        BatchRefusal::Record { .. } => 8,
    }
}

// The record that the fault speaks of.
fn record_named(refusal: &BatchRefusal) -> u32
    ensures { result ≡ refusals.record_named refusal.now }
{
    match refusal {
        BatchRefusal::BadOffset { at } | BatchRefusal::Record { at } => *at,
        _ => 0,
    }
}

fn image_number(refusal: &ImageRefusal) -> u8
    ensures { result ≡ refusals.image_number refusal.now }
{
    match refusal {
        ImageRefusal::Batch { .. } => 1,
        ImageRefusal::NoEnd => 2,
        ImageRefusal::Order { .. } => 3,
        ImageRefusal::IllFormed { .. } => 4,
    }
}

// The place that the fault speaks of.
fn image_place(refusal: &ImageRefusal) -> i64
    ensures { result ≡ refusals.image_place refusal.now }
{
    match refusal {
        ImageRefusal::Batch { place }
        | ImageRefusal::Order { place }
        | ImageRefusal::IllFormed { place } => *place,
        ImageRefusal::NoEnd => 0,
    }
}

/// The first of the three numbers that a reason tells.
pub(crate) fn first_number(reason: &Reason) -> i64
    ensures value { result ≡ refusals.first_number reason.now }
    ensures fits { FitsSigned w64 result }
{
    match reason {
        Reason::AlreadyLeading { ours } => *ours as i64,
        Reason::NotLeading { asked, .. } | Reason::OldEpoch { asked, .. } => *asked as i64,
        Reason::BadNext { asked, .. }
        | Reason::BadCommit { asked, .. }
        | Reason::OlderImage { asked, .. } => *asked,
        Reason::Gap { expected, .. } => *expected,
        Reason::IllFormed { place, .. } | Reason::Exhausted { place } => *place,
        Reason::BadBatch(refusal) => batch_number(refusal) as i64,
        Reason::BadImage(refusal) => image_number(refusal) as i64,
    }
}

/// The second, 0 where there is none.
pub(crate) fn second_number(reason: &Reason) -> i64
    ensures value { result ≡ refusals.second_number reason.now }
    ensures fits { FitsSigned w64 result }
{
    match reason {
        Reason::NotLeading { ours, .. } => *ours as i64,
        Reason::OldEpoch { greatest, .. } => *greatest as i64,
        Reason::BadNext { end, .. } => *end,
        Reason::BadCommit { committed, .. } | Reason::OlderImage { committed, .. } => *committed,
        Reason::Gap { found, .. } => *found,
        Reason::BadBatch(refusal) => record_named(refusal) as i64,
        Reason::IllFormed { cause, .. } => cause.number() as i64,
        Reason::BadImage(refusal) => image_place(refusal),
        Reason::AlreadyLeading { .. } | Reason::Exhausted { .. } => 0,
    }
}

/// The third, 0 where there is none.
pub(crate) fn third_number(reason: &Reason) -> i64
    ensures value { result ≡ refusals.third_number reason.now }
    ensures fits { FitsSigned w64 result }
{
    match reason {
        Reason::BadCommit { tip, .. } => *tip,
        _ => 0,
    }
}

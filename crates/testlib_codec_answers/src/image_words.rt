//! The words of an image's faults.

ghost use Rattle.std.specs.Prelude.{◌≡◌, IfOk, IsErr, string_bytes};
ghost use Rattle.kr_snapshot.specs.declared.fault.ImageFault.TheVariants as faults;
ghost use Rattle.testlib_codec_answers.specs.ImageWords as words;

use kr_batch::BatchFault;
use kr_defs::Ill;
use kr_snapshot::{BatchCause, ImageFault};
use std::alloc::{AllocError, Global};
use testlib_words::join_by_space;

/// The fault's number and name, its place (0 where it has none), the first byte of its batch, and what else it tells.
pub(crate) fn fault_text(alloc: Global, fault: ImageFault, at: usize) -> Result<String, AllocError>
    ensures words { IfOk result (λ text. string_bytes text ≡ words.fault_words fault at) }
    ensures no_memory { fault ≡ faults.NoMemory → IsErr result }
{
    match fault {
        ImageFault::Batch { place, cause } => {
            let head = place_text(alloc, "1 Batch", place, at)?;
            join_by_space(alloc, &head, cause_word(cause))
        }
        ImageFault::NoEnd { found, expected } => {
            let head = place_text(alloc, "2 NoEnd", 0, at)?;
            let counts = counts_text(alloc, found, expected)?;
            join_by_space(alloc, &head, &counts)
        }
        ImageFault::Order { place } => place_text(alloc, "3 Order", place, at),
        ImageFault::IllFormed { place, cause } => {
            let head = place_text(alloc, "4 IllFormed", place, at)?;
            join_by_space(alloc, &head, ill_word(cause))
        }
        ImageFault::NoMemory => Err(AllocError),
    }
}

fn place_text(alloc: Global, name: &str, place: i64, at: usize) -> Result<String, AllocError>
    ensures { IfOk result (λ text. string_bytes text ≡ words.place_words name.now place at) }
{
    let head = format!(in alloc; "{name} {place}")?;
    format!(in alloc; "{head} at {at}")
}

fn counts_text(alloc: Global, found: u64, expected: u64) -> Result<String, AllocError>
    ensures { IfOk result (λ text. string_bytes text ≡ words.counts_words found expected) }
{
    format!(in alloc; "{found} {expected}")
}

fn cause_word(cause: BatchCause) -> &'static str
    ensures { result.now ≡ words.cause_words cause }
{
    match cause {
        BatchCause::Head => "Head",
        BatchCause::Refused(fault) => batch_word(fault),
        BatchCause::Base => "Base",
        BatchCause::Control => "Control",
    }
}

fn batch_word(fault: BatchFault) -> &'static str
    ensures { result.now ≡ words.batch_words fault }
{
    match fault {
        BatchFault::Short => "Short",
        BatchFault::Trailing => "Trailing",
        BatchFault::Magic { .. } => "Magic",
        BatchFault::Crc { .. } => "Crc",
        BatchFault::Compressed { .. } => "Compressed",
        BatchFault::BadCount { .. } => "BadCount",
        BatchFault::BadOffset { .. } => "BadOffset",
        BatchFault::Record { .. } => "Record",
        BatchFault::NoMemory => "NoMemory",
    }
}

fn ill_word(cause: Ill) -> &'static str
    ensures { result.now ≡ words.ill_words cause }
{
    match cause {
        Ill::BadNumber => "BadNumber",
        Ill::NoBroker => "NoBroker",
        Ill::StaleEpoch => "StaleEpoch",
        Ill::NoTopic => "NoTopic",
        Ill::TopicExists => "TopicExists",
        Ill::BadName => "BadName",
        Ill::NoPartition => "NoPartition",
        Ill::PartitionExists => "PartitionExists",
        Ill::BadPartition => "BadPartition",
        Ill::Limit => "Limit",
        Ill::BadTransaction => "BadTransaction",
    }
}

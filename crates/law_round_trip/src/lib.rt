//! What was decoded can be encoded: laws of records and batches. The functions do nothing.
#![tactic(auto)]

ghost use Rattle.std.specs.Prelude.{◌<◌, ◌≤◌, ◌*◌, ◌^◌, List, ℕ, length};
ghost use Rattle.std.specs.List.{All};
ghost use Rattle.kr_defs.specs.Sizes.{value_bytes};
ghost use Rattle.kr_defs.specs.declared.record.Record.{Record as AnyRecord};
ghost use Rattle.kr_wire.specs.Laws.{IsBytes};
ghost use Rattle.kr_record.specs.Encodable.{IsEncodable, IsHeld};
ghost use Rattle.kr_record.specs.Grammar.{IsRecord};
ghost use Rattle.kr_record.specs.Spelling.{record_value};
ghost use Rattle.kr_batch.specs.declared.Batch.{Batch as AnyBatch};
ghost use Rattle.kr_batch.specs.Grammar.{IsBatch};
ghost use Rattle.kr_batch.specs.BatchBytes.{IsHeldItem, IsRegular, batch_bytes};
ghost use Rattle.law_round_trip.specs.Items.{HasRecords};

/// A record that stands in fewer than 2^31 bytes has a written form, its numbers and texts are those of their types,
/// and what is written stands for it. A written value has at most eight times as many bytes as stood for the record.
pub fn records_again()
    ensures short { (r : AnyRecord) (bytes : List ℕ) → IsRecord r bytes → length bytes < 2 ^ 31 → IsEncodable r }
    ensures held { (r : AnyRecord) (bytes : List ℕ) → IsRecord r bytes → IsBytes bytes → IsHeld r }
    ensures stands { (r : AnyRecord) (bytes : List ℕ) → IsRecord r bytes → IsBytes bytes → length bytes < 2 ^ 31 → IsRecord r (record_value r) }
    ensures size { (r : AnyRecord) (bytes : List ℕ) → IsRecord r bytes → value_bytes r ≤ 8 * length bytes }
{}

/// The numbers and texts of a batch that stands in bytes are those of their types. One that stands in fewer than 2^27
/// bytes, and has records, can be written again, and what is written for it stands for it.
#[tactic(auto, using(crate::proofs::ReadAgain::read_regular, kr_batch::proofs::WrittenBatches::regular_spelled))]
pub fn batches_again()
    ensures held { (b : AnyBatch) (bytes : List ℕ) →
        IsBatch b bytes → IsBytes bytes → All IsHeldItem b.items }
    ensures regular { (b : AnyBatch) (bytes : List ℕ) → IsBatch b bytes → IsBytes bytes → length bytes < 2 ^ 27 → HasRecords b.items → IsRegular b }
    ensures stands { (b : AnyBatch) (bytes : List ℕ) → IsBatch b bytes → IsBytes bytes → length bytes < 2 ^ 27 → HasRecords b.items → IsBatch b (batch_bytes b) }
{}

//! What holds of all batches. The function does nothing.

ghost use Rattle.std.specs.Prelude.{◌≡◌, Ok};
ghost use Rattle.kr_wire.specs.Laws.{IsBytes};
ghost use Rattle.kr_batch.specs.declared.Batch.{Batch as AnyBatch};
ghost use Rattle.kr_batch.specs.Grammar.{IsBatch};
ghost use Rattle.kr_batch.specs.Reading.{batch_of};
ghost use Rattle.kr_batch.specs.BatchBytes.{IsRegular, batch_bytes};

/// What is written for a batch stands for it, is read as it, and is bytes.
#[tactic(auto, using(crate::proofs::WrittenBatches::regular))]
pub fn round_trip()
    ensures written { (b : AnyBatch) → IsRegular b → IsBatch b (batch_bytes b) }
    ensures again { (b : AnyBatch) → IsRegular b → batch_of (batch_bytes b) ≡ Ok b }
    ensures bytes { (b : AnyBatch) → IsRegular b → IsBytes (batch_bytes b) }
{}

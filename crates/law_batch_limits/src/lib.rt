//! What is decided fits one record batch. The function says so in its contract, and does nothing.
#![tactic(auto)]

ghost use Rattle.law_batch_limits.specs.Fitting.{RecordsFit, RequestsFit};

/// The records that any request gives can be written as one batch: they are few and small, and each has a written form. So
/// can any records that have a meaning and pass no limit of requests.
pub fn decided_records_fit()
    ensures requests { RequestsFit }
    ensures records { RecordsFit }
{}

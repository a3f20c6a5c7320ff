//! A committed prefix of the log may be replaced by its image. The function says so in its contract, and does nothing.
#![tactic(auto)]

ghost use Rattle.law_compaction.specs.ReplacedPrefix.{ReplacedPrefix};

/// A node that was handed an image in place of the committed log before it gives out, from then on, what a node gives out
/// that went through that log: the same batches, replies, images and refusals, at each event (KIP-630).
pub fn a_prefix_may_be_replaced()
    ensures { ReplacedPrefix }
{}

//! What is true of the queue's rule, whatever is pushed. The function says so in its contract, and does nothing.

ghost use Rattle.kr_queue.specs.QueueLaws.{OpeningKeeps, PushKeeps, PopKeeps, PassKeeps};

/// Each step of the queue keeps its rule: what a pass pushed is its jobs among those that were popped, and then those that the
/// queue holds; the worker knows what was popped; and each job was allowed to one of the passes.
pub fn each_step_keeps_the_rule()
    ensures begin { OpeningKeeps }
    ensures push { PushKeeps }
    ensures pop { PopKeeps }
    ensures pass { PassKeeps }
{}

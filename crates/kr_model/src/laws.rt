//! What follows over all events. The function says so in its contract, and does nothing.

ghost use Rattle.kr_model.specs.RightReplies.{RepliesAreRight};
ghost use Rattle.kr_model.specs.Runs.{RunsGiveOutputs};
ghost use Rattle.kr_model.specs.SafeSteps.{StepsAreSafe};

/// An engine that takes one event after the other, and hands out all outputs of each before the next, hands out exactly the
/// outputs of the events so far, in order, and stands for them in the end.
pub fn runs_give_outputs()
    ensures { RunsGiveOutputs }
{}

/// Each change of a partition that a step appends is safe where it stands: what it appends as a leader, whatever happened. Each
/// new partition is led by the first of its replicas in sync, of which there is one.
pub fn steps_are_safe()
    ensures { StepsAreSafe }
{}

/// The reply of a write, with where and on what it was decided, makes a right answer in each list of entries that has the log
/// below that place and the write's records from there on; where the write was lost, in any list.
pub fn replies_are_right()
    ensures { RepliesAreRight }
{}

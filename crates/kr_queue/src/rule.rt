// The queue rule, and what its steps tell. These types are for the proofs alone.

use crate::jobs::Job;
use crate::passes::View;
use crossbeam_queue::protocol::{Lesson, Outcome, Protocol, Split};

// For each pass, what it pushed is its jobs among those that were popped, and then those that the queue holds.
pub(crate) struct QueueRule;

impl Protocol<Job, View> for QueueRule {
    ghost use Rattle.kr_queue.specs.QueueRule.{IsKept, the_first};

    ghost holds = { IsKept };

    ghost first = { the_first };
}

// The worker's pass gives a pass of the next role.
pub(crate) struct NextRole;

impl Split<View> for NextRole {
    ghost use Rattle.kr_queue.specs.QueueRule.{after_next, next};

    ghost left = { after_next };

    ghost right = { next };
}

pub(crate) struct Pushed;

impl Outcome<Job, View> for Pushed {
    ghost use Rattle.kr_queue.specs.Steps.{IsPush};

    ghost then = { IsPush };
}

pub(crate) struct Popped;

impl Outcome<Job, View> for Popped {
    ghost use Rattle.kr_queue.specs.Steps.{IsPop};

    ghost then = { IsPop };
}

impl Lesson<Job, View> for Popped {
    ghost use Rattle.kr_queue.specs.Steps.{Holds};

    ghost fact = { Holds };
}

//! What is true of the copies, whatever is shown. Each function says so in its contract, and does nothing.

ghost use Rattle.kr_view.specs.AtomicSteps.{SeatIsMade, Publishes, Enters};
ghost use Rattle.kr_view.specs.StagedLaws.{LoggedEntriesAreRight, PlainEntriesAreRight};

/// Each step of the copies keeps their rule: what each thread has seen is a beginning of what is published, under the options
/// of the opening, each answer and each pin that is published is right in the entries before it, and no transaction is open
/// behind all of them.
#[tactic(auto, using(crate::proofs::Moves::seat_is_made, crate::proofs::Moves::publishes, crate::proofs::Moves::enters))]
pub fn each_step_keeps_the_rule()
    ensures seat_made { SeatIsMade }
    ensures publish { Publishes }
    ensures enter { Enters }
{}

/// Where no transaction is open, nothing waits and neither an answer nor a pin nor a begin is staged, a publish at any end meets
/// its condition; so where all that is staged is of the log and begins none.
pub fn logged_entries_are_right()
    ensures logged { LoggedEntriesAreRight }
    ensures plain { PlainEntriesAreRight }
{}

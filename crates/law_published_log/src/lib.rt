//! A list of entries that shows a log goes on with the log. The functions say so in their contracts, and do nothing.
#![tactic(auto)]

ghost use Rattle.law_published_log.specs.FollowingLaws.{ShownListsAreClosed, ShownLogsGoOn, DecidedAnswersAreRight};

/// A list that shows a log up to a place shows the longer log up to there, and up to a later place with the items between;
/// the log that is cut at that place; and, with an image in place of all, the log that starts from it. Answers and stops
/// change nothing of that.
#[tactic(auto, using(crate::proofs::Shown::shown_logs_go_on))]
pub fn shown_logs_go_on()
    ensures { ShownLogsGoOn }
{}

/// No transaction is open in a list that shows a log up to a place where none is open, such as the closed end.
#[tactic(auto, using(crate::proofs::Shown::shown_lists_are_closed))]
pub fn shown_lists_are_closed()
    ensures { ShownListsAreClosed }
{}

/// An answer that the rules gave on a log is right in each list that shows the log up to the end of the answer's records.
pub fn decided_answers_are_right()
    ensures { DecidedAnswersAreRight }
{}

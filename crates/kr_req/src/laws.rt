//! What holds of all messages and of all replies. The functions do nothing.

ghost use Rattle.kr_req.specs.Messages.{MessagesAskOneThing};
ghost use Rattle.kr_req.specs.WrittenReplies.{RepliesAreWritten};

/// Each message asks one thing.
#[tactic(auto, using(crate::proofs::Asks::asks_one))]
pub fn messages_ask_one_thing()
    ensures { MessagesAskOneThing }
{}

/// What is written for a reply stands for it, and two replies to one request are never written alike.
pub fn replies_are_written()
    ensures { RepliesAreWritten }
{}

//! What errors tell in the replies to writes. Each function says so in its contract, and does nothing.
#![tactic(auto)]

ghost use Rattle.law_replies.specs.LimitReplies.{RepliesTellLimits};
ghost use Rattle.law_replies.specs.Losses.{NoneAtOnce, RefusedWithoutLead};
ghost use Rattle.law_replies.specs.ToldApart.{RefusalsAreToldApart};

/// An entry of a write that is decided on a valid image is answered by POLICY_VIOLATION exactly where the records that its rule
/// gives pass a limit, of requests or of the image, and none is answered by NOT_CONTROLLER.
pub fn replies_tell_limits()
    ensures { RepliesTellLimits }
{}

/// What is decided on a valid image isn't answered by the refusal with which a node that doesn't lead, or leads no more, answers
/// it, unless the request asks for nothing.
pub fn refusals_are_told_apart()
    ensures { RefusalsAreToldApart }
{}

/// By NOT_CONTROLLER a write is refused at once on standby alone; later only where the leadership that decided it has ended, unless
/// its own reply is the same.
pub fn refusals_tell_losses()
    ensures at_once { NoneAtOnce }
    ensures later { RefusedWithoutLead }
{}

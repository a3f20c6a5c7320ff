//! Daemons that are controllers, behind links that keep the rules, over one store: all that they say is of one log. The functions say so in
//! their contracts, and do nothing.
#![tactic(auto)]

ghost use Rattle.law_one_log.specs.OneLog.{DaemonsSayOneLog, FramesAreTaken};

/// However late, twice or never the links' calls reach the store, each daemon has below its committed end what the one log has, and each
/// success that any daemon told stands in that log at its place, from then on.
pub fn daemons_say_one_log()
    ensures { DaemonsSayOneLog }
{}

/// While places are left, no daemon refuses what its link hands to it: its bytes are read, its records have a meaning, it follows what came
/// before it, and its epochs rise.
pub fn frames_are_taken()
    ensures { FramesAreTaken }
{}

//! Daemons that are controllers, behind links by their clocks, over one store: all that they say is of one log. The function says so in
//! its contract, and does nothing.
#![tactic(auto)]

ghost use Rattle.law_timed_daemons.specs.TimedDaemons.{TimedDaemonsSayOneLog};

/// However late, twice or never what links put out reaches the store, each daemon has below its committed end what the one log has, and
/// each success that any daemon told stands in that log at its place, from then on.
pub fn timed_daemons_say_one_log()
    ensures { TimedDaemonsSayOneLog }
{}

//! Links by their clocks, over one store: whatever of what they put out comes late, twice or never, they are cores that are told only
//! what is right. The functions say so in their contracts, and do nothing.
#![tactic(auto)]

ghost use Rattle.law_timed_links.specs.TimedLaws.{TimedLinksAreCores, TimedLinksKeepOneLog};

/// What links by their clocks do is what cores do, in a run in which these are told only what is right.
pub fn timed_links_are_cores()
    ensures { TimedLinksAreCores }
{}

/// The store behind such links has one log, and each daemon is at a beginning of it.
pub fn timed_links_keep_one_log()
    ensures { TimedLinksKeepOneLog }
{}

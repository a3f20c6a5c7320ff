//! The core of a link, as a definition: what it makes of what comes, and that it keeps the rules of links. The functions say so in their
//! contracts, and do nothing.
#![tactic(auto)]

ghost use Rattle.law_core.specs.Runs.{CoresKeepTheRules, DeedsAreHanded};

/// Links that are cores keep the rules of links.
pub fn cores_keep_the_rules()
    ensures { CoresKeepTheRules }
{}

/// What is under way to a daemon is what its core handed over.
pub fn deeds_are_handed()
    ensures { DeedsAreHanded }
{}

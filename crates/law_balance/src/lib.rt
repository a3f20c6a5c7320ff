//! What elections of a plan make of an image. Each function says so in its contract, and does nothing.
#![tactic(auto)]

ghost use Rattle.law_balance.specs.Balancing.{RoundsBalance};
ghost use Rattle.law_balance.specs.GivingBack.{ImbalancedGoBack};

/// A partition that its preferred leader could lead, and doesn't, is led by it after an election in mode Preferred.
#[tactic(auto, using(crate::proofs::GoingBack::imbalanced_go_back))]
pub fn imbalanced_partitions_go_back()
    ensures { ImbalancedGoBack }
{}

/// One request for the election of all that is planned on a valid image gives each planned partition back to its preferred
/// leader, leaves no broker above with one that is imbalanced, answers no error, and changes nothing else.
#[tactic(auto, using(crate::proofs::Rounds::rounds_balance))]
pub fn rounds_balance()
    ensures { RoundsBalance }
{}

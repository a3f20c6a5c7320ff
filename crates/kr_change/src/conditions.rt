//! What an election follows from, beside the partition itself.

ghost use Rattle.std.specs.Prelude.{◌≡◌};
ghost use Rattle.kr_defs.specs.declared.changing.Facts.{Facts as AnyFacts};
ghost use Rattle.kr_defs.specs.Ids.{has};

use kr_defs::Facts;

/// What an election follows from, wherever it stands: in `Facts`, or in an image that is asked as it goes.
pub trait Conditions {
    ghost facts: { Self → AnyFacts };

    /// The broker is active.
    fn is_active(&self, broker: &i32) -> bool
        ensures { result ≡ has (facts self.now).active broker.now };

    /// A replica that isn't in sync may be elected.
    fn is_unclean(&self) -> bool
        ensures { result ≡ (facts self.now).unclean };

    /// How many replicas have to be in sync.
    fn minimum(&self) -> i32
        ensures { result ≡ (facts self.now).minimum };
}

impl Conditions for Facts {
    ghost facts = { λ f. f };

    fn is_active(&self, broker: &i32) -> bool {
        self.active.contains(broker)
    }

    fn is_unclean(&self) -> bool {
        self.unclean
    }

    fn minimum(&self) -> i32 {
        self.minimum
    }
}

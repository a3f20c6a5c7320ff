//! The change that follows for a partition from the brokers of an image.

ghost use Rattle.std.specs.Prelude.{◌≡◌, ◌∷◌, [], IfOk};
ghost use Rattle.kr_defs.specs.Brokers.{active};
ghost use Rattle.kr_defs.specs.Build.{built};
ghost use Rattle.kr_defs.specs.Ids.{has, without};
ghost use Rattle.kr_defs.specs.Settings.{facts_with};
ghost use Rattle.kr_replication.specs.BrokerIds.{ids_where};

use crate::brokers::{BrokerTest, others_than};
use crate::settings::{is_unclean, minimum_of};
use kr_base::NoMemory;
use kr_change::{Conditions, build_under};
use kr_defs::{Partition, PartitionChange, Text, Want};
use kr_store::{Seen, Store};
use std::alloc::Global;

// What an election of a topic follows from where the brokers of the image that a test accepts are active.
#[derive(Drop)]
struct TopicConditions<'b, 'a, T: BrokerTest, S: Store> {
    seen: &'b Seen<'a, S>,
    test: &'b T,
    unclean: bool,
    minimum: i32,
}

/// The broker is registered, and the test accepts it.
#[tactic(auto, using(crate::proofs::BrokerIds::accepted, crate::proofs::BrokerIds::unknown))]
pub fn is_accepted<T: BrokerTest, S: Store>(seen: &Seen<S>, test: &T, broker: &i32) -> bool
    ensures { result ≡ has (ids_where (T.accepts test.now) seen.now.brokers) broker.now }
{
    seen.is_valid();
    match seen.broker(broker) {
        Some(state) => test.accepts(broker, state),
        None => false,
    }
}

impl<'b, 'a, T: BrokerTest, S: Store> Conditions for TopicConditions<'b, 'a, T, S> {
    ghost facts = { λ c. record {
      active = ids_where (T.accepts c.test.now) c.seen.now.brokers;
      unclean = c.unclean;
      minimum = c.minimum;
    } };

    fn is_active(&self, broker: &i32) -> bool {
        is_accepted(self.seen, self.test, broker)
    }

    fn is_unclean(&self) -> bool {
        self.unclean
    }

    fn minimum(&self) -> i32 {
        self.minimum
    }
}

/// The change that brings a partition of a topic to what is asked of it, where the brokers that a test accepts are active.
/// `otherwise` is the minimum of the options.
pub fn build_with<T: BrokerTest, S: Store>(
    alloc: Global,
    seen: &Seen<S>,
    test: &T,
    otherwise: &i32,
    topic: &Text,
    partition: &Partition,
    want: &Want,
) -> Result<Option<PartitionChange>, NoMemory>
    ensures { IfOk result (λ change. change ≡ built partition.now want.now
        (facts_with otherwise.now seen.now (ids_where (T.accepts test.now) seen.now.brokers) topic.now)) }
{
    let unclean = is_unclean(alloc, seen, topic)?;
    let minimum = minimum_of(alloc, seen, otherwise, topic)?;
    let conditions = TopicConditions {
        seen,
        test,
        unclean,
        minimum,
    };
    build_under(alloc, partition, want, &conditions)
}

/// The same where all active brokers but one count as active.
pub fn build_without<S: Store>(
    alloc: Global,
    seen: &Seen<S>,
    broker: &i32,
    otherwise: &i32,
    topic: &Text,
    partition: &Partition,
    want: &Want,
) -> Result<Option<PartitionChange>, NoMemory>
    ensures { IfOk result (λ change. change ≡ built partition.now want.now
        (facts_with otherwise.now seen.now (without (active seen.now) (broker.now ∷ [])) topic.now)) }
{
    let others = others_than(broker);
    build_with(alloc, seen, &others, otherwise, topic, partition, want)
}

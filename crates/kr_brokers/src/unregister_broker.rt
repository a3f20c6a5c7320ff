//! A broker is forgotten.

ghost use Rattle.std.specs.Prelude.{◌≡◌, true, ◌∷◌, Some, IfOk};
ghost use Rattle.kr_defs.specs.declared.record.Record.TheVariants as kinds;
ghost use Rattle.kr_calls.specs.TakingOut.{taken_out};
ghost use Rattle.kr_calls.specs.UnregisterBroker as unregister_broker;

use kr_base::{NoMemory, Steps};
use kr_calls::errors::BROKER_ID_NOT_REGISTERED;
use kr_calls::{Draft, Effect, Reply, UnregisterBroker, UnregisterBrokerReply};
use kr_defs::{Options, Record, Records};
use kr_replication::take_out;
use kr_rules::{Handler, Refusal, Rule, Work, decide_one};
use kr_sessions::Context;
use kr_store::{Seen, Store};
use std::alloc::Global;
use std::sync::ledger::Ledger;

// What is decided of a broker that is to be forgotten.
#[derive(Drop)]
struct Unregistering<'a> {
    options: &'a Options,
}

// The registration of this epoch goes, and the broker is taken out as restarted.
fn unregistration<S: Store>(
    alloc: Global,
    seen: &Seen<S>,
    minimum: &i32,
    broker: &i32,
    epoch: &i64,
) -> Result<Records, NoMemory>
    ensures { IfOk result (λ records. records ≡ kinds.UnregisterBroker broker.now epoch.now ∷ taken_out minimum.now seen.now broker.now true) }
{
    let mut records = Records::new(alloc);
    records.push(Record::UnregisterBroker {
        broker: *broker,
        epoch: *epoch,
    })?;
    take_out(alloc, seen, minimum, broker, true, &mut records)?;
    Ok(records)
}

impl<'a> Rule<UnregisterBroker, UnregisterBrokerReply> for Unregistering<'a> {
    ghost refusal = { λ _. unregister_broker.refused };

    ghost rule = { λ r. unregister_broker.rule r.options.now };

    fn refusal(
        &self,
        _alloc: Global,
        error: &i16,
        _entry: &UnregisterBroker,
    ) -> Result<UnregisterBrokerReply, NoMemory> {
        Ok(UnregisterBrokerReply { error: *error })
    }

    fn judge<S: Store>(
        &self,
        alloc: Global,
        seen: &Seen<S>,
        _work: &Work,
        entry: &UnregisterBroker,
    ) -> Result<Draft<UnregisterBrokerReply>, Refusal> {
        match seen.broker(&entry.broker) {
            None => Err(Refusal::Error(BROKER_ID_NOT_REGISTERED)),
            Some(old) => Ok(Draft {
                records: unregistration(
                    alloc,
                    seen,
                    &self.options.minimum,
                    &entry.broker,
                    &old.epoch,
                )?,
                answer: UnregisterBrokerReply { error: 0 },
            }),
        }
    }
}

/// A broker is forgotten, and taken out as one that has restarted uncleanly. 102 where it isn't registered; 44 past a
/// limit.
#[derive(Drop)]
pub struct UnregisterBrokerHandler;

impl Handler<UnregisterBroker> for UnregisterBrokerHandler {
    ghost decided = { λ request given image. unregister_broker.decided given.options.now image given.place request };

    #[tactic(auto, unfolding(kr_calls::specs::UnregisterBroker::decided))]
    fn decide<S: Store, L: Ledger>(
        alloc: Global,
        store: &mut S,
        context: &Context,
        request: &UnregisterBroker,
        steps: &mut Steps<L>,
    ) -> Result<Effect, NoMemory> {
        let rule = Unregistering {
            options: context.options,
        };
        let (records, answer) = decide_one(alloc, store, context.place, &rule, request, steps)?;
        Ok(Effect {
            records,
            reply: Reply::UnregisterBroker(answer),
        })
    }
}

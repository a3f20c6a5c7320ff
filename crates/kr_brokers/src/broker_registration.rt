//! A broker registers.

ghost use Rattle.std.specs.Prelude.{◌≡◌, ◌+◌, ◌++◌, ◌==◌, ◌||◌, not, pos, int_lt, length, bytes_eq, Some, IfOk, OnOk};
ghost use Rattle.std.specs.Ordering.{int_cmp, int_eq};
ghost use Rattle.kr_defs.specs.Map as entries;
ghost use Rattle.kr_calls.specs.BrokerRegistration as broker_registration;
ghost use Rattle.kr_rules.specs.Progress.{place_of};

use kr_base::{NoMemory, Steps};
use kr_calls::errors::{DUPLICATE_BROKER_REGISTRATION, INCONSISTENT_CLUSTER_ID, INVALID_REQUEST};
use kr_calls::{BrokerRegistration, BrokerRegistrationReply, Draft, Effect, Reply};
use kr_defs::{Broker, Copied, Options, Record, Records};
use kr_replication::take_out;
use kr_rules::{Handler, Refusal, Rule, Work, decide_one};
use kr_sessions::{Context, Sessions};
use kr_store::{Seen, Store};
use std::alloc::Global;
use std::sync::ledger::Ledger;

// What is decided of a registration.
#[derive(Drop)]
struct Registering<'a> {
    options: &'a Options,
    sessions: &'a Sessions,
    time: i64,
}

fn rule_of<'a>(context: &Context<'a>) -> Registering<'a>
    ensures options { result.options.now ≡ context.entry.now.options.now }
    ensures sessions { result.sessions.now ≡ context.entry.now.sessions.now }
    ensures time { result.time ≡ context.entry.now.now }
{
    Registering {
        options: context.options,
        sessions: context.sessions,
        time: context.now,
    }
}

// The broker belongs to this cluster.
fn is_of_cluster(options: &Options, request: &BrokerRegistration) -> bool
    ensures { result ≡ bytes_eq request.now.cluster options.now.cluster }
{
    request.cluster.as_str() == options.cluster.as_str()
}

// The registration can't stand for a broker of KRaft.
fn is_ill(request: &BrokerRegistration) -> bool
    ensures { result ≡ (int_lt request.now.broker (pos 0) || request.now.migrating || length request.now.listeners == 0) }
{
    request.broker < 0 || request.migrating || request.listeners.is_empty()
}

// Another incarnation of the broker stands.
fn is_other<S: Store>(seen: &Seen<S>, request: &BrokerRegistration) -> bool
    ensures { result ≡ broker_registration.is_other seen.now request.now }
{
    match seen.broker(&request.broker) {
        Some(old) => old.incarnation != request.incarnation,
        None => false,
    }
}

// Another incarnation of the broker is in contact.
fn is_taken<S: Store>(rule: &Registering, seen: &Seen<S>, request: &BrokerRegistration) -> bool
    ensures { result ≡ broker_registration.is_taken rule.now.options.now rule.now.time rule.now.sessions.now.heartbeats seen.now request.now }
{
    rule.sessions
        .valid(request.broker, rule.time, rule.options.session_ms)
        && is_other(seen, request)
}

// The registration, fenced, with its place as its epoch.
fn registration(
    alloc: Global,
    work: &Work,
    request: &BrokerRegistration,
) -> Result<Broker, NoMemory>
    ensures { IfOk result (λ state. state ≡ broker_registration.registration request.now (place_of work.now)) }
{
    let endpoints = request.listeners.copied(alloc)?;
    let features = request.features.copied(alloc)?;
    let rack = Copied::copied(&request.rack, alloc)?;
    Ok(Broker {
        epoch: work.place(),
        incarnation: request.incarnation,
        endpoints,
        features,
        rack,
        fenced: true,
        stopping: false,
    })
}

// The broker wasn't shut down from this registration.
fn is_unclean(request: &BrokerRegistration, old: &Broker) -> bool
    ensures { result ≡ not (int_eq request.now.previous_epoch old.now.epoch) }
{
    request.previous_epoch != old.epoch
}

// The broker of this earlier registration is taken out.
fn take_out_old<S: Store>(
    alloc: Global,
    seen: &Seen<S>,
    minimum: &i32,
    request: &BrokerRegistration,
    old: &Broker,
    records: &mut Records,
) -> Result<(), NoMemory>
    ensures { OnOk result (records.new ≡ records.old ++ broker_registration.earlier_taken_out minimum.now seen.now request.now (Some old.now)) }
{
    let restarted = is_unclean(request, old);
    take_out(alloc, seen, minimum, &request.broker, restarted, records)
}

// The broker of an earlier registration, if there is one, is taken out.
fn take_out_earlier<S: Store>(
    alloc: Global,
    seen: &Seen<S>,
    minimum: &i32,
    request: &BrokerRegistration,
    records: &mut Records,
) -> Result<(), NoMemory>
    ensures { OnOk result (records.new ≡ records.old ++ broker_registration.earlier_taken_out minimum.now seen.now request.now (entries.get int_cmp seen.now.brokers request.now.broker)) }
{
    match seen.broker(&request.broker) {
        Some(old) => take_out_old(alloc, seen, minimum, request, old, records),
        None => Ok(()),
    }
}

fn registration_draft<S: Store>(
    alloc: Global,
    seen: &Seen<S>,
    options: &Options,
    work: &Work,
    request: &BrokerRegistration,
) -> Result<Draft<BrokerRegistrationReply>, NoMemory>
    ensures { IfOk result (λ draft. draft ≡
        broker_registration.registered options.now seen.now (place_of work.now) request.now) }
{
    let state = registration(alloc, work, request)?;
    let mut records = Records::new(alloc);
    records.push(Record::RegisterBroker {
        broker: request.broker,
        state,
    })?;
    take_out_earlier(alloc, seen, &options.minimum, request, &mut records)?;
    Ok(Draft {
        records,
        answer: BrokerRegistrationReply {
            error: 0,
            epoch: work.place(),
        },
    })
}

impl<'a> Rule<BrokerRegistration, BrokerRegistrationReply> for Registering<'a> {
    ghost refusal = { λ _. broker_registration.refused };

    ghost rule = { λ r. broker_registration.rule r.options.now r.time r.sessions.now.heartbeats };

    fn refusal(
        &self,
        _alloc: Global,
        error: &i16,
        _entry: &BrokerRegistration,
    ) -> Result<BrokerRegistrationReply, NoMemory> {
        Ok(BrokerRegistrationReply {
            error: *error,
            epoch: -1,
        })
    }

    fn judge<S: Store>(
        &self,
        alloc: Global,
        seen: &Seen<S>,
        work: &Work,
        entry: &BrokerRegistration,
    ) -> Result<Draft<BrokerRegistrationReply>, Refusal> {
        if !is_of_cluster(self.options, entry) {
            return Err(Refusal::Error(INCONSISTENT_CLUSTER_ID));
        }
        if is_ill(entry) {
            return Err(Refusal::Error(INVALID_REQUEST));
        }
        if is_taken(self, seen, entry) {
            return Err(Refusal::Error(DUPLICATE_BROKER_REGISTRATION));
        }
        Ok(registration_draft(alloc, seen, self.options, work, entry)?)
    }
}

/// A broker registers, fenced: its epoch is the place of its registration. The broker of an earlier registration is
/// taken out, as restarted where it wasn't shut down from that one. 104 for another cluster; 42 for a negative id, a
/// broker that migrates or one without listeners; 101 while another incarnation is in contact; 44 past a limit.
#[derive(Drop)]
pub struct BrokerRegistrationHandler;

impl Handler<BrokerRegistration> for BrokerRegistrationHandler {
    ghost decided = { λ request given image. broker_registration.decided given.options.now given.now given.sessions.now.heartbeats image given.place request };

    #[tactic(auto, unfolding(kr_calls::specs::BrokerRegistration::decided))]
    fn decide<S: Store, L: Ledger>(
        alloc: Global,
        store: &mut S,
        context: &Context,
        request: &BrokerRegistration,
        steps: &mut Steps<L>,
    ) -> Result<Effect, NoMemory> {
        let rule = rule_of(context);
        let (records, answer) = decide_one(alloc, store, context.place, &rule, request, steps)?;
        Ok(Effect {
            records,
            reply: Reply::BrokerRegistration(answer),
        })
    }
}

//! A broker is alive: it is unfenced, told to stop, or fenced.

ghost use Rattle.std.specs.Prelude.{◌≡◌, pos, false, int_lt, Some, IfOk, IsSome};
ghost use Rattle.std.specs.Option.{option_map_or};
ghost use Rattle.std.specs.Ordering.{int_cmp, int_eq};
ghost use Rattle.kr_defs.specs.declared.record.Record.TheVariants as kinds;
ghost use Rattle.kr_defs.specs.Map as entries;
ghost use Rattle.kr_calls.specs.BrokerHeartbeat as broker_heartbeat;
ghost use Rattle.kr_brokers.specs.Stopping.{have_read, lags};

use crate::elections::unfencing_records;
use kr_base::{NoMemory, Steps};
use kr_calls::errors::STALE_BROKER_EPOCH;
use kr_calls::{BrokerHeartbeat, BrokerHeartbeatReply, Draft, Effect, Reply};
use kr_defs::{Broker, Options, Record, Records};
use kr_replication::{fencing_records, is_active, leads, take_out};
use kr_rules::{Handler, Refusal, Rule, Work, decide_one};
use kr_sessions::{Context, Sessions};
use kr_store::{Seen, Store};
use std::alloc::Global;
use std::sync::ledger::Ledger;

// What is decided of a heartbeat.
#[derive(Drop)]
struct HeartbeatRule<'a> {
    options: &'a Options,
    sessions: &'a Sessions,
}

// The broker's offset is below the place of its registration.
fn is_behind(request: &BrokerHeartbeat) -> bool
    ensures { result ≡ broker_heartbeat.is_behind request.now }
{
    request.offset < request.epoch
}

// What the broker is told, with what becomes of it.
fn draft_of(
    request: &BrokerHeartbeat,
    records: Records,
    fenced: bool,
    shuts_down: bool,
) -> Draft<BrokerHeartbeatReply>
    ensures { result ≡ broker_heartbeat.told request.now
        (record { records = records; fenced = fenced; shuts_down = shuts_down }) }
{
    Draft {
        records,
        answer: BrokerHeartbeatReply {
            error: 0,
            caught_up: !is_behind(request),
            fenced,
            should_shut_down: shuts_down,
        },
    }
}

fn of_fenced<S: Store>(
    alloc: Global,
    seen: &Seen<S>,
    minimum: &i32,
    request: &BrokerHeartbeat,
    state: &Broker,
) -> Result<Draft<BrokerHeartbeatReply>, NoMemory>
    requires { entries.get int_cmp seen.now.brokers request.now.broker ≡ Some state.now }
    ensures { IfOk result (λ draft. draft ≡ broker_heartbeat.told request.now
        (broker_heartbeat.of_fenced minimum.now seen.now request.now state.now)) }
{
    if request.want_shutdown || state.stopping {
        return Ok(draft_of(request, Records::new(alloc), true, true));
    }
    if request.want_fence || is_behind(request) {
        return Ok(draft_of(request, Records::new(alloc), true, false));
    }
    let records = unfencing_records(alloc, seen, minimum, &request.broker, state)?;
    Ok(draft_of(request, records, false, false))
}

// The offset is below the tip when the broker began to stop.
fn is_below(offset: Option<i64>, since: &i64) -> bool
    ensures { result ≡ option_map_or (λ offset. int_lt offset since.now) offset false }
{
    match offset {
        Some(offset) => offset < *since,
        None => false,
    }
}

// The broker is active, and has told of an offset below the tip when the stopping broker began to stop.
fn lags(sessions: &Sessions, since: &i64, id: &i32, state: &Broker) -> bool
    ensures { result ≡ lags sessions.now.heartbeats since.now (id.now, state.now) }
{
    is_active(state) && is_below(sessions.offset_of(*id), since)
}

// Every active broker that is a contact has told of an offset that is at least the tip when the stopping broker began to stop.
fn have_read<S: Store>(seen: &Seen<S>, sessions: &Sessions, since: &i64) -> bool
    ensures { result ≡ have_read sessions.now.heartbeats seen.now since.now }
{
    seen.is_valid();
    let mut after = None;
    while let Some((id, state)) = seen.next_broker(after) {
        if lags(sessions, since, id, state) {
            return false;
        }
        after = Some(id);
    }
    true
}

// All have read what the broker led when it began to stop.
fn is_passed_on<S: Store>(seen: &Seen<S>, sessions: &Sessions, broker: &i32) -> bool
    ensures { result ≡
        broker_heartbeat.is_passed_on sessions.now.heartbeats seen.now broker.now }
{
    let stopped = sessions.stopped_at(*broker);
    match &stopped {
        Some(since) => have_read(seen, sessions, since),
        None => false,
    }
}

fn of_stopping<S: Store>(
    alloc: Global,
    seen: &Seen<S>,
    minimum: &i32,
    sessions: &Sessions,
    request: &BrokerHeartbeat,
) -> Result<Draft<BrokerHeartbeatReply>, NoMemory>
    ensures { IfOk result (λ draft. draft ≡ broker_heartbeat.told request.now
        (broker_heartbeat.of_stopping minimum.now sessions.now.heartbeats seen.now request.now)) }
{
    if is_passed_on(seen, sessions, &request.broker) {
        let records = fencing_records(alloc, seen, minimum, &request.broker, &request.epoch)?;
        Ok(draft_of(request, records, true, true))
    } else {
        Ok(draft_of(request, Records::new(alloc), false, false))
    }
}

fn stop_record(broker: &i32, epoch: &i64) -> Record
    ensures { result ≡ kinds.BrokerRegistrationChange broker.now epoch.now (pos 0) (pos 1) }
{
    Record::BrokerRegistrationChange {
        broker: *broker,
        epoch: *epoch,
        fenced: 0,
        stopping: 1,
    }
}

// The records that tell a broker to stop: the flag, and then it is taken out.
fn stopping_records<S: Store>(
    alloc: Global,
    seen: &Seen<S>,
    minimum: &i32,
    broker: &i32,
    epoch: &i64,
) -> Result<Records, NoMemory>
    ensures { IfOk result (λ records. records ≡
        broker_heartbeat.stopping_records minimum.now seen.now broker.now epoch.now) }
{
    let mut records = Records::new(alloc);
    records.push(stop_record(broker, epoch))?;
    take_out(alloc, seen, minimum, broker, false, &mut records)?;
    Ok(records)
}

fn of_active<S: Store>(
    alloc: Global,
    seen: &Seen<S>,
    minimum: &i32,
    request: &BrokerHeartbeat,
) -> Result<Draft<BrokerHeartbeatReply>, NoMemory>
    requires { IsSome (entries.get int_cmp seen.now.brokers request.now.broker) }
    ensures { IfOk result (λ draft. draft ≡ broker_heartbeat.told request.now
        (broker_heartbeat.of_active minimum.now seen.now request.now)) }
{
    if request.want_fence {
        let records = fencing_records(alloc, seen, minimum, &request.broker, &request.epoch)?;
        return Ok(draft_of(request, records, true, request.want_shutdown));
    }
    if !request.want_shutdown {
        return Ok(draft_of(request, Records::new(alloc), false, false));
    }
    if leads(seen, &request.broker) {
        let records = stopping_records(alloc, seen, minimum, &request.broker, &request.epoch)?;
        return Ok(draft_of(request, records, false, false));
    }
    let records = fencing_records(alloc, seen, minimum, &request.broker, &request.epoch)?;
    Ok(draft_of(request, records, true, true))
}

// What becomes of the broker that stands in the image.
#[tactic(auto, unfolding(kr_calls::specs::BrokerHeartbeat::step))]
fn step<S: Store>(
    alloc: Global,
    seen: &Seen<S>,
    minimum: &i32,
    sessions: &Sessions,
    request: &BrokerHeartbeat,
    state: &Broker,
) -> Result<Draft<BrokerHeartbeatReply>, NoMemory>
    requires { entries.get int_cmp seen.now.brokers request.now.broker ≡ Some state.now }
    ensures { IfOk result (λ draft. draft ≡ broker_heartbeat.told request.now (broker_heartbeat.step minimum.now sessions.now.heartbeats seen.now request.now state.now)) }
{
    if state.fenced {
        of_fenced(alloc, seen, minimum, request, state)
    } else if state.stopping {
        of_stopping(alloc, seen, minimum, sessions, request)
    } else {
        of_active(alloc, seen, minimum, request)
    }
}

fn is_of_epoch(request: &BrokerHeartbeat, state: &Broker) -> bool
    ensures { result ≡ int_eq request.now.epoch state.now.epoch }
{
    request.epoch == state.epoch
}

impl<'a> Rule<BrokerHeartbeat, BrokerHeartbeatReply> for HeartbeatRule<'a> {
    ghost refusal = { λ _. broker_heartbeat.refused };

    ghost rule = { λ r. broker_heartbeat.rule r.options.now r.sessions.now.heartbeats };

    fn refusal(
        &self,
        _alloc: Global,
        error: &i16,
        _entry: &BrokerHeartbeat,
    ) -> Result<BrokerHeartbeatReply, NoMemory> {
        Ok(BrokerHeartbeatReply {
            error: *error,
            caught_up: false,
            fenced: true,
            should_shut_down: false,
        })
    }

    fn judge<S: Store>(
        &self,
        alloc: Global,
        seen: &Seen<S>,
        _work: &Work,
        entry: &BrokerHeartbeat,
    ) -> Result<Draft<BrokerHeartbeatReply>, Refusal> {
        let Some(state) = seen.broker(&entry.broker) else {
            return Err(Refusal::Error(STALE_BROKER_EPOCH));
        };
        if !is_of_epoch(entry, state) {
            return Err(Refusal::Error(STALE_BROKER_EPOCH));
        }
        Ok(step(
            alloc,
            seen,
            &self.options.minimum,
            self.sessions,
            entry,
            state,
        )?)
    }
}

/// A broker is alive. A fenced one is unfenced once it has read its own registration, where it wants neither to be
/// fenced nor to stop; an active one that wants to stop is told to, and fenced at once where it leads nothing; a
/// stopping one is fenced once every active broker has read up to where it began to stop. 77 where it isn't registered
/// or by another epoch; 44 past a limit.
#[derive(Drop)]
pub struct BrokerHeartbeatHandler;

impl Handler<BrokerHeartbeat> for BrokerHeartbeatHandler {
    ghost decided = { λ request given image. broker_heartbeat.decided given.options.now given.sessions.now.heartbeats image given.place request };

    #[tactic(auto, unfolding(kr_calls::specs::BrokerHeartbeat::decided))]
    fn decide<S: Store, L: Ledger>(
        alloc: Global,
        store: &mut S,
        context: &Context,
        request: &BrokerHeartbeat,
        steps: &mut Steps<L>,
    ) -> Result<Effect, NoMemory> {
        let rule = HeartbeatRule {
            options: context.options,
            sessions: context.sessions,
        };
        let (records, answer) = decide_one(alloc, store, context.place, &rule, request, steps)?;
        Ok(Effect {
            records,
            reply: Reply::BrokerHeartbeat(answer),
        })
    }
}

//! A client's message comes.

ghost use Rattle.std.specs.Prelude.{◌≡◌, ◌≤◌, ℤ, [], length, IfOk, OnOk, OnErr, Ok, IsSome, IsTrue};
ghost use Rattle.kr_defs.specs.Heartbeats.{is_not_before, stopping_brokers};
ghost use Rattle.kr_defs.specs.Ids.{has};
ghost use Rattle.kr_calls.specs.NextBasis.{broker_is_stopping, heartbeats_after};
ghost use Rattle.kr_calls.specs.Refuse as refusals;
ghost use Rattle.kr_calls.specs.declared.errors.TheConstants.{NOT_CONTROLLER as not_controller};
ghost use Rattle.kr_defs.specs.declared.limits.TheConstants.{MOST_RECORDS as most_records};
ghost use Rattle.kr_calls.specs.declared.calls.Reply.TheVariants as replies;
ghost use Rattle.kr_calls.specs.declared.events.Event.TheVariants as events;
ghost use Rattle.kr_calls.specs.declared.events.Output.TheVariants as given;
ghost use Rattle.kr_model.specs.Engine.{IsSound, IsStep, outputs_left};
ghost use Rattle.kr_model.specs.Outputs as outputs;
ghost use Rattle.kr_engine.specs.inner.Ready.{IsReady};
ghost use Rattle.kr_store.specs.Images.{kept_at};
ghost use Rattle.kr_engine.specs.inner.Changes.{BreaksOff};
ghost use Rattle.kr_engine.specs.inner.Request.{core_holding, core_with_output, image_kept, is_led_write, reply_at_once, request_reason, SettlesRequest, TakesAsk, TakesCall, TakesWrite};

use crate::Engine;
use crate::append::led_epoch;
use crate::places::{at_epoch, is_far};
use crate::reasons::exhausted;
use kr_base::{NoEpoch, NoMemory, Steps};
use kr_brokers::hear;
use kr_calls::errors::{INVALID_REQUEST, NOT_CONTROLLER, UNSUPPORTED_VERSION};
use kr_calls::{Ask, AskFault, Call, Effect, Output, Reason, Reply, Request};
use kr_defs::Records;
use kr_handlers::read;
use kr_image::ImageStore;
use kr_model::{Decided, PastBasis, Write};
use kr_rules::refuse;
use kr_sessions::Sessions;
use kr_store::{ReadFault, Seen};
use std::alloc::Global;
use std::sync::ledger::Ledger;

fn not_controller_reply(alloc: Global, request: &Request) -> Result<Reply, NoMemory>
    ensures { IfOk result (λ reply. reply ≡ refusals.refuse request.now not_controller) }
{
    refuse(alloc, request, NOT_CONTROLLER)
}

fn error_of(fault: &AskFault) -> i16
    ensures { result ≡ outputs.error_of fault.now }
{
    match fault {
        AskFault::Unsupported { .. } => UNSUPPORTED_VERSION,
        AskFault::Wire | AskFault::Trailing => INVALID_REQUEST,
    }
}

fn bare_reply(fault: &AskFault) -> Reply
    ensures { result ≡ replies.Bare (outputs.error_of fault.now) }
{
    Reply::Bare {
        error: error_of(fault),
    }
}

// A write, while this node leads.
fn is_led_write(leading: &Option<i32>, request: &Request) -> bool
    ensures { result ≡ is_led_write leading.now request.now }
{
    leading.is_some() && !request.is_read()
}

// The image is kept, so a read wants memory alone.
fn read_reply(read: Result<Option<Reply>, ReadFault>) -> Result<Option<Reply>, NoMemory>
    ensures { IfOk result (λ reply. read ≡ Ok reply) }
{
    match read {
        Ok(reply) => Ok(reply),
        Err(ReadFault::NoEpoch | ReadFault::NoMemory) => Err(NoMemory),
    }
}

// At the place these records are decided, on the image below it and this basis.
fn decided_at(place: &i64, records: &Records, basis: PastBasis) -> Decided
    requires few { length records.now ≤ most_records }
    ensures { result ≡ record { place = place.now; count = length records.now; basis = basis } }
{
    Decided {
        place: *place,
        count: records.len() as u32,
        basis,
    }
}

// Whom is heard of after a request that was decided on the image kept under the place.
fn hear_at(
    sessions: &mut Sessions,
    store: &ImageStore,
    time: &i64,
    decided: &Decided,
    request: &Request,
    reply: &Reply,
)
    requires kept { IsSome (kept_at store.now decided.now.place) }
    requires time { IsTrue (is_not_before sessions.old.heartbeats time.now) }
    requires contact_room { IsTrue sessions.old.contact_room }
    requires stopping_room { IsTrue sessions.old.stopping_room }
    requires among { (id : ℤ) → IsTrue (has (stopping_brokers sessions.old.heartbeats) id) → IsTrue (broker_is_stopping (image_kept store.now decided.now.place) id) }
    ensures { sessions.new.heartbeats ≡ heartbeats_after sessions.old.heartbeats (image_kept store.now decided.now.place) store.now.tip time.now decided.now.place request.now reply.now }
{
    let after = Seen::tip(store);
    match Seen::at(store, at_epoch(&decided.place)) {
        Ok(before) => hear(
            sessions,
            &before,
            &after,
            *time,
            decided.place,
            request,
            reply,
        ),
        Err(NoEpoch) => unreachable!(),
    }
}

impl Engine {
    // The reply waits until all that the write saw or made is below the closed end, and whom is heard of is noted.
    fn hold_reply(
        &mut self,
        client: &u32,
        call: &Call,
        reply: Reply,
        refusal: Reply,
        decided: Decided,
    ) -> Result<(), NoMemory>
        requires kept { IsSome (kept_at self.old.images decided.place) }
        requires in_time { IsTrue (is_not_before self.old.heard self.old.time) }
        requires among { (id : ℤ) → IsTrue (has (stopping_brokers self.old.heard) id) → IsTrue (broker_is_stopping (image_kept self.old.images decided.place) id) }
        ensures held { OnOk result (self.new ≡ core_holding self.old client.now call.now reply refusal decided) }
        ensures same { OnErr result (self.new ≡ self.old) }
    {
        self.sessions.reserve()?;
        self.held.reserve(1)?;
        hear_at(
            &mut self.sessions,
            &self.store,
            &self.time,
            &decided,
            &call.request,
            &reply,
        );
        self.held.push_back_reserved(Write {
            client: *client,
            correlation: call.correlation,
            epoch: led_epoch(&self.leading),
            need: self.tip,
            reply,
            refusal,
            decided,
        });
        Ok(())
    }

    // A leading controller decides a write on the image at the tip, and its records are one batch.
    #[tactic(auto, using(crate::proofs::RequestDecisions::takes))]
    fn take_write<L: Ledger>(
        &mut self,
        client: &u32,
        call: &Call,
        steps: &mut Steps<L>,
    ) -> Result<(), NoMemory>
        requires ready { IsReady self.old }
        ensures taken { OnOk result (TakesWrite self.old self.new client.now call.now) }
        ensures broken { OnErr result (BreaksOff self.old self.new) }
        ensures later { steps.old ≤ steps.new }
    {
        self.look_at_images();
        let refusal = not_controller_reply(self.alloc, &call.request)?;
        let basis = self.past_basis();
        let Effect { records, reply } = self.decide(&call.request, steps)?;
        let decided = decided_at(&self.tip, &records, basis);
        self.append(records)?;
        self.hold_reply(client, call, reply, refusal, decided)
    }

    fn give_reply(&mut self, client: &u32, correlation: &i32, reply: Reply) -> Result<(), NoMemory>
        ensures given { OnOk result (self.new ≡ core_with_output self.old (given.Reply client.now correlation.now reply)) }
        ensures same { OnErr result (self.new ≡ self.old) }
    {
        self.given.push_back(Output::Reply {
            client: *client,
            correlation: *correlation,
            reply,
        })?;
        Ok(())
    }

    // A read is answered on the image at the closed end; a write is refused.
    fn reply_at_once(&self, request: &Request) -> Result<Reply, NoMemory>
        ensures { IfOk result (λ reply. reply ≡ reply_at_once self.now request.now) }
    {
        let at = at_epoch(&self.closed);
        match read_reply(read(self.alloc, &self.store, at, &self.options, request))? {
            Some(reply) => Ok(reply),
            None => not_controller_reply(self.alloc, request),
        }
    }

    fn answer_at_once(&mut self, client: &u32, call: &Call) -> Result<(), NoMemory>
        ensures given { OnOk result (self.new ≡ core_with_output self.old (given.Reply client.now call.now.correlation (reply_at_once self.old call.now.request))) }
        ensures same { OnErr result (self.new ≡ self.old) }
    {
        let reply = self.reply_at_once(&call.request)?;
        self.give_reply(client, &call.correlation, reply)
    }

    #[tactic(auto, using(crate::proofs::Undoing::same_breaks))]
    fn take_call<L: Ledger>(
        &mut self,
        client: &u32,
        call: &Call,
        steps: &mut Steps<L>,
    ) -> Result<(), NoMemory>
        requires ready { IsReady self.old }
        ensures taken { OnOk result (TakesCall (is_led_write self.old.leading call.now.request) self.old self.new client.now call.now) }
        ensures broken { OnErr result (BreaksOff self.old self.new) }
        ensures later { steps.old ≤ steps.new }
    {
        if is_led_write(&self.leading, &call.request) {
            self.take_write(client, call, steps)
        } else {
            self.answer_at_once(client, call)
        }
    }

    #[tactic(auto, using(crate::proofs::Undoing::same_breaks))]
    fn take_ask<L: Ledger>(
        &mut self,
        client: &u32,
        ask: &Ask,
        steps: &mut Steps<L>,
    ) -> Result<(), NoMemory>
        requires ready { IsReady self.old }
        ensures taken { OnOk result (TakesAsk self.old self.new client.now ask.now) }
        ensures broken { OnErr result (BreaksOff self.old self.new) }
        ensures later { steps.old ≤ steps.new }
    {
        match ask {
            Ask::Call(call) => self.take_call(client, call, steps),
            Ask::Bare { correlation, fault } => self.give_reply(
                client,
                correlation,
                bare_reply(fault),
            ),
        }
    }

    // Why the log takes no write.
    fn request_reason(&self, ask: &Ask) -> Option<Reason>
        ensures { result ≡ request_reason self.now ask.now }
    {
        match ask {
            Ask::Call(call) => {
                if is_led_write(&self.leading, &call.request) && is_far(&self.tip) {
                    Some(exhausted(&self.tip))
                } else {
                    None
                }
            }
            Ask::Bare { .. } => None,
        }
    }

    fn settle_request<L: Ledger>(
        &mut self,
        client: &u32,
        ask: &Ask,
        steps: &mut Steps<L>,
    ) -> Result<(), NoMemory>
        requires ready { IsReady self.old }
        ensures settled { OnOk result (SettlesRequest self.old self.new client.now ask.now (request_reason self.old ask.now)) }
        ensures broken { OnErr result (BreaksOff self.old self.new) }
        ensures later { steps.old ≤ steps.new }
    {
        match self.request_reason(ask) {
            Some(reason) => {
                self.refuse(reason);
                Ok(())
            }
            None => self.take_ask(client, ask, steps),
        }
    }

    /// A client asks. A leading controller decides a write at the tip of its log, which then waits for its reply until all
    /// that it saw or made is below the closed end; on standby a write is refused at once by Kafka's NOT_CONTROLLER. A read is
    /// answered at once on the image at the closed end, and what is no call by an error alone. All outputs are handed out before.
    /// After want of memory nothing has changed.
    #[tactic(auto, using(crate::proofs::ReadyEngines::ready_then))]
    pub fn request<L: Ledger>(
        &mut self,
        client: &u32,
        now: &i64,
        ask: &Ask,
        steps: &mut Steps<L>,
    ) -> Result<(), NoMemory>
        requires sound { IsSound self.old }
        requires drained { outputs_left self.old ≡ [] }
        ensures step { OnOk result (IsStep self.old self.new (events.Request client.now now.now ask.now)) }
        ensures unchanged { OnErr result (self.new ≡ self.old) }
        ensures sound { IsSound self.new }
        ensures later { steps.old ≤ steps.new }
    {
        self.look_over();
        let found = self.begin_at(now);
        let settled = self.settle_request(client, ask, steps);
        self.undo_images(&settled, &found, steps);
        self.end(settled, found)
    }
}

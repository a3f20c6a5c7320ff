//! A leading controller's rules, with what they are judged by.

use crate::expected::{Expected, Fenced, are_records, is_reply};
use crate::leader_image::LeaderImage;
use kr_base::{NoMemory, Steps};
use kr_calls::{Ask, AskFault, Call, Effect, Reply, Request};
use kr_defs::{Options, Records};
use kr_req::{decode, encode_reply};
use kr_sessions::Sessions;
use std::alloc::{AllocError, Global};
use std::sync::ledger::Ledger;
use testlib_words::RowFault;

/// The controller's options and state.
#[derive(Drop)]
pub(crate) struct Controller {
    options: Options,
    image: LeaderImage,
    sessions: Sessions,
    // The greatest time of an event so far.
    now: i64,
}

impl Controller {
    /// Leading since place 0 and time 0, over an empty image.
    pub(crate) fn new(alloc: Global, options: Options) -> Result<Controller, NoMemory> {
        let image = LeaderImage::new(alloc)?;
        Ok(Controller {
            options,
            image,
            sessions: Sessions::new(alloc),
            now: 0,
        })
    }

    /// The present time is at least this one.
    pub(crate) fn set_time(&mut self, now: i64) {
        self.now = self.now.max(now);
    }

    /// Adds to the text how the answer to the message differs from the expected one. The expected records are in the
    /// image afterwards.
    pub(crate) fn ask<L: Ledger>(
        &mut self,
        alloc: Global,
        message: &[u8],
        expected: &Expected,
        text: &mut String,
        steps: &mut Steps<L>,
    ) -> Result<(), RowFault> {
        let ask = ask_of(alloc, message)?;
        let mut answer = refusal(alloc, error_of(&ask));
        self.answer(alloc, &ask, expected, &mut answer, text, steps)
    }

    fn answer<L: Ledger>(
        &mut self,
        alloc: Global,
        ask: &Ask,
        expected: &Expected,
        answer: &mut Effect,
        text: &mut String,
        steps: &mut Steps<L>,
    ) -> Result<(), RowFault> {
        match ask {
            Ask::Bare { correlation, .. } => {
                is_answer(alloc, expected, *correlation, answer, text)?;
                Ok(())
            }
            Ask::Call(call) => self.call(alloc, call, expected, answer, text, steps),
        }
    }

    fn call<L: Ledger>(
        &mut self,
        alloc: Global,
        call: &Call,
        expected: &Expected,
        answer: &mut Effect,
        text: &mut String,
        steps: &mut Steps<L>,
    ) -> Result<(), RowFault> {
        self.decide(alloc, &call.request, answer, steps)?;
        let holds = is_answer(alloc, expected, call.correlation, answer, text)?;
        let records = expected.records.as_slice();
        self.image.settle(records, holds, steps)?;
        self.hear(&call.request, &answer.reply)?;
        self.image.keep(records.len(), steps)
    }

    fn decide<L: Ledger>(
        &mut self,
        alloc: Global,
        request: &Request,
        answer: &mut Effect,
        steps: &mut Steps<L>,
    ) -> Result<(), RowFault> {
        self.image.decide(
            alloc,
            &self.options,
            &self.sessions,
            self.now,
            request,
            answer,
            steps,
        )
    }

    fn hear(&mut self, request: &Request, reply: &Reply) -> Result<(), RowFault> {
        self.image
            .hear(&mut self.sessions, self.now, request, reply)
    }

    /// Adds to the text how the fencing of those whose session is over differs from the expected one. The expected
    /// records are in the image afterwards.
    pub(crate) fn tick<L: Ledger>(
        &mut self,
        alloc: Global,
        fenced: &[Fenced],
        text: &mut String,
        steps: &mut Steps<L>,
    ) -> Result<(), RowFault> {
        self.expire(alloc, fenced, text, steps)?;
        for expected in fenced {
            self.fence(alloc, expected, text, steps)?;
        }
        Ok(())
    }

    // The text tells the brokers whose sessions are over, if these are others.
    fn expire<L: Ledger>(
        &self,
        alloc: Global,
        fenced: &[Fenced],
        text: &mut String,
        steps: &mut Steps<L>,
    ) -> Result<(), RowFault> {
        let limit = self.now.saturating_sub(self.options.session_ms as i64);
        let expired = self.sessions.expired(limit, steps)?;
        if !are_brokers(fenced, expired.as_slice()) {
            let expired = expired.as_slice();
            let told = format!(in alloc; "the sessions of {expired:?} are over; ")?;
            text.push_str(&told)?;
        }
        Ok(())
    }

    fn fence<L: Ledger>(
        &mut self,
        alloc: Global,
        expected: &Fenced,
        text: &mut String,
        steps: &mut Steps<L>,
    ) -> Result<(), RowFault> {
        let mut answer = refusal(alloc, 0);
        self.fence_one(alloc, expected, &mut answer, text, steps)
    }

    fn fence_one<L: Ledger>(
        &mut self,
        alloc: Global,
        expected: &Fenced,
        answer: &mut Effect,
        text: &mut String,
        steps: &mut Steps<L>,
    ) -> Result<(), RowFault> {
        self.decide_fencing(alloc, &expected.broker, answer, steps)?;
        let records = expected.records.as_slice();
        let holds = are_records(alloc, records, answer.records.as_slice(), text)?;
        self.image.settle(records, holds, steps)?;
        self.sessions.leave(expected.broker);
        self.image.keep(records.len(), steps)
    }

    fn decide_fencing<L: Ledger>(
        &mut self,
        alloc: Global,
        broker: &i32,
        answer: &mut Effect,
        steps: &mut Steps<L>,
    ) -> Result<(), RowFault> {
        self.image.decide_fencing(
            alloc,
            &self.options,
            &self.sessions,
            self.now,
            broker,
            answer,
            steps,
        )
    }
}

fn ask_of(alloc: Global, message: &[u8]) -> Result<Ask, NoMemory> {
    decode(alloc, message)
}

// No records, and the error alone.
fn refusal(alloc: Global, error: i16) -> Effect {
    Effect {
        records: Records::new(alloc),
        reply: Reply::Bare { error },
    }
}

// Of what is no call Kafka's UNSUPPORTED_VERSION, or INVALID_REQUEST.
fn error_of(ask: &Ask) -> i16 {
    match ask {
        Ask::Call(_) => 0,
        Ask::Bare { fault, .. } => match fault {
            AskFault::Unsupported { .. } => 35,
            AskFault::Wire | AskFault::Trailing => 42,
        },
    }
}

// Whether reply and records are the expected ones; if not, the text tells how they differ.
fn is_answer(
    alloc: Global,
    expected: &Expected,
    correlation: i32,
    answer: &Effect,
    text: &mut String,
) -> Result<bool, AllocError> {
    let message = message_of(alloc, correlation, &answer.reply)?;
    if !is_reply(alloc, expected.reply, &message, text)? {
        return Ok(false);
    }
    are_records(
        alloc,
        expected.records.as_slice(),
        answer.records.as_slice(),
        text,
    )
}

fn message_of(alloc: Global, correlation: i32, reply: &Reply) -> Result<Vec<u8>, AllocError> {
    let mut message = Vec::new(alloc);
    match encode_reply(correlation, reply, &mut message) {
        Ok(()) => Ok(message),
        Err(NoMemory) => Err(AllocError),
    }
}

fn are_brokers(fenced: &[Fenced], brokers: &[i32]) -> bool {
    fenced
        .iter()
        .map(|one| one.broker)
        .eq(brokers.iter().copied())
}

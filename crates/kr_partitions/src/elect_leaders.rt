//! Leaders are elected that were asked for.

ghost use Rattle.std.specs.Prelude.{◌≡◌};
ghost use Rattle.kr_calls.specs.ElectLeaders as elect_leaders;

use crate::elections::{ElectionRule, is_kind};
use crate::groups::groups_of;
use crate::showing::show;
use kr_base::{NoMemory, Steps};
use kr_calls::errors::INVALID_REQUEST;
use kr_calls::{Effect, ElectLeaders, ElectLeadersReply, ReplicaElectionResults, Reply};
use kr_defs::{Records, Rows};
use kr_rules::{Handler, decide_groups};
use kr_sessions::Context;
use kr_store::{Seen, Store};
use std::alloc::Global;
use std::sync::ledger::Ledger;

fn reply_of(error: &i16, results: ReplicaElectionResults) -> Reply
    ensures { result ≡ elect_leaders.reply_of error.now results }
{
    Reply::ElectLeaders(ElectLeadersReply {
        error: *error,
        results,
    })
}

/// Each partition that is asked for gets a leader or is refused by itself, in order; all are refused where the type of
/// election is neither 0 nor 1.
#[derive(Drop)]
pub struct ElectLeadersHandler;

impl Handler<ElectLeaders> for ElectLeadersHandler {
    ghost decided = { λ request given image. elect_leaders.decided given.options.now image given.place request };

    #[tactic(auto, unfolding(kr_calls::specs::ElectLeaders::decided))]
    fn decide<S: Store, L: Ledger>(
        alloc: Global,
        store: &mut S,
        context: &Context,
        request: &ElectLeaders,
        steps: &mut Steps<L>,
    ) -> Result<Effect, NoMemory> {
        if !is_kind(&request.kind) {
            return Ok(Effect {
                records: Records::new(alloc),
                reply: reply_of(&INVALID_REQUEST, Rows::new(alloc)),
            });
        }
        let groups = groups_of(alloc, &Seen::tip(store), &request.topics)?;
        let rule = ElectionRule::new(context.options, &request.kind);
        let groups = groups.as_slice();
        let (records, answers) = decide_groups(alloc, store, context.place, &rule, groups, steps)?;
        let results = show(alloc, &request.topics, answers)?;
        Ok(Effect {
            records,
            reply: reply_of(&0, results),
        })
    }
}

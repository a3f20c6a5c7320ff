//! Settings are changed.

ghost use Rattle.kr_calls.specs.IncrementalAlterConfigs as incremental_alter_configs;

use crate::resources::ResourceRule;
use kr_base::{NoMemory, Steps};
use kr_calls::{Effect, IncrementalAlterConfigs, IncrementalAlterConfigsReply, Reply};
use kr_rules::{Handler, decide_or_validate};
use kr_sessions::Context;
use kr_store::Store;
use std::alloc::Global;
use std::sync::ledger::Ledger;

/// Each resource's settings are changed by its operations in order, or it is refused by itself. Where its minimum is
/// another afterwards, the replicas that stand by are dropped where enough are in sync. With validate-only the same
/// answers come, and no record.
#[derive(Drop)]
pub struct IncrementalAlterConfigsHandler;

impl Handler<IncrementalAlterConfigs> for IncrementalAlterConfigsHandler {
    ghost decided = { λ request given image. incremental_alter_configs.decided given.options.now image given.place request };

    #[tactic(auto, unfolding(kr_calls::specs::IncrementalAlterConfigs::decided))]
    fn decide<S: Store, L: Ledger>(
        alloc: Global,
        store: &mut S,
        context: &Context,
        request: &IncrementalAlterConfigs,
        steps: &mut Steps<L>,
    ) -> Result<Effect, NoMemory> {
        let rule = ResourceRule {
            options: context.options,
        };
        let (records, responses) = decide_or_validate(
            alloc,
            store,
            context.place,
            &rule,
            request.resources.as_slice(),
            request.validate_only,
            steps,
        )?;
        Ok(Effect {
            records,
            reply: Reply::IncrementalAlterConfigs(IncrementalAlterConfigsReply { responses }),
        })
    }
}

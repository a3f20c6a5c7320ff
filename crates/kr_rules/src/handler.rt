//! How a request that changes the image is decided.

ghost use Rattle.std.specs.Prelude.{◌≡◌, ◌≤◌, ◌+◌, IfOk, OnOk};
ghost use Rattle.kr_defs.specs.Image.{Image};
ghost use Rattle.kr_sessions.specs.declared.context.Context.{Context as Given};
ghost use Rattle.kr_calls.specs.declared.calls.Reply.{Reply};
ghost use Rattle.kr_calls.specs.Deciding.{Work, weights};
ghost use Rattle.kr_store.specs.Images.{IsSettled};
ghost use Rattle.kr_rules.specs.Handlers.{IsAtPlace};

use kr_base::{NoMemory, Steps};
use kr_calls::Effect;
use kr_sessions::Context;
use kr_store::Store;
use std::alloc::Global;
use std::sync::ledger::Ledger;

/// What decides one kind of requests that change the image.
pub trait Handler<Q> {
    /// The records, the image behind them and the reply, by what a request is judged by beside the image.
    ghost decided: { Q → Given → Image → Work × Reply };

    /// The records of the request and its reply, at the place where the next record will stand. Its records are in the
    /// present image then. An Err wants memory, and leaves the kept images as they are.
    fn decide<S: Store, L: Ledger>(
        alloc: Global,
        store: &mut S,
        context: &Context,
        request: &Q,
        steps: &mut Steps<L>,
    ) -> Result<Effect, NoMemory>
        requires here { IsAtPlace (S.images store.old) context.now.place }
        ensures records { IfOk result (λ effect. effect.records ≡ (decided request.now context.entry.now (S.images store.old).tip).0.records) }
        ensures reply { IfOk result (λ effect. effect.reply ≡ (decided request.now context.entry.now (S.images store.old).tip).1) }
        ensures image { OnOk result ((S.images store.new).tip ≡ (decided request.now context.entry.now (S.images store.old).tip).0.image) }
        ensures made { IfOk result (λ effect. (S.images store.new).made ≤ (S.images store.old).made + weights (S.images store.old).tip effect.records) }
        ensures kept { (S.images store.new).kept ≡ (S.images store.old).kept }
        ensures calls { (S.images store.new).kept_made ≡ (S.images store.old).kept_made }
        ensures begins { (S.images store.new).kept_begun ≡ (S.images store.old).kept_begun }
        ensures settled { IsSettled (S.images store.old) → IsSettled (S.images store.new) }
        ensures later { steps.old ≤ steps.new };
}

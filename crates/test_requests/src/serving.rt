//! Each request, answered by its rule.

ghost use Rattle.std.specs.Prelude.{◌≡◌, IsSome, IsTrue, Some};
ghost use Rattle.std.specs.Ordering.{int_cmp};
ghost use Rattle.kr_defs.specs.Map as entries;
ghost use Rattle.kr_store.specs.Images.{IsSettled};
ghost use Rattle.kr_rules.specs.Handlers.{IsAtPlace};

use kr_base::{NoMemory, Steps};
use kr_calls::{Effect, Request};
use kr_image::ImageStore;
use kr_sessions::Context;
use kr_store::{At, Store};
use std::alloc::Global;
use std::sync::ledger::Ledger;
use testlib_words::RowFault;

/// What the request's rule gives; its records are in the present image.
pub(crate) fn serve<L: Ledger>(
    alloc: Global,
    store: &mut ImageStore,
    context: &Context,
    request: &Request,
    out: &mut Effect,
    steps: &mut Steps<L>,
) -> Result<(), NoMemory>
    requires { IsAtPlace store.old context.now.place }
    ensures kept { store.new.kept ≡ store.old.kept }
    ensures begins { store.new.kept_begun ≡ store.old.kept_begun }
    ensures settled { IsSettled store.old → IsSettled store.new }
{
    match kr_handlers::read(alloc, store, At::Tip, context.options, request) {
        Ok(Some(reply)) => out.reply = reply,
        Ok(None) => *out = kr_handlers::decide(alloc, store, context, request, steps)?,
        // At the tip a read wants memory alone.
        Err(_) => return Err(NoMemory),
    }
    Ok(())
}

/// What the fencing of a registered broker gives, whose session is over; its records are in the present image.
pub(crate) fn fence<L: Ledger>(
    alloc: Global,
    store: &mut ImageStore,
    context: &Context,
    broker: &i32,
    out: &mut Effect,
    steps: &mut Steps<L>,
) -> Result<(), RowFault>
    requires { IsAtPlace store.old context.now.place }
    ensures kept { store.new.kept ≡ store.old.kept }
    ensures begins { store.new.kept_begun ≡ store.old.kept_begun }
    ensures settled { IsSettled store.old → IsSettled store.new }
{
    if !is_registered(store, broker) {
        return Err(RowFault::Fields);
    }
    Ok(kr_brokers::fence(alloc, store, context, broker, out, steps)?)
}

fn is_registered(store: &ImageStore, broker: &i32) -> bool
    ensures { IsTrue result → IsSome (entries.get int_cmp store.now.tip.brokers broker.now) }
{
    matches!(store.broker(At::Tip, *broker), Ok(Some(_)))
}

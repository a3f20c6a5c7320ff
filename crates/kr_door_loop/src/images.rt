//! What an image gives: its batches, and its plan.

ghost use Rattle.std.specs.Prelude.{◌≡◌, ◌∷◌, ◌≤◌, drop, length, refl, IfOk, IfErr, OnOk, OnErr};
ghost use Rattle.kr_layout.specs.Answers.{Begins, Puts};
ghost use Rattle.kr_balance.specs.Plan as plans;
ghost use Rattle.kr_wire.specs.Schema as schemas;
ghost use Rattle.kr_door_loop.specs.Answers.{GivesBatches, HoldsImage, IsNoImage, PlansLeaders, plan_row};

use crate::held::Held;
use crate::logs::tool_refusal;
use crate::{Answer, DoorRefusal, Mine};
use kr_balance::plan_of;
use kr_base::NoMemory;
use kr_defs::{Bytes, Rows, Text};
use kr_fold::{InputImage, take_image};
use kr_layout::{Put, put_end};
use kr_store::Seen;
use std::alloc::Global;

// The bytes of the two numbers before the batches.
const HEAD: usize = 16;

// The image that all of the bytes are.
#[tactic(auto, using(crate::proofs::Calls::image_held, crate::proofs::Calls::no_image))]
fn image_in(alloc: Global, bytes: &[u8]) -> Result<InputImage, DoorRefusal>
    ensures image { IfOk result (λ i. HoldsImage bytes.now i.offset i.store.tip) }
    ensures refused { IfErr result (λ refusal. IsNoImage bytes.now refusal) }
{
    let mut input = Held::new(bytes);
    match take_image(alloc, &mut input) {
        Ok(image) => Ok(image),
        Err(fault) => Err(tool_refusal(fault)),
    }
}

fn copy_of(alloc: Global, bytes: &[u8]) -> Result<Bytes, NoMemory>
    ensures { IfOk result (λ copy. copy ≡ bytes.now) }
{
    let mut copy = Vec::new(alloc);
    copy.extend_from_slice(bytes)?;
    Ok(Bytes::from_vec(copy))
}

// What stands behind the head.
#[tactic(auto, using(std::proofs::lemmas::List::drop_min))]
fn behind_head(bytes: &[u8]) -> &[u8]
    ensures { result.now ≡ drop 16 bytes.now }
{
    let (_, batches) = bytes.split_at(HEAD.min(bytes.len()));
    batches
}

/// The batches of an image.
#[tactic(auto, using(crate::proofs::Calls::has_batches))]
pub(crate) fn image_batches(alloc: Global, body: &[u8]) -> Answer
    ensures { GivesBatches body.now result }
{
    match image_in(alloc, body) {
        Ok(_image) => Ok(copy_of(alloc, behind_head(body))?),
        Err(refusal) => Err(refusal),
    }
}

impl Put<Mine> for (Text, i32) {
    ghost schema = { plan_row };

    fn put_parts(&self, mine: &Mine, out: &mut Vec<u8>) -> Result<(), NoMemory> {
        self.0.put(mine, out)?;
        self.1.put(mine, out)?;
        put_end(out)
    }
}

// The plan of an image, in bytes.
fn plan_bytes(alloc: Global, image: &InputImage, percent: u8) -> Result<Bytes, NoMemory>
    ensures { IfOk result (λ bytes. bytes ≡ schemas.written (schemas.Array plan_row)
        (plans.plan image.now.store.tip percent)) }
{
    let rows: Rows<(Text, i32)> = plan_of(alloc, &Seen::tip(&image.store), percent)?;
    let mut out = Vec::new(alloc);
    rows.put(&Mine, &mut out)?;
    Ok(Bytes::from_vec(out))
}

/// Which partitions are to be given back to their preferred leaders: a percentage, and an image behind it.
#[tactic(auto, using(crate::proofs::Calls::plans_for, crate::proofs::Calls::has_no_plan))]
pub(crate) fn plan_leaders(alloc: Global, body: &[u8]) -> Answer
    ensures { PlansLeaders body.now result }
{
    match body {
        [] => Err(DoorRefusal::BadBody),
        [percent, bytes @ ..] => match image_in(alloc, bytes) {
            Ok(image) => Ok(plan_bytes(alloc, &image, *percent)?),
            Err(refusal) => Err(refusal),
        },
    }
}

//! A controller that leads an image through one round.

ghost use Rattle.std.specs.Prelude.{◌≡◌, ◌<◌, ◌+ℤ◌, ℤ, pos, false, length, IfOk, OnOk, IsTrue};
ghost use Rattle.kr_defs.specs.Image.{Image};
ghost use Rattle.kr_defs.specs.OpenOptions.{are_options};
ghost use Rattle.kr_model.specs.Engine.{IsSound};
ghost use Rattle.kr_model.specs.World.{is_far};
ghost use Rattle.kr_snapshot.specs.Grammar.{IsImage};
ghost use Rattle.kr_snapshot.specs.ImageText.{image_text};
ghost use Rattle.kr_leaders.specs.Balance as balance;
ghost use Rattle.kr_leaders.specs.inner.Engines.{Commits, IsDrained, IsAtRest, IsLeader, LeadsOn, IsAfterEvent};

use kr_base::{NoMemory, Steps};
use kr_calls::Event;
use kr_calls::laws::records_have_meanings;
use kr_defs::{Bytes, Options, Rows, Text};
use kr_engine::Engine;
use kr_fold::InputImage;
use kr_image::ImageStore;
use kr_rebalance::round;
use kr_snapshot::{SnapFault, images, write};
use kr_store::At;
use std::alloc::Global;
use std::sync::ledger::{Blank, Ledger};

fn options(alloc: Global) -> Result<Options, NoMemory>
    ensures options { IfOk result (λ o. o ≡ balance.balance_options) }
    ensures fits { IfOk result (λ o. IsTrue (are_options o)) }
{
    Ok(Options {
        node: 1,
        salt: 0,
        session_ms: 9000,
        partitions: 1,
        factor: 3,
        minimum: 2147483647,
        cluster: Text::from_str(alloc, "make")?,
    })
}

// The outputs of the last event go to nobody.
fn drop_outputs(engine: &mut Engine)
    requires { IsSound engine.old }
    ensures { IsDrained engine.old engine.new }
{
    while let Some(_output) = engine.next_output() {}
}

fn take<L: Ledger>(engine: &mut Engine, event: &Event, steps: &mut Steps<L>) -> Result<(), NoMemory>
    requires { IsAtRest engine.old }
    ensures { OnOk result (IsAfterEvent engine.old engine.new event.now) }
{
    engine.step(event, steps)?;
    drop_outputs(engine);
    Ok(())
}

// A controller that leads, in the first epoch and at time 0, from the offset of the image that the bytes stand for.
fn lead_from<L: Ledger>(
    alloc: Global,
    bytes: Bytes,
    offset: i64,
    store: ImageStore,
    steps: &mut Steps<L>,
) -> Result<Engine, NoMemory>
    requires image { IsImage offset store.tip bytes }
    requires near { is_far offset ≡ false }
    ensures { IfOk result (λ e. LeadsOn e offset store.tip) }
{
    images();
    // The controller reads the bytes anew.
    drop(store);
    let mut engine = Engine::new(alloc, options(alloc)?)?;
    take(&mut engine, &Event::Load { bytes }, steps)?;
    let lead = Event::Lead {
        epoch: 1,
        next: offset,
        now: 0,
    };
    take(&mut engine, &lead, steps)?;
    Ok(engine)
}

// A round is made, and all that it appended is committed.
fn rebalance<L: Ledger>(
    alloc: Global,
    engine: &mut Engine,
    percent: u8,
    steps: &mut Steps<L>,
) -> Result<(), NoMemory>
    requires { IsLeader engine.old }
    ensures sound { OnOk result (IsSound engine.new) }
    ensures commits { OnOk result ((offset : ℤ) (image : Image) → LeadsOn engine.old offset image →
        Commits engine.new (offset +ℤ pos (length (balance.round percent offset image).records))
        (balance.round percent offset image).image) }
{
    records_have_meanings();
    round(alloc, engine, 0, 0, percent, steps)?;
    drop_outputs(engine);
    let commit = Event::Commit {
        epoch: 1,
        end: engine.tip(),
    };
    take(engine, &commit, steps)
}

// The bytes of the image at the closed end, which is the committed one: no transaction is open.
fn committed_text(alloc: Global, engine: &Engine) -> Result<Vec<u8>, NoMemory>
    requires { IsSound engine.now }
    ensures { IfOk result (λ bytes. (end : ℤ) (image : Image) → Commits engine.now end image →
        bytes.items ≡ image_text end image) }
{
    let end = engine.closed();
    let mut bytes = Vec::new(alloc);
    match write(alloc, engine.store(), At::Epoch(end), end, &mut bytes) {
        Ok(()) => Ok(bytes),
        // An image is kept there.
        Err(SnapFault::NoEpoch | SnapFault::NoMemory) => Err(NoMemory),
    }
}

/// The bytes of the image behind one round. Its preferred leaders lead all that was planned of it.
pub(crate) fn balanced_text<L: Ledger>(
    alloc: Global,
    percent: u8,
    image: InputImage,
    blank: Blank,
) -> Result<Vec<u8>, NoMemory>
    requires image { IsImage image.offset image.store.tip image.bytes.items }
    requires near { is_far image.offset ≡ false }
    requires name { blank.name ≡ L.name }
    requires parts { blank.parts ≡ L.parts }
    requires some { 0 < L.parts }
    ensures { IfOk result (λ text.
        text.items ≡ balance.balanced_text percent image.offset image.store.tip) }
{
    let InputImage {
        bytes,
        offset,
        store,
    } = image;
    let mut steps: Steps<L> = Steps::new(blank);
    let mut engine = lead_from(alloc, Rows::from_vec(bytes), offset, store, &mut steps)?;
    rebalance(alloc, &mut engine, percent, &mut steps)?;
    committed_text(alloc, &engine)
}

//! The image at the closed end is given out.

ghost use Rattle.std.specs.Prelude.{◌≡◌, ◌≤ℤ◌, [], pos, unwrap_or, IfOk, OnOk, OnErr};
ghost use Rattle.kr_calls.specs.declared.events.Event.TheVariants as events;
ghost use Rattle.kr_calls.specs.declared.events.Output.TheVariants as given;
ghost use Rattle.kr_defs.specs.Image.{empty};
ghost use Rattle.kr_snapshot.specs.ImageText.{image_text};
ghost use Rattle.kr_store.specs.Images.{kept_at};
ghost use Rattle.kr_engine.specs.inner.Changes.{GivesAlone};
ghost use Rattle.kr_engine.specs.inner.Image.{core_after_image};
ghost use Rattle.kr_model.specs.Engine.{IsSound, IsStep, outputs_left};

use crate::Engine;
use crate::places::at_epoch;
use kr_base::NoMemory;
use kr_calls::Output;
use kr_defs::Rows;
use kr_snapshot::{SnapFault, write};

impl Engine {
    // The image at the closed end is always kept.
    fn image_output(&self) -> Result<Output, NoMemory>
        requires natural { pos 0 ≤ℤ self.now.closed }
        ensures { IfOk result (λ output. output ≡ given.Image (image_text self.now.closed (unwrap_or (kept_at self.now.images self.now.closed) empty))) }
    {
        let at = at_epoch(&self.closed);
        let mut bytes = Vec::new(self.alloc);
        match write(self.alloc, &self.store, at, self.closed, &mut bytes) {
            Ok(()) => Ok(Output::Image {
                bytes: Rows::from_vec(bytes),
            }),
            Err(SnapFault::NoEpoch | SnapFault::NoMemory) => Err(NoMemory),
        }
    }

    fn settle_image(&mut self) -> Result<(), NoMemory>
        requires natural { pos 0 ≤ℤ self.old.closed }
        ensures settled { OnOk result (self.new ≡ core_after_image self.old) }
        ensures begun { OnErr result (GivesAlone self.old self.new) }
    {
        let output = self.image_output()?;
        self.given.push_back(output)?;
        Ok(())
    }

    /// The image at the closed end is asked for. All outputs are handed out before. After want of memory nothing has changed.
    pub fn image(&mut self) -> Result<(), NoMemory>
        requires sound { IsSound self.old }
        requires drained { outputs_left self.old ≡ [] }
        ensures step { OnOk result (IsStep self.old self.new events.Image) }
        ensures unchanged { OnErr result (self.new ≡ self.old) }
        ensures sound { IsSound self.new }
    {
        self.look_over();
        let found = self.begin();
        let settled = self.settle_image();
        self.end(settled, found)
    }
}

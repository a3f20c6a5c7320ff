//! A committed image comes in place of batches.

ghost use Rattle.std.specs.Prelude.{◌≡◌, ◌∷◌, [], IfOk, OnOk, OnErr};
ghost use Rattle.kr_calls.specs.declared.events.Entry.TheVariants as entries;
ghost use Rattle.kr_calls.specs.declared.events.Event.TheVariants as events;
ghost use Rattle.kr_defs.specs.Records.{records_of};
ghost use Rattle.kr_snapshot.specs.ReaderState.{Restores};
ghost use Rattle.kr_store.specs.Images.{kept_once};
ghost use Rattle.kr_snapshot.specs.Reading.{image_of};
ghost use Rattle.kr_model.specs.Engine.{IsSound, IsStep, outputs_left};
ghost use Rattle.kr_engine.specs.inner.Changes.{core_with_entries, GivesAlone, Settles};
ghost use Rattle.kr_engine.specs.inner.Load.{core_after_load, core_after_read_image, decoded_image_reason, load_reason};

use crate::Engine;
use crate::entries::image_entry;
use crate::places::is_far;
use crate::reasons::{already_leading, bad_image, exhausted, older_image};
use kr_base::NoMemory;
use kr_defs::Bytes;
use kr_image::ImageStore;
use kr_listing::records_of;
use kr_snapshot::{ImageFault, Reader};
use kr_store::Seen;
use std::alloc::Global;

// The offset and the store of the image that the bytes stand for.
fn read_image(alloc: Global, bytes: &[u8]) -> Result<(i64, ImageStore), ImageFault>
    ensures { Restores result (image_of bytes.now) }
{
    let mut reader = Reader::new(alloc);
    // A fault is answered again in the end.
    let _fault = reader.feed(bytes);
    reader.finish()
}

impl Engine {
    // The image in place of all that was before.
    fn add_image(&mut self, offset: &i64, store: &ImageStore) -> Result<(), NoMemory>
        ensures added { OnOk result (self.new ≡ core_with_entries self.old (entries.Load offset.now (records_of store.now.tip) ∷ [])) }
        ensures begun { OnErr result (GivesAlone self.old self.new) }
    {
        let records = records_of(self.alloc, &Seen::tip(store))?;
        self.fresh.push(image_entry(offset, records))?;
        Ok(())
    }

    // The image is the new start.
    fn load_image(&mut self, offset: &i64, store: ImageStore) -> Result<(), NoMemory>
        requires { store ≡ kept_once offset.now store.tip }
        ensures settled { OnOk result (Settles self.old self.new (decoded_image_reason self.old offset.now) (core_after_load self.old offset.now store.tip)) }
        ensures begun { OnErr result (GivesAlone self.old self.new) }
    {
        if *offset < self.committed {
            let reason = older_image(offset, &self.committed);
            self.refuse(reason);
            return Ok(());
        }
        if is_far(offset) {
            self.refuse(exhausted(offset));
            return Ok(());
        }
        self.add_image(offset, &store)?;
        self.store = store;
        self.tip = *offset;
        self.committed = *offset;
        self.closed = *offset;
        Ok(())
    }

    fn settle_load(&mut self, bytes: &Bytes) -> Result<(), NoMemory>
        ensures settled { OnOk result (Settles self.old self.new (load_reason self.old (image_of bytes.now)) (core_after_read_image self.old (image_of bytes.now))) }
        ensures begun { OnErr result (GivesAlone self.old self.new) }
    {
        if self.leading.is_some() {
            let reason = already_leading(&self.leading);
            self.refuse(reason);
            return Ok(());
        }
        match read_image(self.alloc, bytes.as_slice()) {
            Ok((offset, store)) => self.load_image(&offset, store),
            Err(ImageFault::NoMemory) => Err(NoMemory),
            Err(fault) => {
                self.refuse(bad_image(&fault));
                Ok(())
            }
        }
    }

    /// A committed image came in place of batches. All outputs are handed out before. After want of memory nothing has
    /// changed.
    pub fn load(&mut self, bytes: &Bytes) -> Result<(), NoMemory>
        requires sound { IsSound self.old }
        requires drained { outputs_left self.old ≡ [] }
        ensures step { OnOk result (IsStep self.old self.new (events.Load bytes.now)) }
        ensures unchanged { OnErr result (self.new ≡ self.old) }
        ensures sound { IsSound self.new }
    {
        let found = self.begin();
        let settled = self.settle_load(bytes);
        self.end(settled, found)
    }
}

//! An image, and the bytes that it is written as.

ghost use Rattle.std.specs.Prelude.{◌≡◌, ◌<◌, ◌++◌, IfOk, IsSome, Ok, OnOk};
ghost use Rattle.test_bench.specs.declared.image.TheConstants.{OFFSET};
ghost use Rattle.kr_store.specs.Images.{kept_once};
ghost use Rattle.kr_snapshot.specs.Reading.{image_of};
ghost use Rattle.kr_snapshot.specs.ImageText.{image_text};
ghost use Rattle.kr_store.specs.Images.{last_kept};

use crate::entries::entries;
use anyhow::{Result, bail};
use kr_base::{NoMemory, Steps};
use kr_defs::Record;
use kr_image::ImageStore;
use kr_snapshot::{ImageFault, Reader, SnapFault, images, write};
use kr_store::{At, Counts, Store};
use std::alloc::Global;
use std::marker::Brand;
use std::sync::ledger::{Blank, Ledger};

/// The offset that the image is written at.
const OFFSET: i64 = 9_220;

/// A store, and the bytes that its image is written as.
#[derive(Drop)]
pub(crate) struct Written {
    store: ImageStore,
    bytes: Vec<u8>,
    ghost text: { bytes.items ≡ image_text OFFSET store.tip },
    ghost stands: { image_of bytes.items ≡ Ok (OFFSET, store.tip) },
}

impl Written {
    pub(crate) fn new(alloc: Global) -> Result<Written> {
        let store = store_of::<Brand>(alloc, entries(alloc)?.as_slice(), Blank::new(1))?;
        let mut bytes = Vec::new(alloc);
        write(alloc, &store, At::Tip, OFFSET, &mut bytes)?;
        images();
        Ok(Written { store, bytes })
    }

    pub(crate) fn as_bytes(&self) -> &[u8]
        ensures { result.now ≡ self.now.bytes.items }
    {
        &self.bytes
    }

    /// How much the image has.
    pub(crate) fn counts(&self) -> Counts {
        self.store.counts()
    }

    /// Appends the bytes of the image.
    pub(crate) fn write(&self, alloc: Global, out: &mut Vec<u8>) -> Result<(), SnapFault>
        ensures { OnOk result (out.new.items ≡ out.old.items ++ image_text OFFSET
            self.now.store.tip) }
    {
        write(alloc, &self.store, At::Tip, OFFSET, out)
    }

    /// The offset and the image, from the bytes.
    pub(crate) fn read(&self, alloc: Global) -> Result<(i64, ImageStore), ImageFault>
        ensures { IfOk result (λ x. (x.0 ≡ OFFSET) × (x.1 ≡ kept_once OFFSET self.now.store.tip)) }
    {
        let mut reader = Reader::new(alloc);
        reader.feed(&self.bytes)?;
        reader.finish()
    }
}

/// A store that these records make.
pub(crate) fn store_of<L: Ledger>(
    alloc: Global,
    records: &[Record],
    blank: Blank,
) -> Result<ImageStore>
    requires name { blank.name ≡ L.name }
    requires parts { blank.parts ≡ L.parts }
    requires whole { 0 < L.parts }
{
    let mut steps: Steps<L> = Steps::new(blank);
    let Ok(mut store) = empty(alloc) else {
        bail!("out of memory");
    };
    for value in records {
        add(&mut store, value, &mut steps)?;
    }
    Ok(store)
}

// An empty store that keeps an epoch.
fn empty(alloc: Global) -> Result<ImageStore, NoMemory>
    ensures { IfOk result (λ store. IsSome (last_kept store)) }
{
    let mut store = ImageStore::new(alloc);
    store.mark(0)?;
    Ok(store)
}

fn add<L: Ledger>(store: &mut ImageStore, value: &Record, steps: &mut Steps<L>) -> Result<()>
    requires { IsSome (last_kept store.old) }
    ensures { store.new.kept ≡ store.old.kept }
{
    match store.apply_record(1, value, steps) {
        Ok(()) => Ok(()),
        Err(fault) => bail!("a record isn't applied: {fault:?}"),
    }
}

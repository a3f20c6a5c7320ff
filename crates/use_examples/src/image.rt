//! An image as text, a line for each of its entries.

use anyhow::{Result, bail};
use kr_defs::Bytes;
use kr_dump::dump;
use kr_image::ImageStore;
use kr_snapshot::{ImageFault, Reader};
use kr_store::Seen;
use std::alloc::Global;
use std::io::{self, Print, Write};

/// Prints the image that the bytes stand for.
pub(crate) fn print_image<R: Print + AllocGlobal>(rt: &R, bytes: &[u8]) -> Result<()> {
    let text = text_of(rt.alloc(), bytes)?;
    io::writer(rt).write_all(text.as_slice())?;
    Ok(())
}

fn text_of(alloc: Global, bytes: &[u8]) -> Result<Bytes> {
    match read(alloc, bytes) {
        Ok((offset, store)) => match dump(alloc, &Seen::tip(&store), offset) {
            Ok(text) => Ok(text),
            Err(_no_memory) => bail!("out of memory"),
        },
        Err(fault) => bail!("no image: {fault}"),
    }
}

/// The offset and the store of the image that the bytes stand for.
pub(crate) fn read(alloc: Global, bytes: &[u8]) -> Result<(i64, ImageStore), ImageFault> {
    let mut reader = Reader::new(alloc);
    reader.feed(bytes)?;
    reader.finish()
}

//! How much one round of the balancer would move.

ghost use Rattle.std.specs.Prelude.{◌≡◌, IfOk, length};
ghost use Rattle.kr_balance.specs.Plan.{plan};

use crate::image::read;
use anyhow::{Result, bail};
use kr_balance::plan_of;
use kr_base::NoMemory;
use kr_image::ImageStore;
use kr_store::Seen;
use std::alloc::Global;
use std::io::Print;

/// Prints, of the image that the bytes stand for, how many partitions a round would move at several percentages.
pub(crate) fn print_moves<R: Print + AllocGlobal>(rt: &R, bytes: &[u8]) -> Result<()> {
    match read(rt.alloc(), bytes) {
        Ok((_offset, store)) => print_counts(rt, &store),
        Err(fault) => bail!("no image: {fault}"),
    }
}

fn print_counts<R: Print + AllocGlobal>(rt: &R, store: &ImageStore) -> Result<()> {
    for percent in [0u8, 20, 50] {
        match count_moves(rt.alloc(), store, percent) {
            Ok(count) => println!(rt; "a round at {percent} %: {count} to move")?,
            Err(_no_memory) => bail!("out of memory"),
        }
    }
    Ok(())
}

// The partitions that it would give back to their preferred leaders.
fn count_moves(alloc: Global, store: &ImageStore, percent: u8) -> Result<usize, NoMemory>
    ensures { IfOk result (λ count. count ≡ length (plan store.now.tip percent)) }
{
    let planned = plan_of(alloc, &Seen::tip(store), percent)?;
    Ok(planned.len())
}

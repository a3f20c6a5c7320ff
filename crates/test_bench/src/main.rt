//! Jobs on record batches, request messages, placement, heartbeats and images. With no word each is done once; with its word and
//! a number one is done so often, and how long that takes is measured from outside. With the word `message` one message is read
//! from standard input; with `store`, `map` or `records` 9,000 partitions are made, whose memory can be measured from outside.
#![tactic(auto)]

mod batches;
mod beats;
mod changes;
mod checksum;
mod copies;
mod entries;
mod image;
mod jobs;
mod message;
mod mode;
mod once;
mod partitions;
mod placing;
mod request;
mod settings;

use anyhow::{Result, ensure};
pub use mode::Mode;
use mode::{Asked, read_asked};
use std::io::{Input, Print};
use std::process::ExitCode;

fn main(rt: HostRuntime) -> Result<ExitCode> {
    match read_asked(&rt)? {
        Some(Asked::One(mode)) => print_one(&rt, mode)?,
        Some(Asked::Often(job, rounds)) => {
            ensure!(job.is_done(&rt, rounds)?, "another result");
        }
        None => {
            eprintln!(rt; "usage: test_bench [JOB ROUNDS | message | store | map | records]")?;
            return Ok(ExitCode::from(2));
        }
    }
    Ok(ExitCode::SUCCESS)
}

fn print_one<R: Input + Print + AllocGlobal>(rt: &R, mode: Mode) -> Result<()> {
    match mode {
        Mode::Once => once::print_jobs(rt),
        Mode::Message => message::print_message(rt),
        Mode::Store => partitions::print_store(rt),
        Mode::Map => partitions::print_map(rt),
        Mode::Records => partitions::print_records(rt),
    }
}

//! Compares what a leading controller's rules answer, one request after the other, with rows of expected answers. A row
//! that differs is printed, and at the end how many rows hold. Behind a row that differs the expected records are taken
//! for the row's, and behind a line that is no row none is answered up to the next `open`.
#![tactic(auto)]

mod controller;
mod expected;
mod hearing;
mod leader_image;
mod rows;
mod serving;

ghost use Rattle.std.specs.Prelude.{◌≡◌, ◌<◌};

use controller::Controller;
use kr_base::Steps;
use rows::do_row;
use std::alloc::{AllocError, Global};
use std::io;
use std::io::Print;
use std::marker::Brand;
use std::process::ExitCode;
use std::sync::ledger::{Blank, Ledger};
use testlib_words::{Counts, Judge, RowFault, compare_input};

// The controller that the rows ask, none before an `open`, and how many rows there were.
#[derive(Drop)]
struct Requests {
    controller: Option<Controller>,
    counts: Counts,
}

// What a row says.
#[derive(Drop)]
struct Row {
    text: String,
}

fn main(rt: HostRuntime) -> ExitCode {
    let mut requests = Requests {
        controller: None,
        counts: Counts::NONE,
    };
    compare_input(&rt, &mut requests)
}

impl Judge for Requests {
    fn judge(&mut self, alloc: Global, row: &str) -> Result<Option<String>, AllocError> {
        let text = differences(alloc, &mut self.controller, row)?;
        self.counts.add(text.is_none());
        Ok(text)
    }

    fn print_counts<P: Print>(&self, rt: &P) -> io::Result<()> {
        self.counts.print(rt, "requests")
    }
}

// How what comes of a row differs from what it expects, if it does.
fn differences(
    alloc: Global,
    controller: &mut Option<Controller>,
    row: &str,
) -> Result<Option<String>, AllocError> {
    let mut text = String::new(alloc);
    let row = Row {
        text: String::from_str(alloc, row)?,
    };
    add_differences(alloc, controller, &row, &mut text)?;
    Ok(if text.is_empty() { None } else { Some(text) })
}

// Does what the row asks, and adds to the text how it differs.
fn add_differences(
    alloc: Global,
    controller: &mut Option<Controller>,
    row: &Row,
    text: &mut String,
) -> Result<(), AllocError> {
    match counted_row::<Brand>(alloc, controller, row, text, Blank::new(1)) {
        Ok(()) => Ok(()),
        Err(RowFault::NoMemory) => Err(AllocError),
        Err(RowFault::Fields) => {
            *controller = None;
            text.push_str("no row")
        }
    }
}

// Does the row with a counter of its own.
fn counted_row<L: Ledger>(
    alloc: Global,
    controller: &mut Option<Controller>,
    row: &Row,
    text: &mut String,
    blank: Blank,
) -> Result<(), RowFault>
    requires name { blank.name ≡ L.name }
    requires parts { blank.parts ≡ L.parts }
    requires some { 0 < L.parts }
{
    let mut steps: Steps<L> = Steps::new(blank);
    do_row(alloc, controller, row.text.as_str(), text, &mut steps)
}

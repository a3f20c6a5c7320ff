//! Compares how requests for pages are read, and how replies with pages are written, with rows of expected answers: on each line
//! the word of its kind, what is asked, a tab, and the answer. A row that differs is printed, and at the end how many rows of each
//! kind hold.
#![tactic(auto)]

mod asks;
mod replies;

use asks::ask_row;
use replies::reply_row;
use std::alloc::{AllocError, Global};
use std::io;
use std::io::Print;
use std::process::ExitCode;
use testlib_words::{Counts, Fields, Judge, RowFault, compare_input};

// What a row asks.
#[derive(Clone, Copy, Drop)]
enum Kind {
    Asks,
    Replies,
}

// How many rows of each kind there were.
#[derive(Drop)]
struct Tally {
    asks: Counts,
    replies: Counts,
}

fn main(rt: HostRuntime) -> ExitCode {
    let mut tally = Tally {
        asks: Counts::NONE,
        replies: Counts::NONE,
    };
    compare_input(&rt, &mut tally)
}

impl Judge for Tally {
    fn judge(&mut self, alloc: Global, line: &str) -> Result<Option<String>, AllocError> {
        let Some((kind, row)) = kind_and_row(line) else {
            return Ok(Some(String::from_str(alloc, "no kind of row")?));
        };
        let text = difference(alloc, kind, row)?;
        match kind {
            Kind::Asks => self.asks.add(text.is_none()),
            Kind::Replies => self.replies.add(text.is_none()),
        }
        Ok(text)
    }

    // A line for each kind that has rows.
    fn print_counts<P: Print>(&self, rt: &P) -> io::Result<()> {
        self.asks.print(rt, "asks")?;
        self.replies.print(rt, "replies")
    }
}

fn kind_and_row(line: &str) -> Option<(Kind, &str)> {
    let (word, row) = line.split_once(' ')?;
    match word {
        "asks" => Some((Kind::Asks, row)),
        "replies" => Some((Kind::Replies, row)),
        _ => None,
    }
}

fn answer(alloc: Global, kind: Kind, asked: &str) -> Result<String, RowFault> {
    let mut fields = Fields::new(asked);
    let text = match kind {
        Kind::Asks => ask_row(alloc, &mut fields)?,
        Kind::Replies => reply_row(alloc, &mut fields)?,
    };
    fields.end()?;
    Ok(text)
}

// How the answer to a row differs from the expected one, if it does.
fn difference(alloc: Global, kind: Kind, row: &str) -> Result<Option<String>, AllocError> {
    let Some((asked, expected)) = row.split_once('\t') else {
        return Ok(Some(String::from_str(alloc, "no tab")?));
    };
    match answer(alloc, kind, asked) {
        Ok(answer) if answer.as_str() == expected => Ok(None),
        Ok(answer) => Ok(Some(format!(in alloc; "{expected} was expected, {answer} came")?)),
        Err(RowFault::Fields) => Ok(Some(String::from_str(alloc, "no row of this kind")?)),
        Err(RowFault::NoMemory) => Err(AllocError),
    }
}

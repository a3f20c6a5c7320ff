//! The rows of an input, each compared with what it expects.

use std::alloc::{AllocError, Global};
use std::io;
use std::io::{BufRead, BufReader, Eprint, Input, Print};
use std::process::ExitCode;

/// Compares rows with what they expect, and counts them.
pub trait Judge {
    /// How what comes of a row differs from what it expects, if it does.
    fn judge(&mut self, alloc: Global, row: &str) -> Result<Option<String>, AllocError>;

    /// Prints how many rows there were, and how many of them hold.
    fn print_counts<P: Print>(&self, rt: &P) -> io::Result<()>;
}

/// Compares each row of the input, prints those that differ, each with the number of its line, and then the counts. Empty
/// lines and those that begin with `#` are no rows. The status is 0 where each row holds, 1 where one doesn't, 2 where
/// reading, writing or memory fails before the counts.
pub fn compare_input<R: Input + Print + Eprint + AllocGlobal, J: Judge>(
    rt: &R,
    judge: &mut J,
) -> ExitCode {
    match compare_lines(rt, judge) {
        Ok(all_hold) => print_end(rt, judge, all_hold),
        Err(fault) => {
            let _ = eprintln!(rt; "{fault}");
            ExitCode::from(2)
        }
    }
}

fn print_end<P: Print, J: Judge>(rt: &P, judge: &J, all_hold: bool) -> ExitCode {
    if judge.print_counts(rt).is_err() || !all_hold {
        return ExitCode::from(1);
    }
    ExitCode::from(0)
}

// Whether each row holds.
fn compare_lines<R: Input + Print + AllocGlobal, J: Judge>(
    rt: &R,
    judge: &mut J,
) -> io::Result<bool> {
    let mut all_hold = true;
    let mut number = 0_u64;
    for line in BufReader::new(rt.alloc(), rt.reader())?.lines(rt.alloc()) {
        let line = line?;
        number = number.saturating_add(1);
        if !compare_line(rt, judge, number, line.as_str())? {
            all_hold = false;
        }
    }
    Ok(all_hold)
}

// Whether the line is no row or holds.
fn compare_line<R: Print + AllocGlobal, J: Judge>(
    rt: &R,
    judge: &mut J,
    number: u64,
    line: &str,
) -> io::Result<bool> {
    if line.is_empty() || line.starts_with('#') {
        return Ok(true);
    }
    match judge.judge(rt.alloc(), line)? {
        None => Ok(true),
        Some(text) => {
            println!(rt; "line {number}: {text}")?;
            Ok(false)
        }
    }
}

/// How many rows there were, and how many of them hold.
#[derive(Clone, Copy, Drop)]
pub struct Counts {
    // All rows.
    rows: u64,
    // Those that hold.
    held: u64,
}

impl Counts {
    /// No row yet.
    pub const NONE: Counts = Counts { rows: 0, held: 0 };

    /// Counts a row.
    pub fn add(&mut self, holds: bool) {
        self.rows = self.rows.saturating_add(1);
        if holds {
            self.held = self.held.saturating_add(1);
        }
    }

    /// Prints the counts behind the word for the rows, if there were any.
    pub fn print<P: Print>(&self, rt: &P, word: &str) -> io::Result<()> {
        let Counts { rows, held } = *self;
        if rows == 0 {
            return Ok(());
        }
        println!(rt; "{word}: {held} of {rows} rows hold")
    }
}

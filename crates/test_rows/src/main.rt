//! Compares the library's calls with rows of expected answers: on each line what is asked, a tab, and the answer in
//! words. A row that differs is printed, and at the end how many rows of each kind hold.
#![tactic(auto)]

mod kinds;
mod moves;
mod rows;
mod tellings;
mod walks;

use kinds::{KINDS, Kind};
use kr_defs::Text;
use kr_process::words_of;
use rows::answer;
use std::alloc::{AllocError, Global};
use std::io;
use std::io::Print;
use std::process::ExitCode;
use std::rt::Env;
use testlib_words::{Counts, Judge, RowFault, compare_input};

// What the lines are.
#[derive(Clone, Copy, Drop)]
enum Form {
    /// Each begins with the word of its kind.
    Mixed,
    /// All are rows of one kind.
    Alone(Kind),
}

// What the lines are, and how many rows of each kind there were.
#[derive(Drop)]
struct Tally {
    form: Form,
    by_kind: [Counts; 20],
}

fn main(rt: HostRuntime) -> ExitCode {
    let Some(form) = read_form(&rt) else {
        let _ = eprintln!(rt; "usage: test_rows [KIND]");
        return ExitCode::from(2);
    };
    let mut tally = Tally {
        form,
        by_kind: [Counts::NONE; 20],
    };
    compare_input(&rt, &mut tally)
}

// What the words of this process ask for.
fn read_form<R: Env + AllocGlobal>(rt: &R) -> Option<Form> {
    match words_of(rt) {
        Ok(words) => form_of(&words),
        Err(_) => None,
    }
}

// One word is a kind; none, or `rows`, is rows of all kinds.
fn form_of(words: &[Text]) -> Option<Form> {
    match words {
        [] => Some(Form::Mixed),
        [word] if word.as_str() == "rows" => Some(Form::Mixed),
        [word] => Some(Form::Alone(Kind::of(word.as_str())?)),
        _ => None,
    }
}

impl Judge for Tally {
    fn judge(&mut self, alloc: Global, line: &str) -> Result<Option<String>, AllocError> {
        let Some((kind, row)) = kind_and_row(self.form, line) else {
            return Ok(Some(String::from_str(alloc, "no kind of row")?));
        };
        let text = difference(alloc, kind, row)?;
        if let Some(counts) = self.by_kind.get_mut(kind as usize) {
            counts.add(text.is_none());
        }
        Ok(text)
    }

    // A line for each kind that has rows.
    fn print_counts<P: Print>(&self, rt: &P) -> io::Result<()> {
        for (kind, word) in KINDS {
            if let Some(counts) = self.by_kind.get(kind as usize) {
                counts.print(rt, word)?;
            }
        }
        Ok(())
    }
}

fn kind_and_row(form: Form, line: &str) -> Option<(Kind, &str)> {
    match form {
        Form::Alone(kind) => Some((kind, line)),
        Form::Mixed => {
            let (word, row) = line.split_once(' ')?;
            Some((Kind::of(word)?, row))
        }
    }
}

// How the answer to a row differs from the expected one, if it does.
fn difference(alloc: Global, kind: Kind, row: &str) -> Result<Option<String>, AllocError> {
    let Some((asked, expected)) = row.split_once('\t') else {
        return Ok(Some(String::from_str(alloc, "no tab")?));
    };
    match answer(alloc, kind, asked) {
        Ok(answer) if answer.as_str() == expected => Ok(None),
        Ok(answer) => Ok(Some(format!(in alloc; "{expected} was expected, {answer} came")?)),
        Err(RowFault::Fields) => Ok(Some(String::from_str(alloc, "no row of this kind")?)),
        Err(RowFault::NoMemory) => Err(AllocError),
    }
}

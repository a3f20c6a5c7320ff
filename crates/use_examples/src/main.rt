//! What callers do with the crates alone, an example a word: `host` steps the controller, `turns` turns a worker, `plan` asks the rules; of standard
//! input `moves` reads an image and asks what a round of the balancer would move, `inspect` reads a record batch and `show` an
//! image. With no word the examples come from standard input, a line each: the word, and behind a space the bytes that it reads,
//! in hex. Where an example has a fault it is told, and the status is 1; other words have status 2.
#![tactic(auto)]

mod events;
mod example;
mod host;
mod hosting;
mod image;
mod loss;
mod moves;
mod names;
mod plan;
mod records;
mod topic;
mod turns;

use example::{Example, example_of, print_example};
use std::env;
use std::io::{BufRead, BufReader, Input, Print, Read};
use std::process::ExitCode;
use std::rt::Env;
use std::sync::Wait;

// What the words behind the program's name ask for.
#[derive(Clone, Copy)]
enum Asked {
    One(Example),
    // Those of standard input.
    Stored,
    Nothing,
}

fn main(rt: HostRuntime) -> anyhow::Result<ExitCode> {
    match read_words(&rt)? {
        Asked::One(example) => print_one(&rt, example)?,
        Asked::Stored => print_stored(&rt)?,
        Asked::Nothing => {
            eprintln!(rt; "usage: use_examples [host | turns | plan | moves | inspect | show]")?;
            return Ok(ExitCode::from(2));
        }
    }
    Ok(ExitCode::SUCCESS)
}

fn read_words<R: Env + AllocGlobal>(rt: &R) -> std::io::Result<Asked> {
    let mut words = env::args(rt)?.skip(1);
    let (first, second) = (words.next(), words.next());
    Ok(match (first, second) {
        (None, _) => Asked::Stored,
        (Some(word), None) => match example_of(word.as_str()) {
            Some(example) => Asked::One(example),
            None => Asked::Nothing,
        },
        _ => Asked::Nothing,
    })
}

// Does the example with all of standard input.
fn print_one<R: Input + Print + Wait + AllocGlobal>(
    rt: &R,
    example: Example,
) -> anyhow::Result<()> {
    let mut bytes = Vec::new(rt.alloc());
    if example.reads() {
        rt.reader().read_to_end(&mut bytes)?;
    }
    print_example(rt, example, &bytes)
}

fn print_stored<R: Input + Print + Wait + AllocGlobal>(rt: &R) -> anyhow::Result<()> {
    for line in BufReader::new(rt.alloc(), rt.reader())?.lines(rt.alloc()) {
        print_line(rt, line?.as_str())?;
    }
    Ok(())
}

fn print_line<R: Print + Wait + AllocGlobal>(rt: &R, line: &str) -> anyhow::Result<()> {
    let (word, digits) = line.split_once(' ').unwrap_or((line, ""));
    let Some(example) = example_of(word) else {
        anyhow::bail!("no example has the word {word}");
    };
    match hex::decode(rt.alloc(), digits) {
        Ok(bytes) => print_example(rt, example, &bytes),
        Err(_) => anyhow::bail!("the bytes of {word} aren't in hex"),
    }
}

//! What the words behind the program's name ask for.

ghost use Rattle.std.specs.Prelude.{◌≡◌, ◌↔◌, [], ◌∷◌, Some, IsTrue, codes};

use crate::jobs::Job;
use kr_defs::Text;
use kr_process::{WordsFault, words_of};
use std::rt::Env;

/// The ways to run the jobs.
#[derive(Clone, Copy, Debug, PartialEq, Eq)]
pub enum Mode {
    /// Each job once, and what came of it.
    Once,
    /// The message on standard input, and whether it is a call.
    Message,
    /// As many partitions as there may be, in a store.
    Store,
    /// The same in a plain map.
    Map,
    /// The records alone that make them.
    Records,
}

/// What the words ask for.
#[derive(Clone, Copy)]
pub(crate) enum Asked {
    One(Mode),
    /// A job, so many times.
    Often(Job, u32),
}

/// What the words of this process ask for. Words that aren't all text ask for nothing.
pub(crate) fn read_asked<R: Env + AllocGlobal>(rt: &R) -> Result<Option<Asked>, WordsFault> {
    match words_of(rt) {
        Ok(words) => Ok(asked_by(&words)),
        Err(WordsFault::NotText) => Ok(None),
        Err(WordsFault::NoMemory) => Err(WordsFault::NoMemory),
    }
}

// A job and how often, or a mode.
fn asked_by(words: &[Text]) -> Option<Asked> {
    match words {
        [job, rounds] => often(job, rounds),
        _ => Some(Asked::One(mode_of(words)?)),
    }
}

fn often(job: &Text, rounds: &Text) -> Option<Asked> {
    let job = Job::of(job.as_str())?;
    match rounds.as_str().parse() {
        Ok(rounds) => Some(Asked::Often(job, rounds)),
        Err(_) => None,
    }
}

// No word, or one word of these; all other words ask for nothing.
fn mode_of(words: &[Text]) -> Option<Mode>
    ensures once { (result ≡ Some Mode.Once) ↔ (words.now ≡ []) }
    ensures message { (result ≡ Some Mode.Message) ↔ (words.now ≡ codes "message" ∷ []) }
    ensures store { (result ≡ Some Mode.Store) ↔ (words.now ≡ codes "store" ∷ []) }
    ensures map { (result ≡ Some Mode.Map) ↔ (words.now ≡ codes "map" ∷ []) }
    ensures records { (result ≡ Some Mode.Records) ↔ (words.now ≡ codes "records" ∷ []) }
{
    match words {
        [] => Some(Mode::Once),
        [word] if is_message(word) => Some(Mode::Message),
        [word] if is_store(word) => Some(Mode::Store),
        [word] if is_map(word) => Some(Mode::Map),
        [word] if is_records(word) => Some(Mode::Records),
        _ => None,
    }
}

fn is_message(word: &Text) -> bool
    ensures { IsTrue result ↔ (word.now ≡ codes "message") }
{
    word.as_str() == "message"
}

fn is_store(word: &Text) -> bool
    ensures { IsTrue result ↔ (word.now ≡ codes "store") }
{
    word.as_str() == "store"
}

fn is_map(word: &Text) -> bool
    ensures { IsTrue result ↔ (word.now ≡ codes "map") }
{
    word.as_str() == "map"
}

fn is_records(word: &Text) -> bool
    ensures { IsTrue result ↔ (word.now ≡ codes "records") }
{
    word.as_str() == "records"
}

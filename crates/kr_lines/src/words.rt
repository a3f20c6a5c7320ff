//! The program's call: what is shown by its word, and the line of notes.

ghost use Rattle.std.specs.Prelude.{◌≡◌, ◌⊎◌, ◌↔◌, ◌++◌, ◌∷◌, [], Some, Err, codes, IfOk, string_bytes};
ghost use Rattle.std.specs.Fmt.{decimal};
ghost use Rattle.std.specs.Io.KnownBytes.{Appends, Keeps};
ghost use Rattle.kr_base.specs.Causes.{Rose, Still};
ghost use Rattle.kr_lines.specs.Endings.{IsImageHead, IsLogHead, ShowEnds};
ghost use Rattle.kr_lines.specs.WhichStatus.{EndsRightly};
ghost use Rattle.kr_lines.specs.inner.Runs.{IsHeadOf};
ghost use Rattle.kr_lines.specs.Notes as notes;
ghost use Rattle.kr_lines.specs.Notes.{
  AreShowWords,
  AsksImage,
  AsksLog,
  NeedsNumber,
  TellsAnswer,
  note_for,
  refusal,
  usage,
};

use crate::fault::ShowFault;
use crate::input::{Word, show};
use kr_base::{Sink, Source};
use kr_batch::{BatchFault, Cause};
use kr_defs::Text;
use kr_process::{Status, WordsFault};
use kr_record::RecordFault;
use std::alloc::{AllocError, Global};

// What the words ask for.
fn word_of(words: &[Text]) -> Option<Word>
    ensures log { (result ≡ Some Word.Log) ↔ AsksLog words.now }
    ensures image { (result ≡ Some Word.Image) ↔ AsksImage words.now }
{
    match words {
        [word] => lone_word(word),
        _ => None,
    }
}

fn lone_word(word: &Text) -> Option<Word>
    ensures log { (result ≡ Some Word.Log) ↔ AsksLog (word.now ∷ []) }
    ensures image { (result ≡ Some Word.Image) ↔ AsksImage (word.now ∷ []) }
{
    match word.as_str() {
        "log" => Some(Word::Log),
        "image" => Some(Word::Image),
        _ => None,
    }
}

fn value_name(fault: &RecordFault) -> &'static str
    ensures { result.now ≡ notes.value_name fault.now }
{
    match fault {
        RecordFault::Wire(_) => "Wire",
        RecordFault::FrameVersion { .. } => "FrameVersion",
        RecordFault::UnknownKey { .. } => "UnknownKey",
        RecordFault::UnknownVersion { .. } => "UnknownVersion",
        RecordFault::Trailing => "TrailingValue",
        RecordFault::NoMemory => "NoMemory",
    }
}

fn cause_name(cause: &Cause) -> &'static str
    ensures { result.now ≡ notes.cause_name cause.now }
{
    match cause {
        Cause::Framing => "Framing",
        Cause::Value(fault) => value_name(fault),
    }
}

/// The name of a batch's fault; of a record that of its cause.
pub fn fault_name(fault: &BatchFault) -> &'static str
    ensures { result.now ≡ notes.fault_name fault.now }
{
    match fault {
        BatchFault::Short => "Short",
        BatchFault::Trailing => "Trailing",
        BatchFault::Magic { .. } => "Magic",
        BatchFault::Crc { .. } => "Crc",
        BatchFault::Compressed { .. } => "Compressed",
        BatchFault::BadCount { .. } => "BadCount",
        BatchFault::BadOffset { .. } => "BadOffset",
        BatchFault::Record { cause, .. } => cause_name(cause),
        BatchFault::NoMemory => "NoMemory",
    }
}

fn status_for(answer: Result<(), ShowFault>) -> Status
    ensures { result ≡ notes.status_for answer }
{
    match answer {
        Ok(()) => Status::Done,
        Err(ShowFault::BadHead) => Status::Malformed { at: 0 },
        Err(ShowFault::Malformed { at, .. }) => Status::Malformed { at },
        Err(ShowFault::ReadFault) => Status::ReadFault,
        Err(ShowFault::WriteFault) => Status::WriteFault,
        Err(ShowFault::NoMemory) => Status::NoMemory,
        Err(ShowFault::TooLong) => Status::TooLong,
    }
}

fn malformed_line(alloc: Global, at: u64, cause: &BatchFault) -> Result<String, AllocError>
    ensures { IfOk result (λ text. string_bytes text ≡
        codes "malformed at " ++ (decimal at ++ (codes ": " ++ notes.note_line (notes.fault_name
        cause.now)))) }
{
    let name = fault_name(cause);
    format!(in alloc; "malformed at {at}: {name}\n")
}

// A fault of the notes is passed over.
fn put_note<E: Sink>(text: &[u8], notes: &mut E)
    ensures { Still (E.faults notes.old) (E.faults notes.new) →
        Appends (E.written notes.old) (E.written notes.new) text.now }
{
    let _ = notes.put(text);
}

// Writes the line of a batch's fault.
fn tell_malformed<E: Sink>(
    alloc: Global,
    at: u64,
    cause: &BatchFault,
    notes: &mut E,
) -> Result<(), ShowFault>
    ensures same { (result ≡ Err (ShowFault.Malformed at cause.now)) ⊎ (result ≡
        Err ShowFault.NoMemory) }
    ensures told { Still (E.faults notes.old) (E.faults notes.new) →
        Appends (E.written notes.old) (E.written notes.new) (note_for result) }
{
    match malformed_line(alloc, at, cause) {
        Ok(text) => {
            put_note(text.as_bytes(), notes);
            Err(ShowFault::Malformed { at, cause: *cause })
        }
        Err(_) => {
            put_note(b"out of memory\n", notes);
            Err(ShowFault::NoMemory)
        }
    }
}

// Writes the line of an answer, and gives the answer that it is the line of: NoMemory, where memory for the line ran out.
fn tell<E: Sink>(
    alloc: Global,
    answer: Result<(), ShowFault>,
    notes: &mut E,
) -> Result<(), ShowFault>
    ensures same { (result ≡ answer) ⊎ (NeedsNumber answer × (result ≡ Err ShowFault.NoMemory)) }
    ensures told { Still (E.faults notes.old) (E.faults notes.new) →
        Appends (E.written notes.old) (E.written notes.new) (note_for result) }
{
    match answer {
        Ok(()) => {}
        Err(ShowFault::BadHead) => put_note(b"malformed at 0: Head\n", notes),
        Err(ShowFault::Malformed { at, cause }) => return tell_malformed(alloc, at, &cause, notes),
        Err(ShowFault::ReadFault) => put_note(b"read fault\n", notes),
        Err(ShowFault::WriteFault) => put_note(b"write fault\n", notes),
        Err(ShowFault::NoMemory) => put_note(b"out of memory\n", notes),
        Err(ShowFault::TooLong) => put_note(b"input too long\n", notes),
    }
    answer
}

// Shows the input, and writes the line of the answer.
fn show_and_tell<S: Source, K: Sink, E: Sink>(
    alloc: Global,
    word: Word,
    input: &mut S,
    output: &mut K,
    notes: &mut E,
) -> Status
    ensures ends { TellsAnswer (ShowEnds (IsHeadOf word) (S.left input.old) (S.left input.new)
        (K.written output.old) (K.written output.new)) (E.written notes.old) (E.written notes.new)
        (E.faults notes.old) (E.faults notes.new) result }
    ensures which { Still (S.faults input.old) (S.faults input.new) →
        Still (K.faults output.old) (K.faults output.new) →
        EndsRightly (IsHeadOf word) (S.left input.old) result }
    ensures served { result ≡ Status.Usage → ⊥ }
    ensures read { result ≡ Status.ReadFault → Rose (S.faults input.old) (S.faults input.new) }
    ensures write { result ≡ Status.WriteFault → Rose (K.faults output.old) (K.faults output.new) }
{
    let answer = show(alloc, word, input, output);
    let told = tell(alloc, answer, notes);
    status_for(told)
}

fn put_usage<E: Sink>(notes: &mut E) -> Status
    ensures usage { result ≡ Status.Usage }
    ensures told { Still (E.faults notes.old) (E.faults notes.new) →
        Appends (E.written notes.old) (E.written notes.new) usage }
{
    put_note(b"usage: kr_show log | image\n", notes);
    Status::Usage
}

/// Shows the batches of a log (`log`) or an image (`image`) as lines of JSON, a line for each record, up to the first batch
/// that is none. The line of an answer that isn't Done goes to `notes`; a fault of `notes` changes no status. Other words are
/// answered Usage.
pub fn run<S: Source, K: Sink, E: Sink>(
    alloc: Global,
    words: &[Text],
    input: &mut S,
    output: &mut K,
    notes: &mut E,
) -> Status
    // What was taken and what was written at each status, and its line.
    ensures log { AsksLog words.now → TellsAnswer (ShowEnds IsLogHead (S.left input.old)
        (S.left input.new) (K.written output.old) (K.written output.new)) (E.written notes.old)
        (E.written notes.new) (E.faults notes.old) (E.faults notes.new) result }
    ensures image { AsksImage words.now → TellsAnswer (ShowEnds IsImageHead (S.left input.old)
        (S.left input.new) (K.written output.old) (K.written output.new)) (E.written notes.old)
        (E.written notes.new) (E.faults notes.old) (E.faults notes.new) result }

    // Which status that is, where no read and no write failed.
    ensures log_status { AsksLog words.now → Still (S.faults input.old) (S.faults input.new) →
        Still (K.faults output.old) (K.faults output.new) →
        EndsRightly IsLogHead (S.left input.old) result }
    ensures image_status { AsksImage words.now → Still (S.faults input.old) (S.faults input.new) →
        Still (K.faults output.old) (K.faults output.new) →
        EndsRightly IsImageHead (S.left input.old) result }

    // Usage is told exactly where the words aren't served, and then nothing is taken or written but its line.
    ensures usage { result ≡ Status.Usage → AreShowWords words.now → ⊥ }
    ensures served { (AreShowWords words.now → ⊥) → result ≡ Status.Usage }
    ensures idle { result ≡ Status.Usage → Keeps (S.left input.old) (S.left input.new) ×
        Keeps (K.written output.old) (K.written output.new) }
    ensures told { result ≡ Status.Usage → Still (E.faults notes.old) (E.faults notes.new) →
        Appends (E.written notes.old) (E.written notes.new) usage }

    // A fault is told only where that object's count rose in this call.
    ensures read { result ≡ Status.ReadFault → Rose (S.faults input.old) (S.faults input.new) }
    ensures write { result ≡ Status.WriteFault → Rose (K.faults output.old) (K.faults output.new) }
{
    match word_of(words) {
        None => put_usage(notes),
        Some(Word::Log) => show_and_tell(alloc, Word::Log, input, output, notes),
        Some(Word::Image) => show_and_tell(alloc, Word::Image, input, output, notes),
    }
}

/// Answers for words that aren't known: Usage where one isn't text, NoMemory where memory for them ran out, each with its
/// line.
pub fn refuse<E: Sink>(fault: WordsFault, notes: &mut E) -> Status
    ensures usage { fault ≡ WordsFault.NotText → result ≡ Status.Usage }
    ensures no_memory { fault ≡ WordsFault.NoMemory → result ≡ Status.NoMemory }
    ensures told { Still (E.faults notes.old) (E.faults notes.new) →
        Appends (E.written notes.old) (E.written notes.new) (refusal fault) }
{
    match fault {
        WordsFault::NotText => put_usage(notes),
        WordsFault::NoMemory => {
            put_note(b"out of memory\n", notes);
            Status::NoMemory
        }
    }
}
